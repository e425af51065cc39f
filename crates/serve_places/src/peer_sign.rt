//! Which messages of a peer matter to the time of a node.

/// How many bytes an Ack or an AskVote has: a header, and four words.
const SIGN_SIZE: usize = 40;

/// How many words their bodies have.
const SIGN_WORDS: u8 = 4;

/// The numbers of AskVote and Ack among the types of peers' messages.
const ASK_VOTE: u8 = 1;

const ACK: u8 = 4;

/// From this on the byte of the receiver has the mark of an AskVote whose sender was handed the leadership.
const TRANSFER_MARK: u8 = 128;

/// A message of a peer that matters to the time of a node.
#[derive(Clone, Copy, Debug, PartialEq, Eq)]
pub enum PeerSign {
    /// The node of this id acknowledges an Append or an Install.
    Ack(u64),
    /// A candidate asks for a vote, to which no leader handed its leadership.
    AskVote,
    /// Bytes came of a message of which more are to come, as of an Install over a slow network.
    Part,
}

/// The word at a place.
fn word_at(bytes: &[u8], at: usize) -> Option<u64> {
    let (_, rest) = bytes.split_at_checked(at)?;
    match rest {
        [a, b, c, d, e, f, g, h, ..] => Some(u64::from_le_bytes([*a, *b, *c, *d, *e, *f, *g, *h])),
        _ => None,
    }
}

/// What a whole message of a peer says, if it is one of these.
pub(crate) fn sign_of(message: &[u8]) -> Option<PeerSign> {
    if message.len() != SIGN_SIZE {
        return None;
    }
    match message {
        [SIGN_WORDS, 0, 0, 0, ACK, ..] => Some(PeerSign::Ack(word_at(message, 8)?)),
        [SIGN_WORDS, 0, 0, 0, ASK_VOTE, receiver, ..] if *receiver < TRANSFER_MARK => {
            Some(PeerSign::AskVote)
        }
        _ => None,
    }
}
