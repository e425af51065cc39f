//! Why a message of a peer could not be read.
ghost use Rattle.std.specs.Prelude.{◌≡◌};
ghost use Rattle.raft_messages.specs.Reading.{of_word};

use thiserror::Error;
use wire_words::WordFault;

/// Why a message of a peer could not be read.
#[derive(Clone, Copy, Debug, PartialEq, Eq, Error)]
pub enum PeerFault {
    /// No message of a peer has this type, or the message is for another node.
    #[error("no message of a peer has this type")]
    Kind,
    /// An item of the body could not be read.
    #[error("the message is malformed: {0}")]
    Word(WordFault),
    /// A term or an index is above 4,294,967,295, a flag is above 1, or there are more than 16 entries.
    #[error("a number of the message is out of its range")]
    Range,
    /// Bytes follow the last field.
    #[error("bytes follow the message")]
    Tail,
    /// There is not enough memory.
    #[error("out of memory")]
    NoMemory,
}

impl From<WordFault> for PeerFault {
    ghost from_gives = { λ word fault. fault ≡ of_word word };

    fn from(word: WordFault) -> PeerFault {
        match word {
            WordFault::NoMemory => PeerFault::NoMemory,
            word => PeerFault::Word(word),
        }
    }
}
