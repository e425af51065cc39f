//! Whether a client has a transaction, as far as its messages and their answers show.

/// The number of EXEC_SQL among the types of a client's messages.
const EXEC_SQL: u8 = 8;

/// The numbers of FAILURE and RESULT among the types of answers.
const FAILURE: u8 = 0;

const RESULT: u8 = 6;

/// Where the text of an EXEC_SQL begins: after the header and the word of its database.
const TEXT_AT: usize = 16;

/// Whether a client has a transaction. One that is begun by a prepared statement, or by a message that came in parts, isn't seen.
#[derive(Clone, Copy, Debug, PartialEq, Eq)]
pub(crate) enum TransactionState {
    /// It has none.
    Absent,
    /// It asked for one.
    Begins,
    /// It has one.
    Open,
    /// It asked for its end.
    Ends,
}

/// Whether a text begins with this word, in upper or lower case, after spaces and line ends.
fn begins_with(text: &[u8], word: &[u8]) -> bool {
    match text.trim_ascii_start().split_at_checked(word.len()) {
        Some((front, _)) => front.eq_ignore_ascii_case(word),
        None => false,
    }
}

/// The text of a message, if it is an EXEC_SQL.
fn text_of(message: &[u8]) -> Option<&[u8]> {
    let [_, _, _, _, EXEC_SQL, ..] = message else {
        return None;
    };
    let (_, text) = message.split_at_checked(TEXT_AT)?;
    Some(text)
}

impl TransactionState {
    /// Whether there is one.
    pub(crate) fn is_open(self) -> bool {
        matches!(self, TransactionState::Open)
    }

    /// After a whole message of the client.
    pub(crate) fn after_message(self, message: &[u8]) -> TransactionState {
        let Some(text) = text_of(message) else {
            return self;
        };
        if begins_with(text, b"BEGIN") {
            return match self {
                TransactionState::Absent => TransactionState::Begins,
                _ => self,
            };
        }
        let is_end = begins_with(text, b"COMMIT")
            || begins_with(text, b"END")
            || begins_with(text, b"ROLLBACK");
        if is_end && self != TransactionState::Absent {
            return TransactionState::Ends;
        }
        self
    }

    /// After an answer. A COMMIT that is refused may leave the transaction open.
    pub(crate) fn after_reply(self, reply: &[u8]) -> TransactionState {
        let [_, _, _, _, kind, ..] = reply else {
            return self;
        };
        match (self, *kind) {
            (TransactionState::Begins, RESULT) => TransactionState::Open,
            (TransactionState::Begins, FAILURE) => TransactionState::Absent,
            (TransactionState::Ends, RESULT) => TransactionState::Absent,
            (TransactionState::Ends, FAILURE) => TransactionState::Open,
            _ => self,
        }
    }
}
