ghost use Rattle.std.specs.Prelude.{◌≡◌};
ghost use Rattle.wire_msgs.specs.Reading.{of_word};

use thiserror::Error;
use wire_words::WordFault;

/// Why a message could not be read.
#[derive(Clone, Copy, Debug, PartialEq, Eq, Error)]
pub enum MsgFault {
    /// The number represents no type of message.
    #[error("no message has the type {0}")]
    Kind(u8),
    /// The type of message, the first number, doesn't have the schema, the second.
    #[error("the message of type {0} has the schema {1}")]
    Schema(u8, u8),
    /// An item of the body could not be read.
    #[error("the body is malformed: {0}")]
    Word(WordFault),
    /// This many words are left after the last field; a part of a word counts as one.
    #[error("{0} words follow the last field")]
    Tail(u64),
    /// There is not enough memory.
    #[error("out of memory")]
    NoMemory,
}

impl From<WordFault> for MsgFault {
    ghost from_gives = { λ word fault. fault ≡ of_word word };

    fn from(word: WordFault) -> MsgFault {
        match word {
            WordFault::NoMemory => MsgFault::NoMemory,
            word => MsgFault::Word(word),
        }
    }
}
