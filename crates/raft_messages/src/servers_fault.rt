//! Why bytes begin with no configuration.
ghost use Rattle.std.specs.Prelude.{◌≡◌};
ghost use Rattle.raft_messages.specs.declared.servers_fault.ServersFault.TheVariants.{NoMemory};
ghost use Rattle.raft_messages.specs.Servers.{servers_fault};

use std::alloc::{AllocError, AllocFailed};
use thiserror::Error;
use wire_words::WordFault;

/// Why bytes begin with no configuration. The number in each is a place in the bytes.
#[derive(Clone, Copy, Debug, PartialEq, Eq, Error)]
pub enum ServersFault {
    /// An item could not be read.
    #[error("the configuration is malformed: {0}")]
    Word(WordFault),
    /// The id at this place is 0, or isn't above the one before.
    #[error("the server at byte {0} is out of order")]
    Order(u64),
    /// The number at this place represents no role.
    #[error("no role has the number at byte {0}")]
    Role(u64),
    /// The server at this place is the tenth, or the eighth voter, or its address has more than 255 bytes.
    #[error("the server at byte {0} is past a limit")]
    Limit(u64),
    /// There is not enough memory.
    #[error("out of memory")]
    NoMemory,
}

impl From<WordFault> for ServersFault {
    ghost from_gives = { λ word fault. fault ≡ servers_fault word };

    fn from(word: WordFault) -> ServersFault {
        match word {
            WordFault::NoMemory => ServersFault::NoMemory,
            word => ServersFault::Word(word),
        }
    }
}

impl<T: Drop> From<AllocFailed<T>> for ServersFault {
    ghost from_gives = { λ _ fault. fault ≡ NoMemory };

    fn from(_error: AllocFailed<T>) -> ServersFault {
        ServersFault::NoMemory
    }
}
