//! Why bytes are no snapshot.

ghost use Rattle.std.specs.Prelude.{◌≡◌};
ghost use Rattle.database_state.specs.Restoring.{of_word, of_wal, of_pages};
ghost use Rattle.database_state.specs.declared.fault.SnapFault.TheVariants.{NoMemory};

use dq_base::PageFault;
use std::alloc::{AllocError, AllocFailed};
use thiserror::Error;
use wal_frames::WalFault;
use wire_words::WordFault;

/// Why bytes are no snapshot of a state machine. The first fault from left to right is named.
#[derive(Clone, Copy, Debug, PartialEq, Eq, Error)]
pub enum SnapFault {
    /// The first word isn't 1.
    #[error("the snapshot has another format")]
    Format,
    /// An item could not be read.
    #[error("the snapshot is malformed: {0}")]
    Word(WordFault),
    /// The name, the flag or the log that begins at this byte is not as it has to be: a name doesn't have 1 to 255 bytes or
    /// isn't above the one before it, a flag is above 1, a log isn't written so of its frames with the sequence number 0,
    /// or its frames aren't those of an image or of pending pages.
    #[error("the item at byte {0} is out of its order")]
    Order(u64),
    /// The header of a log is wrong.
    #[error("a log of the snapshot is malformed: {0}")]
    Wal(WalFault),
    /// The pages of an image can't be applied to two empty files.
    #[error("the pages of an image are malformed: {0}")]
    Pages(PageFault),
    /// Bytes follow the last database.
    #[error("bytes follow the snapshot")]
    Tail,
    /// There is not enough memory.
    #[error("out of memory")]
    NoMemory,
}

impl From<WordFault> for SnapFault {
    ghost from_gives = { λ word fault. fault ≡ of_word word };

    fn from(word: WordFault) -> SnapFault {
        match word {
            WordFault::NoMemory => SnapFault::NoMemory,
            word => SnapFault::Word(word),
        }
    }
}

impl From<WalFault> for SnapFault {
    ghost from_gives = { λ wal fault. fault ≡ of_wal wal };

    fn from(wal: WalFault) -> SnapFault {
        match wal {
            WalFault::NoMemory => SnapFault::NoMemory,
            wal => SnapFault::Wal(wal),
        }
    }
}

impl From<PageFault> for SnapFault {
    ghost from_gives = { λ pages fault. fault ≡ of_pages pages };

    fn from(pages: PageFault) -> SnapFault {
        match pages {
            PageFault::NoMemory => SnapFault::NoMemory,
            pages => SnapFault::Pages(pages),
        }
    }
}

impl From<AllocError> for SnapFault {
    ghost from_gives = { λ _ fault. fault ≡ NoMemory };

    fn from(_error: AllocError) -> SnapFault {
        SnapFault::NoMemory
    }
}

impl<T: Drop> From<AllocFailed<T>> for SnapFault {
    ghost from_gives = { λ _ fault. fault ≡ NoMemory };

    fn from(_error: AllocFailed<T>) -> SnapFault {
        SnapFault::NoMemory
    }
}
