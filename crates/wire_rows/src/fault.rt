ghost use Rattle.std.specs.Prelude.{◌≡◌};
ghost use Rattle.wire_rows.specs.declared.fault.RowFault.TheVariants as row_faults;
ghost use Rattle.wire_rows.specs.declared.fault.RowReadFault.TheVariants as read_faults;
ghost use Rattle.wire_rows.specs.Reading.{of_word};

use std::alloc::{AllocError, AllocFailed};
use thiserror::Error;
use wire_words::WordFault;

/// Why an answer can't be split into parts.
#[derive(Clone, Copy, Debug, PartialEq, Eq, Error)]
pub enum RowFault {
    /// A text holds a NUL, so that the wire can't carry it. The numbers are the row's and the column's, from 0.
    #[error("the text in row {0}, column {1} holds a NUL")]
    Nul(u64, u64),
    /// The bodies of all parts together have this many bytes, which is more than 16,777,216.
    #[error("the answer has {0} bytes")]
    TooBig(u64),
    /// There is not enough memory.
    #[error("out of memory")]
    NoMemory,
}

impl From<AllocError> for RowFault {
    ghost from_gives = { λ _ fault. fault ≡ row_faults.NoMemory };

    fn from(_error: AllocError) -> RowFault {
        RowFault::NoMemory
    }
}

impl<T: Drop> From<AllocFailed<T>> for RowFault {
    ghost from_gives = { λ _ fault. fault ≡ row_faults.NoMemory };

    fn from(_error: AllocFailed<T>) -> RowFault {
        RowFault::NoMemory
    }
}

/// Why bytes are no part of an answer.
#[derive(Clone, Copy, Debug, PartialEq, Eq, Error)]
pub enum RowReadFault {
    /// The number of columns, a name or an item of a row could not be read.
    #[error("the part is malformed: {0}")]
    Word(WordFault),
    /// The body ends where a row or the end word would begin; or there are no columns, and something else than an end word
    /// follows their number.
    #[error("the part has no end word")]
    NoEnd,
    /// This many words follow the end word.
    #[error("{0} words follow the end word")]
    Tail(u64),
    /// There is not enough memory.
    #[error("out of memory")]
    NoMemory,
}

impl From<WordFault> for RowReadFault {
    ghost from_gives = { λ word fault. fault ≡ of_word word };

    fn from(word: WordFault) -> RowReadFault {
        match word {
            WordFault::NoMemory => RowReadFault::NoMemory,
            word => RowReadFault::Word(word),
        }
    }
}

impl<T: Drop> From<AllocFailed<T>> for RowReadFault {
    ghost from_gives = { λ _ fault. fault ≡ read_faults.NoMemory };

    fn from(_error: AllocFailed<T>) -> RowReadFault {
        RowReadFault::NoMemory
    }
}
