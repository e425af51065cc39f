ghost use Rattle.std.specs.Prelude.{◌≡◌};
ghost use Rattle.wire_words.specs.declared.fault.WordFault.TheVariants.{NoMemory};

use std::alloc::{AllocError, AllocFailed};
use thiserror::Error;

/// Why an item of a body could not be read. The number in each is the place of the item's first byte in the body.
#[derive(Clone, Copy, Debug, PartialEq, Eq, Error)]
pub enum WordFault {
    /// The body ends before the item does.
    #[error("the body ends within the item at byte {0}")]
    Short(u64),
    /// No NUL ends the text.
    #[error("no NUL ends the text at byte {0}")]
    NoNul(u64),
    /// What is before the NUL isn't UTF-8.
    #[error("the text at byte {0} isn't UTF-8")]
    NotUtf8(u64),
    /// A byte that fills the item up to a word isn't zero.
    #[error("the item at byte {0} isn't filled up with zeros")]
    Pad(u64),
    /// A value has a code, the second number, that represents no type.
    #[error("the item at byte {0} has the value code {1}")]
    BadCode(u64, u64),
    /// A value is a floating-point number.
    #[error("the item at byte {0} has a floating-point number")]
    Float(u64),
    /// There is not enough memory.
    #[error("out of memory")]
    NoMemory,
}

impl From<AllocError> for WordFault {
    ghost from_gives = { λ _ fault. fault ≡ NoMemory };

    fn from(_error: AllocError) -> WordFault {
        WordFault::NoMemory
    }
}

impl<T: Drop> From<AllocFailed<T>> for WordFault {
    ghost from_gives = { λ _ fault. fault ≡ NoMemory };

    fn from(_error: AllocFailed<T>) -> WordFault {
        WordFault::NoMemory
    }
}
