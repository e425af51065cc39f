ghost use Rattle.std.specs.Prelude.{◌≡◌};
ghost use Rattle.wal_frames.specs.declared.fault.WalFault.TheVariants.{NoMemory};

use std::alloc::{AllocError, AllocFailed};
use thiserror::Error;

/// Why bytes are no write-ahead log. The first that applies is named, in this order.
#[derive(Clone, Copy, Debug, PartialEq, Eq, Error)]
pub enum WalFault {
    /// There are fewer than the 32 bytes of a header.
    #[error("the log ends within its header")]
    Short,
    /// The magic number is neither 0x377f0682 nor 0x377f0683.
    #[error("the log has another magic number")]
    Magic,
    /// The version isn't 3007000.
    #[error("the log has another version")]
    Version,
    /// The page size isn't 4,096.
    #[error("the pages of the log have another size")]
    PageSize,
    /// The header's checksum isn't that of its first 24 bytes.
    #[error("the header of the log has a wrong checksum")]
    HeaderSum,
    /// There is not enough memory.
    #[error("out of memory")]
    NoMemory,
}

impl From<AllocError> for WalFault {
    ghost from_gives = { λ _ fault. fault ≡ NoMemory };

    fn from(_error: AllocError) -> WalFault {
        WalFault::NoMemory
    }
}

impl<T: Drop> From<AllocFailed<T>> for WalFault {
    ghost from_gives = { λ _ fault. fault ≡ NoMemory };

    fn from(_error: AllocFailed<T>) -> WalFault {
        WalFault::NoMemory
    }
}
