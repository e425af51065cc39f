ghost use Rattle.std.specs.Prelude.{◌≡◌};
ghost use Rattle.sql_scan.specs.declared.fault.ScanFault.TheVariants.{NoMemory};

use std::alloc::{AllocError, AllocFailed};
use thiserror::Error;

/// Why a text can't be scanned. The number in each is the place in the text, in bytes.
#[derive(Clone, Copy, Debug, PartialEq, Eq, Error)]
pub enum ScanFault {
    /// A quoted piece that begins here doesn't end.
    #[error("open quote at byte {0}")]
    OpenQuote(u64),
    /// A comment that begins here doesn't end.
    #[error("open comment at byte {0}")]
    OpenComment(u64),
    /// A parameter with a name is here.
    #[error("named parameter at byte {0}")]
    Named(u64),
    /// A parameter is here whose number isn't 1 to 32,766.
    #[error("bad parameter number at byte {0}")]
    Number(u64),
    /// There is not enough memory.
    #[error("out of memory")]
    NoMemory,
}

impl From<AllocError> for ScanFault {
    ghost from_gives = { λ _ fault. fault ≡ NoMemory };

    fn from(_error: AllocError) -> ScanFault {
        ScanFault::NoMemory
    }
}

impl<T: Drop> From<AllocFailed<T>> for ScanFault {
    ghost from_gives = { λ _ fault. fault ≡ NoMemory };

    fn from(_error: AllocFailed<T>) -> ScanFault {
        ScanFault::NoMemory
    }
}
