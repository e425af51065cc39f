ghost use Rattle.std.specs.Prelude.{◌≡◌};
ghost use Rattle.segment_store.specs.declared.fault.StoreFault.TheVariants.{NoMemory};
ghost use Rattle.segment_store.specs.Faults.{of_disk};

use disk_model::DiskFault;
use std::alloc::AllocError;
use thiserror::Error;

/// Why the store kept nothing, or not all. After it the store has to be loaded again.
#[derive(Clone, Copy, Debug, PartialEq, Eq, Error)]
pub enum StoreFault {
    /// The disk failed, and has counted it.
    #[error("the disk failed")]
    DiskFault,
    /// There is not enough memory, or no number is left for a version or a file.
    #[error("out of memory")]
    NoMemory,
}

impl From<AllocError> for StoreFault {
    ghost from_gives = { λ _ fault. fault ≡ NoMemory };

    fn from(_error: AllocError) -> StoreFault {
        StoreFault::NoMemory
    }
}

impl From<DiskFault> for StoreFault {
    ghost from_gives = { λ disk fault. fault ≡ of_disk disk };

    fn from(fault: DiskFault) -> StoreFault {
        match fault {
            DiskFault::Failed => StoreFault::DiskFault,
            DiskFault::NoMemory => StoreFault::NoMemory,
        }
    }
}
