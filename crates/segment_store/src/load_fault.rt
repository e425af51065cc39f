ghost use Rattle.std.specs.Prelude.{◌≡◌};
ghost use Rattle.segment_store.specs.LoadFaults.{of_store, of_files};

use crate::fault::StoreFault;
use store_format::FilesFault;
use thiserror::Error;

/// Why a load answered no store, or a look no state. Of the first three the first that holds is answered; with them
/// nothing was changed.
#[derive(Clone, Copy, Debug, PartialEq, Eq, Error)]
pub enum LoadFault {
    /// A batch or a snapshot is without valid metadata.
    #[error("a batch or a snapshot stands without metadata")]
    NoMeta,
    /// The segment of the first number isn't the last one, and nothing reads in it from the place of the second on.
    #[error("segment {0} is damaged at byte {1}")]
    Damaged(u64, u64),
    /// The log begins at the index of the first number, which is past that of the snapshot, the second, and one more.
    #[error("the log begins at {0}, behind a snapshot up to {1}")]
    Gap(u64, u64),
    /// The disk failed, and has counted it.
    #[error("the disk failed")]
    DiskFault,
    /// There is not enough memory, or no number is left for a segment.
    #[error("out of memory")]
    NoMemory,
}

impl From<StoreFault> for LoadFault {
    ghost from_gives = { λ store fault. fault ≡ of_store store };

    fn from(fault: StoreFault) -> LoadFault {
        match fault {
            StoreFault::DiskFault => LoadFault::DiskFault,
            StoreFault::NoMemory => LoadFault::NoMemory,
        }
    }
}

impl From<FilesFault> for LoadFault {
    ghost from_gives = { λ files fault. fault ≡ of_files files };

    fn from(fault: FilesFault) -> LoadFault {
        match fault {
            FilesFault::NoMeta => LoadFault::NoMeta,
            FilesFault::Damaged(damage) => LoadFault::Damaged(damage.segment, damage.at),
            FilesFault::Gap(first, last) => LoadFault::Gap(first, last),
        }
    }
}
