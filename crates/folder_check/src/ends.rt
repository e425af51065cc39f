ghost use Rattle.std.specs.Prelude.{◌≡◌};
ghost use Rattle.folder_check.specs.Checking.{end_of};
ghost use Rattle.folder_check.specs.declared.ends.CheckEnd.TheVariants.{NoMemory};

use segment_store::LoadFault;
use std::alloc::AllocError;

/// How a check ended.
#[derive(Clone, Copy, Debug, PartialEq, Eq)]
pub enum CheckEnd {
    /// All lines were printed.
    Done,
    /// The files represent nothing, for this reason: one of `NoMeta`, `Damaged` and `Gap`.
    Damaged(LoadFault),
    /// The kept snapshot, of this index, isn't one of a node.
    Snapshot(u64),
    /// The disk failed, and has counted it.
    DiskFault,
    /// The sink failed, and has counted it. A front of the lines was printed.
    WriteFault,
    /// There is not enough memory.
    NoMemory,
}

impl From<LoadFault> for CheckEnd {
    ghost from_gives = { λ load end. end ≡ end_of load };

    fn from(fault: LoadFault) -> CheckEnd {
        match fault {
            LoadFault::DiskFault => CheckEnd::DiskFault,
            LoadFault::NoMemory => CheckEnd::NoMemory,
            fault => CheckEnd::Damaged(fault),
        }
    }
}

impl From<AllocError> for CheckEnd {
    ghost from_gives = { λ _ end. end ≡ NoMemory };

    fn from(_error: AllocError) -> CheckEnd {
        CheckEnd::NoMemory
    }
}
