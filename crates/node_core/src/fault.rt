//! Why a node doesn't start, and why a step of it fails.

ghost use Rattle.std.specs.Prelude.{◌≡◌};
ghost use Rattle.node_core.specs.declared.fault.NodeFault.TheVariants as node;
ghost use Rattle.node_core.specs.declared.fault.StartFault.TheVariants as start;
ghost use Rattle.node_core.specs.Faults.{of_load, of_store};

use segment_store::{LoadFault, StoreFault};
use std::alloc::{AllocError, AllocFailed};
use thiserror::Error;

/// Why a node could not start. What was kept is kept as before, so it may be tried again.
#[derive(Clone, Copy, Debug, PartialEq, Eq, Error)]
pub enum StartFault {
    /// The disk failed, and has counted it.
    #[error("the disk failed")]
    DiskFault,
    /// What lies on the disk isn't what a node leaves.
    #[error("what is kept is damaged: {0}")]
    Damaged(LoadFault),
    /// The bytes of the snapshot up to this index are no node's snapshot.
    #[error("the snapshot up to {0} is none")]
    Snapshot(u64),
    /// There is not enough memory, or no number is left for an index or a file.
    #[error("out of memory")]
    NoMemory,
}

/// Why a step was not made whole. It says nothing then, and the node is down.
#[derive(Clone, Copy, Debug, PartialEq, Eq, Error)]
pub enum NodeFault {
    /// The disk failed, and has counted it.
    #[error("the disk failed")]
    DiskFault,
    /// An earlier step failed.
    #[error("the node is down")]
    Down,
    /// A client's change of servers isn't one that may be proposed now, though it was let pass: it is none that reads, an earlier one
    /// has not been applied yet, or its voters differ in more than one.
    #[error("a change of servers may not be proposed now")]
    Unfit,
    /// There is not enough memory, or no number is left for an index, a version or a file.
    #[error("out of memory")]
    NoMemory,
}

impl From<LoadFault> for StartFault {
    ghost from_gives = { λ load fault. fault ≡ of_load load };

    fn from(fault: LoadFault) -> StartFault {
        match fault {
            LoadFault::DiskFault => StartFault::DiskFault,
            LoadFault::NoMemory => StartFault::NoMemory,
            LoadFault::NoMeta | LoadFault::Damaged(..) | LoadFault::Gap(..) => {
                StartFault::Damaged(fault)
            }
        }
    }
}

impl From<AllocError> for StartFault {
    ghost from_gives = { λ _ fault. fault ≡ start.NoMemory };

    fn from(_error: AllocError) -> StartFault {
        StartFault::NoMemory
    }
}

impl From<StoreFault> for NodeFault {
    ghost from_gives = { λ store fault. fault ≡ of_store store };

    fn from(fault: StoreFault) -> NodeFault {
        match fault {
            StoreFault::DiskFault => NodeFault::DiskFault,
            StoreFault::NoMemory => NodeFault::NoMemory,
        }
    }
}

impl From<AllocError> for NodeFault {
    ghost from_gives = { λ _ fault. fault ≡ node.NoMemory };

    fn from(_error: AllocError) -> NodeFault {
        NodeFault::NoMemory
    }
}

impl<T: Drop> From<AllocFailed<T>> for NodeFault {
    ghost from_gives = { λ _ fault. fault ≡ node.NoMemory };

    fn from(_failed: AllocFailed<T>) -> NodeFault {
        NodeFault::NoMemory
    }
}
