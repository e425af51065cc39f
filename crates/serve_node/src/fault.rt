ghost use Rattle.std.specs.Prelude.{◌≡◌};
ghost use Rattle.serve_node.specs.declared.fault.CrewFault.TheVariants as crew;

use dq_base::Failed;
use std::alloc::{AllocError, AllocFailed};

/// Why the workers of a node could not begin.
#[derive(Clone, Copy, Debug, PartialEq, Eq)]
pub(crate) enum CrewFault {
    /// The host failed, and has counted it.
    Host,
    /// There was not enough memory.
    NoMemory,
}

impl From<Failed> for CrewFault {
    ghost from_gives = { λ _ fault. fault ≡ crew.Host };

    fn from(_failed: Failed) -> CrewFault {
        CrewFault::Host
    }
}

impl From<AllocError> for CrewFault {
    ghost from_gives = { λ _ fault. fault ≡ crew.NoMemory };

    fn from(_error: AllocError) -> CrewFault {
        CrewFault::NoMemory
    }
}

impl<T: Drop> From<AllocFailed<T>> for CrewFault {
    ghost from_gives = { λ _ fault. fault ≡ crew.NoMemory };

    fn from(_failed: AllocFailed<T>) -> CrewFault {
        CrewFault::NoMemory
    }
}
