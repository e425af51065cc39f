//! Why a script ends before its last line.

use std::alloc::{AllocError, AllocFailed};

/// Why what a line says could not be done: the script ends there.
#[derive(Clone, Copy, Debug)]
pub enum EventFault {
    /// The line names what isn't there, or must not be there.
    NotThere,
    /// The event is one more than a script may have, or it makes more bytes of messages than a script may make.
    TooMany,
    /// There is not enough memory.
    NoMemory,
    /// A node failed for a cause that is a bug of the program.
    Internal,
}

impl From<AllocError> for EventFault {
    ghost use Rattle.std.specs.Prelude.{◌≡◌};
    ghost use Rattle.script_grammar.specs.declared.faults.EventFault.TheVariants.{NoMemory};

    ghost from_gives = { λ _ e. e ≡ NoMemory };

    fn from(_error: AllocError) -> EventFault {
        EventFault::NoMemory
    }
}

impl<T: Drop> From<AllocFailed<T>> for EventFault {
    ghost use Rattle.std.specs.Prelude.{◌≡◌};
    ghost use Rattle.script_grammar.specs.declared.faults.EventFault.TheVariants.{NoMemory};

    ghost from_gives = { λ _ e. e ≡ NoMemory };

    fn from(_failed: AllocFailed<T>) -> EventFault {
        EventFault::NoMemory
    }
}
