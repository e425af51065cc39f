use dq_base::Failed;
use std::alloc::AllocError;
use thiserror::Error;

/// Why a script could not be written whole.
#[derive(Clone, Copy, Debug, PartialEq, Eq, Error)]
pub enum GenerateFault {
    /// The sink failed.
    #[error("the output failed")]
    Sink,
    /// There is not enough memory.
    #[error("out of memory")]
    NoMemory,
}

impl From<Failed> for GenerateFault {
    ghost use Rattle.std.specs.Prelude.{◌≡◌};
    ghost use Rattle.script_generator.specs.declared.fault.GenerateFault.TheVariants.{Sink};

    ghost from_gives = { λ _ e. e ≡ Sink };

    fn from(_failed: Failed) -> GenerateFault {
        GenerateFault::Sink
    }
}

impl From<AllocError> for GenerateFault {
    ghost use Rattle.std.specs.Prelude.{◌≡◌};
    ghost use Rattle.script_generator.specs.declared.fault.GenerateFault.TheVariants.{NoMemory};

    ghost from_gives = { λ _ e. e ≡ NoMemory };

    fn from(_error: AllocError) -> GenerateFault {
        GenerateFault::NoMemory
    }
}
