ghost use Rattle.std.specs.Prelude.{◌≡◌};
ghost use Rattle.sql_engine.specs.declared.fault.EngineFault.TheVariants.{NoMemory};

use std::alloc::AllocError;
use thiserror::Error;

/// Why a statement was not answered. The image handed in is unchanged after each of them.
#[derive(Clone, Copy, Debug, PartialEq, Eq, Error)]
pub enum EngineFault {
    /// The statement breaks a constraint, as its meaning on the image says.
    #[error("a constraint is broken")]
    Constraint,
    /// The statement is refused for any other reason that lies in its meaning on the image.
    #[error("the statement is refused")]
    Sql,
    /// The answer has a real value, the first by rows and then by columns, both from 0.
    #[error("row {0}, column {1} is a real value")]
    Float(u64, u64),
    /// The answer has no real value, and it has a text that isn't UTF-8, the first by rows and then by columns, both from 0.
    #[error("row {0}, column {1} is a text that isn't UTF-8")]
    NotText(u64, u64),
    /// The files of the image were not opened as a database. The engine's count of refused openings rose in the call.
    #[error("the files are not opened")]
    Unopened,
    /// The statement would take more steps than its limit.
    #[error("the statement takes more steps than its limit")]
    Cut,
    /// Memory ran out.
    #[error("out of memory")]
    NoMemory,
}

impl From<AllocError> for EngineFault {
    ghost from_gives = { λ _ fault. fault ≡ NoMemory };

    fn from(_error: AllocError) -> EngineFault {
        EngineFault::NoMemory
    }
}
