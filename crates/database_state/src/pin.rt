//! Pins, and why there is none.

use page_store::{MarkFault, MarkId};
use std::marker::Model;
use thiserror::Error;

/// A live read mark of one database of a state machine: the image that was newest when it was pinned stays to be read. Contracts
/// see it as the place of its database in the state machine's order of opening, and the mark. It is made by `Machine::pin`
/// alone, can't be copied, and is spent by `Machine::release`.
#[derive(Debug, Drop)]
pub struct Pin {
    pub(crate) place: usize,
    pub(crate) mark: MarkId,
}

impl Model for Pin {
    ghost use Rattle.database_state.specs.Pins.{Pinning};

    ghost Value = { Pinning };

    ghost view = { λ a. record { place = a.place; mark = a.mark } };
}

/// Why a database can't be pinned.
#[derive(Clone, Copy, Debug, PartialEq, Eq, Error)]
pub enum PinFault {
    /// There is no database of the name.
    #[error("there is no such database")]
    Unknown,
    /// All marks of the database are live. It carries how many there are, which is 64.
    #[error("all {0} read marks of the database are live")]
    Full(u64),
}

impl From<MarkFault> for PinFault {
    ghost use Rattle.std.specs.Prelude.{◌≡◌};
    ghost use Rattle.database_state.specs.Pins.{of_mark_fault};

    ghost from_gives = { λ mark fault. fault ≡ of_mark_fault mark };

    fn from(fault: MarkFault) -> PinFault {
        match fault {
            MarkFault::Full(marks) => PinFault::Full(marks),
        }
    }
}
