use crate::event::Event;
use thiserror::Error;

/// Why a step was not made whole.
#[derive(Clone, Copy, Debug, PartialEq, Eq, Error)]
pub enum StepFault {
    /// The disk failed, and has counted it.
    #[error("the disk failed")]
    DiskFault,
    /// There is not enough memory.
    #[error("out of memory")]
    NoMemory,
    /// What was to be done isn't what may be done now, though it was let pass.
    #[error("what was let pass may not be done")]
    Unfit,
}

/// What a loop drives: a node with the disk and the engine that are lent to its steps. It makes one step for each event, and says
/// something at each.
pub trait Core {
    ghost use Rattle.std.specs.Prelude.{◌≡◌, ℕ, IfOk, OnOk, OnErr};
    ghost use Rattle.serve_traits.specs.declared.event.Event.{Event};
    ghost use Rattle.serve_traits.specs.Stepping.{StepCause};

    /// What the readers report that work for it.
    type Told: Drop;

    /// What a step says.
    type Outs: Drop;

    /// That it may make a step.
    ghost stands: { Self → Type 0 };

    /// What a step for an event is that says this.
    ghost makes: { Self → Event Self.Told → Self.Outs → Self → Type 0 };

    /// What a step for an event is that failed. It says nothing.
    ghost breaks: { Self → Event Self.Told → Self → Type 0 };

    /// How many times its disk failed.
    ghost faults: { Self → ℕ };

    /// Makes a step. After an `Err` no other one may be made.
    fn step(&mut self, event: Event<Self::Told>) -> Result<Self::Outs, StepFault>
        requires { stands self.old }
        ensures stands { OnOk result (stands self.new) }
        ensures makes { IfOk result (λ outs. makes self.old event outs self.new) }
        ensures breaks { OnErr result (breaks self.old event self.new) }
        ensures cause { StepCause (faults self.old) (faults self.new) result };

    /// Does what may wait until what the last step says was put. It changes nothing else: each step that led to the core before leads
    /// to the core after it.
    fn rest(&mut self)
        requires { stands self.old }
        ensures stands { stands self.new }
        ensures keeps { (before : Self) (event : Event Self.Told) (outs : Self.Outs) → makes before event outs self.old → makes before event outs self.new }
        ensures faults { faults self.new ≡ faults self.old };
}
