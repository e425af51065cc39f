//! A core that answers each piece of bytes by itself, and fails if it is told to; and a reader.

ghost use Rattle.std.specs.Prelude.{⊤};
ghost use Rattle.serve_traits.specs.Stepping.{StepCause};

use dq_base::Bytes;
use serve_threads::Reader;
use serve_traits::{Core, Event, StepFault};

/// What it says: the bytes that came, with their connection.
#[derive(Debug, Drop)]
pub(crate) struct Said {
    /// The connection and the bytes, if bytes came.
    pub(crate) reply: Option<(u64, Bytes)>,
}

/// A core that says what it heard.
#[derive(Drop)]
pub(crate) struct Echo {
    /// How many steps it still makes.
    pub(crate) left: u64,
    /// What it fails with then.
    pub(crate) fault: StepFault,
    /// How many times its disk failed.
    pub(crate) faults: u64,
}

impl Core for Echo {
    type Told = u8;

    type Outs = Said;

    ghost stands = { λ _. ⊤ };

    ghost makes = { λ _ _ _ _. ⊤ };

    ghost breaks = { λ _ _ _. ⊤ };

    ghost faults = { λ core. core.faults };

    fn step(&mut self, event: Event<u8>) -> Result<Said, StepFault>
        ensures cause { StepCause self.old.faults self.new.faults result }
    {
        let Some(left) = self.left.checked_sub(1) else {
            self.faults = self.faults.saturating_add(1);
            return Err(self.fault);
        };
        self.left = left;
        match event {
            Event::Bytes(conn, bytes) => Ok(Said {
                reply: Some((conn, bytes)),
            }),
            _ => Ok(Said { reply: None }),
        }
    }

    fn rest(&mut self) {}
}

/// A reader that tells the number after its job.
#[derive(Drop)]
pub(crate) struct Next;

impl Reader for Next {
    type Job = u8;

    type Told = u8;

    fn read(&mut self, job: &u8) -> u8 {
        job.wrapping_add(1)
    }
}
