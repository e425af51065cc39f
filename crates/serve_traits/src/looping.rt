//! The loop of a node.

ghost use Rattle.std.specs.Prelude.{◌≡◌};
ghost use Rattle.dq_base.specs.Faults.{Rose};
ghost use Rattle.serve_traits.specs.declared.looping.LoopEnd.TheVariants as ends;
ghost use Rattle.serve_traits.specs.Looping.{Loops};

use crate::inbox::Inbox;
use crate::outbox::Outbox;
use crate::stepping::{Core, StepFault};

/// Why a loop ended.
#[derive(Clone, Copy, Debug, PartialEq, Eq)]
pub enum LoopEnd {
    /// The inbox failed, and has counted it.
    Closed,
    /// The disk failed in a step, and has counted it.
    DiskFault,
    /// This many events were taken, and the step for each is made.
    Spent(u64),
    /// There was not enough memory for a step.
    NoMemory,
    /// What a step was to do must not be done, though it was let pass.
    Unfit,
}

impl From<StepFault> for LoopEnd {
    ghost use Rattle.serve_traits.specs.Looping.{end_of};

    ghost from_gives = { λ fault end. end ≡ end_of fault };

    fn from(fault: StepFault) -> LoopEnd {
        match fault {
            StepFault::DiskFault => LoopEnd::DiskFault,
            StepFault::NoMemory => LoopEnd::NoMemory,
            StepFault::Unfit => LoopEnd::Unfit,
        }
    }
}

/// Takes this many events, has the core make a step for each, and puts what it says, before the next event is taken; after that the core
/// does what could wait. It may wait for the inbox, as long as that does.
///
/// `Closed` comes only if the inbox's count of faults rose, `DiskFault` only if the disk's did, `Spent` with the budget,
/// after this many events. After `DiskFault`, `NoMemory` and `Unfit` the core's last step has failed, and said nothing.
#[tactic(auto, using(crate::proofs::Loops::spends, crate::proofs::Loops::closes, crate::proofs::Loops::breaks_off))]
pub fn core_loop<C: Core, I: Inbox<C::Told>, O: Outbox<C::Outs>>(
    core: &mut C,
    inbox: &mut I,
    outbox: &mut O,
    budget: u64,
) -> LoopEnd
    requires { C.stands core.old }
    ensures loops { Loops C.makes C.breaks core.old core.new (record { left = I.left inbox.old; count = I.taken inbox.old })
        (record { left = I.left inbox.new; count = I.taken inbox.new }) (O.said outbox.old) (O.said outbox.new) budget result }
    ensures closed { result ≡ ends.Closed → Rose (I.faults inbox.old) (I.faults inbox.new) }
    ensures disk { result ≡ ends.DiskFault → Rose (C.faults core.old) (C.faults core.new) }
{
    for _ in 0..budget {
        let Ok(event) = inbox.take() else {
            return LoopEnd::Closed;
        };
        match core.step(event) {
            Ok(outs) => {
                outbox.put(outs);
                core.rest();
            }
            Err(fault) => return fault.into(),
        }
    }
    LoopEnd::Spent(budget)
}
