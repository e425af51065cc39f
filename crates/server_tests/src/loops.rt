ghost use Rattle.std.specs.Prelude.{None};

use crate::echo::{Echo, Said};
use dq_base::Bytes;
use serve_traits::{Event, LoopEnd, MemInbox, Outbox, StepFault, core_loop};
use std::alloc::Global;
use std::test::*;

/// An outbox that counts what it gets, and the bytes in it.
#[derive(Drop)]
struct Count {
    puts: usize,
    bytes: usize,
}

impl Outbox<Said> for Count {
    ghost said = { λ _. None };

    fn put(&mut self, outs: Said) {
        self.puts = self.puts.saturating_add(1);
        if let Some((_, bytes)) = &outs.reply {
            self.bytes = self.bytes.saturating_add(bytes.len());
        }
    }
}

/// A Beat, then five bytes of a connection, then a Beat.
fn events(alloc: Global) -> Option<Vec<Event<u8>>> {
    let bytes = Bytes::new(Vec::from_slice(alloc, b"hello").ok()?);
    let mut events = Vec::new(alloc);
    events.push(Event::Beat).ok()?;
    events.push(Event::Bytes(3, bytes)).ok()?;
    events.push(Event::Beat).ok()?;
    Some(events)
}

/// What comes of a loop with this budget, whose core makes this many steps and then fails by this fault: its end, the events taken, what was
/// put, and the bytes in it.
fn run(
    alloc: Global,
    budget: u64,
    steps: u64,
    fault: StepFault,
) -> Option<(LoopEnd, u64, usize, usize)> {
    let mut core = Echo {
        left: steps,
        fault,
        faults: 0,
    };
    let mut inbox = MemInbox::new(events(alloc)?);
    let mut outbox = Count { puts: 0, bytes: 0 };
    let end = core_loop(&mut core, &mut inbox, &mut outbox, budget);
    Some((end, inbox.taken(), outbox.puts, outbox.bytes))
}

/// The budget, the steps that are made, the fault after them; the end, the events taken, what was put, and the bytes in it.
const ROWS: &[(u64, u64, StepFault, LoopEnd, u64, usize, usize)] = &[
    (0, 9, StepFault::NoMemory, LoopEnd::Spent(0), 0, 0, 0),
    (2, 9, StepFault::NoMemory, LoopEnd::Spent(2), 2, 2, 5),
    (9, 9, StepFault::NoMemory, LoopEnd::Closed, 3, 3, 5),
    (9, 1, StepFault::DiskFault, LoopEnd::DiskFault, 2, 1, 0),
    (9, 2, StepFault::NoMemory, LoopEnd::NoMemory, 3, 2, 5),
];

#[test]
fn a_loop_makes_a_step_for_each_event(rt: HostRuntime) -> Result<(), Fail> {
    for &(budget, steps, fault, end, taken, puts, bytes) in ROWS {
        let came = run(rt.alloc(), budget, steps, fault);
        assert_eq!(rt; came, Some((end, taken, puts, bytes)));
    }
    Ok(())
}
