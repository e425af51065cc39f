//! The events of a life, to which others are added while it continues.

ghost use Rattle.std.specs.Prelude.{None};

use dq_base::Failed;
use serve_traits::{Event, Inbox};
use session_outcomes::Read;
use std::alloc::{AllocError, Global};
use std::collections::VecDeque;
use std::sync::{Arc, Mutex, Wait};

/// One end of a queue of events. A take fails if none is left.
#[derive(Drop)]
pub(crate) struct Feed<R: Wait + Copy + Drop> {
    rt: R,
    events: Arc<Mutex<VecDeque<Event<Read>>>, Global>,
    taken: u64,
    faults: u64,
}

impl<R: Wait + Copy + Drop> Feed<R> {
    /// A queue without events.
    pub(crate) fn new(rt: R, alloc: Global) -> Result<Feed<R>, AllocError> {
        Ok(Feed {
            rt,
            events: Arc::new(alloc, Mutex::new(VecDeque::new(alloc)))?,
            taken: 0,
            faults: 0,
        })
    }

    /// Another end. `Err` where there are too many.
    pub(crate) fn again(&self) -> Result<Feed<R>, AllocError> {
        Ok(Feed {
            rt: self.rt,
            events: Arc::try_clone(&self.events)?,
            taken: 0,
            faults: 0,
        })
    }

    /// Adds an event, and says whether there was memory for it.
    pub(crate) fn add(&self, event: Event<Read>) -> bool {
        let mut events = self.events.lock(&self.rt);
        events.push_back(event).is_ok()
    }

    /// The first event, which is taken off.
    fn first(&self) -> Option<Event<Read>> {
        let mut events = self.events.lock(&self.rt);
        events.pop_front()
    }
}

impl<R: Wait + Copy + Drop> Inbox<Read> for Feed<R> {
    ghost left = { λ _. None };

    ghost taken = { λ feed. feed.taken };

    ghost faults = { λ feed. feed.faults };

    fn take(&mut self) -> Result<Event<Read>, Failed> {
        let first = match self.taken.checked_add(1) {
            Some(taken) => self.first().map(|event| (taken, event)),
            None => None,
        };
        let Some((taken, event)) = first else {
            self.faults = self.faults.saturating_add(1);
            return Err(Failed);
        };
        self.taken = taken;
        Ok(event)
    }
}
