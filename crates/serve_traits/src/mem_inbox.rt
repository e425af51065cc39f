ghost use Rattle.std.specs.Prelude.{◌≡◌, [], Some, IfOk, IsOk, OnErr, ◌↔◌, ◌<◌, length};
ghost use Rattle.serve_traits.specs.Memory.{Waiting};

use crate::event::Event;
use crate::inbox::Inbox;
use dq_base::Failed;
use std::collections::VecDeque;
use std::marker::Model;

/// An inbox over memory. It fails if no event is left.
#[derive(Drop)]
pub struct MemInbox<T> {
    events: VecDeque<Event<T>>,
    taken: u64,
    faults: u64,
}

impl<T> Model for MemInbox<T> {
    ghost use Rattle.serve_traits.specs.Memory.{Waiting};

    ghost Value = { Waiting T };

    ghost view = { λ a. record { events = a.events.items; taken = a.taken; faults = a.faults } };
}

impl<T> MemInbox<T> {
    /// An inbox with these events, of which none was taken.
    pub fn new(events: Vec<Event<T>>) -> MemInbox<T>
        ensures { result ≡ record { events = events.items; taken = 0; faults = 0 } }
    {
        MemInbox {
            events: VecDeque::from(events),
            taken: 0,
            faults: 0,
        }
    }

    /// How many events were taken.
    pub fn taken(&self) -> u64
        ensures { result ≡ self.now.taken }
    {
        self.taken
    }

    /// How many times a take failed.
    pub fn faults(&self) -> u64
        ensures { result ≡ self.now.faults }
    {
        self.faults
    }
}

impl<T> Inbox<T> for MemInbox<T> {
    ghost left = { λ inbox. Some inbox.events };

    ghost taken = { λ inbox. inbox.taken };

    ghost faults = { λ inbox. inbox.faults };

    fn take(&mut self) -> Result<Event<T>, Failed> {
        let Some(taken) = self.taken.checked_add(1) else {
            self.faults = self.faults.saturating_add(1);
            return Err(Failed);
        };
        match self.events.pop_front() {
            Some(event) => {
                self.taken = taken;
                Ok(event)
            }
            None => {
                self.faults = self.faults.saturating_add(1);
                Err(Failed)
            }
        }
    }
}
