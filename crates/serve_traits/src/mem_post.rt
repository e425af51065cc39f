ghost use Rattle.std.specs.Prelude.{◌≡◌, [], Some};
ghost use Rattle.dq_base.specs.Calls.{no_calls};
ghost use Rattle.dq_base.specs.Faults.{HasCause};
ghost use Rattle.serve_traits.specs.Told.{Puts};

use crate::event::Event;
use crate::post::Post;
use dq_base::{Calls, Failed};
use std::alloc::Global;
use std::marker::Model;

/// A post over memory, which keeps the events that were put. Some of its calls may be made to fail, and a call for which memory
/// runs out fails too.
#[derive(Drop)]
pub struct MemPost<T> {
    events: Vec<Event<T>>,
    calls: Calls,
}

impl<T> Model for MemPost<T> {
    ghost use Rattle.serve_traits.specs.Memory.{Posted};

    ghost Value = { Posted T };

    ghost view = { λ a. record { events = a.events.items; calls = a.calls } };
}

impl<T> MemPost<T> {
    /// A post at which no event was put. It takes memory from `alloc` as it grows, and none here. `fails` lists the numbers, from
    /// 1, of the calls that are to fail.
    pub fn new(alloc: Global, fails: Vec<u64>) -> MemPost<T>
        ensures { result ≡ record { events = []; calls = no_calls fails.items } }
    {
        MemPost {
            events: Vec::new(alloc),
            calls: Calls::new(fails),
        }
    }

    /// The events that were put.
    pub fn events(&self) -> &[Event<T>]
        ensures { result.now ≡ self.now.events }
    {
        self.events.as_slice()
    }

    /// How many times a call failed.
    pub fn faults(&self) -> u64
        ensures { result ≡ self.now.calls.faults }
    {
        self.calls.faults()
    }
}

impl<T: Drop> Post<T> for MemPost<T> {
    ghost posted = { λ post. Some post.events };

    ghost faults = { λ post. post.calls.faults };

    fn put(&mut self, event: Event<T>) -> Result<(), Failed>
        ensures event { Puts (Some self.old.events) (Some self.new.events) event result }
        ensures cause { HasCause self.old.calls.faults self.new.calls.faults result }
    {
        self.calls.start()?;
        match self.events.push(event) {
            Ok(()) => Ok(()),
            Err(_) => Err(self.calls.fail()),
        }
    }
}
