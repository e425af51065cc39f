ghost use Rattle.std.specs.Prelude.{◌≡◌, ◌≤◌, ◌↔◌, IsErr, IsTrue, OnOk, OnErr};
ghost use Rattle.dq_base.specs.Faults.{one_more, HasCause};
ghost use Rattle.dq_base.specs.Calls.{no_calls, next_fails, after_call, after_fault};

use crate::faults::{Failed, count_fault};
use std::marker::Model;

/// Calls that are counted, some of which are to fail: those whose numbers, from 1, are listed.
///
/// This is what the objects over memory that represent the outside have in common. Both of its counts stay at
/// 18,446,744,073,709,551,615. No method takes memory.
#[derive(Drop)]
pub struct Calls {
    made: u64,
    faults: u64,
    fails: Vec<u64>,
}

impl Model for Calls {
    ghost use Rattle.dq_base.specs.Calls.{Counted};

    ghost Value = { Counted };

    ghost view = { λ a. record { made = a.made; faults = a.faults; fails = a.fails.items } };
}

impl Calls {
    /// No call was made so far. `fails` lists the numbers, from 1, of the calls that are to fail.
    pub fn new(fails: Vec<u64>) -> Calls
        ensures { result ≡ no_calls fails.items }
    {
        Calls {
            made: 0,
            faults: 0,
            fails,
        }
    }

    /// Starts the next call, and counts it. It answers `Failed`, and counts a fault too, exactly if the call is one
    /// that is to fail.
    pub fn start(&mut self) -> Result<(), Failed>
        ensures failing { IsErr result ↔ IsTrue (next_fails self.old) }
        ensures ok { OnOk result (self.new ≡ after_call self.old) }
        ensures err { OnErr result (self.new ≡ after_fault self.old) }
        ensures cause { HasCause self.old.faults self.new.faults result }
    {
        self.made = self.made.saturating_add(1);
        if self.fails.contains(&self.made) {
            count_fault(&mut self.faults);
            return Err(Failed);
        }
        Ok(())
    }

    /// Counts a fault of the call that was started last, if it fails for another reason.
    pub fn fail(&mut self) -> Failed
        ensures count { self.new ≡ record self.old { faults = one_more self.old.faults } }
        ensures never_falls { self.old.faults ≤ self.new.faults }
    {
        count_fault(&mut self.faults);
        Failed
    }

    /// How many calls failed.
    pub fn faults(&self) -> u64
        ensures { result ≡ self.now.faults }
    {
        self.faults
    }
}
