ghost use Rattle.std.specs.Prelude.{◌≡◌, ◌≤◌, false, is_some, if◌then◌else◌, IfOk, OnOk};
ghost use Rattle.dq_base.specs.Faults.{one_more};
ghost use Rattle.disk_model.specs.Trait.{HasCause, HasWant};
ghost use Rattle.disk_model.specs.Armed.{pick_at, is_number, is_idle_next, fails_next, turn_next, whole_next, Counted, IsTurn, finished, with_end, unarmed, armed_with, disarmed, picked};

use crate::faults::DiskFault;
use std::alloc::AllocError;

/// Where a disk over memory stops: at a call, by its number from 1, with the pick of the outcome.
#[derive(Clone, Copy, Debug, PartialEq, Eq)]
pub struct Stop {
    pub call: u64,
    pub pick: u64,
}

/// Calls that are counted, of which one may be made to fail and one to stop the disk; faults and wants of memory are
/// counted too. All counts stay at 18,446,744,073,709,551,615.
#[derive(Clone, Copy)]
pub struct FaultInjector {
    pub(crate) made: u64,
    pub(crate) faults: u64,
    pub(crate) wants: u64,
    pub(crate) stop: Option<Stop>,
    pub(crate) fail: Option<u64>,
    pub(crate) stopped: Option<u64>,
}

/// How a call continues that doesn't fail at once.
#[derive(Clone, Copy)]
pub enum CallOutcome {
    Goes,
    /// The disk stops in this call.
    Stops,
}

fn pick_at(stop: Option<Stop>, call: u64) -> Option<u64>
    ensures { result ≡ pick_at stop call }
{
    match stop {
        Some(stop) => {
            if stop.call == call {
                Some(stop.pick)
            } else {
                None
            }
        }
        None => None,
    }
}

fn stopped_at(stopped: Option<u64>, stop: Option<Stop>, call: u64) -> Option<u64>
    ensures { result ≡ (if is_some stopped then stopped else pick_at stop call) }
{
    if stopped.is_some() {
        return stopped;
    }
    pick_at(stop, call)
}

fn is_number(number: Option<u64>, call: u64) -> bool
    ensures { result ≡ is_number number call }
{
    match number {
        Some(number) => number == call,
        None => false,
    }
}

impl FaultInjector {
    /// Before the first call, with nothing that is to stop or to fail.
    pub(crate) fn unarmed() -> FaultInjector
        ensures { result ≡ unarmed }
    {
        FaultInjector {
            made: 0,
            faults: 0,
            wants: 0,
            stop: None,
            fail: None,
            stopped: None,
        }
    }

    /// Counts the calls again, of which these are to stop and to fail. A stop that came
    /// stands.
    pub(crate) fn arm(&mut self, stop: Option<Stop>, fail: Option<u64>)
        ensures { self.new ≡ armed_with stop fail self.old }
    {
        self.made = 0;
        self.stop = stop;
        self.fail = fail;
    }

    /// Nothing is to stop or to fail.
    pub(crate) fn disarm(&mut self)
        ensures { self.new ≡ disarmed self.old }
    {
        self.made = 0;
        self.stop = None;
        self.fail = None;
        self.stopped = None;
    }

    /// The pick of a crash: that of the stop, if one came, else the one that is given.
    pub(crate) fn pick_of(&self, pick: u64) -> u64
        ensures { result ≡ picked self.now.stopped pick }
    {
        match self.stopped {
            Some(own) => own,
            None => pick,
        }
    }

    /// Counts a fault.
    pub(crate) fn fault(&mut self) -> DiskFault
        ensures fault { result ≡ DiskFault.Failed }
        ensures count { self.new ≡ record self.old { faults = one_more self.old.faults } }
        ensures never_falls { self.old.faults ≤ self.new.faults }
    {
        self.faults = self.faults.saturating_add(1);
        DiskFault::Failed
    }

    /// Counts a out of memory.
    pub(crate) fn want(&mut self) -> DiskFault
        ensures fault { result ≡ DiskFault.NoMemory }
        ensures count { self.new ≡ record self.old { wants = one_more self.old.wants } }
        ensures never_falls { self.old.wants ≤ self.new.wants }
    {
        self.wants = self.wants.saturating_add(1);
        DiskFault::NoMemory
    }

    /// Whether the next call does nothing: the disk is stopped, or that call is to fail.
    fn is_idle_next(&self) -> bool
        ensures { result ≡ is_idle_next self.now }
    {
        self.stopped.is_some() || is_number(self.fail, self.made.saturating_add(1))
    }

    /// Starts the next call. It fails at once where the disk is stopped or the call is to fail; else the call continues,
    /// and the disk stops in it or not.
    #[tactic(auto, using(crate::proofs::Counts::caused, crate::proofs::Counts::spared, crate::proofs::Counts::not_wanted))]
    pub(crate) fn start(&mut self) -> Result<CallOutcome, DiskFault>
        ensures counted { Counted self.old self.new }
        ensures turn { IfOk result (IsTurn (fails_next self.old)) }
        ensures turns { result ≡ turn_next self.old }
        ensures cause { HasCause self.old.faults self.new.faults result }
        ensures want { HasWant self.old.wants self.new.wants result }
    {
        let is_idle = self.is_idle_next();
        self.made = self.made.saturating_add(1);
        self.stopped = stopped_at(self.stopped, self.stop, self.made);
        if is_idle {
            return Err(self.fault());
        }
        if self.stopped.is_some() {
            return Ok(CallOutcome::Stops);
        }
        Ok(CallOutcome::Goes)
    }

    /// Ends a call that went on, if this came of it.
    pub(crate) fn finish(
        &mut self,
        turn: CallOutcome,
        done: Result<(), AllocError>,
    ) -> Result<(), DiskFault>
        ensures answer { result ≡ finished turn done }
        ensures count { self.new ≡ with_end turn done self.old }
        ensures never_falls { self.old.faults ≤ self.new.faults }
        ensures wants_never_fall { self.old.wants ≤ self.new.wants }
    {
        match done {
            Err(_) => Err(self.want()),
            Ok(()) => match turn {
                CallOutcome::Goes => Ok(()),
                CallOutcome::Stops => Err(self.fault()),
            },
        }
    }

    /// Starts the next call, which is not done where the disk stops in it.
    #[tactic(auto, using(crate::proofs::Counts::caused, crate::proofs::Counts::counted_more, crate::proofs::Counts::not_wanted))]
    pub(crate) fn start_whole(&mut self) -> Result<(), DiskFault>
        ensures counted { Counted self.old self.new }
        ensures goes { OnOk result (fails_next self.old ≡ false) }
        ensures turns { result ≡ whole_next self.old }
        ensures cause { HasCause self.old.faults self.new.faults result }
        ensures want { HasWant self.old.wants self.new.wants result }
    {
        match self.start()? {
            CallOutcome::Goes => Ok(()),
            CallOutcome::Stops => Err(self.fault()),
        }
    }
}
