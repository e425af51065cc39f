//! The leadership of a leader: from when on it serves, and which entries it owes.

ghost use Rattle.std.specs.Prelude.{◌≡◌, ◌+◌, ℕ, true, false, List, length, IfOk, OnOk, OnErr};
ghost use Rattle.std.specs.List.{AllByRecursion};
ghost use Rattle.session_spec.specs.Entries.{Content, written};
ghost use Rattle.session_spec.specs.Machine.{machine_of};
ghost use Rattle.session_spec.specs.Seen.{HasSpelling, log_seen};
ghost use Rattle.session_safety.specs.Nodes.{Node as Life};
ghost use Rattle.session_safety.specs.Logs.{undos};
ghost use Rattle.applied_state.specs.Office.{owed, past_barrier, office_after, serves, InOffice};

use crate::applied::Applied;
use crate::checkpoints::checkpoint_behind;
use crate::effect::AppliedEffect;
use crate::undoing::undos;
use raft_messages::{Entries, Entry};
use std::alloc::{AllocError, Global};

/// How far a leader has come.
#[derive(Clone, Copy, Debug, PartialEq, Eq)]
pub enum LeadershipPhase {
    /// Its barrier, which has this index, isn't applied yet.
    Barrier(u64),
    /// Its barrier is applied, and its last Undo, which has this index, isn't yet.
    Undos(u64),
    /// It serves.
    Serving,
}

/// The leadership of the leader of a term: it serves once its barrier is applied, and an Undo for each transaction whose pages
/// were pending then. Until then it appends nothing else.
#[derive(Clone, Copy, Debug, PartialEq, Eq)]
pub struct Leadership {
    /// The term that it leads.
    pub term: u64,
    /// How far it has come.
    pub phase: LeadershipPhase,
}

/// How far a leader has come that appends these Undos after its barrier. There is no memory for so many that the last one
/// has no index.
fn past_barrier(index: u64, entries: &Entries) -> Result<LeadershipPhase, AllocError>
    ensures { (term : ℕ) (contents : List Content) → entries.now ≡ written term contents → IfOk result (λ phase. phase ≡ past_barrier index contents) }
{
    if entries.is_empty() {
        return Ok(LeadershipPhase::Serving);
    }
    match index.checked_add(entries.len() as u64) {
        Some(last) => Ok(LeadershipPhase::Undos(last)),
        None => Err(AllocError),
    }
}

impl Leadership {
    /// The leadership of a leader that was elected in a term, and whose barrier has this index.
    pub fn won(term: u64, barrier: u64) -> Leadership
        ensures value { result ≡ record { term = term; phase = LeadershipPhase.Barrier barrier } }
        // The life of a node that won and has appended its barrier is that of a leader in this leadership.
        ensures office { (w : Life) → w.leads ≡ true → w.term ≡ term → w.serving ≡ false → length w.log ≡ barrier → InOffice result w }
    {
        Leadership {
            term,
            phase: LeadershipPhase::Barrier(barrier),
        }
    }

    /// Whether the leader serves.
    pub fn serves(&self) -> bool
        ensures { result ≡ serves self.now.phase }
    {
        self.phase == LeadershipPhase::Serving
    }

    /// The Undos of a leader that has applied its barrier.
    fn take_office(&mut self, alloc: Global, applied: &Applied) -> Result<Entries, AllocError>
        ensures office { OnOk result (self.new ≡ record { term = self.old.term; phase = past_barrier applied.now.index (undos (machine_of applied.now.machine)) }) }
        ensures owed { IfOk result (λ entries. entries ≡ written self.old.term (undos (machine_of applied.now.machine))) }
        ensures spelled { OnOk result (AllByRecursion HasSpelling (undos (machine_of applied.now.machine))) }
        ensures kept { OnErr result (self.new ≡ self.old) }
    {
        let entries = undos(alloc, self.term, &applied.machine)?;
        self.phase = past_barrier(applied.index, &entries)?;
        Ok(entries)
    }

    /// What the leader appends now that it has applied an entry: its Undos, one for each database with pending pages in the
    /// order of names, if the entry is its barrier; and while it serves a Checkpoint after a commit, where 1,000 pages or
    /// more were committed in the database since its last one and none waits. It serves from its barrier on where nothing was
    /// pending, else from its last Undo on. `waiting` are the entries after the applied ones. After `Err`, out of memory,
    /// the leadership is as before.
    ///
    /// Looks at each name once, and at each entry that waits where a checkpoint is due; reads and copies no entry.
    pub fn on_applied(
        &mut self,
        alloc: Global,
        applied: &Applied,
        effect: &AppliedEffect,
        waiting: &[Entry],
    ) -> Result<Entries, AllocError>
        ensures office { OnOk result (self.new ≡ office_after self.old applied.now.index (machine_of applied.now.machine)) }
        ensures owed { IfOk result (λ entries. entries ≡ written self.old.term (owed self.old.phase applied.now.index (machine_of applied.now.machine) effect.now (log_seen waiting.now))) }
        // So the entries are seen again.
        ensures spelled { OnOk result (AllByRecursion HasSpelling (owed self.old.phase applied.now.index (machine_of applied.now.machine) effect.now (log_seen waiting.now))) }
        ensures kept { OnErr result (self.new ≡ self.old) }
    {
        match self.phase {
            LeadershipPhase::Barrier(barrier) if applied.index == barrier => self.take_office(
                alloc, applied,
            ),
            LeadershipPhase::Serving => {
                checkpoint_behind(alloc, self.term, &applied.machine, effect, waiting)
            }
            LeadershipPhase::Undos(last) if applied.index == last => {
                self.phase = LeadershipPhase::Serving;
                Ok(Entries::new(Vec::new(alloc)))
            }
            LeadershipPhase::Barrier(_) | LeadershipPhase::Undos(_) => Ok(Entries::new(Vec::new(
                alloc,
            ))),
        }
    }
}
