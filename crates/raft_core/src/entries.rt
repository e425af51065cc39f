//! How the log of a node changes.
ghost use Rattle.std.specs.Prelude.{◌≡◌, ◌≤◌, ◌+◌, ◌++◌, ◌&&◌, false, nat_lt, nat_le, suc, max, IfOk, length};
ghost use Rattle.raft_spec.specs.Log.{first_replaced, term_at};
ghost use Rattle.raft_spec.specs.Node.{peers};
ghost use Rattle.raft_spec.specs.NodeValues.{node_of};
ghost use Rattle.raft_spec.specs.Outcomes.{with_term};
ghost use Rattle.raft_spec.specs.Progress.{match_in, ids_in, progress_of, after_ack};
ghost use Rattle.raft_core.specs.Effects.{Takes, change_from};

use crate::effects::LogChange;
use crate::node::RaftNode;
use raft_messages::{Entries, Entry};
use std::alloc::AllocError;

// Where a log has changed that has taken entries.
fn change_of(from: Option<u64>) -> LogChange
    ensures { result ≡ change_from from }
{
    match from {
        Some(first) => LogChange::From(first),
        None => LogChange::Nothing,
    }
}

// The entry, in this term.
fn in_term(entry: Entry, term: u64) -> Entry
    ensures { result ≡ record entry { term = term } }
{
    let mut entry = entry;
    entry.term = term;
    entry
}

impl RaftNode {
    /// Takes entries that follow a place of the log, at the snapshot's end or past it, of which none replaces a committed
    /// one; the commit index becomes the given one, if that is greater. The entries are moved.
    pub(crate) fn take_in(
        &mut self,
        place: u64,
        coming: Vec<Entry>,
        commit: u64,
    ) -> Result<LogChange, AllocError>
        requires low { self.old.snapshot.index ≤ place }
        requires high { place ≤ length (node_of self.old).log }
        requires keeps { (nat_lt 0 (first_replaced (node_of self.old).log place coming.items) && nat_le (first_replaced (node_of self.old).log place coming.items) self.old.commit) ≡ false }
        requires known { commit ≤ place + length coming.items }
        ensures { IfOk result (λ change. Takes self.old self.new place coming.items commit change) }
    {
        let from = self.log.take_after(place, coming)?;
        self.commit = self.commit.max(commit);
        Ok(change_of(from))
    }

    /// Adds a leader's entries, in its term. They are moved.
    pub(crate) fn append(&mut self, entries: Entries) -> Result<(), AllocError>
        ensures { IfOk result (λ done. self.new ≡ record self.old { entries = self.old.entries ++ with_term self.old.term entries }) }
    {
        let term = self.term();
        for entry in entries.into_vec() {
            self.push(in_term(entry, term))?;
        }
        Ok(())
    }

    /// A leader takes the Ack of a node.
    pub(crate) fn ack(&mut self, from: u64, good: bool, index: u64)
        requires { index ≤ 4294967295 }
        ensures rows { progress_of self.new.rows ≡ after_ack (progress_of self.old.rows) from good index }
        ensures rest { self.new ≡ record self.old { rows = self.new.rows } }
        ensures ids { ids_in self.old.rows ≡ peers self.old.servers self.old.id }
    {
        self.progress.on_ack(from, good, index);
    }

    /// Up to which index a node's log is known to agree with the leader's.
    pub(crate) fn match_of(&self, peer: u64) -> u64
        ensures { result ≡ match_in self.now.rows peer }
    {
        self.progress.match_of(peer)
    }
}
