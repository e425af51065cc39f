//! Log replication: what an Append does at a follower, what its Ack does at the leader, and what a leader appends.
ghost use Rattle.std.specs.Prelude.{◌≡◌, ◌<◌, ◌≤◌, ◌+◌, ◌-◌, ◌&&◌, nat_lt, nat_le, max, min, true, IfOk, length, drop};
ghost use Rattle.raft_spec.specs.Log.{first_replaced};
ghost use Rattle.raft_spec.specs.Node.{among, peers, is_leader};
ghost use Rattle.raft_spec.specs.NodeValues.{node_of};
ghost use Rattle.raft_spec.specs.Replication.{agrees, on_append, on_ack, on_propose, on_beat, on_transfer};
ghost use Rattle.raft_core.specs.Effects.{Does};

use crate::effects::{Effects, LogChange, Recipients, Say};
use crate::node::{RaftNode, contains};
use raft_messages::{Entries, Entry, LogEnd};
use std::alloc::AllocError;

// The entries of an Append that are past an index: those up to there go.
fn past(entries: Vec<Entry>, prev: LogEnd, index: u64) -> Vec<Entry>
    ensures { result.items ≡ drop (index - prev.index) entries.items }
{
    let mut entries = entries;
    let count = index.saturating_sub(prev.index);
    let gone = count.min(entries.len() as u64);
    drop(entries.drain(..gone as usize));
    entries
}

// The previous place of an Append, or the snapshot's end where that is later.
fn place_past(prev: LogEnd, snapshot: LogEnd) -> u64
    ensures { result ≡ max prev.index snapshot.index }
{
    prev.index.max(snapshot.index)
}

// The index of the last entry of an Append.
fn last_known(prev: LogEnd, entries: &[Entry]) -> u64
    requires index { prev.index ≤ 4294967295 }
    requires few { length entries.now ≤ 16 }
    ensures { result ≡ prev.index + length entries.now }
{
    prev.index + entries.len() as u64
}

// The leader's commit index, as far as the log is known to agree.
fn known_commit(commit: u64, index: u64) -> u64
    ensures { result ≡ min commit index }
{
    commit.min(index)
}

impl RaftNode {
    // Whether the log agrees with an Append's previous place: it has it, or the snapshot reaches as far.
    fn agrees(&self, prev: LogEnd) -> bool
        ensures answer { result ≡ agrees (node_of self.now) prev }
        ensures place { result ≡ true → max prev.index self.now.snapshot.index ≤ length (node_of self.now).log }
    {
        // A look at a part shows the prover what holds of the log.
        let _ = &self.votes;
        let snapshot = self.snapshot();
        if prev.index <= snapshot.index {
            return true;
        }
        self.has_place(prev)
    }

    // Whether the log has a place past the snapshot.
    fn has_place(&self, prev: LogEnd) -> bool
        requires { self.now.snapshot.index < prev.index }
        ensures { result ≡ agrees (node_of self.now) prev }
    {
        self.log.matches(prev.index, prev.term)
    }

    // Whether the entries that follow a place of the log would replace one that is committed.
    fn replaces_committed(&self, place: u64, coming: &[Entry]) -> bool
        requires low { self.now.snapshot.index ≤ place }
        requires high { place ≤ length (node_of self.now).log }
        ensures { result ≡ (nat_lt 0 (first_replaced (node_of self.now).log place coming.now) && nat_le (first_replaced (node_of self.now).log place coming.now) self.now.commit) }
    {
        self.log.replaces(place, coming, self.commit)
    }

    /// An Append of the own term. Its entries are moved into the log.
    pub(crate) fn on_append(
        &mut self,
        from: u64,
        prev: LogEnd,
        commit: u64,
        entries: Vec<Entry>,
    ) -> Result<Effects, AllocError>
        requires index { prev.index ≤ 4294967295 }
        requires few { length entries.items ≤ 16 }
        ensures { IfOk result (λ effects. Does self.old (on_append self.old.id (node_of self.old) from prev commit entries.items) self.new effects) }
    {
        if self.leads() {
            return Ok(Effects::says(Say::Nothing));
        }
        if !self.agrees(prev) {
            let index = self.last_index();
            self.follow(from);
            return Ok(Effects::says(Say::Ack {
                to: from,
                good: false,
                index,
            }));
        }
        let index = last_known(prev, entries.as_slice());
        let place = place_past(prev, self.snapshot());
        let coming = past(entries, prev, place);
        if self.replaces_committed(place, coming.as_slice()) {
            return Ok(Effects::says(Say::Nothing));
        }
        self.follow(from);
        let change = self.take_in(place, coming, known_commit(commit, index))?;
        Ok(Effects {
            say: Say::Ack {
                to: from,
                good: true,
                index,
            },
            recipients: Recipients::Nobody,
            change,
        })
    }

    /// An Ack of the own term.
    pub(crate) fn on_ack(&mut self, from: u64, good: bool, index: u64) -> Effects
        requires { index ≤ 4294967295 }
        ensures { Does self.old (on_ack self.old.id (node_of self.old) from good index) self.new result }
    {
        if !self.leads() {
            return Effects::says(Say::Nothing);
        }
        if !contains(self.peers(), from) {
            return Effects::says(Say::Nothing);
        }
        if good {
            self.on_good_ack(from, index)
        } else {
            self.ack(from, false, index);
            Effects::sends(Recipients::Only(from))
        }
    }

    // A good Ack of a peer at a leader.
    fn on_good_ack(&mut self, from: u64, index: u64) -> Effects
        requires index { index ≤ 4294967295 }
        requires leads { is_leader self.old.role ≡ true }
        requires peer { among (peers self.old.servers self.old.id) from ≡ true }
        ensures { Does self.old (on_ack self.old.id (node_of self.old) from true index) self.new result }
    {
        let last = self.last_index();
        if last < index {
            return Effects::says(Say::Nothing);
        }
        self.ack(from, true, index);
        if self.match_of(from) < last {
            return Effects::sends(Recipients::Only(from));
        }
        Effects::says(Say::Nothing)
    }

    /// A leader appends entries, which are moved into its log.
    pub(crate) fn propose(&mut self, entries: Entries) -> Result<Effects, AllocError>
        ensures { IfOk result (λ effects. Does self.old (on_propose (node_of self.old) entries) self.new effects) }
    {
        if !self.leads() {
            return Ok(Effects::says(Say::Nothing));
        }
        if entries.is_empty() {
            return Ok(Effects::sends(Recipients::Everyone));
        }
        let first = self.next_index()?;
        self.append(entries)?;
        Ok(Effects {
            say: Say::Nothing,
            recipients: Recipients::Everyone,
            change: LogChange::From(first),
        })
    }

    /// A leader's heartbeat.
    pub(crate) fn heartbeat(&self) -> Effects
        ensures { Does self.now (on_beat (node_of self.now)) self.now result }
    {
        if self.leads() {
            return Effects::sends(Recipients::Everyone);
        }
        Effects::says(Say::Nothing)
    }

    /// A leader hands its leadership over.
    pub(crate) fn transfer(&self, to: u64) -> Effects
        ensures { Does self.now (on_transfer self.now.id (node_of self.now) to) self.now result }
    {
        if !self.leads() {
            return Effects::says(Say::Nothing);
        }
        if to == self.id() {
            return Effects::says(Say::Nothing);
        }
        Effects::says(Say::TimeoutNow { to })
    }
}
