//! The configurations that a node keeps of its whole log, as it grows, is compacted and is applied.
ghost use Rattle.std.specs.Prelude.{◌≡◌, ◌<◌, ◌≤◌, ◌-◌, ◌++◌, [], ◌∷◌, suc, true, false, List, IfOk, OnOk, OnErr, nat_lt, length, take};
ghost use Rattle.raft_spec.specs.Log.{Entry as EntryValue};
ghost use Rattle.raft_spec.specs.Node.{Server as ServerValue, voters};
ghost use Rattle.raft_safety.specs.Members.{Setup, changes, servers_read, configuration, voters_after};
ghost use Rattle.raft_messages.specs.Servers.{IsConfiguration};
ghost use Rattle.raft_membership.specs.Members.{AllStand, first_of, below, last_index, last_servers, with_change, cut_at, settled, SettlesOne, changed, read_setup, IsOf};

use crate::changes::standing_change;
use raft_messages::{Entry, Server, Servers};
use std::alloc::{AllocError, Global};
use std::marker::Model;

/// A configuration, and the index of the entry that changes to it.
#[derive(Drop)]
pub(crate) struct Change {
    pub(crate) index: u64,
    pub(crate) servers: Servers,
}

/// The configurations of a node's whole log: the one at an index up to which the log is applied, and those of the changes
/// after it. The last one counts for votes and commits.
#[derive(Drop)]
pub struct Members {
    at: u64,
    servers: Servers,
    changes: Vec<Change>,
}

impl Model for Members {
    ghost use Rattle.raft_membership.specs.Members.{Configurations};

    ghost Value = { Configurations };

    ghost view = { λ m. record { at = m.at; servers = m.servers; later = m.changes.items } };
}

/// How many changes from the first on are below an index, before one that doesn't.
fn below_count(changes: &[Change], index: u64) -> usize
    ensures front { take result changes.now ≡ below index changes.now }
    ensures within { result ≤ length changes.now }
{
    for n in 0..changes.len() {
        let change = &changes[n];
        if change.index >= index {
            return n;
        }
    }
    changes.len()
}

impl Members {
    /// Those of a log that ends at this index, whose configuration is this one.
    pub fn new(alloc: Global, servers: Servers, at: u64) -> Members
        ensures value { result ≡ first_of servers at }
        ensures stand { IsConfiguration servers → AllStand result }
        ensures is { (setup : Setup) (log : List EntryValue) → length log ≡ at → configuration setup log ≡ servers → IsOf setup log result }
    {
        Members {
            at,
            servers,
            changes: Vec::new(alloc),
        }
    }

    /// A change joins the log at an index past the last one. `Err` means out of memory; all stays then. Constant cost,
    /// except for a `Vec` that grows.
    pub fn push(&mut self, index: u64, servers: Servers) -> Result<(), AllocError>
        requires { last_index self.old < index }
        ensures pushed { OnOk result (self.new ≡ with_change self.old index servers) }
        ensures kept { OnErr result (self.new ≡ self.old) }
        ensures stand { AllStand self.old → IsConfiguration servers → OnOk result (AllStand self.new) }
        ensures is { (setup : Setup) (log : List EntryValue) (e : EntryValue) → IsOf setup log self.old → index ≡ suc (length log) →
            changes setup e ≡ true → servers_read (setup.read e.bytes) ≡ servers → OnOk result (IsOf setup (log ++ e ∷ []) self.new) }
    {
        self.changes.push(Change { index, servers })?;
        Ok(())
    }

    /// An entry joins the log at an index past the last one; true if it is a change that reads, which is pushed. `Err`
    /// means out of memory; all stays then. Reads the entry once.
    pub fn take_in(&mut self, alloc: Global, index: u64, entry: &Entry) -> Result<bool, AllocError>
        requires { last_index self.old < index }
        ensures told { IfOk result (λ told. told ≡ changes (read_setup []) entry.now) }
        ensures taken { OnOk result (self.new ≡ changed self.old index entry.now) }
        ensures kept { OnErr result (self.new ≡ self.old) }
        ensures stand { AllStand self.old → OnOk result (AllStand self.new) }
        ensures is { (opening : List ServerValue) (log : List EntryValue) → IsOf (read_setup opening) log self.old → index ≡ suc (length log) →
            OnOk result (IsOf (read_setup opening) (log ++ entry.now ∷ []) self.new) }
    {
        let Some(servers) = standing_change(alloc, entry)? else {
            return Ok(false);
        };
        self.push(index, servers)?;
        Ok(true)
    }

    /// The log is compacted: entries at an index or past it are gone, and with them their changes. True where there were any.
    /// The index is past the one that the log is applied up to. Looks at each change once.
    pub fn cut_from(&mut self, index: u64) -> bool
        requires { self.old.at < index }
        ensures cut { self.new ≡ cut_at self.old index }
        ensures told { result ≡ nat_lt (length self.new.later) (length self.old.later) }
        ensures stays { result ≡ false → self.new ≡ self.old }
        ensures low { last_index self.new < index }
        ensures stand { AllStand self.old → AllStand self.new }
        ensures is { (setup : Setup) (log : List EntryValue) → IsOf setup log self.old → IsOf setup (take (index - 1) log) self.new }
    {
        let kept = below_count(self.changes.as_slice(), index);
        let told = kept < self.changes.len();
        self.changes.truncate(kept);
        told
    }

    /// The first change is the applied configuration from now on, if it is at or below the applied index.
    fn settle_one(&mut self, applied: u64) -> bool
        ensures { SettlesOne applied self.old self.new result }
    {
        if self.changes.is_empty() || self.changes[0].index > applied {
            return false;
        }
        let first = self.changes.remove(0);
        self.servers = first.servers;
        true
    }

    /// The log is applied up to an index, which never falls: the last configuration at or below it, and those past it,
    /// stay. The cost is in the order of the square of the number of changes.
    pub fn settle(&mut self, applied: u64)
        requires { self.old.at ≤ applied }
        ensures settled { self.new ≡ settled self.old applied }
        ensures stand { AllStand self.old → AllStand self.new }
        ensures is { (setup : Setup) (log : List EntryValue) → IsOf setup log self.old → applied ≤ length log → IsOf setup log self.new }
    {
        while self.settle_one(applied) {}
        self.at = applied;
    }

    /// The configuration that counts for votes and commits: that of the last change that reads in the whole log, else the
    /// opening one. A node that is told it was given the voters that its log gives. Constant cost.
    pub fn current(&self) -> &[Server]
        ensures value { result.now ≡ last_servers self.now }
        ensures stands { AllStand self.now → IsConfiguration result.now }
        ensures is { (setup : Setup) (log : List EntryValue) → IsOf setup log self.now → result.now ≡ configuration setup log }
        ensures voters { (setup : Setup) (log : List EntryValue) → IsOf setup log self.now → voters result.now ≡ voters_after setup log }
    {
        match self.changes.last() {
            Some(change) => change.servers.as_slice(),
            None => self.servers.as_slice(),
        }
    }

    /// The index up to which the log is applied. Constant cost.
    pub fn applied_index(&self) -> u64
        ensures { result ≡ self.now.at }
    {
        self.at
    }

    /// The index of the last change; the one up to which the log is applied, if no change is after it. Constant cost.
    pub fn last_index(&self) -> u64
        ensures { result ≡ last_index self.now }
    {
        match self.changes.last() {
            Some(change) => change.index,
            None => self.at,
        }
    }

    /// The configuration at the index up to which the log is applied. Constant cost.
    pub fn applied(&self) -> &[Server]
        ensures value { result.now ≡ self.now.servers }
        ensures stands { AllStand self.now → IsConfiguration result.now }
        ensures is { (setup : Setup) (log : List EntryValue) → IsOf setup log self.now → result.now ≡ configuration setup (take self.now.at log) }
    {
        self.servers.as_slice()
    }
}
