//! What a node keeps over its disk: the store, the kept snapshot, and how many times something was kept.
ghost use Rattle.std.specs.Prelude.{◌≡◌, ◌<◌, ◌≤◌, suc, Some, None, IfOk, OnOk, MatchOption};
ghost use Rattle.raft_spec.specs.NodeValues.{node_of};
ghost use Rattle.store_laws.specs.Store.{Kept};
ghost use Rattle.store_laws.specs.Append.{CanAppend, with_batch};
ghost use Rattle.store_laws.specs.Meta.{with_vote};
ghost use Rattle.segment_store.specs.Faults.{DiskCause};
ghost use Rattle.segment_store.specs.Keeping.{CanKeep, snap_value};
ghost use Rattle.raft_on_disk.specs.Keeping.{voted, one_of, writes_of, kept_snapshot, Counts, StaysUnlessKept, Stores, StoresSnapshot, KeepsLog};

use disk_model::Disk;
use raft_core::RaftNode;
use raft_messages::{Entry, Snapshot};
use segment_store::{Store, StoreFault};
use std::alloc::AllocError;

/// A store over a disk, with the snapshot that is kept in it, and how many times something was kept since the count began.
#[derive(Drop)]
pub(crate) struct RaftStorage {
    pub(crate) store: Store,
    // one of index 0 without one
    pub(crate) snapshot: Snapshot,
    pub(crate) keeps: u64,
}

// The number after one. One past 64 bits means out of memory.
pub(crate) fn one_more(number: u64) -> Result<u64, AllocError>
    ensures { IfOk result (λ next. next ≡ suc number) }
{
    match number.checked_add(1) {
        Some(next) => Ok(next),
        None => Err(AllocError),
    }
}

impl RaftStorage {
    // Keeps a term and a vote.
    fn set_vote<D: Disk>(&mut self, disk: &mut D, term: u64, vote: u64) -> Result<(), StoreFault>
        ensures kept { (k : Kept) → Stores D.tells (D.states disk.old) (D.states disk.new) self.old.store self.new.store k (with_vote term vote k) result }
        ensures snapshot { self.new.snapshot ≡ self.old.snapshot }
        ensures counts { Counts 1 self.old.keeps self.new.keeps result }
        ensures cause { DiskCause (D.faults disk.old) (D.faults disk.new) result }
        ensures stays { StaysUnlessKept self.old.keeps self.new.keeps disk.old disk.new (D.faults disk.old) (D.faults disk.new)
            (D.wants disk.old) (D.wants disk.new) result }
    {
        let next = one_more(self.keeps)?;
        self.store.set_meta(disk, term, vote)?;
        self.keeps = next;
        Ok(())
    }

    // Keeps term and vote, if a step hands them over.
    pub(crate) fn keep_vote<D: Disk>(
        &mut self,
        disk: &mut D,
        meta: Option<(u64, u64)>,
    ) -> Result<(), StoreFault>
        ensures kept { (k : Kept) → Stores D.tells (D.states disk.old) (D.states disk.new) self.old.store self.new.store k (voted meta k) result }
        ensures snapshot { self.new.snapshot ≡ self.old.snapshot }
        ensures counts { Counts (one_of meta) self.old.keeps self.new.keeps result }
        ensures cause { DiskCause (D.faults disk.old) (D.faults disk.new) result }
        ensures stays { StaysUnlessKept self.old.keeps self.new.keeps disk.old disk.new (D.faults disk.old) (D.faults disk.new)
            (D.wants disk.old) (D.wants disk.new) result }
    {
        match meta {
            None => Ok(()),
            Some((term, vote)) => self.set_vote(disk, term, vote),
        }
    }

    // Keeps a batch: the entries from an index on, in place of all from there.
    pub(crate) fn keep_batch<D: Disk>(
        &mut self,
        disk: &mut D,
        first: u64,
        entries: &[Entry],
    ) -> Result<(), StoreFault>
        ensures kept { (k : Kept) → CanAppend k (record { first = first; entries = entries.now }) →
            Stores D.tells (D.states disk.old) (D.states disk.new) self.old.store self.new.store k
            (with_batch (record { first = first; entries = entries.now }) k) result }
        ensures snapshot { self.new.snapshot ≡ self.old.snapshot }
        ensures counts { Counts 1 self.old.keeps self.new.keeps result }
        ensures cause { DiskCause (D.faults disk.old) (D.faults disk.new) result }
        ensures stays { StaysUnlessKept self.old.keeps self.new.keeps disk.old disk.new (D.faults disk.old) (D.faults disk.new)
            (D.wants disk.old) (D.wants disk.new) result }
    {
        let next = one_more(self.keeps)?;
        self.store.append(disk, first, entries)?;
        self.keeps = next;
        Ok(())
    }

    // Keeps a snapshot, with the log from an index on.
    pub(crate) fn keep_snapshot<D: Disk>(
        &mut self,
        disk: &mut D,
        snapshot: Snapshot,
        first: u64,
        rest: &[Entry],
    ) -> Result<(), StoreFault>
        ensures kept { (k : Kept) → CanKeep k (snap_value snapshot) (record { first = first; entries = rest.now }) →
            StoresSnapshot D.tells (D.states disk.old) (D.states disk.new) self.old.store self.new.store k
            (snap_value snapshot) (record { first = first; entries = rest.now }) result }
        ensures snapshot { OnOk result (self.new.snapshot ≡ snapshot) }
        ensures counts { Counts 1 self.old.keeps self.new.keeps result }
        ensures cause { DiskCause (D.faults disk.old) (D.faults disk.new) result }
        ensures stays { StaysUnlessKept self.old.keeps self.new.keeps disk.old disk.new (D.faults disk.old) (D.faults disk.new)
            (D.wants disk.old) (D.wants disk.new) result }
    {
        let next = one_more(self.keeps)?;
        self.store.keep_snapshot(disk, &snapshot, first, rest)?;
        self.keeps = next;
        self.snapshot = snapshot;
        Ok(())
    }

    // Keeps a snapshot that came, with what stays of the log after it.
    fn keep_install<D: Disk>(
        &mut self,
        disk: &mut D,
        raft: &RaftNode,
        snapshot: Snapshot,
    ) -> Result<(), StoreFault>
        requires { raft.now.base ≤ snapshot.index }
        ensures kept { (k : Kept) →
            KeepsLog D.tells (D.states disk.old) (D.states disk.new) self.old.store self.new.store k (node_of raft.now).log (Some snapshot) None result }
        ensures snapshot { OnOk result (self.new.snapshot ≡ snapshot) }
        ensures counts { Counts 1 self.old.keeps self.new.keeps result }
        ensures cause { DiskCause (D.faults disk.old) (D.faults disk.new) result }
        ensures stays { StaysUnlessKept self.old.keeps self.new.keeps disk.old disk.new (D.faults disk.old) (D.faults disk.new)
            (D.wants disk.old) (D.wants disk.new) result }
    {
        let first = one_more(snapshot.index)?;
        self.keep_snapshot(disk, snapshot, first, raft.tail(first))
    }

    // Keeps what a step writes of the log: a snapshot that came, or a batch.
    pub(crate) fn keep_log<D: Disk>(
        &mut self,
        disk: &mut D,
        raft: &RaftNode,
        batch: Option<u64>,
        install: Option<Snapshot>,
    ) -> Result<(), StoreFault>
        requires batch { MatchOption batch (Unit {0}) (λ first. raft.now.base < first) }
        requires install { MatchOption install (Unit {0}) (λ snapshot. (raft.now.base ≤ snapshot.index) × (batch ≡ None)) }
        ensures kept { (k : Kept) →
            KeepsLog D.tells (D.states disk.old) (D.states disk.new) self.old.store self.new.store k (node_of raft.now).log install batch result }
        ensures snapshot { OnOk result (self.new.snapshot ≡ kept_snapshot self.old.snapshot install) }
        ensures counts { Counts (writes_of install batch) self.old.keeps self.new.keeps result }
        ensures cause { DiskCause (D.faults disk.old) (D.faults disk.new) result }
        ensures stays { StaysUnlessKept self.old.keeps self.new.keeps disk.old disk.new (D.faults disk.old) (D.faults disk.new)
            (D.wants disk.old) (D.wants disk.new) result }
    {
        match install {
            Some(snapshot) => self.keep_install(disk, raft, snapshot),
            None => match batch {
                Some(first) => self.keep_batch(disk, first, raft.tail(first)),
                None => Ok(()),
            },
        }
    }
}
