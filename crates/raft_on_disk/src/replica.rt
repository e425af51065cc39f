//! One node's Raft over its store.
ghost use Rattle.std.specs.Prelude.{◌≡◌, ◌<◌, ◌≤◌, ◌+◌, suc, true, IfOk, OnOk, OnErr};
ghost use Rattle.raft_spec.specs.Account.{loaded};
ghost use Rattle.raft_spec.specs.Log.{term_at};
ghost use Rattle.raft_spec.specs.Laws.{HasShortTerm};
ghost use Rattle.raft_spec.specs.NodeValues.{node_of};
ghost use Rattle.raft_messages.specs.Servers.{IsConfiguration};
ghost use Rattle.raft_core.specs.Events.{EventFits};
ghost use Rattle.store_format.specs.FilesRead.{snap_kept, HasIndex};
ghost use Rattle.store_format.specs.Starts.{CanStart};
ghost use Rattle.segment_store.specs.Keeping.{snap_value};
ghost use Rattle.segment_store.specs.Faults.{DiskCause};
ghost use Rattle.raft_on_disk.specs.Keeping.{StaysUnlessKept};
ghost use Rattle.raft_on_disk.specs.Letters.{Tells};
ghost use Rattle.raft_on_disk.specs.Replicas.{HasMoved, IsIntake, IsKept, IsNoneAtZero, IsWhole};
ghost use Rattle.raft_on_disk.specs.Replicas.{bytes_after, kept_of, log_count, own_snap, said, snap_after, snapped, stepped, stored_at};
ghost use Rattle.raft_on_disk.specs.Stops.{Stops, votes_between};

use crate::letters::letters;
use crate::raft_storage::RaftStorage;
use disk_model::Disk;
use raft_core::{OutgoingList, RaftEvent, RaftNode, StoredRaft, Todo};
use raft_messages::{LogEnd, RaftMessage, Server, SharedBytes, Snapshot};
use segment_store::{Kept, Store, StoreFault};
use std::alloc::{AllocError, Global};
use std::marker::Model;
use wire_words::WireBytes;

/// One node's Raft over its store: what a step of Raft leaves is kept on the disk before its messages are handed out.
///
/// After an `Err` of a call the replica is to be dropped. A new one starts from what a load of the disk answers, which is
/// what was kept before the call, or with the new term and vote, or after it.
#[derive(Drop)]
pub struct Replica {
    pub(crate) alloc: Global,
    pub(crate) id: u64,
    pub(crate) raft: RaftNode,
    pub(crate) keeper: RaftStorage,
}

impl Model for Replica {
    ghost use Rattle.raft_on_disk.specs.Replicas.{ReplicaValue};

    ghost Value = { ReplicaValue };

    ghost use Rattle.segment_store.specs.Keeping.{snap_value};

    ghost view = { λ r. record { id = r.id; raft = r.raft; snap = snap_value r.keeper.snapshot; store = r.keeper.store; keeps = r.keeper.keeps } };
}

/// What a step of Raft has changed, and what it says.
#[derive(Drop)]
pub struct RaftStep {
    /// The first index at which the log is another one now, if its entries have changed.
    pub batch: Option<u64>,
    /// Whether a snapshot came in place of all entries up to its end.
    pub installed: bool,
    /// What is to be sent, in order. An Install has the bytes of the kept snapshot, shared.
    pub messages: Vec<RaftMessage>,
}

// What is to be sent.
fn sends_of(todo: Todo) -> OutgoingList
    ensures { result ≡ todo.sends }
{
    todo.sends
}

// A snapshot that is kept; one of index 0 without one.
fn held(alloc: Global, snapshot: Option<Snapshot>) -> Result<Snapshot, AllocError>
    requires { HasIndex snapshot }
    ensures same { IfOk result (λ held. snap_value held ≡ snap_kept snapshot) }
    ensures none { IfOk result (λ held. IsNoneAtZero (snap_value held)) }
{
    match snapshot {
        Some(snapshot) => Ok(snapshot),
        None => Ok(Snapshot {
            index: 0,
            term: 0,
            bytes: SharedBytes::new(alloc, WireBytes::new(Vec::new(alloc)))?,
        }),
    }
}

impl Replica {
    /// Starts over what a load of the disk has answered: a follower that has applied its snapshot alone, and was given these
    /// servers, which are those of its log. All that is kept is moved into it.
    ///
    /// Conditions: the servers may stand together; what was kept is what a load answers.
    pub fn start(
        alloc: Global,
        id: u64,
        servers: &[Server],
        store: Store,
        kept: Kept,
    ) -> Result<Replica, AllocError>
        requires config { IsConfiguration servers.now }
        requires log { CanStart kept }
        ensures whole { IfOk result (λ replica. IsWhole replica) }
        ensures raft { IfOk result (λ replica. node_of replica.raft ≡ loaded true servers.now (stored_at kept)) }
        ensures short { IfOk result (λ replica. HasShortTerm (node_of replica.raft)) }
        // It keeps what was kept, so the disk that was loaded keeps what Raft is now.
        ensures kept { IfOk result (λ replica. kept_of replica ≡ kept) }
        ensures store { IfOk result (λ replica. replica.store ≡ store) }
        ensures snap { IfOk result (λ replica. replica.snap ≡ kept.snap) }
        ensures id { IfOk result (λ replica. replica.id ≡ id) }
        ensures keeps { IfOk result (λ replica. replica.keeps ≡ 0) }
    {
        let Kept {
            term,
            vote,
            snapshot,
            first,
            entries,
        } = kept;
        let snapshot = held(alloc, snapshot)?;
        let end = LogEnd {
            index: snapshot.index,
            term: snapshot.term,
        };
        let loaded = StoredRaft {
            term,
            vote,
            snapshot: Some(end),
            first,
            entries,
        };
        let raft = RaftNode::new(alloc, id, servers, loaded)?;
        let keeper = RaftStorage {
            store,
            snapshot,
            keeps: 0,
        };
        Ok(Replica {
            alloc,
            id,
            raft,
            keeper,
        })
    }

    /// One step of Raft. Term and vote are kept first, if one of them is new, and then the batch or the snapshot; only
    /// then are there messages. So after `Ok` the disk keeps what Raft is now.
    ///
    /// After an `Err` a load of the disk answers what was kept before, that with the new term and vote, or what Raft is
    /// after the step, maybe with a longer old part of its log; the count of keeps says which may be. Nothing is said
    /// then. `DiskFault` comes only if the disk counted one. `NoMemory` is also a count or an index past 64 bits.
    ///
    /// Conditions: those of Raft's step on servers; an own snapshot goes by `snapshot`.
    ///
    /// Costs Raft's step and the store's calls. No byte of an entry or a snapshot is copied here.
    pub fn step<D: Disk>(&mut self, event: RaftEvent, disk: &mut D) -> Result<RaftStep, StoreFault>
        requires whole { IsWhole self.old }
        requires fits { EventFits self.old.raft event }
        requires intake { IsIntake event }
        ensures whole { OnOk result (IsWhole self.new) }
        ensures id { self.new.id ≡ self.old.id }
        ensures raft { OnOk result (node_of self.new.raft ≡ stepped self.old event) }
        ensures short { HasShortTerm (node_of self.old.raft) → OnOk result (HasShortTerm (node_of self.new.raft)) }
        ensures commit { OnOk result (self.old.raft.commit ≤ self.new.raft.commit) }
        // The kept snapshot is the very one that came, if one came past the commit index.
        ensures snap { OnOk result (self.new.snap ≡ snap_after self.old event) }
        ensures bytes { OnOk result (self.new.snap.bytes ≡ bytes_after self.old event) }
        ensures moved { IfOk result (λ moved. HasMoved (node_of self.old.raft) (node_of self.new.raft) moved.batch moved.installed) }
        ensures tells { IfOk result (λ moved. Tells (said self.old event) self.new.snap moved.messages.items) }
        // The disk keeps what Raft is, before the step and after it.
        ensures kept { IsKept D.tells (D.states disk.old) self.old → OnOk result (IsKept D.tells (D.states disk.new) self.new) }
        ensures stopped { IsKept D.tells (D.states disk.old) self.old →
            OnErr result (Stops D.tells (D.states disk.new) (node_of self.old.raft) (stepped self.old event)
            self.old.snap.bytes (bytes_after self.old event) self.old.keeps self.new.keeps) }
        ensures keeps { IfOk result (λ moved.
            self.new.keeps ≡ self.old.keeps + votes_between (node_of self.old.raft) (stepped self.old event) + log_count moved.batch moved.installed) }
        // Where nothing was kept: want of the node's own memory leaves the disk as it was.
        ensures stays { StaysUnlessKept self.old.keeps self.new.keeps disk.old disk.new (D.faults disk.old) (D.faults disk.new)
            (D.wants disk.old) (D.wants disk.new) result }
        ensures cause { DiskCause (D.faults disk.old) (D.faults disk.new) result }
    {
        let Todo {
            meta,
            batch,
            install,
            sends,
            commit: _,
        } = self.raft.step(self.alloc, event)?;
        let installed = install.is_some();
        self.keeper.keep_vote(disk, meta)?;
        self.keeper.keep_log(disk, &self.raft, batch, install)?;
        let messages = letters(self.alloc, self.id, &self.keeper.snapshot, sends)?;
        Ok(RaftStep {
            batch,
            installed,
            messages,
        })
    }

    // The term of the entry at an applied index past the last snapshot.
    fn applied_term(&self, index: u64) -> u64
        requires whole { IsWhole self.now }
        requires past { self.now.raft.snapshot.index < index }
        requires applied { index ≤ self.now.raft.commit }
        ensures { result ≡ term_at (node_of self.now.raft).log index }
    {
        self.raft.term_at(index).unwrap()
    }

    /// Takes an own snapshot at an applied index past the last one, of which these are the bytes: keeps it with the log
    /// after it, from up to 16 entries before its end on, and tells Raft. Answers what Raft says then: Appends, if a
    /// leader's commit index moves.
    ///
    /// After an `Err` a load of the disk answers what was kept before, or what Raft is after it, maybe with a longer old
    /// part of the log. Nothing is said then. `DiskFault` comes only if the disk counted one.
    ///
    /// The bytes are shared, and copied once, by the store.
    pub fn snapshot<D: Disk>(
        &mut self,
        index: u64,
        bytes: SharedBytes,
        disk: &mut D,
    ) -> Result<Vec<RaftMessage>, StoreFault>
        requires whole { IsWhole self.old }
        requires past { self.old.raft.snapshot.index < index }
        requires applied { index ≤ self.old.raft.commit }
        ensures whole { OnOk result (IsWhole self.new) }
        ensures id { self.new.id ≡ self.old.id }
        ensures raft { OnOk result (node_of self.new.raft ≡ stepped self.old (snapped self.old index)) }
        ensures short { HasShortTerm (node_of self.old.raft) → OnOk result (HasShortTerm (node_of self.new.raft)) }
        ensures commit { OnOk result (self.old.raft.commit ≤ self.new.raft.commit) }
        ensures snap { OnOk result (self.new.snap ≡ own_snap self.old index bytes) }
        ensures tells { IfOk result (λ messages. Tells (said self.old (snapped self.old index)) self.new.snap messages.items) }
        ensures kept { IsKept D.tells (D.states disk.old) self.old → OnOk result (IsKept D.tells (D.states disk.new) self.new) }
        ensures stopped { IsKept D.tells (D.states disk.old) self.old →
            OnErr result (Stops D.tells (D.states disk.new) (node_of self.old.raft) (stepped self.old (snapped self.old index))
            self.old.snap.bytes bytes self.old.keeps self.new.keeps) }
        ensures keeps { OnOk result (self.new.keeps ≡ suc self.old.keeps) }
        // Where nothing was kept: want of the node's own memory leaves the disk as it was.
        ensures stays { StaysUnlessKept self.old.keeps self.new.keeps disk.old disk.new (D.faults disk.old) (D.faults disk.new)
            (D.wants disk.old) (D.wants disk.new) result }
        ensures cause { DiskCause (D.faults disk.old) (D.faults disk.new) result }
    {
        let term = self.applied_term(index);
        let first = self.raft.kept_from(index);
        let snapshot = Snapshot { index, term, bytes };
        self.keeper
            .keep_snapshot(disk, snapshot, first, self.raft.tail(first))?;
        let at = LogEnd { index, term };
        let todo = self.raft.step(self.alloc, RaftEvent::Snapped { at })?;
        let messages = letters(self.alloc, self.id, &self.keeper.snapshot, sends_of(todo))?;
        Ok(messages)
    }
}
