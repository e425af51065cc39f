//! The configurations of a node's whole log follow the log of its Raft.
ghost use Rattle.std.specs.Prelude.{◌≡◌, ◌<◌, ◌≤◌, ◌-◌, ◌++◌, ◌||◌, suc, false, nat_lt, List, [], IfOk, OnOk, length, take, drop};
ghost use Rattle.raft_spec.specs.Log.{Entry as EntryValue};
ghost use Rattle.raft_spec.specs.Node.{Server as ServerValue};
ghost use Rattle.raft_spec.specs.NodeValues.{node_of};
ghost use Rattle.raft_safety.specs.Members.{any_change, configuration};
ghost use Rattle.raft_messages.specs.Servers.{IsConfiguration};
ghost use Rattle.raft_membership.specs.Members.{AllStand, IsOf, all_changed, cut_at, first_of, read_setup};
ghost use Rattle.raft_on_disk.specs.Replicas.{IsWhole};

use crate::raft_storage::one_more;
use crate::replica::Replica;
use raft_membership::Members;
use raft_messages::Servers;
use std::alloc::{AllocError, Global};

fn either(one: bool, other: bool) -> bool
    ensures { result ≡ (one || other) }
{
    one || other
}

impl Replica {
    /// The configurations follow a step after which the log is another one from this index on: changes from there on are
    /// gone, and those that are there now join. If the answer is false the configurations are those that they were;
    /// if it is true, a node that doesn't lead gives its Raft the current one.
    ///
    /// Reads each entry from there on once. `Err` means out of memory; the configurations are to be dropped then, with
    /// the replica.
    pub fn follow(&self, members: &mut Members, first: u64) -> Result<bool, AllocError>
        requires cut { self.now.raft.base < first }
        requires past { members.old.at < first }
        // They are those of the whole log with this one's entries from the index on.
        ensures is { (opening : List ServerValue) (log : List EntryValue) → IsOf (read_setup opening) log members.old → first ≤ suc (length log) →
            OnOk result (IsOf (read_setup opening) (take (first - 1) log ++ drop (first - 1) (node_of self.now.raft).log) members.new) }
        ensures stand { AllStand members.old → OnOk result (AllStand members.new) }
        ensures at { OnOk result (members.new.at ≡ members.old.at) }
        ensures stays { IfOk result (λ told. told ≡ false → members.new ≡ members.old) }
        ensures exact { OnOk result (members.new ≡ all_changed (cut_at members.old first) first (drop (first - 1) (node_of self.now.raft).log)) }
        ensures told { IfOk result (λ told. told ≡ (nat_lt (length (cut_at members.old first).later) (length members.old.later) ||
            any_change (read_setup []) (drop (first - 1) (node_of self.now.raft).log))) }
    {
        let gone = members.cut_from(first);
        let came = members.take_all(self.alloc, first, self.raft.tail(first))?;
        Ok(either(gone, came))
    }

    /// The configurations of the whole log of a replica that has applied its snapshot alone, as one that starts, or one
    /// to which a snapshot has come. These servers are the snapshot's. `Err` means out of memory, or an index past 64
    /// bits.
    pub fn members(&self, servers: Servers) -> Result<Members, AllocError>
        requires { IsWhole self.now }
        ensures is { (opening : List ServerValue) (front : List EntryValue) → length front ≡ self.now.snap.index →
            configuration (read_setup opening) front ≡ servers →
            IfOk result (λ members. IsOf (read_setup opening) (front ++ drop self.now.snap.index (node_of self.now.raft).log) members) }
        ensures exact { IfOk result (λ members.
            members ≡ all_changed (first_of servers self.now.snap.index) (suc self.now.snap.index) (drop self.now.snap.index (node_of self.now.raft).log)) }
        ensures at { IfOk result (λ members. members.at ≡ self.now.snap.index) }
        ensures stand { IsConfiguration servers → IfOk result (λ members. AllStand members) }
    {
        let index = self.keeper.snapshot.index;
        let mut members = Members::new(self.alloc, servers, index);
        let first = one_more(index)?;
        members.take_all(self.alloc, first, self.raft.tail(first))?;
        Ok(members)
    }
}
