//! A leader's change of servers: whether it may be proposed now, and Raft is given its servers first.

ghost use Rattle.std.specs.Prelude.{◌≡◌, ◌≢◌, ◌++◌, ◌∷◌, true, false, ℕ, List, [], Err, OnOk, IfOk};
ghost use Rattle.database_state.specs.Machines.{IsMachine};
ghost use Rattle.raft_spec.specs.Laws.{HasShortTerm};
ghost use Rattle.raft_spec.specs.Node.{Server as ServerValue, voters};
ghost use Rattle.raft_spec.specs.NodeValues.{node_of};
ghost use Rattle.raft_safety.specs.Members.{any_change, is_change};
ghost use Rattle.raft_membership.specs.Members.{AllStand, read_setup};
ghost use Rattle.raft_on_disk.specs.Replicas.{IsWhole};
ghost use Rattle.node_core.specs.declared.fault.NodeFault.TheVariants as fault;
ghost use Rattle.node_core.specs.Core.{core_of};
ghost use Rattle.node_core.specs.Exact.{ExactTold, change_for};
ghost use Rattle.node_core.specs.Faults.{StepCause};
ghost use Rattle.node_core.specs.Finding.{LeavesBy, StopsChanging};
ghost use Rattle.node_core.specs.Posting.{HoldsCommit, IsUnfit, DecidesChange, MayTake, ToldChange, has_change};
ghost use Rattle.node_core.specs.Stepping.{HasTold, StaysStored};
ghost use Rattle.node_core.specs.Whole.{IsOwnDue};

use crate::comparing::are_near;
use crate::fault::NodeFault;
use crate::running::Running;
use disk_model::Disk;
use raft_core::RaftEvent;
use raft_membership::change_in;
use raft_messages::{Entry, EntryKind, Server};
use std::alloc::{AllocError, Global};

/// Whether none of these entries is of the kind that changes servers.
fn are_plain(entries: &[Entry]) -> bool
    ensures plain { result ≡ true → any_change (read_setup []) entries.now ≡ false }
    ensures change { result ≡ false → has_change entries.now ≡ true }
{
    for entry in entries {
        if is_change(entry) {
            return false;
        }
    }
    true
}

/// Whether an entry is of the kind that changes servers.
fn is_change(entry: &Entry) -> bool
    ensures { result ≡ is_change entry.now.kind }
{
    match entry.kind {
        EntryKind::Change => true,
        EntryKind::Command | EntryKind::Barrier => false,
    }
}

/// Adds the id of a server that votes.
#[tactic(auto, unfolding(raft_spec::specs::Node::voters))]
fn add_voter(ids: &mut Vec<u64>, server: &Server) -> Result<(), AllocError>
    ensures { OnOk result (ids.new.items ≡ ids.old.items ++ voters (server.now ∷ [])) }
{
    if server.votes() {
        ids.push(server.id)?;
    }
    Ok(())
}

/// The ids of the servers that vote.
fn voters_of(alloc: Global, servers: &[Server]) -> Result<Vec<u64>, AllocError>
    ensures { IfOk result (λ ids. ids.items ≡ voters servers.now) }
{
    let mut ids = Vec::new(alloc);
    for server in servers {
        add_voter(&mut ids, server)?;
    }
    Ok(ids)
}

impl Running {
    /// A leader that proposes a change gives Raft its servers first, so that its entry is counted by them.
    ///
    /// `Unfit` comes only if the proposal has a change of servers and isn't one that may be made now: it stands among other
    /// entries, its bytes are no servers, the node has not applied each earlier change and an entry of the leader's own term, or
    /// its voters differ from those before it in more than one. Nothing is told then.
    pub(crate) fn tell_change<D: Disk>(
        &mut self,
        event: &RaftEvent,
        disk: &mut D,
    ) -> Result<(), NodeFault>
        requires whole { IsWhole self.old.replica }
        requires short { HasShortTerm (node_of self.old.replica.raft) }
        requires machine { IsMachine self.old.applied.machine }
        requires members { AllStand self.old.members }
        requires own { IsOwnDue event.now }
        requires takes { MayTake event.now self.old.replica.raft }
        ensures exact { OnOk result (ExactTold (change_for event.now self.old.replica.raft.role) (core_of self.old) (core_of self.new)) }
        ensures told { OnOk result (HasTold self.old self.new) }
        ensures tells { OnOk result (ToldChange self.old self.new event.now) }
        ensures stored { StaysStored D.tells (D.states disk.old) (D.states disk.new) self.old.replica self.new.replica result }
        ensures stops { (opening : List ServerValue) (came : List ℕ) → LeavesBy D.tells (D.states disk.old) (D.states disk.new) self.old.replica result
            (StopsChanging (read_setup opening) came self.old) }
        ensures cause { StepCause (D.faults disk.old) (D.faults disk.new) result }
        ensures unfit { result ≡ Err fault.Unfit → IsUnfit self.old event.now }
        ensures runs { result ≢ Err fault.Down }
    {
        let RaftEvent::Propose(entries) = event else {
            return Ok(());
        };
        if are_plain(entries.as_slice()) {
            return Ok(());
        }
        let [entry] = entries.as_slice() else {
            return Err(NodeFault::Unfit);
        };
        let Some(servers) = change_in(self.alloc, entry)? else {
            return Err(NodeFault::Unfit);
        };
        if !self.may_change_to(servers.as_slice())? {
            return Err(NodeFault::Unfit);
        }
        self.tell(servers, disk)
    }

    /// Whether a leader may propose a change to these servers now.
    fn may_change_to(&self, servers: &[Server]) -> Result<bool, AllocError>
        requires { IsWhole self.now.replica }
        ensures { IfOk result (λ may. DecidesChange may self.now servers.now) }
    {
        let applied = self.members.applied_index();
        if applied != self.replica.view().commit {
            return Ok(false);
        }
        if applied != self.members.last_index() {
            return Ok(false);
        }
        if !self.owns_commit() {
            return Ok(false);
        }
        let before = voters_of(self.alloc, self.members.applied())?;
        let after = voters_of(self.alloc, servers)?;
        Ok(are_near(before.as_slice(), after.as_slice()))
    }

    /// Whether the entry at the commit index is held, and of the node's own term.
    fn owns_commit(&self) -> bool
        requires { IsWhole self.now.replica }
        ensures owns { result ≡ true → HoldsCommit self.now.replica.raft }
        ensures not { result ≡ false → HoldsCommit self.now.replica.raft → ⊥ }
    {
        let raft = self.replica.view();
        match self.replica.entry(raft.commit) {
            Some(entry) => entry.term == raft.term,
            None => false,
        }
    }
}
