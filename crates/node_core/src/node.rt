//! A node, and its calls.

ghost use Rattle.std.specs.Prelude.{◌≡◌, List, [], length, Err, IfOk, OnOk, OnErr};
ghost use Rattle.sql_engine.specs.Meanings.{Stays};
ghost use Rattle.client_sessions.specs.Sizes.{all_held, held_for};
ghost use Rattle.raft_messages.specs.Servers.{IsConfiguration};
ghost use Rattle.raft_spec.specs.Node.{Server as ServerValue};
ghost use Rattle.raft_core.specs.Roles.{role_value};
ghost use Rattle.raft_spec.specs.Log.{log_end};
ghost use Rattle.raft_core.specs.Queries.{leader_at, matched_at};
ghost use Rattle.node_core.specs.declared.fault.NodeFault.TheVariants as fault;
ghost use Rattle.node_core.specs.Faults.{StartCause, StepCause};
ghost use Rattle.raft_membership.specs.Members.{read_setup};
ghost use Rattle.database_state.specs.Databases.{contents_of};
ghost use Rattle.applied_state.specs.Snapshot.{contents_in};
ghost use Rattle.node_spec.specs.Steps.{CompletesStart};
ghost use Rattle.node_core.specs.Account.{AccountsForStep, AccountsForStop};
ghost use Rattle.node_core.specs.Conns.{StreamsOfStep, StartsUnlinked};
ghost use Rattle.node_core.specs.Core.{core_of};
ghost use Rattle.node_core.specs.Exact.{StepsExactly};
ghost use Rattle.node_core.specs.ExactParts.{Answered};
ghost use Rattle.node_core.specs.ExactStart.{StartsExactly};
ghost use Rattle.node_core.specs.Finding.{LeavesBy};
ghost use Rattle.node_core.specs.Starting.{StartsOver};
ghost use Rattle.node_core.specs.Stepping.{IsDown, IsUp, StaysDown, StaysStored};
ghost use Rattle.node_core.specs.Values.{applied_of, databases_of, has_links, keeps_of, kept_by, node_of, raft_of, peer_connections, replica_of, servers_of, servers_told, sessions_of};
ghost use Rattle.node_core.specs.Whole.{Agrees, IsSound};

use crate::event::{Event, NodeSpec, NodeState};
use crate::fault::{NodeFault, StartFault};
use crate::outs::StepOutputs;
use crate::running::Running;
use database_state::Machine;
use disk_model::Disk;
use raft_messages::Server;
use segment_store::{Kept, Store};
use sql_engine::Engine;
use std::alloc::{AllocError, Global};

/// A whole node: Raft over its store, databases, clients, and what it owes while it leads.
///
/// Its disk and its engine are lent to it for a step. After a step that failed it is down for good; a new one starts from what
/// the disk has kept.
#[derive(Drop)]
pub struct Node {
    running: Running,
    is_down: bool,
}

impl Node {
    /// Starts a node over its disk: a follower that has applied its snapshot alone, and knows the configurations of the log
    /// after it. No client is there. The servers are those with which the cluster was opened, and may stand together.
    ///
    /// `Damaged` says what of the disk's files isn't what a node leaves, `Snapshot` that the newest snapshot's bytes are none;
    /// `DiskFault` comes only if the disk counted one. After an `Err` what was kept is kept, and a start may be tried
    /// again.
    pub fn start<D: Disk>(alloc: Global, spec: NodeSpec, disk: &mut D) -> Result<Node, StartFault>
        requires opening { IsConfiguration spec.servers }
        ensures starts { StartsOver (D.states disk.old) (D.states disk.new) result }
        ensures stands { IfOk result (λ node. CompletesStart (read_setup spec.servers) (kept_by node) (node_of node) (servers_told node)) }
        ensures id { IfOk result (λ node. (replica_of node).raft.id ≡ spec.id) }
        ensures links { IfOk result (λ node. has_links node ≡ spec.links) }
        // No connection carries a peer's messages, so the closes of its steps are those of a node without peer connections where it has none.
        ensures unlinked { IfOk result (StartsUnlinked spec.links) }
        ensures sound { IfOk result IsSound }
        ensures up { IfOk result IsUp }
        // No number represents two images, for an engine that knows none.
        ensures agrees { IfOk result (Agrees []) }
        ensures keeps { IfOk result (λ node. keeps_of node ≡ 0) }
        ensures cause { StartCause (D.faults disk.old) (D.faults disk.new) result }
        // What was kept decides what it begins with.
        ensures exact { IfOk result (λ node. StartsExactly spec.id spec.links spec.readers spec.servers (kept_by node) (core_of node.running)) }
        ensures files { IfOk result (λ node. contents_of (databases_of node) ≡ contents_in (core_of node.running).files) }
    {
        let (store, kept) = Store::load(alloc, disk)?;
        let running = Running::over(alloc, spec, store, kept)?;
        running.databases_stand();
        Ok(Node {
            running,
            is_down: false,
        })
    }

    /// One step. What it answers may be said, as all that it depends on is kept.
    ///
    /// After an `Err` the node is down, and each later step answers `Down`. The disk then keeps what is after a part of
    /// what the step does. `DiskFault` comes only if the disk counted one.
    pub fn step<D: Disk, E: Engine>(
        &mut self,
        event: Event,
        disk: &mut D,
        engine: &mut E,
    ) -> Result<StepOutputs, NodeFault>
        requires sound { IsSound self.old }
        // No number represents two images, for the engine, the transactions and the databases; and this holds afterwards.
        requires agrees { IsUp self.old → Agrees (E.known engine.old) self.old }
        // What of connections' bytes is read and taken, and which are closed.
        ensures conns { IfOk result (λ outs. StreamsOfStep event self.old.running self.new.running outs) }
        ensures agrees { OnOk result (Agrees (E.known engine.new) self.new) }
        ensures sound { IsSound self.new }
        // A node that is down stays so, and one that fails is down.
        ensures down { IsDown self.old → StaysDown self.old self.new disk.old disk.new engine.old engine.new result }
        ensures falls { OnErr result (IsDown self.new) }
        ensures up { OnOk result (IsUp self.new) }
        ensures refused { result ≡ Err fault.Down → IsDown self.old }
        // The disk keeps what Raft is, before the step and after it: what is said then rests on nothing else.
        ensures stored { StaysStored D.tells (D.states disk.old) (D.states disk.new) (replica_of self.old) (replica_of self.new) result }
        // All that is committed is applied.
        ensures applied { OnOk result (applied_of self.new ≡ (raft_of self.new).commit) }
        // It makes the acts of the rules, whatever the servers are with which the cluster was opened, and says what they say.
        ensures acts { (opening : List ServerValue) →
            IfOk result (λ outs. AccountsForStep (E.meaning (E.kind engine.old)) (E.kind engine.old) (read_setup opening) self.old.running self.new.running event outs
            (E.told engine.old) (E.told engine.new)) }
        // If it fails, a load finds what the acts of the rules left, if the disk kept what Raft was.
        ensures stops { (opening : List ServerValue) → IsUp self.old →
            LeavesBy D.tells (D.states disk.old) (D.states disk.new) (replica_of self.old) result
            (AccountsForStop (E.meaning (E.kind engine.old)) (E.kind engine.old) (read_setup opening) self.old.running event) }
        ensures cause { StepCause (D.faults disk.old) (D.faults disk.new) result }
        ensures engine { Stays (E.kind engine.old) (E.kind engine.new) (E.refused_openings engine.old) (E.refused_openings engine.new) }
        // What was before it decides what it leaves and says, except for the answers that the engine
        // told.
        ensures exact { IfOk result (λ outs. Answered (E.told engine.old) (E.told engine.new)
            (StepsExactly (E.meaning (E.kind engine.old)) (E.kind engine.old) event (core_of self.old.running) (core_of self.new.running) outs)) }
        // Its databases are those of its core.
        ensures files { OnOk result (contents_of (databases_of self.new) ≡ contents_in (core_of self.new.running).files) }
    {
        if self.is_down {
            return Err(NodeFault::Down);
        }
        // It is down until the step has ended well.
        self.is_down = true;
        let outs = self.running.step(event, disk, engine)?;
        self.running.databases_stand();
        self.is_down = false;
        Ok(outs)
    }

    /// How it stands.
    pub fn state(&self) -> NodeState
        ensures term { result.term ≡ (raft_of self.now).term }
        ensures role { role_value result.role ≡ (raft_of self.now).role }
        ensures leader { result.leader ≡ leader_at (replica_of self.now).raft.leader }
        ensures last { result.last ≡ (log_end (raft_of self.now).log).index }
        ensures applied { result.applied ≡ applied_of self.now }
    {
        let view = self.running.replica.view();
        NodeState {
            term: view.term,
            role: view.role,
            leader: view.leader,
            last: view.last.index,
            applied: self.running.applied.index,
        }
    }

    /// The servers of the last configuration of its whole log, committed or not. A leader and a candidate send by these.
    pub fn servers(&self) -> &[Server]
        ensures { result.now ≡ servers_of self.now }
    {
        self.running.members.current()
    }

    /// Up to which index a server's log is known to agree with the one of this node, if this node leads. Its own log agrees
    /// whole; a server to which it sends no entries has 0.
    pub fn matched(&self, server: u64) -> Option<u64>
        ensures { result ≡ matched_at (replica_of self.now).raft server }
    {
        self.running.replica.matched(server)
    }

    /// The index up to which its last snapshot goes; 0 without a snapshot.
    pub fn snapshot_index(&self) -> u64
        ensures { result ≡ (raft_of self.now).snapshot.index }
    {
        self.running.replica.snapshot_index()
    }

    /// The index up to which its log is compacted: the first entry that it holds has the index after it.
    pub fn cut_index(&self) -> u64
        ensures { result ≡ (raft_of self.now).base }
    {
        self.running.replica.cut_index()
    }

    /// The number of its sessions, with those of clients that have gone while a proposal of theirs is pending.
    pub fn session_count(&self) -> u64
        ensures { result ≡ length (sessions_of self.now).conns }
    {
        self.running.clients.session_count()
    }

    /// The number of its connections that carry a peer's messages.
    pub fn peer_connection_count(&self) -> u64
        ensures { result ≡ length (peer_connections self.now) }
    {
        self.running.links.count()
    }

    /// Its databases, lent.
    pub fn machine(&self) -> &Machine
        ensures { result.now ≡ databases_of self.now }
    {
        &self.running.applied.machine
    }

    /// How many bytes it holds of what clients have said, and of what they are to be sent, as `Clients::held` counts them; those of
    /// connections that carry a peer's messages aren't counted.
    pub fn held(&self) -> u64
        ensures { result ≡ all_held self.now.running.clients }
    {
        self.running.clients.held()
    }

    /// How many bytes it holds for one client's connection; 0 if the connection isn't a client's.
    pub fn held_bytes_of(&self, conn: u64) -> u64
        ensures { result ≡ held_for conn self.now.running.clients }
    {
        self.running.clients.held_bytes_of(conn)
    }

    /// What it keeps, as a load of the disk would answer it; right after a start, what that has loaded. Entries and the snapshot
    /// share their bytes with the node's.
    pub fn loaded(&self) -> Result<Kept, AllocError>
        requires sound { IsSound self.now }
        requires up { IsUp self.now }
        ensures { IfOk result (λ kept. kept ≡ kept_by self.now) }
    {
        self.running.kept()
    }

    /// How many times the last step kept something whole: a term with a vote, a batch of entries, or a snapshot. 0 after a start.
    pub fn keeps(&self) -> u64
        ensures { result ≡ keeps_of self.now }
    {
        self.running.replica.keeps()
    }
}
