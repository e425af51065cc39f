//! What a node is for its sessions.

ghost use Rattle.std.specs.Prelude.{◌≡◌, ◌≢◌, ◌++◌, [], ◌∷◌, None, true, false, IfOk, OnOk};
ghost use Rattle.raft_spec.specs.Node.{Follower};
ghost use Rattle.raft_spec.specs.NodeValues.{node_of};
ghost use Rattle.node_core.specs.Core.{core_of, evens, is_near, looked, nears, showing_servers};
ghost use Rattle.node_core.specs.Whole.{Holds, InOffice, IsGoing};

use crate::running::Running;
use dq_base::Items;
use raft_core::{RaftRole, RaftView};
use raft_messages::{Server, Servers};
use raft_on_disk::Replica;
use session_gateway::{StepLimits, View};
use session_table::MAX_VOTER_LAG;
use std::alloc::{AllocError, Global};
use std::mem;

/// Copies of servers.
pub(crate) fn copied(alloc: Global, servers: &[Server]) -> Result<Servers, AllocError>
    ensures { IfOk result (λ copies. copies ≡ servers.now) }
{
    let mut copies = Vec::with_capacity(alloc, servers.len())?;
    for server in servers {
        copies.push(server.copied(alloc)?)?;
    }
    Ok(Items::new(copies))
}

/// What a node is for its sessions that has started: a follower that knows no leader. Its servers are these, and
/// its statements have these limits of steps.
pub(crate) fn starting_view(
    alloc: Global,
    id: u64,
    servers: Servers,
    links: bool,
    readers: bool,
    steps: StepLimits,
    raft: RaftView,
) -> View
    ensures serving { result.serving ≡ false }
    ensures term { result.term ≡ raft.term }
    ensures last { result.last ≡ raft.last.index }
    ensures servers { result.servers ≡ servers }
    ensures links { result.links ≡ links }
    ensures exact { result ≡ record {
      id = id;
      leader = None;
      serving = false;
      term = raft.term;
      last = raft.last.index;
      servers = servers;
      links = links;
      readers = readers;
      even = [];
      near = [];
    } }
{
    View {
        id,
        leader: None,
        serving: false,
        term: raft.term,
        last: raft.last.index,
        servers,
        links,
        readers,
        even: Items::new(Vec::new(alloc)),
        near: Items::new(Vec::new(alloc)),
        steps,
    }
}

/// Adds the id of a peer, if its log is known to reach a leader's last index.
fn add_even(even: &mut Vec<u64>, replica: &Replica, server: &Server) -> Result<(), AllocError>
    ensures { OnOk result (even.new.items ≡ even.old.items ++ evens (node_of replica.now.raft) (server.now ∷ [])) }
{
    if replica.is_caught_up(server.id) {
        even.push(server.id)?;
    }
    Ok(())
}

/// Puts the ids of these peers whose log is known to reach a leader's last index in the place of what is there.
fn refill(even: &mut Vec<u64>, replica: &Replica, servers: &[Server]) -> Result<(), AllocError>
    ensures { OnOk result (even.new.items ≡ evens (node_of replica.now.raft) servers.now) }
{
    even.clear();
    for server in servers {
        add_even(even, replica, server)?;
    }
    Ok(())
}

/// Whether a leader knows that a server has entries of its log, and that it lacks at most the last ones.
#[tactic(auto, unfolding(raft_spec::specs::Log::log_end), using(crate::proofs::Nears::near_as, crate::proofs::Nears::near_none))]
fn is_near(replica: &Replica, server: &Server) -> bool
    ensures { result ≡ is_near replica.now.raft.id (node_of replica.now.raft) server.now }
{
    let Some(matched) = replica.matched(server.id) else {
        return false;
    };
    let last = replica.view().last;
    0 < matched && last.index.saturating_sub(matched) <= MAX_VOTER_LAG
}

/// Adds the id of a peer, if its log is known to lack at most the last entries of a leader's.
fn add_near(near: &mut Vec<u64>, replica: &Replica, server: &Server) -> Result<(), AllocError>
    ensures { OnOk result (near.new.items ≡ near.old.items ++ nears replica.now.raft.id (node_of replica.now.raft) (server.now ∷ [])) }
{
    if is_near(replica, server) {
        near.push(server.id)?;
    }
    Ok(())
}

/// Puts the ids of these peers whose log is known to lack at most the last entries of a leader's in the place of what is there.
fn refill_near(near: &mut Vec<u64>, replica: &Replica, servers: &[Server]) -> Result<(), AllocError>
    ensures { OnOk result (near.new.items ≡ nears replica.now.raft.id (node_of replica.now.raft) servers.now) }
{
    near.clear();
    for server in servers {
        add_near(near, replica, server)?;
    }
    Ok(())
}

impl Running {
    /// What it is for its sessions, after a step of Raft. Refills what it has.
    #[tactic(auto, unfolding(raft_spec::specs::Log::log_end))]
    pub(crate) fn look(&mut self) -> Result<(), AllocError>
        requires holds { Holds self.old }
        requires office { InOffice self.old.office self.old.view.serving self.old.replica.raft }
        requires seen { self.old.view.servers ≡ self.old.applied.servers }
        ensures links { self.new.view.links ≡ self.old.view.links }
        ensures id { self.new.view.id ≡ self.old.view.id }
        ensures going { OnOk result (IsGoing self.new) }
        ensures rest { self.new ≡ record self.old { view = self.new.view } }
        ensures serving { self.new.view.serving ≡ self.old.view.serving }
        ensures exact { OnOk result (core_of self.new ≡ looked (core_of self.old)) }
    {
        let raft = self.replica.view();
        self.see(raft);
        self.look_at_peers()
    }

    /// How Raft stands.
    fn see(&mut self, raft: RaftView)
        ensures { self.new ≡ record self.old { view = record self.old.view { leader = raft.leader; term = raft.term; last = raft.last.index } } }
    {
        self.view.term = raft.term;
        self.view.last = raft.last.index;
        self.view.leader = raft.leader;
    }

    /// The peers whose log is known to reach a leader's last index, and those whose log is known to lack at most the last entries.
    fn look_at_peers(&mut self) -> Result<(), AllocError>
        ensures is { self.new ≡ record self.old { view = record self.old.view { even = self.new.view.even; near = self.new.view.near } } }
        ensures peers { OnOk result ((self.new.view.even ≡ evens (node_of self.old.replica.raft) self.old.view.servers)
            × (self.new.view.near ≡ nears self.old.replica.raft.id (node_of self.old.replica.raft) self.old.view.servers)) }
    {
        self.look_at_even()?;
        self.look_at_near()
    }

    fn look_at_near(&mut self) -> Result<(), AllocError>
        ensures is { self.new ≡ record self.old { view = record self.old.view { near = self.new.view.near } } }
        ensures near { OnOk result (self.new.view.near ≡ nears self.old.replica.raft.id (node_of self.old.replica.raft) self.old.view.servers) }
    {
        let kept = mem::replace(&mut self.view.near, Items::new(Vec::new(self.alloc)));
        let mut near = kept.into_vec();
        refill_near(&mut near, &self.replica, self.view.servers.as_slice())?;
        self.view.near = Items::new(near);
        Ok(())
    }

    fn look_at_even(&mut self) -> Result<(), AllocError>
        ensures is { self.new ≡ record self.old { view = record self.old.view { even = self.new.view.even } } }
        ensures even { OnOk result (self.new.view.even ≡ evens (node_of self.old.replica.raft) self.old.view.servers) }
    {
        let kept = mem::replace(&mut self.view.even, Items::new(Vec::new(self.alloc)));
        let mut even = kept.into_vec();
        refill(&mut even, &self.replica, self.view.servers.as_slice())?;
        self.view.even = Items::new(even);
        Ok(())
    }

    /// The servers that are applied are others now, or Raft has made a step.
    pub(crate) fn look_at_servers(&mut self) -> Result<(), AllocError>
        requires holds { Holds self.old }
        requires office { InOffice self.old.office self.old.view.serving self.old.replica.raft }
        ensures links { self.new.view.links ≡ self.old.view.links }
        ensures id { self.new.view.id ≡ self.old.view.id }
        ensures going { OnOk result (IsGoing self.new) }
        ensures rest { self.new ≡ record self.old { view = self.new.view } }
        ensures serving { self.new.view.serving ≡ self.old.view.serving }
        ensures exact { OnOk result (core_of self.new ≡ showing_servers (core_of self.old)) }
    {
        let servers = copied(self.alloc, self.applied.servers.as_slice())?;
        self.show(servers);
        self.look()
    }

    /// These are the servers that it sees.
    fn show(&mut self, servers: Servers)
        ensures { self.new ≡ record self.old { view = record self.old.view { servers = servers } } }
    {
        self.view.servers = servers;
    }

    /// Whether it follows.
    pub(crate) fn follows(&self) -> bool
        ensures is { result ≡ true → self.now.replica.raft.role ≡ Follower }
        ensures none { result ≡ false → self.now.replica.raft.role ≢ Follower }
    {
        match self.replica.view().role {
            RaftRole::Follower => true,
            RaftRole::Leader | RaftRole::Candidate => false,
        }
    }
}
