//! Other servers: what a node does when it is given them.
ghost use Rattle.std.specs.Prelude.{◌≡◌, ◌++◌, ◌∷◌, [], suc, IfOk, length};
ghost use Rattle.raft_spec.specs.Membership.{gained, on_servers};
ghost use Rattle.raft_spec.specs.Node.{Candidate, voters, peers};
ghost use Rattle.raft_spec.specs.NodeValues.{node_of};
ghost use Rattle.raft_spec.specs.Progress.{ids_in, rows_for};
ghost use Rattle.raft_spec.specs.Steps.{serve};
ghost use Rattle.raft_messages.specs.Servers.{IsConfiguration};
ghost use Rattle.raft_core.specs.Messages.{sents_value};
ghost use Rattle.raft_core.specs.Steps.{compact_outcome};

use crate::node::{RaftNode, contains};
use crate::sending::Outgoing;
use raft_messages::{Server, Servers};
use std::alloc::{AllocError, Global};

// Adds the id of a server that votes.
#[tactic(auto, unfolding(raft_spec::specs::Node::voters))]
fn add_voter(ids: &mut Vec<u64>, server: &Server) -> Result<(), AllocError>
    ensures { IfOk result (λ done. ids.new.items ≡ ids.old.items ++ voters (server.now ∷ [])) }
{
    if server.votes() {
        ids.push(server.id)?;
    }
    Ok(())
}

/// The ids of the servers that vote.
pub(crate) fn voter_ids(alloc: Global, servers: &[Server]) -> Result<Vec<u64>, AllocError>
    ensures { IfOk result (λ ids. ids.items ≡ voters servers.now) }
{
    let mut ids = Vec::new(alloc);
    for server in servers {
        add_voter(&mut ids, server)?;
    }
    Ok(ids)
}

// Adds the id of a server that gets the log, but not the own one.
#[tactic(auto, unfolding(raft_spec::specs::Node::peers, raft_spec::specs::Node::others))]
fn add_peer(ids: &mut Vec<u64>, server: &Server, own: u64) -> Result<(), AllocError>
    ensures { IfOk result (λ done. ids.new.items ≡ ids.old.items ++ peers (server.now ∷ []) own) }
{
    if server.role.number() < 2 && server.id != own {
        ids.push(server.id)?;
    }
    Ok(())
}

/// The ids of the other servers that get the log.
pub(crate) fn peer_ids(alloc: Global, servers: &[Server], own: u64) -> Result<Vec<u64>, AllocError>
    ensures { IfOk result (λ ids. ids.items ≡ peers servers.now own) }
{
    let mut ids = Vec::new(alloc);
    for server in servers {
        add_peer(&mut ids, server, own)?;
    }
    Ok(ids)
}

// The ids of the second list that aren't of the first.
fn gained_ids(alloc: Global, old: &[u64], new: &[u64]) -> Result<Vec<u64>, AllocError>
    ensures { IfOk result (λ ids. ids.items ≡ gained old.now new.now) }
{
    new.iter()
        .filter(|id| !contains(old, **id))
        .copied()
        .collect(alloc)
}

/// A copy of servers.
pub(crate) fn copied(alloc: Global, servers: &[Server]) -> Result<Vec<Server>, AllocError>
    ensures { IfOk result (λ copies. copies.items ≡ servers.now) }
{
    let mut copies = Vec::with_capacity(alloc, servers.len())?;
    for server in servers {
        copies.push(server.copied(alloc)?)?;
    }
    Ok(copies)
}

impl RaftNode {
    // The servers are these, with their voters and the peers at hand; next of a new peer is the given one.
    fn set_servers(&mut self, servers: Vec<Server>, voting: Vec<u64>, sent: Vec<u64>, next: u64)
        requires config { IsConfiguration servers.items }
        requires voters { voting.items ≡ voters servers.items }
        requires peers { sent.items ≡ peers servers.items self.old.id }
        requires same { self.old.role ≡ Candidate → voters servers.items ≡ voters self.old.servers }
        ensures node { self.new ≡ record self.old { servers = servers.items; rows = rows_for (peers servers.items self.old.id) next self.old.rows } }
        ensures ids { ids_in self.old.rows ≡ peers self.old.servers self.old.id }
    {
        self.progress
            .set_peers(voting.as_slice(), sent.as_slice(), next);
        self.servers = Servers::new(servers);
        self.voters = voting;
        self.peers = sent;
    }

    // The node is given its servers. Answers the peers that it gains.
    fn tell(&mut self, alloc: Global, servers: &[Server]) -> Result<Vec<u64>, AllocError>
        requires config { IsConfiguration servers.now }
        requires same { self.old.role ≡ Candidate → voters servers.now ≡ voters self.old.servers }
        ensures node { IfOk result (λ ids. self.new ≡ record self.old { servers = servers.now; rows = rows_for (peers servers.now self.old.id) (suc (length (node_of self.old).log)) self.old.rows }) }
        ensures gained { IfOk result (λ ids. ids.items ≡ gained (peers self.old.servers self.old.id) (peers servers.now self.old.id)) }
        ensures ids { IfOk result (λ ids. ids_in self.old.rows ≡ peers self.old.servers self.old.id) }
    {
        let next = self.next_index()?;
        let voting = voter_ids(alloc, servers)?;
        let sent = peer_ids(alloc, servers, self.id())?;
        let gained = gained_ids(alloc, self.peers(), sent.as_slice())?;
        self.set_servers(copied(alloc, servers)?, voting, sent, next);
        Ok(gained)
    }

    /// The step in which a node is given its servers: a leader sends to the peers that it gains.
    pub(crate) fn use_servers(
        &mut self,
        alloc: Global,
        servers: &[Server],
    ) -> Result<Vec<Outgoing>, AllocError>
        requires config { IsConfiguration servers.now }
        requires same { self.old.role ≡ Candidate → voters servers.now ≡ voters self.old.servers }
        ensures node { IfOk result (λ out. node_of self.new ≡ (compact_outcome (serve self.old.id (on_servers self.old.id (node_of self.old) servers.now))).node) }
        ensures sends { IfOk result (λ out. sents_value self.old.id out.items ≡ (compact_outcome (serve self.old.id (on_servers self.old.id (node_of self.old) servers.now))).out) }
        ensures rest { IfOk result (λ out. self.new ≡ record self.old { servers = servers.now; rows = self.new.rows }) }
    {
        let gained = self.tell(alloc, servers)?;
        if !self.leads() {
            return Ok(Vec::new(alloc));
        }
        let mut out = Vec::new(alloc);
        self.send(alloc, &mut out, gained.as_slice())?;
        Ok(out)
    }
}
