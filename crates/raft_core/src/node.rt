//! One node of Raft: its parts, what holds of them, and how single parts are read.
ghost use Rattle.std.specs.Prelude.{◌≡◌, ◌⊎◌, ◌<◌, ◌≤◌, suc, IfOk, length};
ghost use Rattle.raft_spec.specs.Log.{log_end, term_at};
ghost use Rattle.raft_spec.specs.Node.{among, is_leader, is_candidate, voters, peers};
ghost use Rattle.raft_spec.specs.NodeValues.{IsCoherent, node_of};
ghost use Rattle.raft_spec.specs.Progress.{next_in};
ghost use Rattle.raft_core.specs.Roles.{role_value};

use crate::role::RaftRole;
use raft_log::{Log, Progress};
use raft_messages::{LogEnd, Servers, VoteCore};
use std::alloc::AllocError;
use std::marker::Model;

/// One node of Raft. It does no IO: a step takes an event and tells its owner what to keep, what to send, and up to which
/// index to apply. Clauses see it as the rules' value of the code's node, and `node_of` of it is the rules' node.
///
/// A step costs in the order of the entries that it takes or sends; a leader's also in that of the entries past its
/// commit index, each with its voters.
#[derive(Drop)]
pub struct RaftNode {
    pub(crate) votes: VoteCore,
    pub(crate) log: Log,
    pub(crate) role: RaftRole,
    pub(crate) leader: u64,
    pub(crate) commit: u64,
    pub(crate) servers: Servers,
    pub(crate) voters: Vec<u64>,
    pub(crate) peers: Vec<u64>,
    pub(crate) progress: Progress,
    pub(crate) snapshot: LogEnd,
}

impl Model for RaftNode {
    ghost use Rattle.raft_spec.specs.NodeValues.{NodeValue};

    ghost Value = { NodeValue };

    ghost use Rattle.raft_core.specs.Roles.{role_value};

    ghost view = { λ n. record { id = n.votes.id; term = n.votes.term; vote = n.votes.vote; entries = n.log.entries; role = role_value n.role; leader = n.leader; commit = n.commit; grants = n.votes.grants; servers = n.servers; rows = n.progress.rows; snapshot = n.snapshot; base = n.log.first.index } };

    ghost use Rattle.raft_core.specs.Nodes.{IsLog, IsMembership, HasVoters};

    ghost invariant = { λ n. IsLog n.log n.commit n.snapshot × IsMembership n.votes.id n.servers n.voters.items n.peers.items n.progress × HasVoters (role_value n.role) n.votes.grants n.servers };
}

/// Whether the id is one of these.
pub(crate) fn contains(ids: &[u64], id: u64) -> bool
    ensures { result ≡ among ids.now id }
{
    ids.iter().any(|other| *other == id)
}

impl RaftNode {
    /// Its id.
    pub(crate) fn id(&self) -> u64
        ensures { result ≡ self.now.id }
    {
        self.votes.id()
    }

    /// Its term.
    pub(crate) fn term(&self) -> u64
        ensures { result ≡ self.now.term }
    {
        self.votes.term()
    }

    /// To whom it gave its vote in this term.
    pub(crate) fn vote(&self) -> u64
        ensures { result ≡ self.now.vote }
    {
        self.votes.vote()
    }

    /// Its role.
    pub(crate) fn role(&self) -> RaftRole
        ensures { role_value result ≡ self.now.role }
    {
        self.role
    }

    /// Whether it leads.
    pub(crate) fn leads(&self) -> bool
        ensures { result ≡ is_leader self.now.role }
    {
        self.role.leads()
    }

    /// Whether it stands for election.
    pub(crate) fn stands(&self) -> bool
        ensures { result ≡ is_candidate self.now.role }
    {
        self.role.stands()
    }

    /// Its commit index.
    pub(crate) fn commit(&self) -> u64
        ensures { result ≡ self.now.commit }
    {
        self.commit
    }

    /// The end of its kept snapshot.
    pub(crate) fn snapshot(&self) -> LogEnd
        ensures { result ≡ self.now.snapshot }
    {
        self.snapshot
    }

    /// The servers that vote.
    pub(crate) fn voters(&self) -> &[u64]
        ensures { result.now ≡ voters self.now.servers }
    {
        self.voters.as_slice()
    }

    /// To whom it sends its log as a leader.
    pub(crate) fn peers(&self) -> &[u64]
        ensures { result.now ≡ peers self.now.servers self.now.id }
    {
        self.peers.as_slice()
    }

    /// The last index of its log.
    #[tactic(auto, using(raft_log::proofs::Places::whole_count, raft_spec::proofs::NodeValues::whole_length))]
    pub(crate) fn last_index(&self) -> u64
        ensures { result ≡ length (node_of self.now).log }
    {
        self.log.last_index()
    }

    /// The end of its log.
    pub(crate) fn end(&self) -> LogEnd
        ensures { result ≡ log_end (node_of self.now).log }
    {
        self.log.end()
    }

    /// What holds of every node, for the prover alone: a look at a part tells it what holds of all parts.
    pub(crate) fn coherent(&self)
        ensures { IsCoherent self.now }
    {
        let _ = &self.votes;
    }

    /// The index after the last one. One that is too great means out of memory.
    #[tactic(auto, using(raft_spec::proofs::NodeValues::whole_length))]
    pub(crate) fn next_index(&self) -> Result<u64, AllocError>
        ensures next { IfOk result (λ next. next ≡ suc (length (node_of self.now).log)) }
        ensures past { IfOk result (λ next. self.now.commit < next) }
    {
        // It shows the prover that what is committed is in the log.
        self.coherent();
        match self.last_index().checked_add(1) {
            Some(next) => Ok(next),
            None => Err(AllocError),
        }
    }

    /// Whether it votes.
    pub(crate) fn is_voter(&self) -> bool
        ensures { result ≡ among (voters self.now.servers) self.now.id }
    {
        contains(self.voters(), self.id())
    }

    /// The index after the cut. One that is too great means out of memory.
    pub(crate) fn first_index(&self) -> Result<u64, AllocError>
        ensures { IfOk result (λ first. first ≡ suc self.now.base) }
    {
        match self.cut_index().checked_add(1) {
            Some(first) => Ok(first),
            None => Err(AllocError),
        }
    }

    /// The index of the next entry to send to a peer.
    pub(crate) fn next_of(&self, peer: u64) -> u64
        ensures { result ≡ next_in self.now.rows peer }
    {
        self.progress.next_of(peer)
    }

    /// The term at an index where it is known: past the cut, or at the cut where that is the log's begin or the snapshot's
    /// end. Past the log's end it is 0.
    pub(crate) fn log_term(&self, index: u64) -> u64
        requires past { self.now.base ≤ index }
        requires known { index ≡ self.now.base → (self.now.base ≡ 0) ⊎ (self.now.base ≡ self.now.snapshot.index) }
        ensures { result ≡ term_at (node_of self.now).log index }
    {
        match self.log.term_at(index) {
            Some(term) => term,
            None => 0,
        }
    }
}
