//! How single parts of a node change.
ghost use Rattle.std.specs.Prelude.{◌≡◌, ◌<◌, ◌≤◌, suc, IfOk, [], ◌∷◌, ◌++◌, true, false, cond, length};
ghost use Rattle.raft_spec.specs.Elections.{grants_vote, grants_with};
ghost use Rattle.raft_spec.specs.Node.{among, majority, voters, peers, Leader, Candidate, Follower};
ghost use Rattle.raft_spec.specs.NodeValues.{node_of};
ghost use Rattle.raft_spec.specs.Progress.{rows_for};

use crate::node::RaftNode;
use crate::role::RaftRole;
use raft_log::Progress;
use raft_messages::{Entry, LogEnd};
use std::alloc::AllocError;

impl RaftNode {
    /// A greater term is taken, with no vote and no known leader.
    pub(crate) fn take_term(&mut self, term: u64)
        requires { self.old.term < term }
        ensures { self.new ≡ record self.old { term = term; vote = 0; role = Follower; leader = 0; grants = [] } }
    {
        self.role = RaftRole::Follower;
        self.leader = 0;
        self.votes.on_term(term);
    }

    /// The node follows the leader of its term.
    pub(crate) fn follow(&mut self, leader: u64)
        ensures { self.new ≡ record self.old { role = Follower; leader = leader } }
    {
        self.role = RaftRole::Follower;
        self.leader = leader;
    }

    /// A voter stands for election in the next term, with its own vote.
    pub(crate) fn stand(&mut self)
        requires term { self.old.term < 4294967295 }
        requires voter { among (voters self.old.servers) self.old.id ≡ true }
        ensures { self.new ≡ record self.old { term = suc self.old.term; vote = self.old.id; role = Candidate; leader = 0; grants = self.old.id ∷ [] } }
    {
        self.role = RaftRole::Candidate;
        self.leader = 0;
        self.votes.on_timeout();
    }

    /// A node asks for the vote in the own term.
    pub(crate) fn ask(&mut self, from: u64, last: LogEnd) -> bool
        ensures answer { result ≡ grants_vote (node_of self.old) from last }
        ensures node { self.new ≡ cond (grants_vote (node_of self.old) from last) (record self.old { vote = from }) self.old }
    {
        let own = self.log.end();
        let term = self.votes.term();
        self.votes.on_request(from, term, last, own)
    }

    /// A candidate gets a vote; true exactly if a majority of the voters has granted then.
    pub(crate) fn count(&mut self, from: u64) -> bool
        requires { self.old.role ≡ Candidate }
        ensures node { self.new ≡ record self.old { grants = grants_with (voters self.old.servers) self.old.grants from } }
        ensures answer { result ≡ majority (voters self.old.servers) (among self.new.grants) }
    {
        self.votes.on_grant(from, self.voters.as_slice())
    }

    /// The node leads its term; next of each peer is the given index, and match is 0.
    pub(crate) fn lead(&mut self, next: u64)
        ensures { self.new ≡ record self.old { role = Leader; leader = self.old.id; rows = rows_for (peers self.old.servers self.old.id) next [] } }
    {
        self.role = RaftRole::Leader;
        self.leader = self.votes.id();
        let mut progress = Progress::new(&[], self.leader, next);
        progress.set_peers(self.voters.as_slice(), self.peers.as_slice(), next);
        self.progress = progress;
    }

    /// An entry is added at the log's end. If memory runs out the node stays.
    pub(crate) fn push(&mut self, entry: Entry) -> Result<(), AllocError>
        ensures { IfOk result (λ done. self.new ≡ record self.old { entries = self.old.entries ++ entry ∷ [] }) }
    {
        self.log.push(entry)
    }
}
