//! What a leader knows of the logs of all nodes, and the commit index that follows.
ghost use Rattle.std.specs.Prelude.{◌≡◌, ◌<◌, ◌≤◌, ◌+◌, ◌++◌, nat_le, length, take, []};
ghost use Rattle.std.specs.List.{count_by};
ghost use Rattle.raft_spec.specs.Commitment.{is_stored_by_majority};
ghost use Rattle.raft_spec.specs.Node.{majority, others};
ghost use Rattle.raft_spec.specs.Compaction.{whole_log};
ghost use Rattle.raft_spec.specs.Progress.{next_in, match_in, rows_for, progress_of, after_ack, has_in, commit_of};

use crate::log::Log;
use crate::rows::{PeerRows, rows_of, rows_of_both};
use arrayvec::ArrayVec;
use std::marker::Model;

/// The most voters of a cluster.
pub const MAX_VOTERS: usize = 7;

/// What a leader knows of all nodes: its own id, the voters, and of each peer the index of the next entry to send to it
/// and up to where its log is known to agree (its match). Clauses see the rules' record of these. No call takes memory:
/// 7 voters and 9 peers are in tables. A node that is no peer has next 1 and match 0.
#[derive(Drop)]
pub struct Progress {
    own: u64,
    voters: ArrayVec<u64, MAX_VOTERS>,
    rows: PeerRows,
}

impl Model for Progress {
    ghost use Rattle.raft_spec.specs.Progress.{LeaderProgress};

    ghost Value = { LeaderProgress };

    ghost view = { λ p. record { own = p.own; voters = p.voters.items; rows = p.rows } };
}

// These ids in a table.
fn table_of(ids: &[u64]) -> ArrayVec<u64, MAX_VOTERS>
    requires { length ids.now ≤ 7 }
    ensures { result.items ≡ ids.now }
{
    let mut table = ArrayVec::new();
    for id in ids {
        table.push(*id);
    }
    table
}

impl Progress {
    /// What the node of this id knows at first of these voters and of itself: each other voter has the given next and
    /// match 0. `next` is at least 1.
    pub fn new(voters: &[u64], own: u64, next: u64) -> Progress
        requires few { length voters.now ≤ 7 }
        ensures { result ≡ record { own = own; voters = voters.now; rows = rows_for (others voters.now own) next [] } }
    {
        let mut progress = Progress {
            own,
            voters: ArrayVec::new(),
            rows: PeerRows::new(),
        };
        progress.set_peers(voters, voters, next);
        progress
    }

    /// Other voters, and other nodes that get the log but don't vote. Who stays keeps next and match; a new one has the
    /// given next, at least 1, and match 0. The own id needn't be among them.
    pub fn set_servers(&mut self, voters: &[u64], standbys: &[u64], next: u64)
        requires few { length voters.now ≤ 7 }
        requires peers { length voters.now + length standbys.now ≤ 9 }
        ensures { self.new ≡ record self.old { voters = voters.now; rows = rows_for (others (voters.now ++ standbys.now) self.old.own) next self.old.rows } }
    {
        let rows = rows_of_both(voters, standbys, self.own, next, &self.rows);
        self.set_rows(voters, rows);
    }

    /// Sets the other voters and the standbys from one list, in the order of a configuration.
    pub fn set_peers(&mut self, voters: &[u64], peers: &[u64], next: u64)
        requires few { length voters.now ≤ 7 }
        requires peers { length peers.now ≤ 9 }
        ensures { self.new ≡ record self.old { voters = voters.now; rows = rows_for (others peers.now self.old.own) next self.old.rows } }
    {
        let rows = rows_of(peers, self.own, next, &self.rows);
        self.set_rows(voters, rows);
    }

    // These voters, and these rows.
    fn set_rows(&mut self, voters: &[u64], rows: PeerRows)
        requires { length voters.now ≤ 7 }
        ensures { self.new ≡ record self.old { voters = voters.now; rows = rows } }
    {
        self.rows = rows;
        self.voters = table_of(voters);
    }

    /// The index of the next entry to send to a node.
    pub fn next_of(&self, peer: u64) -> u64
        ensures { result ≡ next_in self.now.rows peer }
    {
        self.rows.next_of(peer)
    }

    /// Up to which index a node's log is known to agree.
    pub fn match_of(&self, peer: u64) -> u64
        ensures { result ≡ match_in self.now.rows peer }
    {
        self.rows.match_of(peer)
    }

    /// An Ack of a node, of an index that messages can carry. Good: match becomes the greater of itself and the index,
    /// and next is one past it. Else next goes back to the smaller of next - 1 and one past the index, and at least to
    /// one past match. An Ack of a node that is no peer changes nothing.
    pub fn on_ack(&mut self, from: u64, good: bool, index: u64)
        requires { index ≤ 4294967295 }
        ensures rows { progress_of self.new.rows ≡ after_ack (progress_of self.old.rows) from good index }
        ensures rest { self.new ≡ record self.old { rows = self.new.rows } }
    {
        self.rows.on_ack(from, good, index);
    }

    // Up to which index a node has the leader's log, whose last index is given: the leader itself has all of it.
    fn has(&self, last: u64, node: u64) -> u64
        ensures { result ≡ has_in self.now last node }
    {
        if node == self.own {
            return last;
        }
        self.match_of(node)
    }

    // Whether a majority of the voters has the index, with the leader's last index.
    #[tactic(auto, unfolding(raft_spec::specs::Node::majority))]
    fn majority_has(&self, last: u64, index: u64) -> bool
        ensures { result ≡ majority self.now.voters (λ p. nat_le index (has_in self.now last p)) }
    {
        let voters = self.voters.as_slice();
        voters.len() < 2 * self.having(voters, last, index)
    }

    // How many of these voters have the index.
    fn having(&self, voters: &[u64], last: u64, index: u64) -> usize
        ensures count { result ≡ count_by (λ p. nat_le index (has_in self.now last p)) voters.now }
        ensures few { result ≤ length voters.now }
    {
        let mut having = 0;
        for voter in voters {
            if index <= self.has(last, *voter) {
                having += 1;
            }
        }
        having
    }

    // Whether a majority of the voters has the entry at an index, and it is of the term.
    #[tactic(auto, unfolding(raft_spec::specs::Commitment::is_stored_by_majority))]
    fn is_stored(&self, log: &Log, term: u64, index: u64) -> bool
        requires { index ≤ length (whole_log log.now) }
        ensures { result ≡ is_stored_by_majority (whole_log log.now) term self.now.voters (has_in self.now (length (whole_log log.now))) index }
    {
        log.whole_term(index) == term && self.majority_has(log.last_index(), index)
    }

    /// The commit index of a leader of this term: the greatest index past `commit` that a majority of the voters has and
    /// whose entry is of the term; else `commit`. The cost is in the order of the entries past `commit`.
    pub fn commit_index(&self, log: &Log, term: u64, commit: u64) -> u64
        ensures { result ≡ commit_of self.now (whole_log log.now) term commit }
    {
        let mut index = log.last_index();
        while commit < index {
            if self.is_stored(log, term, index) {
                return index;
            }
            index -= 1;
        }
        commit
    }
}
