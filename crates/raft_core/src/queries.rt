//! What a node says of itself. No call takes memory.
ghost use Rattle.std.specs.Prelude.{◌≡◌, ◌<◌, ◌≤◌, ◌-◌, ◌&&◌, ◌==◌, ◌↔◌, IsSome, IfSome, drop, length, max, slice_index_or, suc};
ghost use Rattle.raft_spec.specs.Log.{log_end};
ghost use Rattle.raft_spec.specs.Node.{is_leader};
ghost use Rattle.raft_spec.specs.NodeValues.{node_of};
ghost use Rattle.raft_spec.specs.Progress.{match_in};
ghost use Rattle.raft_core.specs.Queries.{forgets_at, known_at, leader_at, matched_at};
ghost use Rattle.raft_core.specs.Roles.{role_value};
ghost use Rattle.raft_log.specs.Compacting.{is_due};

use crate::event::RaftView;
use crate::node::RaftNode;
use raft_log::Compact;
use raft_messages::Entry;

// A node, if it is one.
fn known(leader: u64) -> Option<u64>
    ensures { result ≡ leader_at leader }
{
    if leader == 0 {
        return None;
    }
    Some(leader)
}

impl RaftNode {
    /// How the node stands.
    pub fn view(&self) -> RaftView
        ensures term { result.term ≡ self.now.term }
        ensures role { role_value result.role ≡ self.now.role }
        ensures leader { result.leader ≡ leader_at self.now.leader }
        ensures last { result.last ≡ log_end (node_of self.now).log }
        ensures commit { result.commit ≡ self.now.commit }
    {
        RaftView {
            term: self.term(),
            role: self.role(),
            leader: known(self.leader),
            last: self.end(),
            commit: self.commit(),
        }
    }

    /// The entry at an index of the log, if it isn't compacted.
    pub fn entry(&self, index: u64) -> Option<&Entry>
        ensures some { IsSome result ↔ (self.now.base < index) × (index ≤ length (node_of self.now).log) }
        ensures entry { IfSome result (λ e. e.now ≡ slice_index_or self.now.entries (index - self.now.base - 1) e.now) }
    {
        self.log.entry(index)
    }

    /// The entries of the log from an index on that isn't compacted, lent, as a batch of a step has them; none past the last
    /// index. Takes constant time.
    pub fn tail(&self, first: u64) -> &[Entry]
        requires { self.now.base < first }
        ensures { result.now ≡ drop (first - 1) (node_of self.now).log }
    {
        self.log.tail(first - 1)
    }

    /// The index up to which the log is compacted; the first entry that is held has the index after it. Constant cost.
    pub fn cut_index(&self) -> u64
        ensures { result ≡ self.now.base }
    {
        let first = self.log.first();
        first.index
    }

    /// The index up to which the last snapshot goes; 0 without a snapshot. Constant cost.
    pub fn snapshot_index(&self) -> u64
        ensures { result ≡ self.now.snapshot.index }
    {
        let last = self.snapshot();
        last.index
    }

    /// Up to which index a server's log is known to agree with the one of this node, if this node leads. Its own log agrees
    /// whole; a server to which it sends no entries has 0. Constant cost.
    pub fn matched(&self, server: u64) -> Option<u64>
        ensures { result ≡ matched_at self.now server }
    {
        if !self.leads() {
            return None;
        }
        if server == self.id() {
            return Some(self.last_index());
        }
        Some(self.match_of(server))
    }

    /// The first index of the log that stays, if its owner keeps a snapshot at an index past the last one's: 16 entries up
    /// to there stay, as far as the log has them.
    pub fn kept_from(&self, index: u64) -> u64
        requires { self.now.snapshot.index < index }
        ensures { result ≡ suc (max self.now.base (index - 16)) }
    {
        // It shows the prover that the cut isn't past the snapshot.
        self.coherent();
        let first = Compact::new(self.snapshot()).keep_from(index);
        self.cut_index().max(first - 1) + 1
    }

    /// Whether another snapshot is due with so much applied: the index is 64 or more past the last one's.
    pub fn is_due(&self, applied: u64) -> bool
        ensures { result ≡ is_due self.now.snapshot applied }
    {
        let last = self.snapshot();
        Compact::new(last).due(applied)
    }

    /// The term, and to whom the node gave its vote in it; 0 for no node.
    pub fn meta(&self) -> (u64, u64)
        ensures { result ≡ (self.now.term, self.now.vote) }
    {
        (self.term(), self.vote())
    }

    /// The term at an index of the log, if it is known: of an entry that isn't compacted, at the end of the snapshot, and
    /// at 0, which is before the first entry.
    pub fn term_at(&self, index: u64) -> Option<u64>
        ensures { result ≡ known_at self.now index }
    {
        if self.forgets(index) {
            return None;
        }
        self.log.term_at(index)
    }

    // Whether the log is compacted at the index, and the term there isn't kept.
    fn forgets(&self, index: u64) -> bool
        ensures { result ≡ forgets_at self.now index }
    {
        let snapshot = self.snapshot();
        index == self.cut_index() && index != 0 && index != snapshot.index
    }

    /// Whether the node leads, and the peer's log is known to agree with all of its own.
    pub fn is_caught_up(&self, peer: u64) -> bool
        ensures { result ≡ (is_leader self.now.role && (match_in self.now.rows peer == length (node_of self.now).log)) }
    {
        self.leads() && self.match_of(peer) == self.last_index()
    }
}
