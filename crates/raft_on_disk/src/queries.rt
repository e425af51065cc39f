//! What a replica says of itself.
ghost use Rattle.std.specs.Prelude.{◌≡◌, ◌<◌, ◌≤◌, ◌-◌, ◌==◌, ◌&&◌, ◌↔◌, drop, IsSome, IfSome, length, slice_index_or};
ghost use Rattle.raft_spec.specs.Log.{log_end};
ghost use Rattle.raft_spec.specs.Node.{is_leader};
ghost use Rattle.raft_spec.specs.NodeValues.{node_of};
ghost use Rattle.raft_spec.specs.Progress.{match_in};
ghost use Rattle.raft_log.specs.Compacting.{is_due};
ghost use Rattle.raft_core.specs.Queries.{leader_at, matched_at};
ghost use Rattle.raft_core.specs.Roles.{role_value};

use crate::replica::Replica;
use raft_core::RaftView;
use raft_messages::Entry;

impl Replica {
    /// How Raft stands. Constant cost.
    pub fn view(&self) -> RaftView
        ensures term { result.term ≡ self.now.raft.term }
        ensures role { role_value result.role ≡ self.now.raft.role }
        ensures leader { result.leader ≡ leader_at self.now.raft.leader }
        ensures last { result.last ≡ log_end (node_of self.now.raft).log }
        ensures commit { result.commit ≡ self.now.raft.commit }
    {
        self.raft.view()
    }

    /// The entry at an index of the log, lent, if it isn't compacted.
    pub fn entry(&self, index: u64) -> Option<&Entry>
        ensures some { IsSome result ↔ (self.now.raft.base < index) × (index ≤ length (node_of self.now.raft).log) }
        ensures entry { IfSome result (λ e. e.now ≡ slice_index_or self.now.raft.entries (index - self.now.raft.base - 1) e.now) }
    {
        self.raft.entry(index)
    }

    /// The entries of the log from an index on that isn't compacted, lent. Constant cost.
    pub fn tail(&self, first: u64) -> &[Entry]
        requires { self.now.raft.base < first }
        ensures { result.now ≡ drop (first - 1) (node_of self.now.raft).log }
    {
        self.raft.tail(first)
    }

    /// Whether the node leads, and the peer's log is known to agree with all of its own.
    pub fn is_caught_up(&self, peer: u64) -> bool
        ensures { result ≡ (is_leader self.now.raft.role && (match_in self.now.raft.rows peer == length (node_of self.now.raft).log)) }
    {
        self.raft.is_caught_up(peer)
    }

    /// Up to which index a server's log is known to agree with the one of this node, if this node leads. Its own log agrees
    /// whole; a server to which it sends no entries has 0. Constant cost.
    pub fn matched(&self, server: u64) -> Option<u64>
        ensures { result ≡ matched_at self.now.raft server }
    {
        self.raft.matched(server)
    }

    /// The index up to which the last snapshot goes; 0 without a snapshot. Constant cost.
    pub fn snapshot_index(&self) -> u64
        ensures { result ≡ self.now.raft.snapshot.index }
    {
        self.raft.snapshot_index()
    }

    /// The index up to which the log is compacted: the first entry that is held has the index after it. Constant cost.
    pub fn cut_index(&self) -> u64
        ensures { result ≡ self.now.raft.base }
    {
        self.raft.cut_index()
    }

    /// Whether an own snapshot is due with so much applied: the index is 64 or more past the last one's.
    pub fn is_due(&self, applied: u64) -> bool
        ensures { result ≡ is_due self.now.raft.snapshot applied }
    {
        self.raft.is_due(applied)
    }

    /// How many times something was kept whole since the count began: a term with a vote, a batch, or a snapshot.
    pub fn keeps(&self) -> u64
        ensures { result ≡ self.now.keeps }
    {
        self.keeper.keeps
    }

    /// Begins the count of what is kept.
    pub fn count_keeps(&mut self)
        ensures { self.new ≡ record self.old { keeps = 0 } }
    {
        self.keeper.keeps = 0;
    }
}
