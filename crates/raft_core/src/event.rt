//! What a node takes in, what it tells, and what a step of it leaves to its owner.

use crate::role::RaftRole;
use crate::sending::OutgoingList;
use raft_messages::{Entries, LogEnd, RaftMessage, Servers, Snapshot};

/// What a node takes in, one at a time.
#[derive(Drop)]
pub enum RaftEvent {
    /// It heard of no leader for too long.
    Timeout,
    /// It is time for a leader's heartbeat.
    Beat,
    /// A leader is to give up its leadership: it becomes a follower of the next term. At other nodes nothing happens.
    Yield,
    /// A message came.
    Message(RaftMessage),
    /// A leader is to append entries of this kind and these bytes, in its own term. At other nodes nothing happens.
    Propose(Entries),
    /// A leader is to hand its leadership over to this node.
    Transfer(u64),
    /// The node's owner has kept a snapshot that ends there.
    Snapped { at: LogEnd },
    /// These are the servers from now on.
    Servers(Servers),
}

/// What a node's owner has kept, and starts the node with.
#[derive(Drop)]
pub struct StoredRaft {
    /// The term.
    pub term: u64,
    /// To whom the node gave its vote in this term; 0 for no node.
    pub vote: u64,
    /// The end of the kept snapshot.
    pub snapshot: Option<LogEnd>,
    /// The index of the first entry.
    pub first: u64,
    /// The entries from there on.
    pub entries: Entries,
}

/// How a node stands.
#[derive(Clone, Copy, Debug, PartialEq, Eq)]
pub struct RaftView {
    /// Its term.
    pub term: u64,
    /// What it is in this term.
    pub role: RaftRole,
    /// The leader of this term, if it knows one.
    pub leader: Option<u64>,
    /// Where its log ends.
    pub last: LogEnd,
    /// Up to which index entries are committed, as far as it knows.
    pub commit: u64,
}

/// What a step leaves to the node's owner. Metadata, then the batch or the snapshot, are to be kept before a message is
/// sent and before an entry up to `commit` is applied.
#[derive(Drop)]
pub struct Todo {
    /// Term and vote, if one of them is new.
    pub meta: Option<(u64, u64)>,
    /// The first index at which the log is another one now: the entries from there on (`RaftNode::tail`) are to be kept, in
    /// place of all from there.
    pub batch: Option<u64>,
    /// The snapshot that came, where it is to be kept in place of all entries up to its end.
    pub install: Option<Snapshot>,
    /// What is to be sent, in order.
    pub sends: OutgoingList,
    /// Up to which index entries are committed.
    pub commit: u64,
}
