//! What a node is started with, what happens at it, and how it stands.

use dq_base::Bytes;
use raft_core::RaftRole;
use raft_messages::{RaftMessage, Servers};
use session_gateway::{Read, StepLimits};

/// Who a node is, and with which servers its cluster was opened.
#[derive(Drop)]
pub struct NodeSpec {
    /// Its id; 1 or more.
    pub id: u64,
    /// The servers of the cluster before its log had any change. A snapshot and the log say of others.
    pub servers: Servers,
    /// Whether it has peer connections to other nodes, over which connections come that carry their messages.
    pub links: bool,
    /// Whether readers answer queries concurrently with it.
    pub readers: bool,
    /// How many steps statements may take. A statement that would take more is refused with the code because memory ran
    /// out.
    pub steps: StepLimits,
}

/// What happens at a node.
#[derive(Drop)]
pub enum Event {
    /// It has heard of no leader for too long.
    Timeout,
    /// It is time for a leader's heartbeat.
    Beat,
    /// A leader is to give up its leadership: it becomes a follower of the next term, and its pending proposals end as at any
    /// loss of leadership. At a node that doesn't lead nothing happens.
    Yield,
    /// A client connects by this number, which no client had before.
    Connect(u64),
    /// Bytes come on the connection of this number, the next ones of its stream.
    Bytes(u64, Bytes),
    /// The client of this connection hangs up.
    Hangup(u64),
    /// A message of another node comes.
    Peer(RaftMessage),
    /// The reader of a connection's query is done with its job, and tells this: a reply, a refusal, or that it gives the query
    /// back, since it would change pages. Nothing happens where no job of the connection is out.
    ReadDone(u64, Read),
}

/// How a node stands.
#[derive(Clone, Copy, Debug, PartialEq, Eq)]
pub struct NodeState {
    /// Its term.
    pub term: u64,
    /// What it is in this term.
    pub role: RaftRole,
    /// The leader of this term, if it knows one.
    pub leader: Option<u64>,
    /// The last index of its log.
    pub last: u64,
    /// The index of the last entry that it has applied.
    pub applied: u64,
}
