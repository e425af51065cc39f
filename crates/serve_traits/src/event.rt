//! What happens at a node.

use dq_base::Bytes;
use raft_messages::RaftMessage;

/// What happens at a node whose readers answer this of a query.
#[derive(Drop)]
pub enum Event<T> {
    /// It has heard of no leader for too long.
    Timeout,
    /// It is time for a leader's heartbeat.
    Beat,
    /// A leader is to give up its leadership. At a node that doesn't lead nothing happens.
    Yield,
    /// A client connects by this number, which no client had before.
    Connect(u64),
    /// Bytes come on the connection of this number, the next ones of its stream.
    Bytes(u64, Bytes),
    /// The client of this connection hangs up.
    Hangup(u64),
    /// A message of another node comes.
    Peer(RaftMessage),
    /// The reader of this connection's query is done with it, and tells this: what came of it, or that the node is to run it.
    ReadDone(u64, T),
}
