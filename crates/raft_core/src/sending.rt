//! What a node sends.
use dq_base::Items;
use raft_messages::{LogEnd, RaftMessage};

/// One thing that a node sends to another.
#[derive(Drop)]
pub enum Outgoing {
    /// A message.
    Message(RaftMessage),
    /// The node's kept snapshot, whose bytes its owner fills in.
    Install {
        /// The receiver's id.
        to: u64,
        /// The sender's term.
        term: u64,
        /// Where the snapshot ends.
        last: LogEnd,
    },
}

/// What a node sends in one step, in order.
pub type OutgoingList = Items<Outgoing>;
