//! One node of Raft: each event is one step of the rules.
#![tactic(auto)]

mod compaction;
mod effects;
mod elections;
mod entries;
mod event;
mod finishing;
mod membership;
mod node;
mod queries;
mod receiving;
mod replication;
mod role;
mod sending;
mod starting;
mod state;
mod step;

pub use event::{RaftEvent, RaftView, StoredRaft, Todo};
pub use node::RaftNode;
pub use receiving::is_near;
pub use role::RaftRole;
pub use sending::{Outgoing, OutgoingList};
