//! The messages of Raft between nodes, with their bytes, configurations with theirs, and the votes of one node.
#![tactic(auto)]

mod configuration;
mod entries;
mod entry;
mod fault;
mod items;
mod kind;
mod laws;
mod message;
mod range;
mod reading;
mod server;
mod servers_fault;
mod shared;
mod votes;
mod writing;

pub use configuration::{
    MAX_ADDRESS_LENGTH, MAX_SERVERS, read_servers, voter_count, write_servers,
};
pub use entries::{
    EntryHead, read_entry_contents, read_entry_heads, write_entry_contents, write_entry_heads,
};
pub use entry::{Entries, Entry, EntryKind, LogEnd};
pub use fault::PeerFault;
pub use laws::{
    configurations_read_back, messages_read_back, messages_stand_apart, other_nodes_refuse,
    out_of_range_is_refused,
};
pub use message::{MessageBody, RaftMessage, Snapshot};
pub use reading::read_message;
pub use server::{Server, ServerRole, Servers};
pub use servers_fault::ServersFault;
pub use shared::SharedBytes;
pub use votes::{MAX_VOTERS, VoteCore};
pub use writing::write_message;
