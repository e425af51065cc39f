//! Raft over its store: each step of one node is kept before what it says is handed out.
#![tactic(auto)]

mod following;
mod kept;
mod laws;
mod letters;
mod looking;
mod mail;
mod queries;
mod raft_storage;
mod replica;

pub use laws::{mails_ascend, servers_change_nothing_else, twins_keep_alike};
pub use mail::Outgoing;
pub use replica::{RaftStep, Replica};
