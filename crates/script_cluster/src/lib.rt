//! The nodes of a script: each at its place; the connections of clients; the messages between nodes; what the events of a script
//! do to all of these; and what that prints. What a place is, is a trait: `NodePlace`.
#![tactic(auto)]

mod cluster;
mod cluster_line;
mod connections;
mod journal;
mod laws;
mod mail;
mod network;
mod place;
mod printing;
mod settling;
mod standing;
mod voters;

pub use cluster::Cluster;
pub use cluster_line::{ClusterLine, DownCause, MessageKind};
pub use journal::{ClusterJournal, JournalItem};
pub use laws::{scripts_play, scripts_run};
pub use place::{EventEnd, EventResult, NodeEvent, NodeLine, NodePlace, Outs, PlaceFault};
pub use printing::line_for;
pub use voters::VoterCount;
