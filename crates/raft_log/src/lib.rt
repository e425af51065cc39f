//! The log of one node of Raft, a leader's progress of its peers, and the rules of compaction: when a snapshot is due,
//! what stays of the log, which peer needs the snapshot, and what becomes of the log when one comes.
#![tactic(auto)]

mod compaction;
mod log;
mod progress;
mod queue;
mod rows;

pub use compaction::{Compact, InstallPlan};
pub use log::{Accepted, Log};
pub use progress::{MAX_VOTERS, Progress};
pub use rows::MAX_PEERS;
