//! The configurations of a node's whole log: the one up to which the log is applied, and those of the changes after it.
#![tactic(auto)]

mod changes;
mod joining;
mod laws;
mod members;

pub use changes::change_in;
pub use laws::members_follow_logs;
pub use members::Members;
