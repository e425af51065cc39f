//! What a node has applied, and what a leader owes.
#![tactic(auto)]

mod applied;
mod checkpoints;
mod content;
mod effect;
mod laws;
mod leadership;
mod reading;
mod snapshot;
mod undoing;

pub use applied::Applied;
pub use content::{Content, content_of};
pub use effect::AppliedEffect;
pub use laws::{lives_are_shown, offices_go_on, offices_stay, snapshots_read_back};
pub use leadership::{Leadership, LeadershipPhase};
