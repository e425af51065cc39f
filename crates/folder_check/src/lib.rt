//! What the files of a stopped node represent, printed in lines.
#![tactic(auto)]

mod checking;
mod databases;
mod ends;
mod lines;

pub use checking::check;
pub use ends::CheckEnd;
