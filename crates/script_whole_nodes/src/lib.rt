//! The place of a whole node in a script: a disk in memory, and the node that runs over it with its engine, if one does.
#![tactic(auto)]

mod happening;
mod laws;
mod node_slot;
mod opening;
mod place;

pub use laws::whole_scripts_are_safe;
pub use place::{CellChoice, EngineChoice, SqliteChoice, WholePlace};
