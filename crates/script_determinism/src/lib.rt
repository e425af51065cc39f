//! With engines of cells a script alone decides what is said. Nothing here runs: each law is the promise of an empty function.
#![tactic(auto)]

mod cells;
mod cores;
mod runs;

pub use cells::scripts_are_decided;
pub use cores::cores_are_decided;
pub use runs::{AreNodes, scripts_repeat};
