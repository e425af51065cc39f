//! Runs a script from its bytes to the text that it prints: of nodes, or of state machines that apply one list of commands.
#![tactic(auto)]

mod laws;
mod node_script;
mod printing;
mod run;
mod said;
mod script_mode;

pub use laws::runs_keep_alike;
pub use run::{Outcome, run_script};
