//! State machines that apply one list of commands, each at its own pace; and that list, with the limits on what it names and states.
#![tactic(auto)]

mod laws;
mod list;
mod machine_line;
mod machines;
mod printing;
mod stated;

pub use laws::{limits_bound_what_is_stated, machines_stay_alike};
pub use machine_line::MachineLine;
pub use machines::Machines;
pub use printing::line_for;
