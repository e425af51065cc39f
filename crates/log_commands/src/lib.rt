//! The commands that a cluster replicates, as bytes: a database is opened, or pages of a transaction are changed.
#![tactic(auto)]

mod command;
mod fault;
mod items;
mod kind;
mod laws;
mod numbers;
mod reading;
mod splitting;
mod writing;

pub use command::Command;
pub use fault::CommandFault;
pub use laws::{
    commands_read_back, commands_stand_apart, numbers_are_in_range, sets_that_apply_can_be_split,
};
pub use reading::read_command;
pub use splitting::{can_split, split};
pub use writing::write_command;
