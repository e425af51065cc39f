//! A disk over the files of a folder of the operating system.
#![tactic(auto)]

mod directory;

pub use directory::{CallFault, DirDisk};
