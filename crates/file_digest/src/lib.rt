//! The digest of a state machine's files.
#![tactic(auto)]

mod file;
mod hashing;

pub use hashing::digest;
