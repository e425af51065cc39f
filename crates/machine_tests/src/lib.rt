//! The tests of the state machine and of its snapshots, which call `database_state` from outside. A crate with its own tests is
//! proved once more with them, so these are here.
#![tactic(auto)]

#[cfg(test)]
mod faults;
#[cfg(test)]
mod machines;
#[cfg(test)]
mod snapshots;
