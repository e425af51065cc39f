//! The tests of `raft_messages`, `raft_log`, `raft_core` and `raft_membership`, which call them from outside. A crate with tests of
//! its own is proved once more with them, so these are here.
#![tactic(auto)]

#[cfg(test)]
mod figure;
#[cfg(test)]
mod logs;
#[cfg(test)]
mod members;
#[cfg(test)]
mod nodes;
#[cfg(test)]
mod owner;
#[cfg(test)]
mod runs;
#[cfg(test)]
mod steps;
#[cfg(test)]
mod votes;
