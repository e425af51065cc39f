//! The tests of what a node has applied and what a leader owes, which call their crate from outside.
#![tactic(auto)]

#[cfg(test)]
mod entries;
#[cfg(test)]
mod offices;
#[cfg(test)]
mod snapshots;
