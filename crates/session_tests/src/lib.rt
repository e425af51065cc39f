//! The tests of sessions as code, and of what answers queries concurrently with a node, which call the crates from outside. A crate with tests
//! of its own is proved once more with them, so these are here.
#![tactic(auto)]

#[cfg(test)]
mod causes;
#[cfg(test)]
mod engine;
#[cfg(test)]
mod lives;
#[cfg(test)]
mod messages;
#[cfg(test)]
mod node;
#[cfg(test)]
mod readers;
#[cfg(test)]
mod rows;
