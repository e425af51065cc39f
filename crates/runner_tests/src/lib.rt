//! The tests of the runner of scripts over whole nodes, which call it from outside. A crate with its own tests is proved once
//! more with them, so these are here.
#![tactic(auto)]

#[cfg(test)]
mod scripts;
