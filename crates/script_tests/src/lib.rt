//! The tests of the grammar and of the generator of scripts, which call the crates from outside. A crate with its own tests is
//! proved once more with them, so these are here.
#![tactic(auto)]

#[cfg(test)]
mod reading;
#[cfg(test)]
mod saying;
#[cfg(test)]
mod scripts;
