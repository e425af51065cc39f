//! The tests of the disk in memory and of the disk over a folder, which call them from outside. A crate with tests of its
//! own is proved once more with them, so these are here.
#![tactic(auto)]

#[cfg(test)]
mod directory;
#[cfg(test)]
mod memory;
