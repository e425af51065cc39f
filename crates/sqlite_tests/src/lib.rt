//! The tests of SQLite's engine and of the disks below it, which call both from outside. A crate with its own tests is
//! proved once more with them, so these are here; apart from those of scripts, since each of the two takes memory enough.
#![tactic(auto)]

#[cfg(test)]
mod following;
#[cfg(test)]
mod recorded;
#[cfg(test)]
mod statements;
