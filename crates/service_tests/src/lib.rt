//! The tests of a node that is served, over memory and over this machine's sockets. They call the crates from outside. A crate with tests
//! of its own is proved once more with them, so these are here.
#![tactic(auto)]

#[cfg(test)]
mod addresses;
#[cfg(test)]
mod cluster;
#[cfg(test)]
mod ends;
#[cfg(test)]
mod silent;
#[cfg(test)]
mod words;
