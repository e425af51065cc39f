//! The tests of a client, over a dialer in memory and over sockets. They call the crates from outside. A crate with its own tests
//! is proved once more with them, so these are here.
#![tactic(auto)]

#[cfg(test)]
mod queries;
#[cfg(test)]
mod sockets;
