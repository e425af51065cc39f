//! The tests of a node as the core of its loop, over objects in memory: what it says to clients and closes, and the queries that it
//! lends. They call the crates from outside. A crate with its own tests is proved once more with them, so these stand
//! here.
#![tactic(auto)]

#[cfg(test)]
mod ahead;
#[cfg(test)]
mod beside;
#[cfg(test)]
mod bounds;
#[cfg(test)]
mod desk;
#[cfg(test)]
mod feed;
#[cfg(test)]
mod gate;
#[cfg(test)]
mod held_disk;
#[cfg(test)]
mod lives;
#[cfg(test)]
mod messages;
#[cfg(test)]
mod peers;
#[cfg(test)]
mod queries;
