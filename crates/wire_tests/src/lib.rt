//! The tests of the crates of the wire, which call them from outside. A crate with its own tests is proved once more
//! with them, so these are here.
#![tactic(auto)]

#[cfg(test)]
mod messages;
#[cfg(test)]
mod rows;
#[cfg(test)]
mod streams;
#[cfg(test)]
mod values;
#[cfg(test)]
mod words;
