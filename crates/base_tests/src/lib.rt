//! The tests of `dq_base`, which call it from outside. A crate with its own tests is proved once more with them, so these
//! are here.
#![tactic(auto)]

#[cfg(test)]
mod streams;
#[cfg(test)]
mod texts;
#[cfg(test)]
mod values;
