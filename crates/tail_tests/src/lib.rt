//! The tests of the look at the end of the last segment, which call `folder_tail` from outside. A crate with tests of its own is proved
//! once more with them, so these are here.
#![tactic(auto)]

#[cfg(test)]
mod tails;
