//! The tests of the write-ahead log, of live marks with the frame index, and of the store of pages under readers, which
//! call them from outside. A crate with its own tests is proved once more with them, so these are here.
#![tactic(auto)]

#[cfg(test)]
mod logs;
#[cfg(test)]
mod marks;
#[cfg(test)]
mod store;
