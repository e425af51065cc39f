//! The tests of the files of a node, and of a check of a stopped node, which call their crates from outside. A crate with tests of
//! its own is proved once more with them, so these are here.
#![tactic(auto)]

#[cfg(test)]
mod batches;
#[cfg(test)]
mod checks;
#[cfg(test)]
mod fails;
#[cfg(test)]
mod formats;
#[cfg(test)]
mod loading;
#[cfg(test)]
mod stops;
#[cfg(test)]
mod stores;
