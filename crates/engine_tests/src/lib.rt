//! The tests of engines, which call them from outside. A crate with its own tests is proved once more with them, so these
//! are here.
#![tactic(auto)]

#[cfg(test)]
mod cells;
#[cfg(test)]
mod commands;
#[cfg(test)]
mod journals;
#[cfg(test)]
mod scans;
