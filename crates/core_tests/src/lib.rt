//! The tests of a whole node, which call it from outside: single nodes and three of them over disks in memory, with stops
//! inside a step.
#![tactic(auto)]

#[cfg(test)]
mod changes;
#[cfg(test)]
mod cluster;
#[cfg(test)]
mod seat;
#[cfg(test)]
mod snapshots;
#[cfg(test)]
mod stops;
