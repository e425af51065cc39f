//! The store of a node: metadata, segments and snapshots, over every crash.
#![tactic(auto)]

mod block;
mod fault;
mod keep_files;
mod keep_plan;
mod load_fault;
mod loading;
mod names;
mod segment;
mod starts;
mod store;
mod unsynced;

pub use fault::StoreFault;
pub use load_fault::LoadFault;
pub use starts::{kept_starts, load_starts, old_or_kept_starts, old_or_new_starts};
pub use store::Store;
pub use store_format::{Kept, crc32, sum8};
pub use unsynced::UnsyncedBatch;
