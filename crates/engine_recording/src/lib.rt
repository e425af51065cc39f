//! What an engine answered, kept: an engine that keeps a copy of each of its answers, and the journal of a run, which takes
//! these copies over.
#![tactic(auto)]

mod copying;
mod engine;
mod journal;
mod recorded_item;

pub use engine::RecordingEngine;
pub use journal::Journal;
pub use recorded_item::RecordedItem;
