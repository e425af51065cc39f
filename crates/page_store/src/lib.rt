//! A database under readers: a base image, frames of committed page sets over it, live read marks that each keep showing
//! the image that was newest when they were pinned, and checkpoints that move frames into the base up to the least mark.
//! Readers share the table of their marks, and the index that finds the last frame of a page below a mark.
#![tactic(auto)]

mod files;
mod frame_index;
mod frame_log;
mod laws;
mod marks;
mod reading;
mod store;

pub use frame_index::FrameIndex;
pub use laws::live_mark_shows_image_pinned;
pub use marks::{MarkFault, MarkId, Marks};
pub use store::PageStore;
