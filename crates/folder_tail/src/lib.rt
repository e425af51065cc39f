//! What follows the whole batches of the last segment of a folder: bytes of a write that never ended, which a start drops, or
//! damage.
#![tactic(auto)]

mod folder;
mod heads;
mod judging;
mod names;
mod search;
mod tail;

pub use judging::look_at_tail;
pub use tail::Tail;
