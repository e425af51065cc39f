//! Two files in memory for the crate `sqlite`, which note by which call each page was written, cut or grown last, and keep the
//! image before; and the set of pages that differ in the end, by those pages alone.
#![tactic(auto)]

mod compared;
mod original_image;
mod page_file;
mod pair;
mod stamps;
mod steps;
mod taking;
mod writes;

pub use compared::{TouchedFile, changes_between, changes_since};
pub use original_image::OriginalImage;
pub use page_file::PageFile;
pub use pair::{PairDisk, PairFiles};
pub use steps::PageReads;
