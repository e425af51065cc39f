//! What every layer of the node rests on: lists that contracts compare, the traits of the outside with their counts
//! of faults, and the pages and images of a database.
#![tactic(auto)]

mod applying;
mod calls;
mod changes;
mod decimal;
mod faults;
mod files;
mod image_number;
mod images;
mod items;
mod memory;
mod names;
mod page_fault;
mod page_numbers;
mod pages;
mod reader;
mod set_checks;
mod sink;
mod sizes;
mod source;
mod texts;
mod tries;
mod writer;

pub use applying::{apply, apply_pages};
pub use calls::Calls;
pub use changes::{change_gives_image, change_has_no_fault};
pub use decimal::{decimal_u32, decimal_u64};
pub use faults::Failed;
pub use files::{is_page_of, put_page, put_pages};
pub use image_number::ImageNumber;
pub use images::{Image, lengths_of, page_at, page_count, sizes_of, sizes_page};
pub use items::{Bytes, Items};
pub use memory::{MemSink, MemSource};
pub use names::{MAX_NAME_LENGTH, Name};
pub use page_fault::PageFault;
pub use page_numbers::start_within;
pub use pages::{NumberedPage, PAGE_SIZE, Page, PageSet};
pub use reader::ReadSource;
pub use set_checks::set_lengths;
pub use sink::Sink;
pub use sizes::{Lengths, MAX_FILE_LENGTH, stated_lengths};
pub use source::Source;
pub use texts::halves_of;
pub use writer::WriteSink;
