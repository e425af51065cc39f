//! A disk that may fail at any call and crash at any moment: what its calls mean, and one over memory that stops and
//! fails if it is told to.
#![tactic(auto)]

mod armed;
mod disk;
mod faults;
mod folder;
mod memory;
mod open_calls;
mod replacing;
mod storage;
mod stored;

pub use armed::Stop;
pub use disk::Disk;
pub use faults::DiskFault;
pub use memory::MemDisk;
pub use replacing::replace;
