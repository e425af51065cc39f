//! What commands state.

use dq_base::Name;

/// The greatest length that commands state for a database, its two files together.
#[derive(Drop)]
pub(crate) struct Stated {
    pub(crate) name: Name,
    pub(crate) length: u64,
}
