//! A batch between its write and its sync.
ghost use Rattle.std.specs.Prelude.{◌≡◌};

use dq_base::Name;

/// A batch that is written at the end of a segment, and not synced.
#[derive(Drop)]
pub struct UnsyncedBatch {
    /// The segment's file.
    pub(crate) name: Name,
    /// How long the segment is with the batch.
    pub(crate) size: u64,
    /// Whether the disk has begun the sync.
    pub(crate) is_begun: bool,
}

impl UnsyncedBatch {
    /// Whether the disk has begun the sync, so that its caller may do something else before `Store::end_append`.
    pub fn is_begun(&self) -> bool
        ensures { result ≡ self.now.is_begun }
    {
        self.is_begun
    }
}
