use dq_base::{Bytes, Name};

/// What a call that no sync covers yet did to its file, as far as a crash may still drop it.
#[derive(Drop)]
pub enum UnsyncedEffect {
    /// The first write of a name, from the file's start on: a crash may drop the bytes and the name.
    Creation { bytes: Bytes },
    /// The first write of a name, whose bytes are synced: a crash may drop the name alone.
    Naming,
    /// A write to a file whose name isn't new.
    Write { at: u64, bytes: Bytes },
    /// A cut to a length.
    Truncation { length: u64 },
    /// The removal of the file.
    Removal,
    /// A write or a cut of a file that is gone certainly. It can't be seen any more, and is still
    /// counted.
    Nothing,
}

/// A call that no sync covers yet: its file, and what it did.
#[derive(Drop)]
pub struct UnsyncedCall {
    pub(crate) name: Name,
    pub(crate) effect: UnsyncedEffect,
}
