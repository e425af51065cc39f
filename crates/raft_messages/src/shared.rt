//! Bytes that logs, batches and messages share by count.
ghost use Rattle.std.specs.Prelude.{◌≡◌, ◌==◌, length, IfOk};

use std::alloc::{AllocError, Global};
use std::marker::Model;
use std::sync::Arc;
use wire_words::WireBytes;

/// Bytes that never change, with several owners. Clauses see them as the list of the bytes.
#[derive(Debug, Drop)]
pub struct SharedBytes {
    bytes: Arc<WireBytes, Global>,
}

impl Model for SharedBytes {
    ghost use Rattle.std.specs.Prelude.{ℕ, List};
    ghost use Rattle.std.specs.Arc.{arc_value};

    ghost Value = { List ℕ };

    ghost view = { λ s. arc_value s.bytes };
}

impl SharedBytes {
    /// Takes the bytes, with one owner. They aren't copied. `Err` means out of memory for the
    /// count.
    pub fn new(alloc: Global, bytes: WireBytes) -> Result<SharedBytes, AllocError>
        ensures { IfOk result (λ shared. shared ≡ bytes) }
    {
        Ok(SharedBytes {
            bytes: Arc::new(alloc, bytes)?,
        })
    }

    /// These bytes for one more owner: the count goes up by one, and nothing is copied. `Err` where the count is full.
    pub fn share(&self) -> Result<SharedBytes, AllocError>
        ensures { IfOk result (λ shared. shared ≡ self.now) }
    {
        Ok(SharedBytes {
            bytes: Arc::try_clone(&self.bytes)?,
        })
    }

    /// The bytes, borrowed.
    pub fn as_slice(&self) -> &[u8]
        ensures { result.now ≡ self.now }
    {
        let bytes: &WireBytes = &self.bytes;
        bytes.as_slice()
    }

    /// How many bytes there are.
    pub fn len(&self) -> usize
        ensures { result ≡ length self.now }
    {
        let bytes: &WireBytes = &self.bytes;
        bytes.len()
    }

    /// Whether it is empty.
    pub fn is_empty(&self) -> bool
        ensures { result ≡ (length self.now == 0) }
    {
        let bytes: &WireBytes = &self.bytes;
        bytes.is_empty()
    }
}
