//! A script that lies in memory, as a source.

ghost use Rattle.std.specs.Prelude.{◌≡◌, [], IfOk};

use dq_base::{Failed, Source};
use std::alloc::{AllocError, Global};
use std::marker::Model;

/// The bytes of a script that lie in memory, of which this many were read. Reading them never fails.
#[derive(Drop)]
pub(crate) struct ScriptBytes {
    bytes: Vec<u8>,
    at: usize,
}

impl Model for ScriptBytes {
    ghost use Rattle.std.specs.Prelude.{◌≤◌, ℕ, List, drop, length};

    ghost Value = { List ℕ };

    ghost view = { λ s. drop s.at s.bytes.items };

    ghost invariant = { λ s. s.at ≤ length s.bytes.items };
}

impl ScriptBytes {
    /// A copy of these bytes, of which none was read.
    pub(crate) fn copy(alloc: Global, bytes: &[u8]) -> Result<ScriptBytes, AllocError>
        ensures { IfOk result (λ script. script ≡ bytes.now) }
    {
        let mut copied = Vec::new(alloc);
        copied.extend_from_slice(bytes)?;
        Ok(ScriptBytes {
            bytes: copied,
            at: 0,
        })
    }
}

impl Source for ScriptBytes {
    ghost use Rattle.std.specs.Prelude.{Some};

    ghost left = { λ s. Some s };

    ghost faults = { λ s. 0 };

    fn read(&mut self, into: &mut [u8]) -> Result<usize, Failed> {
        let rest = &self.bytes[self.at..];
        let count = rest.len().min(into.len());
        into[..count].copy_from_slice(&rest[..count]);
        self.at += count;
        Ok(count)
    }
}
