//! Streams that do what a script says.

ghost use Rattle.std.specs.Prelude.{None};

use serve_places::{ReadOutcome, ReadyStream};
use std::alloc::Global;
use std::collections::VecDeque;

/// A stream whose reads give the bytes of a script, this many at a time, and then nothing, or the end; and of whose writes this many take nothing
/// before the others take all.
#[derive(Drop)]
pub(crate) struct Script {
    bytes: VecDeque<u8>,
    piece: usize,
    ends: bool,
    refusals: usize,
}

impl Script {
    /// A stream with these bytes.
    pub(crate) fn new(
        alloc: Global,
        bytes: &[u8],
        piece: usize,
        ends: bool,
        refusals: usize,
    ) -> Option<Script> {
        let bytes = VecDeque::from(Vec::from_slice(alloc, bytes).ok()?);
        Some(Script {
            bytes,
            piece,
            ends,
            refusals,
        })
    }
}

impl ReadyStream for Script {
    ghost left = { λ _. None };

    ghost written = { λ _. None };

    fn read(&mut self, into: &mut [u8]) -> ReadOutcome {
        let count = into.len().min(self.piece).min(self.bytes.len());
        for place in &mut into[..count] {
            let Some(byte) = self.bytes.pop_front() else {
                break;
            };
            *place = byte;
        }
        match (count, self.ends) {
            (0, true) => ReadOutcome::Ended,
            (0, false) => ReadOutcome::Nothing,
            (count, _) => ReadOutcome::Bytes(count),
        }
    }

    fn write(&mut self, bytes: &[u8]) -> Option<usize> {
        if self.refusals > 0 {
            self.refusals -= 1;
            return Some(0);
        }
        Some(bytes.len())
    }

    fn shut(&mut self) {
        self.bytes.clear();
    }
}
