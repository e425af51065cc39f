//! What waits to be written to a connection.

ghost use Rattle.std.specs.Prelude.{◌≡◌, ◌≤◌, ◌+◌, [], ◌∷◌, ◌++◌, length, OnOk, OnErr};
ghost use Rattle.serve_places.specs.Rooms.{waiting_bytes};

use crate::limits::{MAX_PLACE_BYTES, REPLY_OVERHEAD};
use crate::stream::ReadyStream;
use std::alloc::Global;
use std::collections::VecDeque;
use wire_words::WireBytes;

/// Why a connection is closed.
#[derive(Clone, Copy, Debug, PartialEq, Eq)]
pub enum CutCause {
    /// Its client reads too slowly: as much waits for it as may for one connection.
    Place,
    /// As much waits for all connections as may together.
    Node,
    /// A reply found no memory.
    Memory,
    /// The stream has failed.
    Stream,
}

/// What came of a try to write what waits.
#[derive(Clone, Copy, Debug, PartialEq, Eq)]
pub(crate) enum Flushed {
    /// The stream took bytes, or all that waited.
    Some,
    /// It took none.
    Nothing,
    /// It has failed.
    Failed,
}

/// The replies that wait, how many bytes of the first one were written, and how many bytes all of them count for.
#[derive(Drop)]
pub(crate) struct Outflow {
    waits: VecDeque<WireBytes>,
    written: usize,
    held: u64,
    ghost counted: { held ≡ waiting_bytes waits.items },
    ghost bounded: { held ≤ 33554432 },
}

/// How many bytes a reply counts for.
fn size_of(reply: &WireBytes) -> u64
    ensures exact { length reply.now + 256 ≤ 33554432 → result ≡ length reply.now + 256 }
    ensures large { result ≤ 33554432 → result ≡ length reply.now + 256 }
{
    (reply.len() as u64).saturating_add(REPLY_OVERHEAD)
}

impl Outflow {
    /// Nothing waits.
    #[tactic(auto, using(crate::proofs::Adding::none_waits))]
    pub(crate) fn new(alloc: Global) -> Outflow
        ensures { result.held ≡ 0 }
    {
        Outflow {
            waits: VecDeque::new(alloc),
            written: 0,
            held: 0,
        }
    }

    /// Whether nothing waits.
    pub(crate) fn is_empty(&self) -> bool {
        self.waits.is_empty()
    }

    /// How many bytes wait, with 256 for each reply.
    pub(crate) fn held(&self) -> u64
        ensures counted { result ≡ waiting_bytes self.now.waits.items }
        ensures bounded { result ≤ 33554432 }
    {
        self.held
    }

    /// Has a reply wait after the others.
    #[tactic(auto, using(crate::proofs::Adding::one_more))]
    pub(crate) fn add(&mut self, reply: WireBytes) -> Result<(), CutCause> {
        let size = size_of(&reply);
        if size > MAX_PLACE_BYTES - self.held {
            return Err(CutCause::Place);
        }
        if self.waits.push_back(reply).is_err() {
            return Err(CutCause::Memory);
        }
        self.held += size;
        Ok(())
    }

    /// Writes what waits, as far as the stream takes it now.
    pub(crate) fn flush<S: ReadyStream>(&mut self, stream: &mut S) -> Flushed {
        let mut flushed = Flushed::Nothing;
        for _ in 0..u64::MAX {
            let Some(first) = self.waits.front() else {
                return Flushed::Some;
            };
            let size = first.len();
            if self.written < size {
                match stream.write(&first.as_slice()[self.written..]) {
                    Some(0) => return flushed,
                    Some(count) => self.written += count,
                    None => return Flushed::Failed,
                }
                flushed = Flushed::Some;
            }
            if self.written >= size {
                self.drop_first();
            }
        }
        flushed
    }

    /// The first reply is written.
    #[tactic(auto, using(crate::proofs::Adding::one_less, crate::proofs::Adding::fewer, crate::proofs::Adding::none_less))]
    fn drop_first(&mut self) {
        self.written = 0;
        let Some(done) = self.waits.pop_front() else {
            return;
        };
        self.held = self.held.saturating_sub(size_of(&done));
    }
}
