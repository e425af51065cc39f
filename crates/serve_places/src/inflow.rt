//! What was read of a connection and not handed on.

ghost use Rattle.std.specs.Prelude.{◌≡◌, ◌≤◌, ◌+◌, ◌*◌, ◌<◌, ◌==◌, true, [], ◌++◌, drop, take, length, slice_index, IfOk, OnOk};
ghost use Rattle.serve_places.specs.Pieces.{IsFront, has_piece, next_size, words_in};

use dq_base::Bytes;
use std::alloc::{AllocError, Global};
use std::marker::Model;

/// How many bytes a socket has to say at least before it is a connection: the version, and the header of the first message.
pub(crate) const FRONT_SIZE: usize = 16;

/// How many bytes the header of a message has.
const HEADER_SIZE: usize = 8;

/// The number of a CONNECT among the types of a client's messages.
pub(crate) const CONNECT: u8 = 11;

/// The bytes that were read and not handed on, from `at` on; and how many bytes of the message at their front are to come, 0 if a header
/// is next.
#[derive(Drop)]
pub(crate) struct Inflow {
    bytes: Vec<u8>,
    at: usize,
    left: u64,
    ghost within: { at ≤ length bytes.items },
}

impl Model for Inflow {
    ghost use Rattle.std.specs.Prelude.{drop};
    ghost use Rattle.serve_places.specs.Pieces.{Incoming};

    ghost Value = { Incoming };

    ghost view = { λ a. record { bytes = drop a.at a.bytes.items; left = a.left } };
}

/// How many words a message has after this header.
pub(crate) fn words_in(header: &[u8]) -> u64
    requires { 4 ≤ length header.now }
    ensures words { result ≡ words_in header.now }
    ensures bound { result < 4294967296 }
{
    u32::from_le_bytes([header[0], header[1], header[2], header[3]]) as u64
}

/// How many bytes are there, at most this size.
fn fitting(size: u64, held: &[u8]) -> usize
    ensures size { result ≤ size }
    ensures held { result ≤ length held.now }
{
    if size < held.len() as u64 {
        size as usize
    } else {
        held.len()
    }
}

/// The first bytes, this number of them.
fn front_of(alloc: Global, bytes: &[u8], count: usize) -> Result<Bytes, AllocError>
    requires { count ≤ length bytes.now }
    ensures { IfOk result (λ piece. piece ≡ take count bytes.now) }
{
    Ok(Bytes::new(Vec::from_slice(alloc, &bytes[..count])?))
}

impl Inflow {
    /// Nothing was read.
    pub(crate) fn new(alloc: Global) -> Inflow
        ensures { result ≡ record { bytes = []; left = 0 } }
    {
        Inflow {
            bytes: Vec::new(alloc),
            at: 0,
            left: 0,
        }
    }

    /// The bytes.
    pub(crate) fn rest(&self) -> &[u8]
        ensures { result.now ≡ self.now.bytes }
    {
        &self.bytes[self.at..]
    }

    /// How many bytes there are.
    pub(crate) fn len(&self) -> usize
        ensures { result ≡ length self.now.bytes }
    {
        self.rest().len()
    }

    /// Adds bytes that were read.
    pub(crate) fn add(&mut self, alloc: Global, bytes: &[u8]) -> Result<(), AllocError>
        ensures bytes { OnOk result (self.new.bytes ≡ self.old.bytes ++ bytes.now) }
        ensures left { self.new.left ≡ self.old.left }
    {
        if self.at == self.bytes.len() {
            self.bytes.clear();
        } else {
            self.bytes = Vec::from_slice(alloc, self.rest())?;
        }
        self.at = 0;
        self.bytes.extend_from_slice(bytes)?;
        Ok(())
    }

    /// Whether the next bytes are the first ones of a message.
    pub(crate) fn is_at_head(&self) -> bool {
        self.left == 0
    }

    /// Whether bytes of a message can be handed on.
    pub(crate) fn has_piece(&self) -> bool
        ensures { result ≡ has_piece self.now }
    {
        let held = self.len();
        if self.left == 0 {
            return held >= HEADER_SIZE;
        }
        held > 0
    }

    /// Takes the first bytes that are there, of one message at most. None are taken if memory runs out.
    pub(crate) fn take_piece(&mut self, alloc: Global) -> Result<Bytes, AllocError>
        requires { has_piece self.old ≡ true }
        ensures { IfOk result (IsFront self.old self.new) }
    {
        let size = self.next_size();
        let rest = self.rest();
        let count = fitting(size, rest);
        let piece = front_of(alloc, rest, count)?;
        self.left = size - count as u64;
        self.at += count;
        Ok(piece)
    }

    /// How many bytes of a message come next.
    fn next_size(&self) -> u64
        requires { has_piece self.now ≡ true }
        ensures { result ≡ next_size self.now }
    {
        if self.left == 0 {
            return 8 + 8 * words_in(self.rest());
        }
        self.left
    }

    /// The first bytes are there, and the version comes with the first message.
    pub(crate) fn begin(&mut self)
        requires { 16 ≤ length self.old.bytes }
        ensures bytes { self.new.bytes ≡ self.old.bytes }
        ensures left { self.new.left ≡ 16 + 8 * words_in (drop 8 self.old.bytes) }
    {
        let rest = self.rest();
        let words = words_in(&rest[8..]);
        self.left = 16 + 8 * words;
    }

    /// Whether bytes of the message whose front was taken are to come.
    pub(crate) fn is_under_way(&self) -> bool {
        self.left > 0
    }

    /// How many bytes the next message has, if its header is next.
    pub(crate) fn next_message(&self) -> Option<u64> {
        if self.left > 0 || !self.has_piece() {
            return None;
        }
        Some(self.next_size())
    }

    /// Whether the next message is a CONNECT, as far as its header is there.
    pub(crate) fn is_connect_next(&self) -> bool {
        let rest = self.rest();
        self.left == 0 && rest.len() >= HEADER_SIZE && rest[4] == CONNECT
    }
}
