ghost use Rattle.std.specs.Prelude.{◌≡◌, [], ◌↔◌, ◌++◌, min, take, drop, length, Some, IsErr, IsTrue, IfOk, OnOk, OnErr};
ghost use Rattle.dq_base.specs.Faults.{HasCause};
ghost use Rattle.dq_base.specs.Sink.{WriteAppends};
ghost use Rattle.dq_base.specs.Source.{ReadMoves};
ghost use Rattle.dq_base.specs.Calls.{no_calls, next_fails};
ghost use Rattle.dq_base.specs.Memory.{after_read, after_write, after_failure};

use crate::calls::Calls;
use crate::faults::Failed;
use crate::sink::Sink;
use crate::source::Source;
use std::alloc::Global;
use std::marker::Model;

/// A source of bytes that lie in memory. Some of its reads may be made to fail. No method takes memory.
#[derive(Drop)]
pub struct MemSource {
    bytes: Vec<u8>,
    at: usize,
    reads: Calls,
}

impl Model for MemSource {
    ghost use Rattle.std.specs.Prelude.{◌≤◌, drop, length};
    ghost use Rattle.dq_base.specs.Memory.{InMemory};

    ghost Value = { InMemory };

    ghost view = { λ a. record { bytes = drop a.at a.bytes.items; calls = a.reads } };

    ghost invariant = { λ a. a.at ≤ length a.bytes.items };
}

impl MemSource {
    /// A source of these bytes, with no read made so far. `fails` lists the numbers, from 1, of the reads that are
    /// to fail.
    pub fn new(bytes: Vec<u8>, fails: Vec<u64>) -> MemSource
        ensures { result ≡ record { bytes = bytes.items; calls = no_calls fails.items } }
    {
        MemSource {
            bytes,
            at: 0,
            reads: Calls::new(fails),
        }
    }

    /// The bytes that are left.
    pub fn left(&self) -> &[u8]
        ensures { result.now ≡ self.now.bytes }
    {
        &self.bytes[self.at..]
    }

    /// How many reads failed.
    pub fn faults(&self) -> u64
        ensures { result ≡ self.now.calls.faults }
    {
        self.reads.faults()
    }
}

impl Source for MemSource {
    ghost left = { λ source. Some source.bytes };

    ghost faults = { λ source. source.calls.faults };

    /// Moves as many bytes as are left and fit. It fails exactly if the call is one that is to fail, and leaves
    /// the bytes and the buffer as they were.
    fn read(&mut self, into: &mut [u8]) -> Result<usize, Failed>
        ensures bytes { ReadMoves (Some self.old.bytes) (Some self.new.bytes) into.new result }
        ensures cause { HasCause self.old.calls.faults self.new.calls.faults result }
        ensures failing { IsErr result ↔ IsTrue (next_fails self.old.calls) }
        ensures count { IfOk result (λ n. n ≡ min (length into.old) (length self.old.bytes)) }
        ensures ok { IfOk result (λ n. self.new ≡ after_read self.old n) }
        ensures buffer { IfOk result (λ n. into.new ≡ take n self.old.bytes ++ drop n into.old) }
        ensures err { OnErr result (self.new ≡ after_failure self.old) }
        ensures kept { OnErr result (into.new ≡ into.old) }
    {
        self.reads.start()?;
        let rest = &self.bytes[self.at..];
        let count = rest.len().min(into.len());
        into[..count].copy_from_slice(&rest[..count]);
        self.at += count;
        Ok(count)
    }
}

/// A sink that keeps what is written in memory. Some of its writes may be made to fail, and a write for which memory
/// runs out fails too.
#[derive(Drop)]
pub struct MemSink {
    bytes: Vec<u8>,
    writes: Calls,
}

impl Model for MemSink {
    ghost use Rattle.dq_base.specs.Memory.{InMemory};

    ghost Value = { InMemory };

    ghost view = { λ a. record { bytes = a.bytes.items; calls = a.writes } };
}

impl MemSink {
    /// A sink that holds nothing, with no write made so far. It takes memory from `alloc` as it grows, and none here.
    /// `fails` lists the numbers, from 1, of the writes that are to fail.
    pub fn new(alloc: Global, fails: Vec<u64>) -> MemSink
        ensures { result ≡ record { bytes = []; calls = no_calls fails.items } }
    {
        MemSink {
            bytes: Vec::new(alloc),
            writes: Calls::new(fails),
        }
    }

    /// The bytes that were written.
    pub fn bytes(&self) -> &[u8]
        ensures { result.now ≡ self.now.bytes }
    {
        self.bytes.as_slice()
    }

    /// How many writes failed.
    pub fn faults(&self) -> u64
        ensures { result ≡ self.now.calls.faults }
    {
        self.writes.faults()
    }
}

impl Sink for MemSink {
    ghost written = { λ sink. Some sink.bytes };

    ghost faults = { λ sink. sink.calls.faults };

    /// Appends the bytes. It fails if the call is one that is to fail, and if memory runs out, and then appends
    /// nothing.
    fn write_all(&mut self, bytes: &[u8]) -> Result<(), Failed>
        ensures bytes { WriteAppends (Some self.old.bytes) (Some self.new.bytes) bytes.now result }
        ensures cause { HasCause self.old.calls.faults self.new.calls.faults result }
        ensures failing { IsTrue (next_fails self.old.calls) → IsErr result }
        ensures ok { OnOk result (self.new ≡ after_write self.old bytes.now) }
        ensures err { OnErr result (self.new ≡ after_failure self.old) }
    {
        self.writes.start()?;
        match self.bytes.extend_from_slice(bytes) {
            Ok(()) => Ok(()),
            Err(_) => Err(self.writes.fail()),
        }
    }
}
