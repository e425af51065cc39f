ghost use Rattle.std.specs.Prelude.{◌≡◌, ◌≤◌, ◌<◌, length, take, IfOk, OnErr};
ghost use Rattle.std.specs.Io.KnownBytes.{Appends, Keeps};
ghost use Rattle.dq_base.specs.Faults.{Rose, HasCause};

use crate::faults::{Failed, count_fault};
use crate::sink::Sink;
use crate::tries::{MAX_RETRIES, Trouble};
use std::io::Write;
use std::marker::Model;

/// A sink over any writer of std.
///
/// It says of content what its writer tells, which is nothing if that is a file or a stream. It flushes nothing.
/// An interrupted write is tried again, up to 1,000 times in a row; at any other error, or one interruption more, the
/// write has failed, and so it has where the writer takes nothing of a piece that is not empty. Its count rises at each
/// of these, so also at an interruption that did no harm, and stays at 18,446,744,073,709,551,615. No method takes
/// memory.
#[derive(Drop)]
pub struct WriteSink<W: Write> {
    writer: W,
    faults: u64,
}

impl<W: Write> Model for WriteSink<W> {
    ghost use Rattle.dq_base.specs.Edge.{Edge};

    ghost Value = { Edge };

    ghost view = { λ a. record { bytes = W.contents a.writer; faults = a.faults } };
}

impl<W: Write> WriteSink<W> {
    /// A sink over this writer, which has not failed so far.
    pub fn new(writer: W) -> WriteSink<W>
        ensures { result ≡ record { bytes = W.contents writer; faults = 0 } }
    {
        WriteSink { writer, faults: 0 }
    }

    /// How many times the writer answered an error, or took nothing of a piece that was not empty.
    pub fn faults(&self) -> u64
        ensures { result ≡ self.now.faults }
    {
        self.faults
    }

    /// One write of the writer, which takes some bytes.
    fn write_once(&mut self, bytes: &[u8]) -> Result<usize, Trouble>
        ensures some { IfOk result (λ n. 0 < n) }
        ensures fits { IfOk result (λ n. n ≤ length bytes.now) }
        ensures ok { IfOk result (λ n. Appends self.old.bytes self.new.bytes (take n bytes.now)) }
        ensures err { OnErr result (Keeps self.old.bytes self.new.bytes) }
        ensures never_falls { self.old.faults ≤ self.new.faults }
        ensures rose { OnErr result (Rose self.old.faults self.new.faults) }
    {
        let trouble = match self.writer.write(bytes) {
            Ok(0) => Trouble::Lasting,
            Ok(count) => return Ok(count),
            Err(error) => Trouble::of(&error),
        };
        count_fault(&mut self.faults);
        Err(trouble)
    }

    /// Writes a front of the bytes that is not empty.
    fn write_some(&mut self, bytes: &[u8]) -> Result<usize, Failed>
        ensures some { IfOk result (λ n. 0 < n) }
        ensures fits { IfOk result (λ n. n ≤ length bytes.now) }
        ensures ok { IfOk result (λ n. Appends self.old.bytes self.new.bytes (take n bytes.now)) }
        ensures err { OnErr result (Keeps self.old.bytes self.new.bytes) }
        ensures cause { HasCause self.old.faults self.new.faults result }
    {
        'tries: for _ in 0..MAX_RETRIES {
            match self.write_once(bytes) {
                Ok(count) => return Ok(count),
                Err(Trouble::Interrupted) => {}
                Err(Trouble::Lasting) => return Err(Failed),
            }
        }
        match self.write_once(bytes) {
            Ok(count) => Ok(count),
            Err(_) => Err(Failed),
        }
    }
}

impl<W: Write> Sink for WriteSink<W> {
    ghost written = { λ sink. sink.bytes };

    ghost faults = { λ sink. sink.faults };

    fn write_all(&mut self, bytes: &[u8]) -> Result<(), Failed> {
        let mut rest = bytes;
        'pieces: while !rest.is_empty() {
            let count = self.write_some(rest)?;
            rest = &rest[count..];
        }
        Ok(())
    }
}
