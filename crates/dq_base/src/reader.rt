ghost use Rattle.std.specs.Prelude.{◌≡◌, ◌≤◌, IfOk, OnErr};
ghost use Rattle.std.specs.Io.KnownBytes.{Keeps};
ghost use Rattle.dq_base.specs.Faults.{Rose};
ghost use Rattle.dq_base.specs.Source.{Moves};

use crate::faults::{Failed, count_fault};
use crate::source::Source;
use crate::tries::{MAX_RETRIES, Trouble};
use std::io::Read;
use std::marker::Model;

/// A source over any reader of std.
///
/// It says of content what its reader answers, which is nothing if that is a file or a stream. An interrupted read
/// is tried again, up to 1,000 times in a row; at any other error, or one interruption more, the read has failed. Its
/// count rises at each error of the reader, so also at an interruption that did no harm, and stays at
/// 18,446,744,073,709,551,615. No method takes memory.
#[derive(Drop)]
pub struct ReadSource<R: Read> {
    reader: R,
    faults: u64,
}

impl<R: Read> Model for ReadSource<R> {
    ghost use Rattle.dq_base.specs.Edge.{Edge};

    ghost Value = { Edge };

    ghost view = { λ a. record { bytes = R.remaining a.reader; faults = a.faults } };
}

impl<R: Read> ReadSource<R> {
    /// A source over this reader, which has not failed so far.
    pub fn new(reader: R) -> ReadSource<R>
        ensures { result ≡ record { bytes = R.remaining reader; faults = 0 } }
    {
        ReadSource { reader, faults: 0 }
    }

    /// How many errors the reader has answered.
    pub fn faults(&self) -> u64
        ensures { result ≡ self.now.faults }
    {
        self.faults
    }

    /// One read of the reader.
    fn read_once(&mut self, into: &mut [u8]) -> Result<usize, Trouble>
        ensures ok { IfOk result (Moves self.old.bytes self.new.bytes into.new) }
        ensures err { OnErr result (Keeps self.old.bytes self.new.bytes) }
        ensures never_falls { self.old.faults ≤ self.new.faults }
        ensures rose { OnErr result (Rose self.old.faults self.new.faults) }
    {
        match self.reader.read(into) {
            Ok(count) => Ok(count),
            Err(error) => {
                count_fault(&mut self.faults);
                Err(Trouble::of(&error))
            }
        }
    }
}

impl<R: Read> Source for ReadSource<R> {
    ghost left = { λ source. source.bytes };

    ghost faults = { λ source. source.faults };

    fn read(&mut self, into: &mut [u8]) -> Result<usize, Failed> {
        'tries: for _ in 0..MAX_RETRIES {
            match self.read_once(into) {
                Ok(count) => return Ok(count),
                Err(Trouble::Interrupted) => {}
                Err(Trouble::Lasting) => return Err(Failed),
            }
        }
        match self.read_once(into) {
            Ok(count) => Ok(count),
            Err(_) => Err(Failed),
        }
    }
}
