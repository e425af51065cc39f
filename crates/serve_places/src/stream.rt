//! Streams whose calls never wait.

/// What a read gives.
#[derive(Clone, Copy, Debug, PartialEq, Eq)]
pub enum ReadOutcome {
    /// The number of bytes, which is one at least.
    Bytes(usize),
    /// No byte is there now.
    Nothing,
    /// The stream is at its end, or it has failed.
    Ended,
}

/// A stream of bytes both ways whose calls never wait.
///
/// A stream that knows what is left to read and what was written reports it. Clauses on content hold if it does.
pub trait ReadyStream: Drop + Sized {
    ghost use Rattle.std.specs.Prelude.{◌≡◌, ℕ, List, Option, length};
    ghost use Rattle.serve_places.specs.Streams.{ReadsBytes, WritesBytes};

    /// The bytes that are left to read, if it reports them.
    ghost left: { Self → Option (List ℕ) };

    /// The bytes that were written, if it reports them.
    ghost written: { Self → Option (List ℕ) };

    /// Moves the bytes that are there to the front of `into`, as far as there is room. `into` has room for a byte.
    fn read(&mut self, into: &mut [u8]) -> ReadOutcome
        ensures bytes { ReadsBytes (left self.old) (left self.new) into.new result }
        ensures room { length into.new ≡ length into.old }
        ensures written { written self.new ≡ written self.old };

    /// Writes a front of the bytes, as far as the stream takes it now, and answers how many these are: 0 if it takes none now. None if the
    /// stream has failed.
    fn write(&mut self, bytes: &[u8]) -> Option<usize>
        ensures bytes { WritesBytes (written self.old) (written self.new) bytes.now result }
        ensures left { left self.new ≡ left self.old };

    /// Ends the stream both ways.
    fn shut(&mut self);
}
