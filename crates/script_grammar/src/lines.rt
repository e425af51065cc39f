//! Cuts what a source gives into lines. It holds one piece of the input and at most one line.

ghost use Rattle.std.specs.Prelude.{◌≡◌, ◌≢◌, ◌+◌, ◌<◌, ◌≤◌, ℕ, List, [], ◌∷◌, length, take, slice_index, IfOk, OnErr, IsErrOf, true, false};
ghost use Rattle.std.specs.Io.KnownBytes.{Consumes, IsAtEnd, Keeps};
ghost use Rattle.dq_base.specs.Faults.{HasCause, Rose};
ghost use Rattle.script_grammar.specs.Lines.{HasNoFeed};
ghost use Rattle.script_grammar.specs.ScriptSize.{line_limit};

use dq_base::{Failed, Source};
use std::alloc::{AllocError, Global};
use std::marker::Model;

/// How many bytes a line may have, without its LF.
pub const MAX_LINE_LENGTH: usize = 1_048_576;

/// How many lines a script may have, empty ones and comments included.
pub const MAX_LINES: u64 = 1_000_000;

/// How many bytes are read at a time, at most.
const PIECE_SIZE: usize = 65_536;

/// How a line ended.
#[derive(Clone, Copy, Debug)]
pub enum LineEnd {
    /// An LF followed it.
    Feed,
    /// The input ended; a line without bytes is then none.
    Input,
    /// It has more bytes than a line may have.
    TooLong,
}

/// Why a line could not be read.
#[derive(Clone, Copy, Debug)]
pub enum LineFault {
    /// The source failed.
    Source,
    NoMemory,
}

impl From<Failed> for LineFault {
    ghost use Rattle.std.specs.Prelude.{◌≡◌};
    ghost use Rattle.script_grammar.specs.declared.lines.LineFault.TheVariants.{Source};

    ghost from_gives = { λ _ e. e ≡ Source };

    fn from(_failed: Failed) -> LineFault {
        LineFault::Source
    }
}

impl From<AllocError> for LineFault {
    ghost use Rattle.std.specs.Prelude.{◌≡◌};
    ghost use Rattle.script_grammar.specs.declared.lines.LineFault.TheVariants.{NoMemory};

    ghost from_gives = { λ _ e. e ≡ NoMemory };

    fn from(_error: AllocError) -> LineFault {
        LineFault::NoMemory
    }
}

/// Reads lines, one after the other.
#[derive(Drop)]
pub struct LineReader {
    piece: Vec<u8>,
    start: usize,
    end: usize,
    line: Vec<u8>,
}

impl Model for LineReader {
    ghost use Rattle.std.specs.Prelude.{◌<◌, ◌≤◌, slice_range, vec_len};
    ghost use Rattle.script_grammar.specs.Lines.{Cursor};

    ghost Value = { Cursor };

    ghost view = { λ r. record { line = r.line.items; ahead = slice_range r.piece.items r.start r.end } };

    ghost invariant = { λ r. (r.start ≤ r.end) × (r.end ≤ vec_len r.piece) × (0 < vec_len r.piece) };
}

/// How many bytes are before the first LF, or how many there are.
fn before_feed(bytes: &[u8]) -> usize
    ensures within { result ≤ length bytes.now }
    ensures before { HasNoFeed (take result bytes.now) }
    ensures at { result < length bytes.now → slice_index bytes.now result ≡ 10 }
{
    memchr::memchr(b'\n', bytes).unwrap_or(bytes.len())
}

impl LineReader {
    ghost use Rattle.script_grammar.specs.Lines.{Cursor, to_come, TakesPart, TakesLine, EndsSo};
    ghost use Rattle.script_grammar.specs.declared.lines.LineEnd.TheVariants.{Feed, Input, TooLong};

    /// A reader that has read nothing. It takes the memory of one piece, 64 KiB; `Err` is want of it.
    pub fn new(alloc: Global) -> Result<LineReader, AllocError>
        ensures { IfOk result (λ reader. reader ≡ record { line = []; ahead = [] }) }
    {
        Ok(LineReader {
            piece: vec![in alloc; 0; PIECE_SIZE]?,
            start: 0,
            end: 0,
            line: Vec::new(alloc),
        })
    }

    /// The line that was read last, without its LF.
    pub fn line(&self) -> &[u8]
        ensures { result.now ≡ self.now.line }
    {
        self.line.as_slice()
    }

    /// Reads the next piece, if nothing is held. Answers how many bytes it has: 0 at the end of the input.
    fn refill<S: Source>(&mut self, source: &mut S) -> Result<usize, Failed>
        requires { self.old.ahead ≡ [] }
        ensures line { self.new.line ≡ self.old.line }
        ensures ok { IfOk result (λ n. (n ≡ length self.new.ahead) × Consumes (S.left source.old) (S.left source.new) self.new.ahead) }
        ensures end { IfOk result (λ n. n ≡ 0 → IsAtEnd (S.left source.new)) }
        ensures err { OnErr result ((self.new.ahead ≡ []) × Keeps (S.left source.old) (S.left source.new)) }
        ensures cause { HasCause (S.faults source.old) (S.faults source.new) result }
    {
        self.start = 0;
        self.end = 0;
        let count = source.read(&mut self.piece)?;
        self.end = count;
        Ok(count)
    }

    /// Reads a piece where nothing is held, and says whether something is held then: nothing is only at the end of the
    /// input.
    pub fn fill<S: Source>(&mut self, source: &mut S) -> Result<bool, Failed>
        ensures line { self.new.line ≡ self.old.line }
        ensures same { Keeps (to_come self.old (S.left source.old)) (to_come self.new (S.left source.new)) }
        ensures some { IfOk result (λ some. some ≡ true → 0 < length self.new.ahead) }
        ensures none { IfOk result (λ some. some ≡ false → IsAtEnd (to_come self.new (S.left source.new))) }
        ensures cause { HasCause (S.faults source.old) (S.faults source.new) result }
    {
        if self.start < self.end {
            return Ok(true);
        }
        let count = self.refill(source)?;
        Ok(count > 0)
    }

    /// Moves what is held to the line, up to an LF, and says how the line ended, if it did.
    fn take_ahead(&mut self) -> Result<Option<LineEnd>, AllocError>
        ensures on { IfOk result (λ end. end ≡ None → TakesPart self.old self.new self.old.ahead [] × (length self.new.line ≤ line_limit)) }
        ensures feed { IfOk result (λ end. end ≡ Some Feed →
            (part : List ℕ) × TakesPart self.old self.new part (10 ∷ []) × (length self.new.line ≤ line_limit)) }
        ensures too_long { IfOk result (λ end. end ≡ Some TooLong →
            (part : List ℕ) × TakesPart self.old self.new part [] × (line_limit < length self.new.line)) }
        ensures input { IfOk result (λ end. end ≢ Some Input) }
        ensures err { OnErr result (self.new ≡ self.old) }
    {
        let ahead = &self.piece[self.start..self.end];
        let count = before_feed(ahead);
        let found = count < ahead.len();
        self.line.extend_from_slice(&ahead[..count])?;
        self.start += count;
        if self.line.len() > MAX_LINE_LENGTH {
            return Ok(Some(LineEnd::TooLong));
        }
        if !found {
            return Ok(None);
        }
        self.start += 1;
        Ok(Some(LineEnd::Feed))
    }

    /// Reads the next line and says how it ended. A line that is too long is not read to its end.
    /// After `Err` the line has what was read of it.
    pub fn next_line<S: Source>(&mut self, source: &mut S) -> Result<LineEnd, LineFault>
        ensures ok { IfOk result (EndsSo (to_come self.old (S.left source.old)) (to_come self.new (S.left source.new)) self.new.line) }
        ensures err { OnErr result (TakesLine (to_come self.old (S.left source.old)) (to_come self.new (S.left source.new)) self.new.line []) }
        ensures count { S.faults source.old ≤ S.faults source.new }
        ensures cause { IsErrOf result LineFault.Source → Rose (S.faults source.old) (S.faults source.new) }
    {
        self.line.clear();
        loop {
            if !self.fill(source)? {
                return Ok(LineEnd::Input);
            }
            if let Some(end) = self.take_ahead()? {
                return Ok(end);
            }
        }
    }
}
