ghost use Rattle.std.specs.Prelude.{◌≡◌, ◌+◌, ◌≤◌, drop, true, false, nat_lt, if◌then◌else◌, length, IfOk, IsOk, IsErrOf, MatchOption};
ghost use Rattle.std.specs.List.{list_all, position};
ghost use Rattle.std.specs.Str.{is_utf8};
ghost use Rattle.byteorder.specs.Endian.{little_number};
ghost use Rattle.wire_words.specs.Items.{gap, is_zero};
ghost use Rattle.wire_words.specs.Reading.{Gives, unread, word_at, pair_at, raw_at, text_at, blob_at, filled_at, may_fill};

use crate::WireBytes;
use crate::fault::WordFault;
use crate::text::WireText;
use crate::value::Dialect;
use crate::writer::filling;
use byteorder::{ByteOrder, LittleEndian};
use std::alloc::Global;
use std::marker::Model;

/// Reads the items of a body from left to right. Clauses see what it has left: its place in the body and the bytes from
/// there on. After a fault it is where the call began.
#[derive(Drop)]
pub struct Words<'a> {
    body: &'a [u8],
    place: usize,
}

impl<'a> Model for Words<'a> {
    ghost use Rattle.std.specs.Prelude.{◌≤◌, length, drop};
    ghost use Rattle.wire_words.specs.Reading.{Unread};

    ghost Value = { Unread };

    ghost view = { λ w. record { at = w.place; bytes = drop w.place w.body.now } };

    ghost invariant = { λ w. w.place ≤ length w.body.now };
}

// How long an item of this size is with its zeros, if it fits into the room.
fn filled(room: usize, size: u64) -> Option<usize>
    ensures { result ≡ (if nat_lt room (size + gap size) then None else Some (size + gap size)) }
{
    if (room as u64) < size {
        return None;
    }
    let size = size as usize;
    let padding = filling(size);
    if room - size < padding {
        None
    } else {
        Some(size + padding)
    }
}

// The numbers of 32 bits in the first word.
fn two_numbers(bytes: &[u8]) -> (u32, u32)
    requires { 8 ≤ length bytes.now }
    ensures { result ≡ (little_number 4 bytes.now, little_number 4 (drop 4 bytes.now)) }
{
    let (first, rest) = bytes.split_at(4);
    (LittleEndian::read_u32(first), LittleEndian::read_u32(rest))
}

pub(crate) fn are_zero(bytes: &[u8]) -> bool
    ensures { result ≡ list_all is_zero bytes.now }
{
    bytes.iter().all(|b| *b == 0)
}

// Whether the bytes may follow others to fill them up.
fn may_fill(dialect: Dialect, bytes: &[u8]) -> bool
    ensures { result ≡ may_fill dialect bytes.now }
{
    match dialect {
        Dialect::Exact => are_zero(bytes),
        Dialect::Client => true,
    }
}

// The place of the first NUL.
fn nul_place(bytes: &[u8]) -> Option<usize>
    ensures { result ≡ position is_zero bytes.now }
{
    bytes.iter().position(|b| *b == 0)
}

// The bytes as a text, if they are UTF-8.
#[tactic(auto, using(crate::proofs::Utf8::not_utf8, crate::proofs::Utf8::are_utf8))]
fn as_text(bytes: &[u8]) -> Option<&str>
    ensures { MatchOption result (is_utf8 bytes.now ≡ false) (λ text. (text.now ≡ bytes.now) × (is_utf8 bytes.now ≡ true)) }
{
    str::from_utf8(bytes).ok()
}

impl<'a> Words<'a> {
    /// A reader at the start of a body, which may have any length.
    pub fn new(body: &'a [u8]) -> Words<'a>
        ensures { result ≡ unread body.now }
    {
        Words { body, place: 0 }
    }

    /// The place of the next item in the body, in bytes.
    pub fn place(&self) -> u64
        ensures { result ≡ self.now.at }
    {
        self.place as u64
    }

    /// How many bytes are left.
    pub fn left(&self) -> u64
        ensures { result ≡ length self.now.bytes }
    {
        (self.body.len() - self.place) as u64
    }

    /// Reads a number of 64 bits, little-endian. `Short` exactly if fewer than eight bytes are left.
    #[tactic(auto, unfolding(crate::specs::Reading::word_at))]
    pub fn u64(&mut self) -> Result<u64, WordFault>
        ensures exact { Gives (λ n. n) word_at self.old self.new result }
        ensures memory { IsErrOf result WordFault.NoMemory → ⊥ }
    {
        let left = &self.body[self.place..];
        if left.len() < 8 {
            return Err(WordFault::Short(self.place as u64));
        }
        let value = LittleEndian::read_u64(left);
        self.place += 8;
        Ok(value)
    }

    /// Reads two numbers of 32 bits, little-endian, which share a word. `Short` exactly if fewer than eight bytes are
    /// left.
    #[tactic(auto, unfolding(crate::specs::Reading::pair_at))]
    pub fn u32_pair(&mut self) -> Result<(u32, u32), WordFault>
        ensures exact { Gives (λ pair. pair) pair_at self.old self.new result }
        ensures memory { IsErrOf result WordFault.NoMemory → ⊥ }
    {
        let left = &self.body[self.place..];
        if left.len() < 8 {
            return Err(WordFault::Short(self.place as u64));
        }
        let numbers = two_numbers(left);
        self.place += 8;
        Ok(numbers)
    }

    // A second reader at the same place.
    pub(crate) fn fork(&self) -> Words<'a>
        ensures { result ≡ self.now }
    {
        Words {
            body: self.body,
            place: self.place,
        }
    }

    // The bytes that are left.
    pub(crate) fn rest(&self) -> &'a [u8]
        ensures { result.now ≡ self.now.bytes }
    {
        &self.body[self.place..]
    }

    // This many bytes of an item that begins at `at`, which may be before here, and what fills them up to a whole word.
    pub(crate) fn filled_slice(
        &mut self,
        dialect: Dialect,
        at: u64,
        size: u64,
    ) -> Result<&'a [u8], WordFault>
        ensures exact { Gives (λ bytes. bytes.now) (filled_at dialect at size) self.old self.new result }
        ensures size { IfOk result (λ bytes. length bytes.now ≡ size) }
        ensures memory { IsErrOf result WordFault.NoMemory → ⊥ }
    {
        let left = &self.body[self.place..];
        let Some(len) = filled(left.len(), size) else {
            return Err(WordFault::Short(at));
        };
        let size = size as usize;
        if !may_fill(dialect, &left[size..len]) {
            return Err(WordFault::Pad(at));
        }
        self.place += len;
        Ok(&left[..size])
    }

    /// Reads that many bytes, and zeros that fill them up to a whole word, and lends the bytes. `Short` where the bytes and
    /// the zeros aren't all there, and else `Pad` where a byte in place of a zero isn't one.
    #[tactic(auto, unfolding(crate::specs::Reading::raw_at))]
    pub fn raw_slice(&mut self, size: u64) -> Result<&'a [u8], WordFault>
        ensures exact { Gives (λ bytes. bytes.now) (raw_at size) self.old self.new result }
        ensures size { IfOk result (λ bytes. length bytes.now ≡ size) }
        ensures memory { IsErrOf result WordFault.NoMemory → ⊥ }
    {
        let at = self.place();
        self.filled_slice(Dialect::Exact, at, size)
    }

    /// Reads as `raw_slice` does, and copies the bytes. `NoMemory` means out of memory for the
    /// copy.
    pub fn raw(&mut self, alloc: Global, size: u64) -> Result<WireBytes, WordFault>
        ensures exact { Gives (λ bytes. bytes) (raw_at size) self.old self.new result }
        ensures size { IfOk result (λ bytes. length bytes ≡ size) }
        ensures memory { IsErrOf result WordFault.NoMemory → IsOk (raw_at size self.old) }
    {
        let mut ahead = self.fork();
        let bytes = Vec::from_slice(alloc, ahead.raw_slice(size)?)?;
        *self = ahead;
        Ok(WireBytes::new(bytes))
    }

    /// Reads a text as `text` does, and lends it.
    #[tactic(auto, unfolding(crate::specs::Reading::text_at, crate::specs::Reading::text_of))]
    pub fn text_str(&mut self) -> Result<&'a str, WordFault>
        ensures exact { Gives (λ text. text.now) text_at self.old self.new result }
        ensures memory { IsErrOf result WordFault.NoMemory → ⊥ }
    {
        let at = self.place as u64;
        let left = &self.body[self.place..];
        let Some(size) = nul_place(left) else {
            return Err(WordFault::NoNul(at));
        };
        let Some(len) = filled(left.len(), size as u64 + 1) else {
            return Err(WordFault::Short(at));
        };
        let Some(text) = as_text(&left[..size]) else {
            return Err(WordFault::NotUtf8(at));
        };
        if !are_zero(&left[size + 1..len]) {
            return Err(WordFault::Pad(at));
        }
        self.place += len;
        Ok(text)
    }

    /// Reads a text: UTF-8 up to the first NUL, that NUL, and zeros up to a whole word. `NoNul` where no NUL is left, and
    /// else `Short` where the zeros aren't all there, `NotUtf8`, and `Pad` where a byte in place of a zero isn't one.
    /// `NoMemory` means out of memory for the text.
    pub fn text(&mut self, alloc: Global) -> Result<WireText, WordFault>
        ensures exact { Gives (λ text. text) text_at self.old self.new result }
        ensures memory { IsErrOf result WordFault.NoMemory → IsOk (text_at self.old) }
    {
        let mut ahead = self.fork();
        let text = String::from_str(alloc, ahead.text_str()?)?;
        *self = ahead;
        Ok(WireText::new(text))
    }

    // The number of a blob's bytes in a word, and this many bytes with what fills them up.
    #[tactic(auto, unfolding(crate::specs::Reading::blob_at))]
    pub(crate) fn blob_in(&mut self, dialect: Dialect) -> Result<&'a [u8], WordFault>
        ensures exact { Gives (λ bytes. bytes.now) (blob_at dialect) self.old self.new result }
        ensures memory { IsErrOf result WordFault.NoMemory → ⊥ }
    {
        let at = self.place();
        let mut ahead = self.fork();
        let size = ahead.u64()?;
        let bytes = ahead.filled_slice(dialect, at, size)?;
        *self = ahead;
        Ok(bytes)
    }

    /// Reads a blob and lends it: a word with the number of its bytes, and this many bytes with zeros that fill them up to a
    /// whole word. `Short` where they aren't all there, and else `Pad` where a byte in place of a zero isn't one.
    pub fn blob_slice(&mut self) -> Result<&'a [u8], WordFault>
        ensures exact { Gives (λ bytes. bytes.now) (blob_at Dialect.Exact) self.old self.new result }
        ensures memory { IsErrOf result WordFault.NoMemory → ⊥ }
    {
        self.blob_in(Dialect::Exact)
    }

    /// Reads a blob as `blob_slice` does, and copies it. `NoMemory` means out of memory for the
    /// copy.
    pub fn blob(&mut self, alloc: Global) -> Result<WireBytes, WordFault>
        ensures exact { Gives (λ bytes. bytes) (blob_at Dialect.Exact) self.old self.new result }
        ensures memory { IsErrOf result WordFault.NoMemory → IsOk (blob_at Dialect.Exact self.old) }
    {
        let mut ahead = self.fork();
        let bytes = Vec::from_slice(alloc, ahead.blob_slice()?)?;
        *self = ahead;
        Ok(WireBytes::new(bytes))
    }
}
