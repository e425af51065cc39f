ghost use Rattle.std.specs.Prelude.{◌≡◌, ◌<◌, ◌≤◌, ◌+◌, ◌*◌, ◌%◌, ◌↔◌, ◌∷◌, ◌++◌, ℕ, List, [], length, IfOk, IsErr};
ghost use Rattle.byteorder.specs.Endian.{little_bytes};
ghost use Rattle.wire_words.specs.Items.{word, pair, text, raw, blob, HasNoNul, gap};
ghost use Rattle.wire_words.specs.Values.{value, values, code, codes, type_of, types_of, halves, params, params_wide, row, IsWritable, AreWritable};
ghost use Rattle.wire_words.specs.Message.{header, message, counted, words_after_header};
ghost use Rattle.wire_words.specs.Writing.{AppendsOrKeeps};

use crate::WireBytes;
use crate::value::Value;
use byteorder::{ByteOrder, LittleEndian};
use std::alloc::{AllocError, Global};
use std::marker::Model;

/// Writes the items of a body, or of a whole message, one after the other. Clauses see the bytes written so far, which
/// are whole words. A call that finds no memory leaves them as they were.
#[derive(Drop)]
pub struct Writer {
    alloc: Global,
    out: Vec<u8>,
}

impl Model for Writer {
    ghost use Rattle.std.specs.Prelude.{◌≡◌, ◌%◌, ℕ, List, length};

    ghost Value = { List ℕ };

    ghost view = { λ w. w.out.items };

    // Whole words were written.
    ghost invariant = { λ w. length w.out.items % 8 ≡ 0 };
}

const ZEROS: [u8; 8] = [0; 8];

// How many bytes fill this many up to a whole word.
pub(crate) fn filling(len: usize) -> usize
    ensures { result ≡ gap len }
{
    let over = len % 8;
    if over == 0 { 0 } else { 8 - over }
}

fn little(value: u32) -> [u8; 4]
    ensures { result ≡ little_bytes 4 value }
{
    let mut bytes = [0; 4];
    LittleEndian::write_u32(&mut bytes, value);
    bytes
}

// The count and after it the code of each value.
fn codes_of(alloc: Global, count: &[u8], contents: &[Value]) -> Result<Vec<u8>, AllocError>
    ensures { IfOk result (λ head. head.items ≡ count.now ++ codes (types_of contents.now)) }
{
    let mut head = Vec::from_slice(alloc, count)?;
    for content in contents {
        head.push(content.code())?;
    }
    Ok(head)
}

// The codes of the values, four bits each, the first in the low half of a byte.
fn halves_of(alloc: Global, contents: &[Value]) -> Result<Vec<u8>, AllocError>
    ensures { IfOk result (λ head. head.items ≡ halves (codes (types_of contents.now))) }
{
    let mut head = Vec::new(alloc);
    let mut rest = contents;
    loop {
        match rest {
            [] => return Ok(head),
            [last] => {
                head.push(last.code())?;
                return Ok(head);
            }
            [first, second, others @ ..] => {
                head.push(two_codes(first, second))?;
                rest = others;
            }
        }
    }
}

// The codes of both in one byte.
fn two_codes(first: &Value, second: &Value) -> u8
    ensures { result ≡ code (type_of first.now) + 16 * code (type_of second.now) }
{
    first.code() + 16 * second.code()
}

impl Writer {
    /// A writer that has written nothing.
    pub fn new(alloc: Global) -> Writer
        ensures { result ≡ [] }
    {
        Writer {
            alloc,
            out: Vec::new(alloc),
        }
    }

    /// A writer that has written nothing, with room for this many bytes.
    pub fn with_capacity(alloc: Global, bytes: usize) -> Result<Writer, AllocError>
        ensures { IfOk result (λ writer. writer ≡ []) }
    {
        Ok(Writer {
            alloc,
            out: Vec::with_capacity(alloc, bytes)?,
        })
    }

    /// Writes a number of 64 bits. `Err` means out of memory, and leaves what was written; so in all calls that
    /// write.
    pub fn word(&mut self, value: u64) -> Result<(), AllocError>
        ensures { AppendsOrKeeps self.old self.new (word value) result }
    {
        let mut bytes = [0; 8];
        LittleEndian::write_u64(&mut bytes, value);
        self.out.extend_from_slice(&bytes)
    }

    /// Writes two numbers of 32 bits, which share a word.
    pub fn pair(&mut self, first: u32, second: u32) -> Result<(), AllocError>
        ensures { AppendsOrKeeps self.old self.new (pair first second) result }
    {
        self.both(&little(first), &little(second))
    }

    // Appends all of both, or nothing.
    fn both(&mut self, front: &[u8], back: &[u8]) -> Result<(), AllocError>
        requires { (length front.now + length back.now) % 8 ≡ 0 }
        ensures { AppendsOrKeeps self.old self.new (front.now ++ back.now) result }
    {
        let start = self.out.len();
        self.out.extend_from_slice(front)?;
        let finished = self.out.extend_from_slice(back);
        if finished.is_err() {
            self.out.truncate(start);
        }
        finished
    }

    /// Writes a text, which may hold no NUL: its UTF-8, one NUL, and zeros to a whole word.
    pub fn text(&mut self, content: &str) -> Result<(), AllocError>
        requires { HasNoNul content.now }
        ensures { AppendsOrKeeps self.old self.new (text content.now) result }
    {
        let bytes = content.as_bytes();
        let over = bytes.len() % 8;
        self.both(bytes, &ZEROS[over..])
    }

    /// Writes the bytes, and zeros to a whole word.
    pub fn raw(&mut self, bytes: &[u8]) -> Result<(), AllocError>
        ensures { AppendsOrKeeps self.old self.new (raw bytes.now) result }
    {
        let padding = filling(bytes.len());
        self.both(bytes, &ZEROS[..padding])
    }

    /// Writes a blob: the number of its bytes in a word, the bytes, and zeros to a whole word.
    pub fn blob(&mut self, bytes: &[u8]) -> Result<(), AllocError>
        ensures { AppendsOrKeeps self.old self.new (blob bytes.now) result }
    {
        let start = self.out.len();
        self.word(bytes.len() as u64)?;
        let finished = self.raw(bytes);
        if finished.is_err() {
            self.out.truncate(start);
        }
        finished
    }

    /// Writes the words of a value: for an integer one, in two's complement, and for a null one of zeros. A text may hold
    /// no NUL. Its code is written by a tuple or a row.
    pub fn value(&mut self, content: &Value) -> Result<(), AllocError>
        requires { IsWritable content.now }
        ensures { AppendsOrKeeps self.old self.new (value content.now) result }
    {
        match content {
            Value::Integer(number) => self.word(number.cast_unsigned()),
            Value::Text(content) => self.text(content.as_str()),
            Value::Blob(content) => self.blob(content.as_slice()),
            Value::Null => self.word(0),
        }
    }

    /// Writes the words of values, one value after the other. No text may hold a NUL.
    pub fn values(&mut self, contents: &[Value]) -> Result<(), AllocError>
        requires { AreWritable contents.now }
        ensures { AppendsOrKeeps self.old self.new (values contents.now) result }
    {
        let start = self.out.len();
        for content in contents {
            if let Err(error) = self.value(content) {
                self.out.truncate(start);
                return Err(error);
            }
        }
        Ok(())
    }

    // Writes the head of a tuple or a row, zeros to a whole word, and the values.
    fn headed(&mut self, head: &[u8], contents: &[Value]) -> Result<(), AllocError>
        requires { AreWritable contents.now }
        ensures { AppendsOrKeeps self.old self.new (raw head.now ++ values contents.now) result }
    {
        let start = self.out.len();
        self.raw(head)?;
        let finished = self.values(contents);
        if finished.is_err() {
            self.out.truncate(start);
        }
        finished
    }

    /// Writes a tuple of at most 255 parameters: their number in one byte, a code for each, zeros to a whole word, and the
    /// values. No text may hold a NUL.
    pub fn params(&mut self, contents: &[Value]) -> Result<(), AllocError>
        requires count { length contents.now ≤ 255 }
        requires writable { AreWritable contents.now }
        ensures { AppendsOrKeeps self.old self.new (params contents.now) result }
    {
        let head = codes_of(self.alloc, &[contents.len() as u8], contents)?;
        self.headed(&head, contents)
    }

    /// Writes a wide tuple of at most 32,766 parameters, whose number has 32 bits. No text may hold a NUL.
    pub fn params_wide(&mut self, contents: &[Value]) -> Result<(), AllocError>
        requires count { length contents.now ≤ 32766 }
        requires writable { AreWritable contents.now }
        ensures { AppendsOrKeeps self.old self.new (params_wide contents.now) result }
    {
        let head = codes_of(self.alloc, &little(contents.len() as u32), contents)?;
        self.headed(&head, contents)
    }

    /// Writes a row: a code of four bits for each value, zeros to a whole word, and the values. No text may hold a NUL.
    pub fn row(&mut self, contents: &[Value]) -> Result<(), AllocError>
        requires { AreWritable contents.now }
        ensures { AppendsOrKeeps self.old self.new (row contents.now) result }
    {
        let head = halves_of(self.alloc, contents)?;
        self.headed(&head, contents)
    }

    /// Writes the header of a message whose count of words is still 0; `finish_message` writes that count.
    pub fn header(&mut self, kind: u8, schema: u8) -> Result<(), AllocError>
        ensures { AppendsOrKeeps self.old self.new (header 0 kind schema) result }
    {
        self.out
            .extend_from_slice(&[0, 0, 0, 0, kind, schema, 0, 0])
    }

    /// What was written, which is whole words.
    pub fn finish(self) -> WireBytes
        ensures bytes { result ≡ self }
        ensures whole { length result % 8 ≡ 0 }
    {
        WireBytes::new(self.out)
    }

    /// What was written, which has to begin with a header, with the count of the words after it in its first four bytes.
    /// An error comes exactly if that count is more than 4,294,967,295.
    pub fn finish_message(self) -> Result<WireBytes, AllocError>
        requires { 8 ≤ length self }
        ensures counted { IfOk result (λ bytes. bytes ≡ counted self) }
        ensures message { (kind schema : ℕ) (body : List ℕ) → self ≡ header 0 kind schema ++ body →
            IfOk result (λ bytes. bytes ≡ message kind schema body) }
        ensures whole { IfOk result (λ bytes. length bytes % 8 ≡ 0) }
        ensures many { IsErr result ↔ (4294967295 < words_after_header self) }
    {
        let words = (self.out.len() - 8) / 8;
        let Ok(words) = u32::try_from(words) else {
            return Err(AllocError);
        };
        let mut out = self.out;
        LittleEndian::write_u32(&mut out, words);
        Ok(WireBytes::new(out))
    }
}
