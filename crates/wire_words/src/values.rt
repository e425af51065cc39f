ghost use Rattle.std.specs.Prelude.{◌≡◌, ◌≤◌, ◌<◌, ◌^◌, ◌+◌, length, MatchResult};
ghost use Rattle.std.specs.List.{list_any};
ghost use Rattle.wire_words.specs.Reading.{Gives, Finds};
ghost use Rattle.wire_words.specs.ReadingValues.{Found, is_float, all_types, types_at, integer_at, text_value_at, blob_value_at, null_at, value_at, values_at, codes_at, tuple_with, params_at, params_wide_at, split_halves, row_head_size, row_types, row_head_at, row_at};

use crate::WireBytes;
use crate::fault::WordFault;
use crate::value::{Dialect, Value, ValueType};
use crate::words::{Words, are_zero};
use byteorder::{ByteOrder, LittleEndian};
use std::alloc::Global;

// The types of these codes, which are in an item that begins at `at`.
fn known_types(
    alloc: Global,
    dialect: Dialect,
    at: u64,
    codes: &[u8],
) -> Result<Vec<ValueType>, WordFault>
    ensures { Found (λ types. types.items) (all_types dialect at codes.now) result }
{
    let mut types = Vec::new(alloc);
    for code in codes {
        let code = *code;
        let Some(value_type) = ValueType::with_code(dialect, code) else {
            return Err(WordFault::BadCode(at, u64::from(code)));
        };
        types.push(value_type)?;
    }
    Ok(types)
}

fn has_float(types: &[ValueType]) -> bool
    ensures { result ≡ list_any is_float types.now }
{
    types.iter().any(|value_type| value_type.is_float())
}

// The types that codes represent, if none of them is to be that of floating-point numbers.
#[tactic(auto, unfolding(crate::specs::ReadingValues::types_at))]
fn types_of(
    alloc: Global,
    dialect: Dialect,
    at: u64,
    codes: &[u8],
) -> Result<Vec<ValueType>, WordFault>
    ensures { Found (λ types. types.items) (types_at dialect at codes.now) result }
{
    let types = known_types(alloc, dialect, at, codes)?;
    if has_float(&types) {
        return Err(WordFault::Float(at));
    }
    Ok(types)
}

// A value of this type.
fn value_of(
    alloc: Global,
    words: &mut Words<'_>,
    dialect: Dialect,
    value_type: &ValueType,
) -> Result<Value, WordFault>
    ensures { Finds (λ value. value) (value_at dialect value_type.now) words.old words.new result }
{
    words.value(alloc, dialect, *value_type)
}

// Values of these types, one after the other.
fn values_of(
    alloc: Global,
    words: &mut Words<'_>,
    dialect: Dialect,
    types: &[ValueType],
) -> Result<Vec<Value>, WordFault>
    ensures { Finds (λ values. values.items) (values_at dialect types.now) words.old words.new result }
{
    let mut values = Vec::new(alloc);
    for value_type in types {
        let value = value_of(alloc, words, dialect, value_type)?;
        values.push(value)?;
    }
    Ok(values)
}

// The numbers of four bits in these bytes, the one in the low half of a byte first.
fn halves_of(alloc: Global, bytes: &[u8]) -> Result<Vec<u8>, WordFault>
    ensures { MatchResult result (λ halves. halves.items ≡ split_halves bytes.now) (λ fault. fault ≡ WordFault.NoMemory) }
{
    let mut halves = Vec::new(alloc);
    for byte in bytes {
        halves.push(*byte % 16)?;
        halves.push(*byte / 16)?;
    }
    Ok(halves)
}

// The types of a row of this many values, from its codes and the zeros after them.
fn types_of_row(
    alloc: Global,
    at: u64,
    count: usize,
    halves: &[u8],
) -> Result<Vec<ValueType>, WordFault>
    requires { count ≤ length halves.now }
    ensures { Found (λ types. types.items) (row_types at count halves.now) result }
{
    let (codes, zeros) = halves.split_at(count);
    let types = types_of(alloc, Dialect::Exact, at, codes)?;
    if !are_zero(zeros) {
        return Err(WordFault::Pad(at));
    }
    Ok(types)
}

// How many bytes the head of a row of this many values has, zeros included.
fn row_head_len(count: u64) -> u64
    ensures { result ≡ row_head_size count }
{
    let codes = count / 2 + count % 2;
    let over = codes % 8;
    if over == 0 { codes } else { codes + (8 - over) }
}

// The head of a tuple: this many codes after a count of this width, and what fills them up.
fn tuple_head(
    alloc: Global,
    words: &mut Words<'_>,
    width: u64,
    count: u64,
) -> Result<Vec<ValueType>, WordFault>
    requires { width + count < 2 ^ 64 }
    ensures { Finds (λ types. types.items) (codes_at width count) words.old words.new result }
{
    let at = words.place();
    let head = words.filled_slice(Dialect::Client, at, width + count)?;
    types_of(alloc, Dialect::Client, at, &head[width as usize..])
}

// The head of a row of this many values.
#[tactic(auto, unfolding(crate::specs::ReadingValues::row_head_at))]
fn row_head(alloc: Global, words: &mut Words<'_>, count: u64) -> Result<Vec<ValueType>, WordFault>
    ensures { Finds (λ types. types.items) (row_head_at count) words.old words.new result }
{
    let at = words.place();
    let head = words.raw_slice(row_head_len(count))?;
    let halves = halves_of(alloc, head)?;
    types_of_row(alloc, at, count as usize, &halves)
}

impl<'a> Words<'a> {
    // A tuple of this many values, whose count has this width.
    fn tuple(&mut self, alloc: Global, width: u64, count: u64) -> Result<Vec<Value>, WordFault>
        requires { width + count < 2 ^ 64 }
        ensures { Gives (λ values. values.items) (tuple_with width count) self.old self.new result }
    {
        let mut ahead = self.fork();
        let types = tuple_head(alloc, &mut ahead, width, count)?;
        let values = values_of(alloc, &mut ahead, Dialect::Client, &types)?;
        *self = ahead;
        Ok(values)
    }

    fn integer(&mut self) -> Result<Value, WordFault>
        ensures { Gives (λ value. value) integer_at self.old self.new result }
    {
        let number = self.u64()?;
        Ok(Value::Integer(number.cast_signed()))
    }

    fn text_value(&mut self, alloc: Global) -> Result<Value, WordFault>
        ensures { Gives (λ value. value) text_value_at self.old self.new result }
    {
        let text = self.text(alloc)?;
        Ok(Value::Text(text))
    }

    fn blob_value(&mut self, alloc: Global, dialect: Dialect) -> Result<Value, WordFault>
        ensures { Gives (λ value. value) (blob_value_at dialect) self.old self.new result }
    {
        let mut ahead = self.fork();
        let bytes = Vec::from_slice(alloc, ahead.blob_in(dialect)?)?;
        *self = ahead;
        Ok(Value::Blob(WireBytes::new(bytes)))
    }

    fn null(&mut self) -> Result<Value, WordFault>
        ensures { Gives (λ value. value) null_at self.old self.new result }
    {
        let at = self.place();
        let mut ahead = self.fork();
        if ahead.u64()? != 0 {
            return Err(WordFault::Pad(at));
        }
        *self = ahead;
        Ok(Value::Null)
    }

    /// Reads the words of a value of this type. `Float` where the type is that of floating-point numbers; `Short`, `NoNul`,
    /// `NotUtf8` and `Pad` as where a word, a text or a blob is read, and `Pad` where the word of a null isn't zero; what
    /// fills up a client's blob isn't looked at. `NoMemory` means out of memory for a copy.
    #[tactic(auto, unfolding(crate::specs::ReadingValues::value_at))]
    pub fn value(
        &mut self,
        alloc: Global,
        dialect: Dialect,
        value_type: ValueType,
    ) -> Result<Value, WordFault>
        ensures { Gives (λ value. value) (value_at dialect value_type) self.old self.new result }
    {
        match value_type {
            ValueType::Integer | ValueType::UnixTime | ValueType::Boolean => self.integer(),
            ValueType::Float => Err(WordFault::Float(self.place())),
            ValueType::Text | ValueType::Iso8601 => self.text_value(alloc),
            ValueType::Blob => self.blob_value(alloc, dialect),
            ValueType::Null => self.null(),
        }
    }

    /// Reads values of these types, one after the other. The fault is that of the first value that has one. `NoMemory`
    /// means out of memory.
    pub fn values(
        &mut self,
        alloc: Global,
        dialect: Dialect,
        types: &[ValueType],
    ) -> Result<Vec<Value>, WordFault>
        ensures { Gives (λ values. values.items) (values_at dialect types.now) self.old self.new result }
    {
        let mut ahead = self.fork();
        let values = values_of(alloc, &mut ahead, dialect, types)?;
        *self = ahead;
        Ok(values)
    }

    /// Reads a client's tuple of parameters: their number in one byte, a code for each, and, from the next whole word on,
    /// the values. What is between the codes and the values isn't looked at. The count and the codes are one item:
    /// `Short` where they and what fills them up aren't all there, else `BadCode` of the first code that represents no
    /// type, else `Float` where a code represents floating-point numbers. Then the fault is that of the first value that
    /// has one. `NoMemory` means out of memory.
    #[tactic(auto, unfolding(crate::specs::ReadingValues::tuple_at))]
    pub fn params(&mut self, alloc: Global) -> Result<Vec<Value>, WordFault>
        ensures { Gives (λ values. values.items) params_at self.old self.new result }
    {
        let at = self.place();
        let Some(count) = self.rest().first() else {
            return Err(WordFault::Short(at));
        };
        self.tuple(alloc, 1, u64::from(*count))
    }

    /// Reads a client's wide tuple of parameters, whose number has 32 bits, and else as `params` does. No room is taken
    /// ahead for the values that the number states.
    #[tactic(auto, unfolding(crate::specs::ReadingValues::tuple_at))]
    pub fn params_wide(&mut self, alloc: Global) -> Result<Vec<Value>, WordFault>
        ensures { Gives (λ values. values.items) params_wide_at self.old self.new result }
    {
        let at = self.place();
        let rest = self.rest();
        if rest.len() < 4 {
            return Err(WordFault::Short(at));
        }
        self.tuple(alloc, 4, u64::from(LittleEndian::read_u32(rest)))
    }

    /// Reads a row of this many values: a code of four bits for each, the first in the low half of a byte, zeros to a whole
    /// word, and the values. The codes are one item: `Short`, `BadCode` and `Float` as in `params`, and then `Pad` where a
    /// bit after them isn't zero. Then the fault is that of the first value that has one. `NoMemory` means out of memory.
    #[tactic(auto, unfolding(crate::specs::ReadingValues::row_at))]
    pub fn row(&mut self, alloc: Global, count: u64) -> Result<Vec<Value>, WordFault>
        ensures { Gives (λ values. values.items) (row_at count) self.old self.new result }
    {
        let mut ahead = self.fork();
        let types = row_head(alloc, &mut ahead, count)?;
        let values = values_of(alloc, &mut ahead, Dialect::Exact, &types)?;
        *self = ahead;
        Ok(values)
    }
}
