ghost use Rattle.std.specs.Prelude.{◌≡◌, ◌+◌, length};
ghost use Rattle.wire_words.specs.Items.{gap, text};
ghost use Rattle.wire_words.specs.Values.{value, values, row};
ghost use Rattle.wire_rows.specs.Spelling.{head_bytes, rows_bytes};
ghost use Rattle.wire_rows.specs.Answering.{held};

use crate::row::Row;
use wire_words::{Value, WireText};

// Sizes in bytes, of which none is above the last number of 64 bits: a sum stops there.

/// This many bytes, filled up to whole words.
#[tactic(auto, using(crate::proofs::Lengths::rounded_up))]
fn filled(len: u64) -> u64
    ensures { result ≡ held (len + gap len) }
{
    len.div_ceil(8).saturating_mul(8)
}

#[tactic(auto, using(crate::proofs::Lengths::length_text))]
fn text_size(content: &str) -> u64
    ensures { result ≡ held (length (text content.now)) }
{
    filled((content.len() as u64).saturating_add(1))
}

#[tactic(auto, using(crate::proofs::Lengths::length_blob))]
fn value_size(content: &Value) -> u64
    ensures { result ≡ held (length (value content.now)) }
{
    match content {
        Value::Integer(_) | Value::Null => 8,
        Value::Text(text) => text_size(text.as_str()),
        Value::Blob(bytes) => filled(bytes.len() as u64).saturating_add(8),
    }
}

/// The codes of a row's values, filled up to whole words.
#[tactic(auto, using(crate::proofs::Lengths::length_codes))]
fn codes_size(contents: &[Value]) -> u64
    ensures { held (result + length (values contents.now)) ≡ held (length (row contents.now)) }
{
    filled((contents.len() as u64).div_ceil(2))
}

pub(crate) fn row_size(contents: &[Value]) -> u64
    ensures { result ≡ held (length (row contents.now)) }
{
    let mut size = codes_size(contents);
    for content in contents {
        size = size.saturating_add(value_size(content));
    }
    size
}

/// What is before the rows of each part: the number of columns and their names.
pub(crate) fn head_size(columns: &[WireText]) -> u64
    ensures { result ≡ held (length (head_bytes columns.now)) }
{
    let mut size = 8_u64;
    for name in columns {
        size = size.saturating_add(text_size(name.as_str()));
    }
    size
}

/// This many bytes, and then these rows.
pub(crate) fn with_rows(size: u64, rows: &[Row]) -> u64
    ensures { result ≡ held (size + length (rows_bytes rows.now)) }
{
    let mut size = size;
    for row in rows {
        size = size.saturating_add(row_size(row.values()));
    }
    size
}
