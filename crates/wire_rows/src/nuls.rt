ghost use Rattle.std.specs.Prelude.{◌≡◌, position};
ghost use Rattle.wire_rows.specs.Nuls.{holds_nul, first_nul};

use crate::row::Row;
use wire_words::Value;

/// Whether the value is a text with a NUL.
fn holds_nul(value: &Value) -> bool
    ensures { result ≡ holds_nul value.now }
{
    match value {
        Value::Text(text) => text.has_nul(),
        Value::Integer(_) | Value::Blob(_) | Value::Null => false,
    }
}

/// The column of the first text with a NUL.
fn nul_column(values: &[Value]) -> Option<usize>
    ensures { result ≡ position holds_nul values.now }
{
    values.iter().position(|value| holds_nul(value))
}

/// The row and the column of the first text with a NUL. Looks at each byte of a text once.
#[tactic(auto, unfolding(crate::specs::Nuls::first_nul))]
pub(crate) fn first_nul(rows: &[Row]) -> Option<(u64, u64)>
    ensures { result ≡ first_nul rows.now }
{
    for (row, values) in rows.iter().enumerate() {
        if let Some(column) = nul_column(values.values()) {
            return Some((row as u64, column as u64));
        }
    }
    None
}
