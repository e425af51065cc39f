//! Queries that are answered later than they were asked.

ghost use Rattle.std.specs.Prelude.{◌≡◌, ◌+◌, ◌<◌, ◌^◌, length, IfOk};
ghost use Rattle.wire_rows.specs.Answering.{held};
ghost use Rattle.session_table.specs.StatementSizes.{value_size, values_size, statement_size};

use dq_base::Items;
use std::alloc::{AllocError, Global};
use std::marker::Model;
use std::sync::Arc;
use wire_words::{Value, WireText};

/// A text with the values of its parameters, and how many bytes they keep.
#[derive(Drop)]
struct BoundText {
    text: WireText,
    params: Items<Value>,
    size: u64,
}

/// A query that waits for its barrier, or that a reader runs: one statement with the values of its parameters. The session
/// shares it by count with the reader. Clauses see it as the rules' statement.
#[derive(Drop)]
pub struct Query {
    asked: Arc<BoundText, Global>,
}

impl Model for Query {
    ghost use Rattle.std.specs.Prelude.{◌≡◌, ◌+◌, length};
    ghost use Rattle.std.specs.Arc.{arc_value};
    ghost use Rattle.sql_engine.specs.Replies.{Statement};
    ghost use Rattle.wire_rows.specs.Answering.{held};
    ghost use Rattle.session_table.specs.StatementSizes.{values_size};

    ghost Value = { Statement };

    ghost view = { λ q. record { text = (arc_value q.asked).text; params = (arc_value q.asked).params } };

    ghost invariant = { λ q. (arc_value q.asked).size ≡ held (length (arc_value q.asked).text + values_size (arc_value q.asked).params) };
}

/// What a value counts.
fn value_size(value: &Value) -> u64
    ensures { result ≡ held (value_size value.now) }
{
    match value {
        Value::Integer(_) | Value::Null => 32,
        Value::Text(text) => (text.as_str().len() as u64).saturating_add(32),
        Value::Blob(bytes) => (bytes.len() as u64).saturating_add(32),
    }
}

/// This many bytes, and then these values. The sum stops at the last number of 64 bits.
fn with_values(size: u64, values: &[Value]) -> u64
    ensures { result ≡ held (size + values_size values.now) }
{
    let mut size = size;
    for value in values {
        size = size.saturating_add(value_size(value));
    }
    size
}

/// How many bytes a statement keeps, by its text and the values of its parameters.
fn statement_size(text: &WireText, params: &[Value]) -> u64
    ensures { result ≡ held (length text.now + values_size params.now) }
{
    with_values(text.as_str().len() as u64, params)
}

impl Query {
    /// A statement of this text, with these values of its parameters, which are moved. `Err` means out of memory for the
    /// count.
    pub fn new(alloc: Global, text: WireText, params: Items<Value>) -> Result<Query, AllocError>
        ensures { IfOk result (λ query. query ≡ record { text = text; params = params }) }
    {
        let size = statement_size(&text, params.as_slice());
        let asked = BoundText { text, params, size };
        Ok(Query {
            asked: Arc::new(alloc, asked)?,
        })
    }

    /// This query for one more owner: the count goes up by one, and nothing is copied. `Err` where the count is full.
    pub fn share(&self) -> Result<Query, AllocError>
        ensures { IfOk result (λ shared. shared ≡ self.now) }
    {
        Ok(Query {
            asked: Arc::try_clone(&self.asked)?,
        })
    }

    /// Its text, borrowed.
    pub fn text(&self) -> &str
        ensures { result.now ≡ self.now.text }
    {
        let asked: &BoundText = &self.asked;
        asked.text.as_str()
    }

    /// The values of its parameters, borrowed.
    pub fn params(&self) -> &[Value]
        ensures { result.now ≡ self.now.params }
    {
        let asked: &BoundText = &self.asked;
        asked.params.as_slice()
    }

    /// How many bytes it keeps: those of its text, and 32 for each value besides those of its text or blob.
    pub fn size(&self) -> u64
        ensures { result ≡ held (statement_size self.now) }
    {
        let asked: &BoundText = &self.asked;
        asked.size
    }
}
