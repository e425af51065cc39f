ghost use Rattle.std.specs.Prelude.{◌≡◌};

use std::marker::Model;
use wire_words::Value;

/// A row of an answer: its values in the order of the columns. Clauses see the list of the values.
#[derive(Debug, Drop)]
pub struct Row {
    inner: Vec<Value>,
}

impl Model for Row {
    ghost use Rattle.std.specs.Prelude.{List};
    ghost use Rattle.wire_words.specs.declared.value.Value.{Value as WireValue};

    ghost Value = { List WireValue };

    ghost view = { λ row. row.inner.items };
}

impl Row {
    /// A row of these values.
    pub fn new(values: Vec<Value>) -> Row
        ensures { result ≡ values.items }
    {
        Row { inner: values }
    }

    /// The values, borrowed.
    pub fn values(&self) -> &[Value]
        ensures { result.now ≡ self.now }
    {
        self.inner.as_slice()
    }

    /// Gives the vector of the values back.
    pub fn into_values(self) -> Vec<Value>
        ensures { result.items ≡ self }
    {
        self.inner
    }
}
