ghost use Rattle.std.specs.Prelude.{◌≡◌, ◌<◌, ◌↔◌, IsTrue};
ghost use Rattle.wire_words.specs.Values.{code, type_of, IsWritable};
ghost use Rattle.wire_words.specs.ReadingValues.{type_with, client_type, is_float};

use crate::WireBytes;
use crate::text::WireText;

/// A value of a parameter or of a row.
#[derive(Debug, Drop)]
pub enum Value {
    Integer(i64),
    Text(WireText),
    Blob(WireBytes),
    Null,
}

/// The type of a value on the wire, which a code represents.
#[derive(Clone, Copy, Debug, PartialEq, Eq)]
pub enum ValueType {
    /// Code 1: a word, in two's complement.
    Integer,
    /// Code 2: a floating-point number, which is never read or written.
    Float,
    /// Code 3.
    Text,
    /// Code 4: a word with the number of bytes, and the bytes.
    Blob,
    /// Code 5: a word of zeros.
    Null,
    /// Code 9: a time in seconds since 1970. It is read as an integer.
    UnixTime,
    /// Code 10: a date in the form of ISO 8601. It is read as a text.
    Iso8601,
    /// Code 11: it is read as an integer.
    Boolean,
}

/// How strictly values are read.
#[derive(Clone, Copy, Debug, PartialEq, Eq)]
pub enum Dialect {
    /// Exactly as they are written: with the codes 1, 3, 4 and 5 alone, and zeros wherever bytes are filled up.
    Exact,
    /// As clients send them: with the codes 9, 10 and 11 too, and any bytes after the codes of a tuple and after a
    /// blob. Real clients leave in these places what was in their buffer before.
    Client,
}

impl ValueType {
    /// The type that a code represents, if any.
    pub fn with_code(dialect: Dialect, code: u8) -> Option<ValueType>
        ensures { result ≡ type_with dialect code }
    {
        match code {
            1 => Some(ValueType::Integer),
            2 => Some(ValueType::Float),
            3 => Some(ValueType::Text),
            4 => Some(ValueType::Blob),
            5 => Some(ValueType::Null),
            _ => match dialect {
                Dialect::Exact => None,
                Dialect::Client => ValueType::of_client(code),
            },
        }
    }

    /// The types that only clients write.
    fn of_client(code: u8) -> Option<ValueType>
        ensures { result ≡ client_type Dialect.Client code }
    {
        match code {
            9 => Some(ValueType::UnixTime),
            10 => Some(ValueType::Iso8601),
            11 => Some(ValueType::Boolean),
            _ => None,
        }
    }

    /// Whether it is that of floating-point numbers.
    pub(crate) fn is_float(self) -> bool
        ensures { result ≡ is_float self }
    {
        matches!(self, ValueType::Float)
    }

    /// The code that represents the type.
    pub fn code(self) -> u8
        ensures { result ≡ code self }
    {
        match self {
            ValueType::Integer => 1,
            ValueType::Float => 2,
            ValueType::Text => 3,
            ValueType::Blob => 4,
            ValueType::Null => 5,
            ValueType::UnixTime => 9,
            ValueType::Iso8601 => 10,
            ValueType::Boolean => 11,
        }
    }
}

impl Value {
    /// The type as which the value is written.
    pub fn value_type(&self) -> ValueType
        ensures { result ≡ type_of self.now }
    {
        match self {
            Value::Integer(_) => ValueType::Integer,
            Value::Text(_) => ValueType::Text,
            Value::Blob(_) => ValueType::Blob,
            Value::Null => ValueType::Null,
        }
    }

    /// The code of that type, which has four bits.
    pub(crate) fn code(&self) -> u8
        ensures code { result ≡ code (type_of self.now) }
        ensures small { result < 16 }
    {
        self.value_type().code()
    }

    /// Whether the value can be written: a text may hold no NUL.
    pub fn is_writable(&self) -> bool
        ensures { IsTrue result ↔ IsWritable self.now }
    {
        match self {
            Value::Text(text) => !text.has_nul(),
            _ => true,
        }
    }
}
