ghost use Rattle.std.specs.Prelude.{◌≤◌, length, IsTrue};
ghost use Rattle.wire_words.specs.Values.{AreWritable};

use std::alloc::{AllocError, Global};
use std::test::*;
use wire_words::*;

/// What a value is to be.
#[derive(Clone, Copy)]
enum Wanted {
    Integer(i64),
    Text(&'static str),
    Blob(&'static [u8]),
    Null,
}

fn is_as(value: &Value, wanted: &Wanted) -> bool {
    match (value, wanted) {
        (Value::Integer(number), Wanted::Integer(wanted)) => *number == *wanted,
        (Value::Text(text), Wanted::Text(wanted)) => text.as_str() == *wanted,
        (Value::Blob(bytes), Wanted::Blob(wanted)) => bytes.as_slice() == *wanted,
        (Value::Null, Wanted::Null) => true,
        _ => false,
    }
}

fn are_as(values: &[Value], wanted: &[Wanted]) -> bool {
    values.len() == wanted.len()
        && values
            .iter()
            .zip(wanted)
            .all(|(value, wanted)| is_as(value, wanted))
}

/// How values are in a body: as a tuple, as a wide one, as a row of this many, or alone with these types.
#[derive(Clone, Copy)]
enum Form {
    Tuple,
    Wide,
    Row(u64),
    Alone(&'static [ValueType]),
}

fn read_values(alloc: Global, words: &mut Words<'_>, form: Form) -> Result<Vec<Value>, WordFault> {
    match form {
        Form::Tuple => words.params(alloc),
        Form::Wide => words.params_wide(alloc),
        Form::Row(count) => words.row(alloc, count),
        Form::Alone(types) => words.values(alloc, Dialect::Exact, types),
    }
}

fn write_values(writer: &mut Writer, form: Form, values: &[Value]) -> Result<(), AllocError>
    requires count { length values.now ≤ 255 }
    requires writable { AreWritable values.now }
{
    match form {
        Form::Tuple => writer.params(values),
        Form::Wide => writer.params_wide(values),
        Form::Row(_) => writer.row(values),
        Form::Alone(_) => writer.values(values),
    }
}

fn are_writable(values: &[Value]) -> bool
    ensures { IsTrue result → AreWritable values.now }
{
    values.iter().all(|value| value.is_writable())
}

/// Whether these bytes are what is written of the values.
fn writes_back(
    alloc: Global,
    form: Form,
    values: &[Value],
    bytes: &[u8],
) -> Result<bool, AllocError> {
    if values.len() > 255 || !are_writable(values) {
        return Ok(false);
    }
    let mut writer = Writer::with_capacity(alloc, 64)?;
    write_values(&mut writer, form, values)?;
    Ok(writer.finish().as_slice() == bytes)
}

/// Whether a body is read as these values alone, and is written back so if it is exact, and otherwise where not.
fn values_pass(
    alloc: Global,
    form: Form,
    bytes: &[u8],
    wanted: &[Wanted],
    exact: bool,
) -> Result<bool, WordFault> {
    let mut words = Words::new(bytes);
    let values = read_values(alloc, &mut words, form)?;
    if words.left() != 0 || !are_as(&values, wanted) {
        return Ok(false);
    }
    Ok(writes_back(alloc, form, &values, bytes)? == exact)
}

const FIVE_VALUES: &[Wanted] = &[
    Wanted::Integer(i64::MIN),
    Wanted::Blob(b""),
    Wanted::Null,
    Wanted::Text("abcdefg"),
    Wanted::Text("abcdefgh"),
];

const TUPLES_AND_ROWS: &[(Form, &[u8], &[Wanted], bool)] = &[
    (Form::Tuple, b"\0\0\0\0\0\0\0\0", &[], true),
    (
        Form::Tuple,
        b"\x01\x03SERT Ix\0\0\0\0\0\0\0",
        &[Wanted::Text("x")],
        false,
    ),
    (
        Form::Tuple,
        b"\x02\x01\x03\xff\xff\xff\xff\xff\x05\0\0\0\0\0\0\0x\0\0\0\0\0\0\0",
        &[Wanted::Integer(5), Wanted::Text("x")],
        false,
    ),
    (
        Form::Tuple,
        b"\x05\x09\x0a\x0b\x04\x05\0\0\xff\xff\xff\xff\xff\xff\xff\xff2026\0\0\0\0\x01\0\0\0\0\0\0\0\x01\0\0\0\0\0\0\0b1234567\0\0\0\0\0\0\0\0",
        &[
            Wanted::Integer(-1),
            Wanted::Text("2026"),
            Wanted::Integer(1),
            Wanted::Blob(b"b"),
            Wanted::Null,
        ],
        false,
    ),
    (
        Form::Wide,
        b"\x02\0\0\0\x01\x03\0\0\x05\0\0\0\0\0\0\0x\0\0\0\0\0\0\0",
        &[Wanted::Integer(5), Wanted::Text("x")],
        true,
    ),
    (
        Form::Tuple,
        b"\x05\x01\x04\x05\x03\x03\0\0\0\0\0\0\0\0\0\x80\0\0\0\0\0\0\0\0\0\0\0\0\0\0\0\0abcdefg\0abcdefgh\0\0\0\0\0\0\0\0",
        FIVE_VALUES,
        true,
    ),
    (
        Form::Wide,
        b"\x05\0\0\0\x01\x04\x05\x03\x03\0\0\0\0\0\0\0\0\0\0\0\0\0\0\x80\0\0\0\0\0\0\0\0\0\0\0\0\0\0\0\0abcdefg\0abcdefgh\0\0\0\0\0\0\0\0",
        FIVE_VALUES,
        true,
    ),
    (
        Form::Row(5),
        b"\x41\x35\x03\0\0\0\0\0\0\0\0\0\0\0\0\x80\0\0\0\0\0\0\0\0\0\0\0\0\0\0\0\0abcdefg\0abcdefgh\0\0\0\0\0\0\0\0",
        FIVE_VALUES,
        true,
    ),
    (
        Form::Alone(&[ValueType::Null, ValueType::Blob]),
        b"\0\0\0\0\0\0\0\0\x01\0\0\0\0\0\0\0b\0\0\0\0\0\0\0",
        &[Wanted::Null, Wanted::Blob(b"b")],
        true,
    ),
];

// The head of the second tuple is one that a real client sent, with bytes of an earlier request after its code. The
// first wide tuple is that of a real EXEC.
#[test]
fn values_are_read_and_written_back(rt: HostRuntime) {
    for &(form, bytes, wanted, exact) in TUPLES_AND_ROWS {
        assert_eq!(rt;
            values_pass(rt.alloc(), form, bytes, wanted, exact),
            Ok(true)
        );
    }
}

/// The fault of the values at the front of a body, and the place of the reader then.
fn fault_of_values(alloc: Global, form: Form, bytes: &[u8]) -> Option<(WordFault, u64)> {
    let mut words = Words::new(bytes);
    let fault = read_values(alloc, &mut words, form).err()?;
    Some((fault, words.place()))
}

const FAULTY_VALUES: &[(Form, &[u8], WordFault)] = &[
    (Form::Tuple, b"", WordFault::Short(0)),
    (Form::Tuple, b"\x08\x02\x06\0\0\0\0\0", WordFault::Short(0)),
    (
        Form::Tuple,
        b"\x02\x02\x06\0\0\0\0\0",
        WordFault::BadCode(0, 6),
    ),
    (Form::Tuple, b"\x01\x02\0\0\0\0\0\0", WordFault::Float(0)),
    (
        Form::Tuple,
        b"\x01\x05\0\0\0\0\0\0\x01\0\0\0\0\0\0\0",
        WordFault::Pad(8),
    ),
    (
        Form::Tuple,
        b"\x01\x03\0\0\0\0\0\0a\0\0\0\0\0\0\x01",
        WordFault::Pad(8),
    ),
    (
        Form::Tuple,
        b"\x01\x04\0\0\0\0\0\0\x01\0\0\0\0\0\0\0",
        WordFault::Short(8),
    ),
    (Form::Wide, b"\x01\0\0", WordFault::Short(0)),
    (
        Form::Row(1),
        b"\x09\0\0\0\0\0\0\0\0\0\0\0\0\0\0\0",
        WordFault::BadCode(0, 9),
    ),
    (
        Form::Row(1),
        b"\x15\0\0\0\0\0\0\0\0\0\0\0\0\0\0\0",
        WordFault::Pad(0),
    ),
];

#[test]
fn faulty_values(rt: HostRuntime) {
    for &(form, bytes, fault) in FAULTY_VALUES {
        assert_eq!(rt; fault_of_values(rt.alloc(), form, bytes), Some((fault, 0)));
    }
}

/// What is written of a value, if it can be written.
fn value_again(alloc: Global, value: &Value) -> Result<Option<WireBytes>, AllocError> {
    if !value.is_writable() {
        return Ok(None);
    }
    let mut writer = Writer::new(alloc);
    writer.value(value)?;
    Ok(Some(writer.finish()))
}

/// Whether a body is read as this value, of a type that is its own, and the value is written back so.
fn value_passes(
    alloc: Global,
    value_type: ValueType,
    body: &[u8],
    wanted: &Wanted,
) -> Result<bool, WordFault> {
    let value = Words::new(body).value(alloc, Dialect::Exact, value_type)?;
    let is_wanted = value.value_type() == value_type && is_as(&value, wanted);
    match value_again(alloc, &value)? {
        Some(written) => Ok(is_wanted && written.as_slice() == body),
        None => Ok(false),
    }
}

const SINGLE_VALUES: &[(ValueType, &[u8], Wanted)] = &[
    (
        ValueType::Integer,
        b"\xfe\xff\xff\xff\xff\xff\xff\xff",
        Wanted::Integer(-2),
    ),
    (ValueType::Text, b"t\0\0\0\0\0\0\0", Wanted::Text("t")),
    (ValueType::Null, b"\0\0\0\0\0\0\0\0", Wanted::Null),
];

#[test]
fn single_values(rt: HostRuntime) {
    for &(value_type, body, wanted) in SINGLE_VALUES {
        assert_eq!(rt;
            value_passes(rt.alloc(), value_type, body, &wanted),
            Ok(true)
        );
    }
}

#[test]
fn codes(rt: HostRuntime) {
    assert_eq!(rt; ValueType::with_code(Dialect::Exact, 9), None);
    assert_eq!(rt;
        ValueType::with_code(Dialect::Client, 9),
        Some(ValueType::UnixTime)
    );
    assert_eq!(rt; ValueType::UnixTime.code(), 9);
}
