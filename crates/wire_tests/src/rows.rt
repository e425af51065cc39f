ghost use Rattle.std.specs.Prelude.{◌≡◌, ◌∷◌, [], length, IfOk};
ghost use Rattle.wire_rows.specs.Spelling.{HaveNoNul, HaveWidth};

use std::alloc::{AllocError, Global};
use std::test::*;
use wire_rows::*;
use wire_words::{Value, WireBytes, WireText, WordFault};

fn text(alloc: Global, text: &str) -> Result<WireText, AllocError> {
    Ok(WireText::new(String::from_str(alloc, text)?))
}

/// This many columns of one name.
#[tactic(auto, using(crate::proofs::Tables::one_name_more))]
fn columns(alloc: Global, count: usize) -> Result<Vec<WireText>, AllocError>
    ensures names { IfOk result (λ names. HaveNoNul names.items) }
    ensures count { IfOk result (λ names. length names.items ≡ count) }
{
    let mut names = Vec::new(alloc);
    for _ in 0..count {
        let name = String::from_str(alloc, "columnab")?;
        names.push(WireText::new(name))?;
    }
    Ok(names)
}

/// This many rows of one integer.
#[tactic(auto, using(crate::proofs::Tables::one_row_more))]
fn integers(alloc: Global, count: usize) -> Result<Vec<Row>, AllocError>
    ensures { IfOk result (λ rows. HaveWidth 1 rows.items) }
{
    let mut rows = Vec::new(alloc);
    for _ in 0..count {
        let values = vec![in alloc; Value::Integer(7)]?;
        rows.push(Row::new(values))?;
    }
    Ok(rows)
}

/// The bodies of one row under columns of one name.
fn parts_of_row(alloc: Global, values: Vec<Value>) -> Result<Vec<WireBytes>, RowFault> {
    let names = columns(alloc, values.len())?;
    if names.is_empty() {
        return Err(RowFault::NoMemory);
    }
    let rows = vec![in alloc; Row::new(values)]?;
    parts(alloc, names.as_slice(), rows.as_slice())
}

/// The row of five values.
fn five_values(alloc: Global) -> Result<Vec<Value>, AllocError> {
    let mut values = Vec::with_capacity(alloc, 5)?;
    values.push(Value::Integer(i64::MIN))?;
    values.push(Value::Blob(WireBytes::new(Vec::new(alloc))))?;
    values.push(Value::Null)?;
    values.push(Value::Text(text(alloc, "abcdefg")?))?;
    values.push(Value::Text(text(alloc, "abcdefgh")?))?;
    Ok(values)
}

/// The body of the only part.
fn only_body(bodies: &[WireBytes]) -> Option<&[u8]> {
    match bodies {
        [body] => Some(body.as_slice()),
        _ => None,
    }
}

/// How many columns and rows are read in a body, and whether parts follow.
fn read_counts(alloc: Global, body: &[u8]) -> Option<(usize, usize, More)> {
    let (part, more) = read_part(alloc, body).ok()?;
    Some((part.columns.len(), part.rows.len(), more))
}

#[test]
fn a_row(rt: HostRuntime) -> Result<(), Fail> {
    let wanted = b"\x05\0\0\0\0\0\0\0columnab\0\0\0\0\0\0\0\0columnab\0\0\0\0\0\0\0\0\
        columnab\0\0\0\0\0\0\0\0columnab\0\0\0\0\0\0\0\0columnab\0\0\0\0\0\0\0\0\
        \x41\x35\x03\0\0\0\0\0\0\0\0\0\0\0\0\x80\0\0\0\0\0\0\0\0\0\0\0\0\0\0\0\0\
        abcdefg\0abcdefgh\0\0\0\0\0\0\0\0\xff\xff\xff\xff\xff\xff\xff\xff";
    let bodies = parts_of_row(rt.alloc(), five_values(rt.alloc())?)?;
    assert_eq!(rt; only_body(&bodies), Some(wanted.as_slice()));
    assert_eq!(rt; read_counts(rt.alloc(), wanted), Some((5, 1, More::Last)));
    Ok(())
}

/// The bodies of this many rows of one integer.
fn parts_of_integers(alloc: Global, count: usize) -> Result<Vec<WireBytes>, RowFault> {
    let names = columns(alloc, 1)?;
    let rows = integers(alloc, count)?;
    parts(alloc, names.as_slice(), rows.as_slice())
}

/// How long the body of a part is and how it ends, and how many rows are read in it.
fn size_end_rows(alloc: Global, bodies: &[WireBytes], place: usize) -> Option<(usize, u8, usize)> {
    let body = bodies.get(place)?.as_slice();
    let end = body.last_chunk::<8>()?;
    if end.iter().any(|byte| *byte != end[0]) {
        return None;
    }
    let (_, rows, _) = read_counts(alloc, body)?;
    Some((body.len(), end[0], rows))
}

/// How long the body of a part is and how it ends, and how many rows are read in it, if it is there.
type SizeEndRows = Option<(usize, u8, usize)>;

/// That of the first two parts of this many rows of one integer.
fn first_two(alloc: Global, count: usize) -> Result<(SizeEndRows, SizeEndRows), RowFault> {
    let bodies = parts_of_integers(alloc, count)?;
    Ok((
        size_end_rows(alloc, &bodies, 0),
        size_end_rows(alloc, &bodies, 1),
    ))
}

const CUTS: &[(usize, (SizeEndRows, SizeEndRows))] = &[
    (4_094, (Some((65_536, 0xff, 4_094)), None)),
    (4_095, (Some((65_536, 0xee, 4_094)), Some((48, 0xff, 1)))),
];

#[test]
fn cut_at_the_limit(rt: HostRuntime) -> Result<(), Fail> {
    for &(count, wanted) in CUTS {
        assert_eq!(rt; first_two(rt.alloc(), count)?, wanted);
    }
    Ok(())
}

/// The fault of a row of one text.
fn fault_of_text(alloc: Global, content: &str) -> Result<Option<RowFault>, AllocError> {
    let values = vec![in alloc; Value::Text(text(alloc, content)?)]?;
    Ok(parts_of_row(alloc, values).err())
}

/// The fault of a row of one blob with this many bytes.
fn fault_of_blob(alloc: Global, size: usize) -> Result<Option<RowFault>, AllocError> {
    let bytes = WireBytes::new(vec![in alloc; 0; size]?);
    let values = vec![in alloc; Value::Blob(bytes)]?;
    Ok(parts_of_row(alloc, values).err())
}

#[test]
fn refusals(rt: HostRuntime) {
    assert_eq!(rt;
        fault_of_text(rt.alloc(), "a\0"),
        Ok(Some(RowFault::Nul(0, 0)))
    );
    assert_eq!(rt;
        fault_of_blob(rt.alloc(), 16_777_216),
        Ok(Some(RowFault::TooBig(16_777_264)))
    );
}

/// What is read in the only part of an answer without rows that has this many columns.
fn read_without_rows(alloc: Global, count: usize) -> Option<(usize, usize, More)> {
    let names = columns(alloc, count).ok()?;
    let bodies = parts(alloc, names.as_slice(), &[]).ok()?;
    read_counts(alloc, only_body(&bodies)?)
}

#[test]
fn no_rows(rt: HostRuntime) {
    for count in 0..2 {
        assert_eq!(rt;
            read_without_rows(rt.alloc(), count),
            Some((count, 0, More::Last))
        );
    }
}

const PART_FAULTS: &[(&[u8], RowReadFault)] = &[
    (b"\0\0\0\0", RowReadFault::Word(WordFault::Short(0))),
    (b"\0\0\0\0\0\0\0\0", RowReadFault::NoEnd),
    (b"\0\0\0\0\0\0\0\0\x01\0\0\0\0\0\0\0", RowReadFault::NoEnd),
    (
        b"\0\0\0\0\0\0\0\0\xff\xff\xff\xff\xff\xff\xff",
        RowReadFault::NoEnd,
    ),
    (
        b"\x01\0\0\0\0\0\0\0",
        RowReadFault::Word(WordFault::NoNul(8)),
    ),
    (b"\x01\0\0\0\0\0\0\0a\0\0\0\0\0\0\0", RowReadFault::NoEnd),
    (
        b"\x01\0\0\0\0\0\0\0a\0\0\0\0\0\0\0\xff",
        RowReadFault::Word(WordFault::Short(16)),
    ),
    (
        b"\x01\0\0\0\0\0\0\0a\0\0\0\0\0\0\0\xff\xff\xff\xff\xff\xff\xff\0",
        RowReadFault::Word(WordFault::BadCode(16, 15)),
    ),
    (
        b"\x01\0\0\0\0\0\0\0a\0\0\0\0\0\0\0\xff\xff\xff\xff\xff\xff\xff\xff\0",
        RowReadFault::Tail(1),
    ),
];

#[test]
fn faults_of_parts(rt: HostRuntime) {
    for &(body, wanted) in PART_FAULTS {
        assert_eq!(rt; read_part(rt.alloc(), body).err(), Some(wanted));
    }
}

const ROW_FAULTS: &[(RowFault, &str)] = &[
    (
        RowFault::Nul(1, 2),
        "the text in row 1, column 2 holds a NUL",
    ),
    (RowFault::TooBig(9), "the answer has 9 bytes"),
    (RowFault::NoMemory, "out of memory"),
];

const READ_FAULTS: &[(RowReadFault, &str)] = &[
    (
        RowReadFault::Word(WordFault::Short(3)),
        "the part is malformed: the body ends within the item at byte 3",
    ),
    (RowReadFault::NoEnd, "the part has no end word"),
    (RowReadFault::Tail(2), "2 words follow the end word"),
    (RowReadFault::NoMemory, "out of memory"),
];

#[test]
fn texts_of_faults(rt: HostRuntime) -> Result<(), Fail> {
    for &(fault, wanted) in ROW_FAULTS {
        assert_eq!(rt; fault.to_string(rt.alloc())?.as_str(), wanted);
    }
    for &(fault, wanted) in READ_FAULTS {
        assert_eq!(rt; fault.to_string(rt.alloc())?.as_str(), wanted);
    }
    Ok(())
}
