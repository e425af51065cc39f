use dq_base::{Image, ImageNumber, Name, NumberedPage, PageSet, apply_pages};
use log_commands::{can_split, split, write_command};
use sql_engine::{CellEngine, Engine, EngineFault, ImageNumbers};
use std::alloc::{AllocError, Global};
use std::test::*;
use wire_rows::Row;
use wire_words::{Value, WireBytes};

/// The transaction of the tests: 2^32 + 3.
const TX: u64 = 4_294_967_299;

/// The numbers of the tests' images, which an engine of cells doesn't look at.
const NUMBERS: ImageNumbers = ImageNumbers {
    before: ImageNumber::Working(0),
    after: 1,
};

/// The command that sets cell 3 of an empty database `d` to 9, up to its pages.
const SET_3_9: [u8; 80] =
    *b"\x01\x02\0\0\0\0\0\0d\0\0\0\0\0\0\0\x03\0\0\0\x01\0\0\0\x05\0\0\0\x01\0\0\0\x05\0\0\0\0\x10\0\0\x02\0\0\0\0\0\0\0\x03\0\0\0\0\0\0\0\x04\0\0\0\0\0\0\0\x06\0\0\0\0\0\0\0\x01\0\0\0\0\0\0\0";

/// That command whole: its five pages are zeros except for these bytes.
fn worked_command(alloc: Global) -> Result<Vec<u8>, AllocError> {
    let mut bytes = Vec::from_slice(alloc, &SET_3_9)?;
    for (front, len) in [
        (0, 4096),
        (1, 4096),
        (0, 4096),
        (9, 4096),
        (0, 1),
        (0x30, 7),
        (0, 1),
        (0x10, 4087),
    ] {
        bytes.push(front)?;
        bytes.resize(bytes.len() + len - 1, 0)?;
    }
    Ok(bytes)
}

/// What is written of the one command of the database `d` into which these pages are split.
fn written(alloc: Global, set: &PageSet) -> Result<Option<WireBytes>, AllocError> {
    let Some(name) = Name::new(String::from_str(alloc, "d")?) else {
        return Ok(None);
    };
    if !can_split(set) {
        return Ok(None);
    }
    let commands = split(alloc, name.as_str(), set)?;
    match commands.as_slice() {
        [command] if command.numbers_fit() => Ok(Some(write_command(alloc, command)?)),
        _ => Ok(None),
    }
}

/// What a run is to answer: how many pages are affected, the value that is read, and the numbers of the pages that change,
/// with zeros after them.
type Wanted = Result<(u64, Option<i64>, [u64; 6]), EngineFault>;

/// The numbers of pages, with zeros after them.
fn numbers_of(pages: &[NumberedPage]) -> [u64; 6] {
    let mut numbers = [0; 6];
    for (place, page) in numbers.iter_mut().zip(pages) {
        *place = page.number;
    }
    numbers
}

/// The first value of the first row, if it is an integer.
fn value_of(rows: &[Row]) -> Option<i64> {
    let row = rows.first()?;
    match row.values() {
        [Value::Integer(value)] => Some(*value),
        _ => None,
    }
}

/// Runs a statement without parameters, and applies its pages to the image.
fn answered(engine: &mut CellEngine, image: &mut Image, text: &str) -> Wanted {
    let ran = engine.run(image, NUMBERS, text, &[], TX, None)?;
    let pages = ran.after.pages.as_slice();
    if !pages.is_empty() && apply_pages(image, pages).is_err() {
        return Err(EngineFault::NoMemory);
    }
    Ok((
        ran.affected,
        value_of(ran.rows.as_slice()),
        numbers_of(pages),
    ))
}

/// The written command of the pages that setting cell 3 of an empty image changes.
fn set_command(alloc: Global) -> Result<Option<WireBytes>, EngineFault> {
    let mut engine = CellEngine::new(alloc);
    let image = Image::new(alloc);
    let ran = engine.run(&image, NUMBERS, "SET 3 9", &[], TX, None)?;
    Ok(written(alloc, &ran.after)?)
}

#[test]
fn a_change_is_written_as_a_command(rt: HostRuntime) -> Result<(), Fail> {
    let bytes = set_command(rt.alloc())?.ok_or("numbers that fit")?;
    assert!(rt; bytes.as_slice() == worked_command(rt.alloc())?.as_slice());
    Ok(())
}

/// The numbers of no pages.
const NO_PAGES: [u64; 6] = [0; 6];

const STATEMENTS: &[(&str, Wanted)] = &[
    ("GET 3", Ok((0, None, NO_PAGES))),
    ("SET 3 9", Ok((1, None, [2, 3, 4, 6, 1, 0]))),
    ("GET 3", Ok((0, Some(9), NO_PAGES))),
    ("GET 2", Ok((0, Some(0), NO_PAGES))),
    ("GET 4", Ok((0, None, NO_PAGES))),
    // A value that is set again: only the count of changes differs.
    ("SET 3 9", Ok((1, None, [3, 1, 0, 0, 0, 0]))),
    (
        "SET 1 9223372036854775807",
        Ok((1, None, [2, 3, 1, 0, 0, 0])),
    ),
    ("GET 1", Ok((0, Some(i64::MAX), NO_PAGES))),
    ("SET 1 9223372036854775808", Err(EngineFault::Constraint)),
    ("SET 1 9999999999999999999", Err(EngineFault::Constraint)),
    ("SET 1 10000000000000000000", Err(EngineFault::Sql)),
    ("SET 01 1", Err(EngineFault::Sql)),
    ("SET 0 1", Err(EngineFault::Sql)),
    ("SET 8193 1", Err(EngineFault::Sql)),
    ("SET 1  1", Err(EngineFault::Sql)),
    ("SET 1 1 ", Err(EngineFault::Sql)),
    ("set 1 1", Err(EngineFault::Sql)),
    ("GET +1", Err(EngineFault::Sql)),
    ("", Err(EngineFault::Sql)),
    ("WIPE 8193", Err(EngineFault::Sql)),
    ("WIPE 8192", Ok((0, None, NO_PAGES))),
    ("WIPE 0", Ok((3, None, [3, 1, 0, 0, 0, 0]))),
    ("WIPE 0", Ok((0, None, NO_PAGES))),
];

#[test]
fn statements_of_cells_run_in_turn(rt: HostRuntime) -> Result<(), Fail> {
    let mut engine = CellEngine::new(rt.alloc()).fork()?;
    let mut image = Image::new(rt.alloc());
    engine.ready(&image, NUMBERS.before);
    for &(text, wanted) in STATEMENTS {
        assert_eq!(rt; answered(&mut engine, &mut image, text), wanted, "{text}");
    }
    Ok(())
}

const FAULTS: &[(EngineFault, &str)] = &[
    (EngineFault::Constraint, "a constraint is broken"),
    (EngineFault::Sql, "the statement is refused"),
    (EngineFault::Float(2, 1), "row 2, column 1 is a real value"),
    (
        EngineFault::NotText(0, 3),
        "row 0, column 3 is a text that isn't UTF-8",
    ),
    (EngineFault::Unopened, "the files are not opened"),
    (
        EngineFault::Cut,
        "the statement takes more steps than its limit",
    ),
    (EngineFault::NoMemory, "out of memory"),
];

#[test]
fn each_fault_of_an_engine_says_what_is_wrong(rt: HostRuntime) -> Result<(), Fail> {
    for &(fault, text) in FAULTS {
        let said = format!(in rt.alloc(); "{fault}")?;
        assert_eq!(rt; said.as_str(), text);
    }
    Ok(())
}
