use dq_base::MemSource;
use script_grammar::{LineEnd, LineFault, LineReader};
use std::alloc::{AllocError, Global};
use std::test::Fail;

/// What a source gives.
#[derive(Clone, Copy)]
enum Script {
    Text(&'static str),
    /// A line of this many bytes, without its LF.
    Long(usize),
}

/// The bytes of a script.
fn text_of(alloc: Global, script: Script) -> Result<String, AllocError> {
    match script {
        Script::Text(text) => String::from_str(alloc, text),
        Script::Long(length) => "#".repeat(alloc, length),
    }
}

/// A source of these bytes, whose read of a number, from 1, fails.
fn source_of(alloc: Global, script: Script, failing: u64) -> Result<MemSource, AllocError> {
    let text = text_of(alloc, script)?;
    let bytes = Vec::from_slice(alloc, text.as_bytes())?;
    Ok(MemSource::new(bytes, Vec::from_slice(alloc, &[failing])?))
}

/// How the line at a place, from 0, ends, and how long it is.
fn line_at(
    alloc: Global,
    source: &mut MemSource,
    place: u32,
) -> Result<(LineEnd, usize), LineFault> {
    let mut lines = LineReader::new(alloc)?;
    for _line in 0..place {
        lines.next_line(source)?;
    }
    let end = lines.next_line(source)?;
    Ok((end, lines.line().len()))
}

/// How the line at a place ends, as text, of a script whose read of a number fails.
fn ended(alloc: Global, script: Script, failing: u64, place: u32) -> Result<String, AllocError> {
    let mut source = source_of(alloc, script, failing)?;
    let ended = line_at(alloc, &mut source, place);
    format!(in alloc; "{ended:?}")
}

/// A script, the read that fails, the place of a line, and how the line ends and how long it is, or the fault.
type Row = (Script, u64, u32, &'static str);

const ROWS: &[Row] = &[
    (Script::Text("a\nbc\n"), 0, 0, "Ok((Feed, 1))"),
    (Script::Text("a\nbc\n"), 0, 1, "Ok((Feed, 2))"),
    // The LF at the end begins no line.
    (Script::Text("a\nbc\n"), 0, 2, "Ok((Input, 0))"),
    (Script::Text("a\nbc"), 0, 1, "Ok((Input, 2))"),
    (Script::Text("\n"), 0, 0, "Ok((Feed, 0))"),
    (Script::Text(""), 0, 0, "Ok((Input, 0))"),
    (Script::Text("a"), 1, 0, "Err(Source)"),
    // The first read gives the byte, and the second is to say that the input has ended.
    (Script::Text("a"), 2, 0, "Err(Source)"),
    (Script::Text("a\n"), 2, 0, "Ok((Feed, 1))"),
    // A line of several pieces, and one with a byte too many.
    (Script::Long(200_000), 0, 0, "Ok((Input, 200000))"),
    (Script::Long(200_000), 3, 0, "Err(Source)"),
    (Script::Long(1_048_576), 0, 0, "Ok((Input, 1048576))"),
    (Script::Long(1_048_577), 0, 0, "Ok((TooLong, 1048577))"),
];

/// Whether the line of a row ends as the row says.
fn ends_so(alloc: Global, row: &Row) -> Result<bool, AllocError> {
    let &(script, failing, place, wanted) = row;
    let text = ended(alloc, script, failing, place)?;
    Ok(text.as_str() == wanted)
}

#[test]
fn lines_end_so(rt: HostRuntime) -> Result<(), Fail> {
    for (place, row) in ROWS.iter().enumerate() {
        assert!(rt; ends_so(rt.alloc(), row)?, "row {place}");
    }
    Ok(())
}
