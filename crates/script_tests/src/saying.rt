use script_grammar::line_in;
use std::alloc::{AllocError, Global};
use std::test::Fail;

/// A line, and what it says: `None` where it isn't in the grammar.
const ROWS: &[(&[u8], &str)] = &[
    (b"", "Some(Blank)"),
    (b"# nodes 3", "Some(Blank)"),
    (b"#\r", "Some(Blank)"),
    (b"\r", "None"),
    (b" ", "None"),
    // Mode lines: 1 to 7 voters, and 9 nodes in all.
    (b"nodes 7", "Some(Nodes { voters: 7, spare: 0 })"),
    (b"nodes 7 2", "Some(Nodes { voters: 7, spare: 2 })"),
    (b"nodes 3 0", "Some(Nodes { voters: 3, spare: 0 })"),
    (b"nodes 0", "None"),
    (b"nodes 8", "None"),
    (b"nodes 7 3", "None"),
    (b"nodes 1 4294967295", "None"),
    (b"nodes", "None"),
    (b"nodes  1", "None"),
    (b"nodes 1 ", "None"),
    (b"pages 9", "Some(Pages { machines: 9 })"),
    (b"pages 0", "None"),
    (b"pages 10", "None"),
    (b"show 4294967295", "Some(Show { number: 4294967295 })"),
    (b"show 4294967296", "None"),
    // Events.
    (
        b"timeout 1",
        "Some(Event { event: Timeout { node: 1 }, aim: Nothing })",
    ),
    (
        b"beat 2",
        "Some(Event { event: Beat { node: 2 }, aim: Nothing })",
    ),
    (
        b"connect 1 2",
        "Some(Event { event: Connect { node: 1, connection: 2 }, aim: Nothing })",
    ),
    (b"connect 1", "None"),
    (
        b"bytes 3 0aFf",
        "Some(Event { event: Bytes { connection: 3, bytes: [10, 255] }, aim: Nothing })",
    ),
    (b"bytes 3 0", "None"),
    (b"bytes 3 0g", "None"),
    (b"bytes 3", "None"),
    (
        b"hangup 3",
        "Some(Event { event: Hangup { connection: 3 }, aim: Nothing })",
    ),
    (
        b"deliver 24",
        "Some(Event { event: Deliver { message: 24 }, aim: Nothing })",
    ),
    (
        b"settle 10000",
        "Some(Event { event: Settle { count: 10000 }, aim: Nothing })",
    ),
    (b"settle 0", "None"),
    (b"settle 10001", "None"),
    (
        b"crash 2",
        "Some(Event { event: Crash { node: 2, pick: 0 }, aim: Nothing })",
    ),
    (
        b"crash 2 7",
        "Some(Event { event: Crash { node: 2, pick: 7 }, aim: Nothing })",
    ),
    (
        b"start 2",
        "Some(Event { event: Start { node: 2 }, aim: Nothing })",
    ),
    (b"start 02", "None"),
    (
        b"put 00",
        "Some(Event { event: Put { bytes: [0] }, aim: Nothing })",
    ),
    (
        b"take 9",
        "Some(Event { event: Take { machine: 9 }, aim: Nothing })",
    ),
    // Aims: of one node's work over its disk alone, and never twice.
    (
        b"stop 1 0 timeout 1",
        "Some(Event { event: Timeout { node: 1 }, aim: Stop { call: 1, pick: 0 } })",
    ),
    (
        b"stop 3 2 bytes 1 00",
        "Some(Event { event: Bytes { connection: 1, bytes: [0] }, aim: Stop { call: 3, pick: 2 } })",
    ),
    (
        b"fail 9 start 4",
        "Some(Event { event: Start { node: 4 }, aim: Fail { call: 9 } })",
    ),
    (b"stop 0 0 timeout 1", "None"),
    (b"stop 1 timeout 1", "None"),
    (b"fail 0 timeout 1", "None"),
    (b"fail 1 connect 1 2", "None"),
    (b"fail 1 settle 5", "None"),
    (b"stop 1 0 crash 1", "None"),
    (b"stop 1 0 show 1", "None"),
    (b"fail 1 fail 1 timeout 1", "None"),
    (b"Timeout 1", "None"),
    (b"timeout \xc3", "None"),
];

/// What a line says, as text.
fn text_of(alloc: Global, line: &[u8]) -> Result<String, AllocError> {
    let said = line_in(alloc, line)?;
    format!(in alloc; "{said:?}")
}

/// Whether a line says what a row wants.
fn says_so(alloc: Global, line: &[u8], wanted: &str) -> Result<bool, AllocError> {
    let text = text_of(alloc, line)?;
    Ok(text.as_str() == wanted)
}

#[test]
fn lines_say_so(rt: HostRuntime) -> Result<(), Fail> {
    for (place, &(line, wanted)) in ROWS.iter().enumerate() {
        assert!(rt; says_so(rt.alloc(), line, wanted)?, "row {place}");
    }
    Ok(())
}
