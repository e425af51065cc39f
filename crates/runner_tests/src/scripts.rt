use dq_base::{MemSink, MemSource};
use script_cluster::ClusterJournal;
use script_runner::{Outcome, run_script};
use script_whole_nodes::{CellChoice, WholePlace};
use std::alloc::{AllocError, Global};
use std::test::Fail;

/// What a client sends first: the version of the protocol, 1, and then a LEADER request of one word.
const GREETING: &str = "bytes 1 010000000000000001000000000000000000000000000000\n";

/// The reply of a node that knows no leader: id 0 and no address.
const NO_LEADER: &str = "reply 1 020000000100000000000000000000000000000000000000\n";

/// That reply, and how the node is at the end of the script.
const STANDS: &str =
    "reply 1 020000000100000000000000000000000000000000000000\nnode 1 term 0 role follower applied 0 files e3b0c44298fc1c149afbf4c8996fb92427ae41e4649b934ca495991b7852b855\n";

/// How a script ended, and what it printed.
#[derive(Drop)]
struct Ended {
    outcome: Outcome,
    text: Vec<u8>,
}

/// Runs a script in memory, if the read and the write of these numbers, from 1, fail. Its engine has cells, since no line of a
/// script here runs a statement, and SQLite isn't compiled then.
fn run(alloc: Global, script: &[u8], read: u64, write: u64) -> Result<Ended, AllocError> {
    let mut input = MemSource::new(
        Vec::from_slice(alloc, script)?,
        Vec::from_slice(alloc, &[read])?,
    );
    let mut output = MemSink::new(alloc, Vec::from_slice(alloc, &[write])?);
    let mut journal = ClusterJournal::new(alloc);
    let outcome = run_script(
        alloc,
        WholePlace::<CellChoice>::new(alloc),
        &mut input,
        &mut output,
        &mut journal,
    );
    let text = Vec::from_slice(alloc, output.bytes())?;
    Ok(Ended { outcome, text })
}

/// A script of which the first read gives 65,536 bytes, and the second the digit that ends its last line.
fn long_script(alloc: Global) -> Result<String, AllocError> {
    let comment = "#".repeat(alloc, 65_521)?;
    format!(in alloc; "pages 2\n{comment}\nshow 11")
}

/// A script of a row.
#[derive(Clone, Copy)]
enum Script {
    /// A client asks a node for the leader.
    Asking,
    /// Its last line is cut by the end of the first read.
    Long,
    Text(&'static str),
}

/// The bytes of a script.
fn text_of(alloc: Global, script: Script) -> Result<String, AllocError> {
    match script {
        Script::Asking => format!(in alloc; "nodes 1\nconnect 1 1\n{GREETING}"),
        Script::Long => long_script(alloc),
        Script::Text(text) => String::from_str(alloc, text),
    }
}

/// A script, the read and the write that fail, how the script ends, and what it prints.
type Row = (Script, u64, u64, Outcome, &'static str);

const ROWS: &[Row] = &[
    (Script::Asking, 0, 0, Outcome::Done, STANDS),
    (Script::Asking, 1, 0, Outcome::ReadFault, ""),
    // The first read gives the whole script, and the second is to say that it has ended.
    (Script::Asking, 2, 0, Outcome::ReadFault, NO_LEADER),
    (Script::Text(""), 1, 0, Outcome::ReadFault, ""),
    // A line that is cut by a failed read is not run.
    (Script::Long, 2, 0, Outcome::ReadFault, ""),
    (Script::Long, 0, 0, Outcome::Script(3), "error line 3\n"),
    (Script::Asking, 0, 1, Outcome::WriteFault, ""),
    // The line at the end can't be written.
    (Script::Asking, 0, 2, Outcome::WriteFault, NO_LEADER),
    (Script::Text(""), 0, 1, Outcome::Done, ""),
    (
        Script::Text("nodes"),
        0,
        0,
        Outcome::Script(1),
        "error line 1\n",
    ),
    // The line that tells the fault can't be written.
    (Script::Text("nodes"), 0, 1, Outcome::WriteFault, ""),
];

/// Whether the script of a row ends and prints as the row says.
fn ends_so(alloc: Global, row: &Row) -> Result<bool, AllocError> {
    let &(script, read, write, outcome, text) = row;
    let bytes = text_of(alloc, script)?;
    let ended = run(alloc, bytes.as_bytes(), read, write)?;
    Ok(ended.outcome == outcome && ended.text.as_slice() == text.as_bytes())
}

#[test]
fn scripts_over_failing_streams(rt: HostRuntime) -> Result<(), Fail> {
    for (place, row) in ROWS.iter().enumerate() {
        assert!(rt; ends_so(rt.alloc(), row)?, "row {place}");
    }
    Ok(())
}
