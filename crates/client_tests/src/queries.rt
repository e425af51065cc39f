ghost use Rattle.std.specs.Prelude.{◌≡◌, IfOk};
ghost use Rattle.client.specs.Driving.{IsBegun};

use client::*;
use dq_base::{Bytes, MemSink};
use std::alloc::{AllocError, Global};
use std::test::*;
use wire_words::WireText;

/// SERVER of the node that is asked, and DB of the database 0.
const OPENED: &[u8] =
    b"\x02\0\0\0\x01\0\0\0\x01\0\0\0\0\0\0\0n1\0\0\0\0\0\0\x01\0\0\0\x04\0\0\0\0\0\0\0\0\0\0\0";

/// ROWS of one row with 7 under `v`.
const SEVEN: &[u8] =
    b"\x05\0\0\0\x07\0\0\0\x01\0\0\0\0\0\0\0v\0\0\0\0\0\0\0\x01\0\0\0\0\0\0\0\x07\0\0\0\0\0\0\0\xff\xff\xff\xff\xff\xff\xff\xff";

/// FAILURE 10506.
const LOST: &[u8] = b"\x02\0\0\0\0\0\0\0\x0a\x29\0\0\0\0\0\0lost\0\0\0\0";

/// What is answered to the statement, if an address can be dialled, the status of the end, what is printed, and how many
/// calls are made on the dialer.
const RUNS: &[(&[u8], u8, &[u8], usize)] = &[
    (SEVEN, 0, b"v\n7\n", 10),
    (LOST, 13, b"", 10),
    (b"", 12, b"", 3),
];

fn text(alloc: Global, text: &str) -> Result<WireText, AllocError>
    ensures { IfOk result (λ made. made ≡ text.now) }
{
    Ok(WireText::new(String::from_str(alloc, text)?))
}

/// A client that asks `n1` for the rows of a statement.
#[tactic(auto, using(crate::proofs::Begun::is_begun))]
fn client(alloc: Global) -> Result<ClientCore, AllocError>
    ensures { IfOk result (λ core. IsBegun core) }
{
    let name = text(alloc, "d")?;
    let sql = text(alloc, "GET 1")?;
    let addresses = vec![in alloc; text(alloc, "n1")?]?;
    Ok(ClientCore::new(alloc, addresses, name, sql, true))
}

/// A dialer with one connection on which this is answered to the statement, or none.
fn dialer(alloc: Global, answer: &[u8]) -> Result<MemDialer, AllocError> {
    let mut answers = Vec::new(alloc);
    if !answer.is_empty() {
        let mut bytes = Vec::from_slice(alloc, OPENED)?;
        bytes.extend_from_slice(answer)?;
        answers.push(Bytes::new(bytes))?;
    }
    Ok(MemDialer::new(alloc, answers, Vec::new(alloc)))
}

/// The status of a program by how it ended.
fn number(status: &ClientStatus) -> u8 {
    match status {
        ClientStatus::Ended(ClientEnd::Result(_)) | ClientStatus::Ended(ClientEnd::Rows(_)) => 0,
        ClientStatus::Ended(ClientEnd::Refused { .. }) => 11,
        ClientStatus::Ended(ClientEnd::NoLeader(_)) => 12,
        ClientStatus::Ended(ClientEnd::Unknown) => 13,
        ClientStatus::WriteFault => 4,
        ClientStatus::NoMemory => 7,
    }
}

/// How many calls were made.
fn calls(net: &MemDialer) -> usize {
    match net.calls() {
        Some(calls) => calls.len(),
        None => 0,
    }
}

/// The status, whether this was printed, and how many calls were made.
fn run(alloc: Global, answer: &[u8], printed: &[u8]) -> Result<(u8, bool, usize), AllocError> {
    let mut net = dialer(alloc, answer)?;
    let core = client(alloc)?;
    let mut sink = MemSink::new(alloc, Vec::new(alloc));
    let status = run_client(alloc, core, &mut net, &mut sink);
    Ok((number(&status), sink.bytes() == printed, calls(&net)))
}

#[test]
fn a_client_ends(rt: HostRuntime) -> Result<(), Fail> {
    for &(answer, status, printed, calls) in RUNS {
        let ran = run(rt.alloc(), answer, printed)?;
        assert_eq!(rt; ran, (status, true, calls));
    }
    Ok(())
}
