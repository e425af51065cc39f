//! What the places of a server note of peers' messages and of clients' transactions.

use crate::script::Script;
use dq_base::Items;
use serve_places::{PeerSign, Places, Readiness};
use serve_traits::Event;
use std::alloc::Global;
use std::test::*;

/// The version, a CONNECT of node 2, an Ack of it, an AskVote, and an AskVote to which a leader handed its leadership.
const PEER: &[u8; 152] = b"\x01\0\0\0\0\0\0\0\x02\0\0\0\x0b\0\0\0\x02\0\0\0\0\0\0\0a:1\0\0\0\0\0\
\x04\0\0\0\x04\x01\0\0\x02\0\0\0\0\0\0\0\x07\0\0\0\0\0\0\0\x01\0\0\0\0\0\0\0\x09\0\0\0\0\0\0\0\
\x04\0\0\0\x01\x01\0\0\x02\0\0\0\0\0\0\0\x07\0\0\0\0\0\0\0\x01\0\0\0\0\0\0\0\x09\0\0\0\0\0\0\0\
\x04\0\0\0\x01\x81\0\0\x02\0\0\0\0\0\0\0\x07\0\0\0\0\0\0\0\x01\0\0\0\0\0\0\0\x09\0\0\0\0\0\0\0";

/// The version, a CLIENT, and two EXEC_SQL: a BEGIN, and its end.
const CLIENT: &[u8; 72] = b"\x01\0\0\0\0\0\0\0\x01\0\0\0\x01\0\0\0\x01\0\0\0\0\0\0\0\
\x02\0\0\0\x08\0\0\0\0\0\0\0\0\0\0\0begin\0\0\0\x02\0\0\0\x08\0\0\0\0\0\0\0\0\0\0\0\nCOMMIT\0";

/// How many bytes of `CLIENT` come before the end of its transaction.
const BEGUN: usize = 48;

/// How many bytes a peer says, and the marks of the events.
const SIGNS: &[(usize, &[u8])] = &[(152, b"c.2v."), (144, b"c.2vp"), (72, b"c.2")];

/// The types of the answers RESULT and FAILURE.
const RESULT: u8 = 6;

const FAILURE: u8 = 0;

/// How many bytes a client says, the types of the answers to them, and how many connections are closed since a transaction was idle.
const ROWS: &[(usize, &[u8], u64)] = &[
    (BEGUN, &[], 0),
    (BEGUN, &[FAILURE], 0),
    (BEGUN, &[RESULT], 1),
    (72, &[RESULT], 0),
];

/// The events that come of this many bytes of `PEER`, as marks: `c` for Connect, the id for an Ack, `v` for an AskVote, `p` for a part of a
/// message, `.` for other bytes.
fn signs(alloc: Global, count: usize) -> Option<Vec<u8>> {
    let mut places = Places::new(alloc).ok()?;
    let mut marks = Vec::new(alloc);
    let said = &PEER[..count.min(152)];
    places.accept(0, Script::new(alloc, said, 152, false, 0)?);
    read_all(&mut places, &mut marks)?;
    Some(marks)
}

/// Whether these are the marks.
fn are_signs(alloc: Global, count: usize, wanted: &[u8]) -> Option<bool> {
    let marks = signs(alloc, count)?;
    Some(marks.as_slice() == wanted)
}

/// Adds the marks of the events that come of the first socket.
fn read_all(places: &mut Places<Script>, marks: &mut Vec<u8>) -> Option<()> {
    for _ in 0..10 {
        places.note(
            0,
            Readiness {
                is_readable: true,
                is_ended: false,
                is_writable: false,
            },
        );
        let event: Option<Event<u8>> = places.next();
        if let Some(event) = event {
            marks.push(mark_of(&event, places.peer_sign())).ok()?;
        }
    }
    Some(())
}

/// The mark of an event.
fn mark_of(event: &Event<u8>, sign: Option<PeerSign>) -> u8 {
    match (event, sign) {
        (Event::Connect(_), _) => b'c',
        (_, Some(PeerSign::Ack(2))) => b'2',
        (_, Some(PeerSign::AskVote)) => b'v',
        (_, Some(PeerSign::Part)) => b'p',
        _ => b'.',
    }
}

/// How many connections are closed once a client that said this many bytes of `CLIENT`, and got these answers, is silent: within the time that a
/// transaction may be idle, and after it.
fn closes(alloc: Global, count: usize, answers: &[u8]) -> Option<(u64, u64)> {
    let mut places = Places::new(alloc).ok()?;
    let mut marks = Vec::new(alloc);
    places.limit_idle_transactions(5_000);
    let said = &CLIENT[..count.min(72)];
    places.accept(0, Script::new(alloc, said, 72, false, 0)?);
    read_all(&mut places, &mut marks)?;
    for &kind in answers {
        let answer = Vec::from_slice(alloc, &[0, 0, 0, 0, kind, 0, 0, 0]).ok()?;
        places.reply(1, Items::new(answer)).ok()?;
    }
    places.tick(5_000);
    let early = places.take_idle_count();
    places.tick(5_001);
    Some((early, places.take_idle_count()))
}

#[test]
fn acks_and_questions_of_peers_are_known(rt: HostRuntime) -> Result<(), Fail> {
    for &(count, wanted) in SIGNS {
        assert!(rt;
            are_signs(rt.alloc(), count, wanted) == Some(true),
            "{count} bytes"
        );
    }
    Ok(())
}

#[test]
fn idle_transactions_are_closed(rt: HostRuntime) -> Result<(), Fail> {
    for (row, &(count, answers, wanted)) in ROWS.iter().enumerate() {
        assert!(rt;
            closes(rt.alloc(), count, answers) == Some((0, wanted)),
            "row {row}"
        );
    }
    Ok(())
}
