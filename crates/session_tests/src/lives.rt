//! What clients are sent, and how many images stay pinned, in lives of a node whose entries are applied later than they were
//! proposed, or never.

use crate::messages::{
    BAD_NUMBER, DATABASE_FULL, LOCKED, LOG_FULL, LOST, NO_ROW, NO_TRANSACTION, NONE_AFFECTED,
    NOT_A_DATABASE, NOT_LEADER, ONE_AFFECTED, OPENED, OUT_OF_DATE, ROW_OF_9, TOO_BIG,
};
use crate::node::{Node, Step};
use std::alloc::{AllocError, Global};
use std::test::Fail;

/// Clients 7 and 8 have opened the database `d`.
const BEGINNING: &[Step] = &[
    Step::Connect(7),
    Step::Open(7, "d"),
    Step::Apply,
    Step::Connect(8),
    Step::Open(8, "d"),
];

/// Steps after the beginning, what is said while they are taken, and how many images of `d` are pinned then.
type Life = (&'static [Step], &'static [(u64, &'static [u8])], u64);

/// Lives in which leadership is lost.
const LOSSES: &[Life] = &[
    // A write is out, and another client is in a transaction.
    (
        &[
            Step::Exec(8, "BEGIN"),
            Step::Exec(7, "SET 3 9"),
            Step::Lose,
            Step::Exec(8, "COMMIT"),
            Step::Lead,
            Step::Exec(8, "COMMIT"),
            Step::Query(7, "GET 3"),
        ],
        &[
            (8, NONE_AFFECTED),
            (7, LOST),
            (8, NOT_LEADER),
            (8, NO_TRANSACTION),
            (7, NO_ROW),
        ],
        0,
    ),
    // A client is in a transaction, and the node leads again: what isn't a COMMIT alone is refused until one comes.
    (
        &[
            Step::Exec(8, "BEGIN"),
            Step::Exec(8, "SET 3 9"),
            Step::Lose,
            Step::Lead,
            Step::Exec(8, "SET 4 4"),
            Step::Query(8, "GET 3"),
            Step::Exec(8, "BEGIN"),
            Step::Exec(8, "COMMIT; GET 3"),
            Step::Query(8, "ROLLBACK"),
            Step::Query(7, "GET 3"),
            Step::Exec(8, "COMMIT"),
            Step::Query(8, "GET 3"),
        ],
        &[
            (8, NONE_AFFECTED),
            (8, ONE_AFFECTED),
            (8, NOT_LEADER),
            (8, NOT_LEADER),
            (8, NOT_LEADER),
            (8, NOT_LEADER),
            (8, NOT_LEADER),
            (7, NO_ROW),
            (8, NOT_LEADER),
            (8, NO_ROW),
        ],
        0,
    ),
    // A lost transaction stays lost if leadership is lost again, and a ROLLBACK ends it though the node doesn't lead.
    (
        &[
            Step::Exec(8, "BEGIN"),
            Step::Lose,
            Step::Lead,
            Step::Lose,
            Step::Exec(8, "ROLLBACK"),
            Step::Exec(8, "ROLLBACK"),
            Step::Lead,
            Step::Exec(8, "ROLLBACK"),
        ],
        &[
            (8, NONE_AFFECTED),
            (8, NONE_AFFECTED),
            (8, NOT_LEADER),
            (8, NO_TRANSACTION),
        ],
        0,
    ),
    // A COMMIT is out.
    (
        &[
            Step::Exec(7, "BEGIN"),
            Step::Exec(7, "SET 3 9"),
            Step::Exec(7, "COMMIT"),
            Step::Lose,
        ],
        &[(7, NONE_AFFECTED), (7, ONE_AFFECTED), (7, LOST)],
        0,
    ),
    // A COMMIT is still out at the end.
    (
        &[
            Step::Exec(7, "BEGIN"),
            Step::Exec(7, "SET 3 9"),
            Step::Exec(7, "COMMIT"),
        ],
        &[(7, NONE_AFFECTED), (7, ONE_AFFECTED)],
        1,
    ),
    // An OPEN is out, and comes again.
    (
        &[
            Step::Connect(9),
            Step::Open(9, "e"),
            Step::Lose,
            Step::Lead,
            Step::Open(9, "e"),
            Step::Apply,
        ],
        &[(9, LOST), (9, OPENED)],
        0,
    ),
    // Two writes are out, of which client 9's came first; a request waits after the other.
    (
        &[
            Step::Connect(9),
            Step::Open(9, "e"),
            Step::Apply,
            Step::Exec(9, "SET 3 9"),
            Step::Exec(7, "SET 3 9"),
            Step::Query(7, "GET 3"),
            Step::Lose,
        ],
        &[(9, OPENED), (9, LOST), (7, LOST), (7, NOT_LEADER)],
        0,
    ),
];

/// Lives in which clients hang up.
const HANGUPS: &[Life] = &[
    // In a transaction with the write lock.
    (
        &[
            Step::Exec(7, "BEGIN IMMEDIATE"),
            Step::Exec(8, "SET 3 9"),
            Step::HangUp(7),
            Step::Exec(8, "SET 3 9"),
            Step::Apply,
        ],
        &[(7, NONE_AFFECTED), (8, LOCKED), (8, ONE_AFFECTED)],
        0,
    ),
    // With a write out, which keeps the write lock and the number; its reply is told to nobody.
    (
        &[
            Step::Exec(7, "SET 3 9"),
            Step::HangUp(7),
            Step::Connect(7),
            Step::Exec(8, "SET 4 4"),
            Step::Apply,
            Step::Connect(7),
            Step::Query(8, "GET 3"),
            Step::Exec(8, "SET 4 4"),
            Step::Apply,
        ],
        &[(7, b"taken"), (8, LOCKED), (8, ROW_OF_9), (8, ONE_AFFECTED)],
        0,
    ),
    // With a write out, which is lost.
    (
        &[
            Step::Exec(7, "SET 3 9"),
            Step::HangUp(7),
            Step::Lose,
            Step::Connect(7),
            Step::Lead,
            Step::Exec(8, "SET 4 4"),
            Step::Apply,
        ],
        &[(8, ONE_AFFECTED)],
        0,
    ),
    // A session that is gone and whose write is out counts among 64.
    (
        &[
            Step::Crowd(62),
            Step::Exec(7, "SET 3 9"),
            Step::HangUp(7),
            Step::Connect(9),
            Step::Apply,
            Step::Connect(9),
            Step::Connect(10),
        ],
        &[(9, b"full"), (10, b"full")],
        0,
    ),
];

/// Lives in which proposals that are out hinder others.
const HINDRANCES: &[Life] = &[
    // The session's own next request waits; another client sees the image before.
    (
        &[
            Step::Exec(7, "SET 3 9"),
            Step::Query(7, "GET 3"),
            Step::Query(8, "GET 3"),
            Step::Exec(8, "SET 4 4"),
            Step::Apply,
        ],
        &[(8, NO_ROW), (8, LOCKED), (7, ONE_AFFECTED), (7, ROW_OF_9)],
        0,
    ),
    // All databases have 16,384 pages at most: those of a write that is out count, and no more where it is lost. After a SET of
    // page k a database has k + 2 pages.
    (
        &[
            Step::Connect(9),
            Step::Open(9, "e"),
            Step::Apply,
            Step::Exec(7, "SET 8192 9"),
            Step::Exec(9, "SET 8192 9"),
            Step::Lose,
            Step::Lead,
            Step::Exec(9, "SET 8192 9"),
            Step::Apply,
            Step::Exec(7, "SET 8189 9"),
            Step::Exec(7, "SET 8188 9"),
            Step::Apply,
        ],
        &[
            (9, OPENED),
            (9, DATABASE_FULL),
            (7, LOST),
            (9, ONE_AFFECTED),
            (7, DATABASE_FULL),
            (7, ONE_AFFECTED),
        ],
        0,
    ),
    // The log's last index to which something is proposed.
    (
        &[
            Step::Connect(9),
            Step::Reach(4_294_899_999),
            Step::Exec(7, "SET 3 9"),
            Step::Open(9, "e"),
            Step::Exec(8, "SET 3 9"),
            Step::Apply,
            Step::Exec(8, "SET 4 4"),
            Step::Query(8, "GET 3"),
        ],
        &[
            (9, LOG_FULL),
            (8, LOG_FULL),
            (7, ONE_AFFECTED),
            (8, LOG_FULL),
            (8, ROW_OF_9),
        ],
        0,
    ),
];

/// Lives in which writes are refused before an engine runs them: of a statement that it ran it would say that the files aren't
/// opened.
const WRITES: &[Life] = &[
    // Another session has the write lock: broken texts, texts that would find no row, and those among others are refused for it.
    (
        &[
            Step::Exec(8, "BEGIN IMMEDIATE"),
            Step::Spoil,
            Step::Exec(7, "INSERT"),
            Step::Exec(7, "replace into t values (1)"),
            Step::Exec(7, "UPDATE t SET v = 1 WHERE FALSE"),
            Step::Exec(7, "GET 3; DELETE FROM t"),
            Step::Query(7, "DELETE FROM t RETURNING v"),
            Step::Exec(7, "CREATE TABLE t (a)"),
            Step::Exec(7, "drop table t"),
            Step::Exec(7, "ALTER TABLE t"),
            Step::Exec(7, "SET 3 9"),
            Step::Query(7, "GET 3"),
            Step::Exec(8, "INSERT"),
            Step::Exec(8, "COMMIT"),
            Step::Exec(7, "INSERT"),
        ],
        &[
            (8, NONE_AFFECTED),
            (7, LOCKED),
            (7, LOCKED),
            (7, LOCKED),
            (7, LOCKED),
            (7, LOCKED),
            (7, LOCKED),
            (7, LOCKED),
            (7, LOCKED),
            (7, NOT_A_DATABASE),
            (7, NOT_A_DATABASE),
            (8, NOT_A_DATABASE),
            (8, NONE_AFFECTED),
            (7, NOT_A_DATABASE),
        ],
        0,
    ),
    // In a transaction: while another session's write is out, and after it.
    (
        &[
            Step::Exec(7, "BEGIN"),
            Step::Exec(8, "SET 3 9"),
            Step::Spoil,
            Step::Exec(7, "INSERT"),
            Step::Apply,
            Step::Exec(7, "INSERT"),
            Step::Exec(7, "UPDATE t SET v = 1 WHERE FALSE"),
            Step::Exec(7, "CREATE TABLE t (a)"),
            Step::Query(7, "GET 3"),
            Step::Exec(7, "COMMIT"),
            Step::Exec(7, "INSERT"),
        ],
        &[
            (7, NONE_AFFECTED),
            (7, LOCKED),
            (8, ONE_AFFECTED),
            (7, OUT_OF_DATE),
            (7, OUT_OF_DATE),
            (7, OUT_OF_DATE),
            (7, NOT_A_DATABASE),
            (7, NONE_AFFECTED),
            (7, NOT_A_DATABASE),
        ],
        0,
    ),
];

/// Lives in which clients 9 and 10 ask for barrier reads.
const BARRIERS: &[Life] = &[
    // A query waits for its barrier, and so sees the write that was out when it was asked; another client's doesn't.
    (
        &[
            Step::Connect(9),
            Step::OpenFresh(9, "d"),
            Step::Exec(7, "SET 3 9"),
            Step::Query(9, "GET 3"),
            Step::Query(8, "GET 3"),
            Step::Apply,
        ],
        &[(9, OPENED), (8, NO_ROW), (7, ONE_AFFECTED), (9, ROW_OF_9)],
        0,
    ),
    // Two wait, and each is answered at its own.
    (
        &[
            Step::Connect(9),
            Step::OpenFresh(9, "d"),
            Step::Connect(10),
            Step::OpenFresh(10, "d"),
            Step::Query(10, "GET 3"),
            Step::Exec(7, "SET 3 9"),
            Step::Query(9, "GET 3"),
            Step::Apply,
        ],
        &[
            (9, OPENED),
            (10, OPENED),
            (10, NO_ROW),
            (7, ONE_AFFECTED),
            (9, ROW_OF_9),
        ],
        0,
    ),
    // Two wait, and leadership is lost: both are informed, first the one that asked first.
    (
        &[
            Step::Connect(9),
            Step::OpenFresh(9, "d"),
            Step::Connect(10),
            Step::OpenFresh(10, "d"),
            Step::Query(10, "GET 3"),
            Step::Query(9, "GET 3"),
            Step::Lose,
            Step::Query(9, "GET 3"),
        ],
        &[
            (9, OPENED),
            (10, OPENED),
            (10, LOST),
            (9, LOST),
            (9, NOT_LEADER),
        ],
        0,
    ),
    // In a transaction none waits, and a client that hangs up gets no answer.
    (
        &[
            Step::Connect(9),
            Step::OpenFresh(9, "d"),
            Step::Exec(9, "BEGIN"),
            Step::Query(9, "GET 3"),
            Step::Exec(9, "COMMIT"),
            Step::Query(9, "GET 3"),
            Step::HangUp(9),
            Step::Connect(9),
            Step::Apply,
            Step::Connect(9),
            Step::Query(8, "GET 3"),
        ],
        &[
            (9, OPENED),
            (9, NONE_AFFECTED),
            (9, NO_ROW),
            (9, NONE_AFFECTED),
            (9, b"taken"),
            (8, NO_ROW),
        ],
        0,
    ),
    // At the log's end there is no barrier, and so no answer.
    (
        &[
            Step::Connect(9),
            Step::OpenFresh(9, "d"),
            Step::Reach(4_294_900_000),
            Step::Query(9, "GET 3"),
            Step::Query(8, "GET 3"),
        ],
        &[(9, OPENED), (9, LOG_FULL), (8, NO_ROW)],
        0,
    ),
];

/// Lives in which a fault is told, if the node could as well take it because memory ran
/// out.
const FAULTS: &[Life] = &[
    // Parameters are numbered from 1.
    (&[Step::Exec(7, "SET ?0 9")], &[(7, BAD_NUMBER)], 0),
    // The files of a database have more than 16,777,216 bytes.
    (
        &[Step::Exec(7, "SET 8192 9"), Step::Apply, Step::Dump(8, "d")],
        &[(7, ONE_AFFECTED), (8, TOO_BIG)],
        0,
    ),
    // The files of a database aren't opened, outside of a transaction and in one.
    (
        &[
            Step::Spoil,
            Step::Exec(7, "SET 3 9"),
            Step::Query(7, "GET 3"),
            Step::Exec(8, "BEGIN"),
            Step::Query(8, "GET 3"),
        ],
        &[
            (7, NOT_A_DATABASE),
            (7, NOT_A_DATABASE),
            (8, NONE_AFFECTED),
            (8, NOT_A_DATABASE),
        ],
        1,
    ),
    // More than 33,554,432 bytes wait on a connection whose write is out.
    (
        &[
            Step::Exec(7, "SET 3 9"),
            Step::Close(7),
            Step::Flood(7),
            Step::Close(7),
            Step::Apply,
            Step::Query(8, "GET 3"),
        ],
        &[(7, b"\x03"), (8, ROW_OF_9)],
        0,
    ),
];

/// Whether just this is said while these steps are taken after the beginning, and how many images of `d` are pinned then.
fn after(
    alloc: Global,
    steps: &[Step],
    wanted: &[(u64, &[u8])],
) -> Result<(bool, u64), AllocError> {
    let mut node = Node::new(alloc);
    node.take_all(BEGINNING)?;
    let opened = node.has_said(&[(7, OPENED), (8, OPENED)]);
    node.forget();
    node.take_all(steps)?;
    let said = node.has_said(wanted);
    Ok((opened && said, node.pinned()))
}

#[test]
fn replies_and_pins_are_those_of_each_life(rt: HostRuntime) -> Result<(), Fail> {
    for lives in [LOSSES, HANGUPS, HINDRANCES, WRITES, BARRIERS, FAULTS] {
        for (place, life) in lives.iter().enumerate() {
            let came = after(rt.alloc(), life.0, life.1)?;
            assert_eq!(rt; came, (true, life.2), "at {place}");
        }
    }
    Ok(())
}
