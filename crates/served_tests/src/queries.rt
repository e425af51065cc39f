//! Queries that a node lends.

use crate::lives::{ONE, Setting, What, hears};
use crate::messages::Said;
use Said::{Exec, Open, Query};
use What::{Connects, Says, Timeout};
use session_gateway::StepLimits;
use sqlite_engine::SqliteEngine;
use std::test::*;

/// One voter. A query is lent at its first step; what runs at the node, or at a reader, has more.
const SETTING: Setting = Setting {
    servers: ONE,
    steps: StepLimits {
        query: Some(1),
        statement: Some(100_000),
        reader: Some(2_000),
    },
    most: u64::MAX,
};

/// Ten rows, from which a join of five tables makes 100,000.
const TEN: &str = "INSERT INTO t VALUES (0), (1), (2), (3), (4), (5), (6), (7), (8), (9)";

const JOIN: &str = "SELECT count(*) FROM t a, t b, t c, t d, t e";

/// What happens after an election, and what is heard: `q` is a query that is lent, a digit the code of a refusal.
const ROWS: &[(&[What], &[u8])] = &[
    // A query that changes pages goes back to the node, and is answered once.
    (
        &[
            Timeout,
            Connects(1),
            Says(1, Open),
            Says(1, Exec("CREATE TABLE t (x)")),
            Says(1, Query("INSERT INTO t VALUES (7) RETURNING x")),
            Says(1, Query("SELECT x FROM t")),
        ],
        b"1d1r1q1w1q1w",
    ),
    // A join that has no end in sight is refused with 7, and another client is served before that.
    (
        &[
            Timeout,
            Connects(1),
            Connects(2),
            Says(1, Open),
            Says(2, Open),
            Says(1, Exec("CREATE TABLE t (x)")),
            Says(1, Exec(TEN)),
            Says(1, Query(JOIN)),
            Says(2, Exec("INSERT INTO t VALUES (10)")),
        ],
        b"1d2d1r1r1q2r17",
    ),
];

#[test]
fn queries_are_lent(rt: HostRuntime) -> Result<(), Fail> {
    for (row, &(happens, wanted)) in ROWS.iter().enumerate() {
        let engines = (SqliteEngine::new(rt.alloc()), SqliteEngine::new(rt.alloc()));
        let came = hears(rt, rt.alloc(), &SETTING, engines, happens, wanted);
        assert!(rt; came == Some(true), "row {row}");
    }
    Ok(())
}
