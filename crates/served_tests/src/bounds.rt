//! A node that holds too much of what its clients said.

use crate::lives::{ONE, Setting, What, hears};
use crate::messages::Said;
use Said::{Front, More, Open, Prepare};
use What::{Connects, Hangs, Says, Timeout};
use session_gateway::StepLimits;
use sql_engine::CellEngine;
use std::test::*;

/// One voter, which may hold 64 KiB, and 1 KiB of them for each client.
const SETTING: Setting = Setting {
    servers: ONE,
    steps: StepLimits {
        query: None,
        statement: None,
        reader: None,
    },
    most: 65_536,
};

/// What happens, and what is heard: `x` is a connection that is to be shut, `s` a statement that is prepared.
const ROWS: &[(&[What], &[u8])] = &[
    // Of two that would have it hold too much each is shut whose bytes come, and a client that says little is served. Once one of them is
    // gone, bytes of the other may come again.
    (
        &[
            Timeout,
            Connects(1),
            Connects(2),
            Connects(3),
            Says(1, Front(40_000)),
            Says(2, Front(40_000)),
            Says(1, More(1)),
            Says(3, Open),
            Hangs(2),
            Says(1, More(1)),
        ],
        b"2x1x3d",
    ),
    // The text of a prepared statement is kept without the space after it, so these count for little.
    (
        &[
            Timeout,
            Connects(1),
            Connects(2),
            Says(1, Open),
            Says(2, Open),
            Says(1, Prepare(30_000)),
            Says(1, Prepare(30_000)),
            Says(2, Prepare(3_000)),
            Says(2, Prepare(3_000)),
        ],
        b"1d2d1s1s2s2s",
    ),
];

#[test]
fn links_are_shut_where_too_much_is_held(rt: HostRuntime) -> Result<(), Fail> {
    for (row, &(happens, wanted)) in ROWS.iter().enumerate() {
        let engines = (CellEngine::new(rt.alloc()), CellEngine::new(rt.alloc()));
        let came = hears(rt, rt.alloc(), &SETTING, engines, happens, wanted);
        assert!(rt; came == Some(true), "row {row}");
    }
    Ok(())
}
