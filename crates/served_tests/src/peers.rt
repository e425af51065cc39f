//! A connection that becomes a peer's.

use crate::lives::{Setting, THREE, What, hears};
use crate::messages::Said;
use What::{Connects, Says};
use session_gateway::StepLimits;
use sql_engine::CellEngine;
use std::test::*;

/// What happens, and what is heard: a peer's message that says to be of another node closes its connection by reason 5.
const ROWS: &[(&[What], &[u8])] = &[
    (
        &[Connects(1), Says(1, Said::Connect), Says(1, Said::Raft(2))],
        b"1e",
    ),
    (
        &[Connects(1), Says(1, Said::Connect), Says(1, Said::Raft(3))],
        b"1e1!15",
    ),
];

#[test]
fn a_peer_speaks_for_itself(rt: HostRuntime) -> Result<(), Fail> {
    for (row, &(happens, wanted)) in ROWS.iter().enumerate() {
        let engines = (CellEngine::new(rt.alloc()), CellEngine::new(rt.alloc()));
        let setting = Setting {
            servers: THREE,
            steps: StepLimits::none(),
            most: u64::MAX,
        };
        let came = hears(rt, rt.alloc(), &setting, engines, happens, wanted);
        assert!(rt; came == Some(true), "row {row}");
    }
    Ok(())
}
