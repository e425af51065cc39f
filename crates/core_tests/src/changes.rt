//! A change of servers that is removed from the log.

use crate::cluster::{Cluster, THREE};
use disk_model::Stop;
use std::alloc::Global;
use std::test::Fail;

/// The version of the wire, and a REMOVE of the third node.
const REMOVE: &[u8] = b"\x01\0\0\0\0\0\0\0\x01\0\0\0\x0e\0\0\0\x03\0\0\0\0\0\0\0";

/// How many calls its disk makes while a leader that proposed a change hears of another one, which removes it: three for the term and
/// two for the entry in place of the change.
const CALLS: u64 = 5;

/// A leader that has proposed to remove the third node, of which nobody hears. Answers how many nodes it told.
fn proposed(cluster: &mut Cluster) -> Result<usize, Fail> {
    cluster.timeout(1)?;
    cluster.settle()?;
    cluster.beat(1)?;
    cluster.settle()?;
    cluster.connect(1, 1)?;
    cluster.send(1, 1, REMOVE)?;
    Ok(cluster.lose_mail())
}

/// How many nodes a leader informs of its change; whether it stops at this call of its disk, while another leader removes the change
/// from its log; and how many nodes it asks for their votes then.
fn told_and_asked(alloc: Global, stop: Stop) -> Result<(usize, bool, usize), Fail> {
    let mut cluster = Cluster::fresh(alloc, 3, THREE)?;
    let told = proposed(&mut cluster)?;
    cluster.aim(1, stop)?;
    cluster.timeout(2)?;
    cluster.settle()?;
    let stopped = !cluster.runs(1)?;
    cluster.restart(1, stop.pick)?;
    cluster.beat(2)?;
    cluster.settle()?;
    cluster.beat(2)?;
    cluster.settle()?;
    cluster.timeout(1)?;
    let asked = cluster.lose_mail();
    Ok((told, stopped, asked))
}

#[test]
fn a_removed_change_gives_the_voters_back(rt: HostRuntime) -> Result<(), Fail> {
    for call in 1..=CALLS + 1 {
        let pick = call % 2;
        assert_eq!(rt;
            told_and_asked(rt.alloc(), Stop { call, pick })?,
            (1, call <= CALLS, 2)
        );
    }
    Ok(())
}
