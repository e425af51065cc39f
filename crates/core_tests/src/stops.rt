//! Three nodes that elect, serve and replicate, of which one stops inside a step.

use crate::cluster::{Cluster, GET, OPEN, SET, THREE};
use disk_model::Stop;
use std::alloc::Global;
use std::test::Fail;

/// A leader and a node that follows it, and how many calls of its disk each makes until the first write is applied
/// everywhere: for a term and a vote, the barrier, the entry that opens the database, and the write.
const ROWS: &[(u64, u64)] = &[(1, 12), (2, 12)];

/// A client of the first node opens a database, and writes.
fn writes(cluster: &mut Cluster) -> Result<(), Fail> {
    cluster.connect(1, 1)?;
    cluster.send(1, 1, OPEN)?;
    cluster.settle()?;
    cluster.send(1, 1, SET)?;
    cluster.settle()
}

/// The first node is elected again where it doesn't lead, and another client of it reads and writes. Whether it read what
/// was answered before, and all nodes are alike in the end.
fn goes_on(cluster: &mut Cluster) -> Result<bool, Fail> {
    cluster.timeout(1)?;
    cluster.settle()?;
    cluster.connect(1, 2)?;
    cluster.send(1, 2, OPEN)?;
    cluster.settle()?;
    cluster.send(1, 2, GET)?;
    let has_read = !cluster.wrote(1) || cluster.read(2) == Some(7);
    cluster.send(1, 2, SET)?;
    cluster.settle()?;
    cluster.beat(1)?;
    cluster.settle()?;
    Ok(has_read && cluster.wrote(2) && cluster.are_alike())
}

/// Whether a node stopped, and whether all went on after that.
fn ends(alloc: Global, id: u64, stop: Stop) -> Result<(bool, bool), Fail> {
    let mut cluster = Cluster::fresh(alloc, 3, THREE)?;
    cluster.aim(id, stop)?;
    cluster.timeout(1)?;
    cluster.settle()?;
    writes(&mut cluster)?;
    let stopped = !cluster.runs(id)?;
    cluster.restart(id, stop.pick)?;
    let went_on = goes_on(&mut cluster)?;
    Ok((stopped, went_on))
}

#[test]
fn nodes_go_on_behind_each_stop(rt: HostRuntime) -> Result<(), Fail> {
    for &(id, calls) in ROWS {
        for call in 1..14 {
            let pick = call % 4;
            assert_eq!(rt;
                ends(rt.alloc(), id, Stop { call, pick })?,
                (call <= calls, true)
            );
        }
    }
    Ok(())
}
