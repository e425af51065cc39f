//! A node that is stopped at each call of the step in which it keeps a snapshot, with each outcome of a crash.

use crate::cluster::{Cluster, GET, ONE, OPEN, SET};
use disk_model::Stop;
use std::alloc::{AllocError, Global};
use std::test::Fail;

/// An ADD of the server 2, at another address than that of the server 1, and then a REMOVE of it.
const CHANGES: &[u8] = b"\x02\0\0\0\x0c\0\0\0\x02\0\0\0\0\0\0\0m\0\0\0\0\0\0\0\
    \x01\0\0\0\x0e\0\0\0\x02\0\0\0\0\0\0\0";

/// How many times these come before the entry that is the 64th. Before them are the barrier, the entry that opens the database, and
/// that of the first write.
const TIMES: u32 = 30;

/// EXEC_SQL of `SET 2 9`, and QUERY_SQL of `GET 2`.
const LAST: &[u8] = b"\x02\0\0\0\x08\0\0\0\0\0\0\0\0\0\0\0SET 2 9\0";

const GET_LAST: &[u8] = b"\x02\0\0\0\x09\0\0\0\0\0\0\0\0\0\0\0GET 2\0\0\0";

/// How many outcomes of a crash are tried.
const PICKS: u64 = 16;

const BOTH: (bool, bool) = (true, true);

const NEW: (bool, bool) = (false, true);

/// What a stop at each call of the step leaves, over all outcomes: whether some lack the last write, and whether some have
/// it. The first two calls keep its entry, and the others the snapshot.
const ROWS: &[(bool, bool)] = &[BOTH, BOTH, NEW, NEW, NEW, NEW, NEW, NEW, NEW, NEW, NEW, NEW];

/// A database is opened and written, and then servers come and go.
fn requests(alloc: Global) -> Result<Vec<u8>, AllocError> {
    let mut bytes = Vec::from_slice(alloc, OPEN)?;
    bytes.extend_from_slice(SET)?;
    for _ in 0..TIMES {
        bytes.extend_from_slice(CHANGES)?;
    }
    Ok(bytes)
}

/// A node alone, of which no snapshot is kept, and whose next entry makes one due.
fn filled(alloc: Global) -> Result<Cluster, Fail> {
    let mut cluster = Cluster::fresh(alloc, 1, ONE)?;
    cluster.timeout(1)?;
    cluster.connect(1, 1)?;
    let bytes = requests(alloc)?;
    cluster.send(1, 1, bytes.as_slice())?;
    Ok(cluster)
}

/// The node leads again, and this is read of the first write and of the last one.
fn reads(cluster: &mut Cluster) -> Result<(Option<u8>, Option<u8>), Fail> {
    cluster.timeout(1)?;
    cluster.connect(1, 2)?;
    cluster.send(1, 2, OPEN)?;
    cluster.send(1, 2, GET)?;
    let first = cluster.read(2);
    cluster.send(1, 2, GET_LAST)?;
    Ok((first, cluster.read(2)))
}

/// What is read after a stop at this call, or `None` where the step doesn't make this call.
fn after(alloc: Global, stop: Stop) -> Result<Option<(Option<u8>, Option<u8>)>, Fail> {
    let mut cluster = filled(alloc)?;
    cluster.aim(1, stop)?;
    cluster.send(1, 1, LAST)?;
    if cluster.runs(1)? {
        return Ok(None);
    }
    cluster.restart(1, stop.pick)?;
    Ok(Some(reads(&mut cluster)?))
}

/// Which outcomes come of a stop at this call. `None` where the step doesn't make this call.
fn outcomes(alloc: Global, call: u64) -> Result<Option<(bool, bool)>, Fail> {
    let mut found = (false, false);
    for pick in 0..PICKS {
        match after(alloc, Stop { call, pick })? {
            Some((Some(7), None)) => found.0 = true,
            Some((Some(7), Some(9))) => found.1 = true,
            Some(_) => return Err(Fail::from("a write is lost")),
            None => return Ok(None),
        }
    }
    Ok(Some(found))
}

#[test]
fn each_stop_of_a_snapshot_leaves_what_was_answered(rt: HostRuntime) -> Result<(), Fail> {
    let mut call: u64 = 0;
    for &wanted in ROWS {
        call = call.saturating_add(1);
        assert_eq!(rt; outcomes(rt.alloc(), call)?, Some(wanted));
    }
    assert_eq!(rt; outcomes(rt.alloc(), call.saturating_add(1))?, None);
    Ok(())
}
