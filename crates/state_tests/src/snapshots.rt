//! A node's snapshot, both ways, and what is no snapshot of a node.

ghost use Rattle.std.specs.Prelude.{IfSome};
ghost use Rattle.raft_messages.specs.Servers.{IsConfiguration};

use crate::entries::{CHECKPOINT, ONE_VOTER, OPEN_DB, applies, nobody};
use applied_state::Applied;
use raft_messages::EntryKind;
use std::alloc::Global;
use std::test::Fail;

/// The snapshot of one voter, 1 at `n`, without databases, as it was written before: without a format.
const NO_DATABASE: &[u8] = &[
    1, 0, 0, 0, 0, 0, 0, 0, 1, 0, 0, 0, 0, 0, 0, 0, 110, 0, 0, 0, 0, 0, 0, 0, 0, 0, 0, 0, 0, 0, 0,
    0, 1, 0, 0, 0, 0, 0, 0, 0, 0, 0, 0, 0, 0, 0, 0, 0,
];

/// One byte more than a snapshot has.
const BYTE_MORE: &[u8] = &[
    1, 0, 0, 0, 0, 0, 0, 0, 1, 0, 0, 0, 0, 0, 0, 0, 110, 0, 0, 0, 0, 0, 0, 0, 0, 0, 0, 0, 0, 0, 0,
    0, 1, 0, 0, 0, 0, 0, 0, 0, 0, 0, 0, 0, 0, 0, 0, 0, 0,
];

/// That snapshot with a format, and with a word that is no format.
const WITH_FORMAT: &[u8] = &[
    2, 1, 0, 0, 0, 0, 0, 0, 1, 0, 0, 0, 0, 0, 0, 0, 1, 0, 0, 0, 0, 0, 0, 0, 110, 0, 0, 0, 0, 0, 0,
    0, 0, 0, 0, 0, 0, 0, 0, 0, 1, 0, 0, 0, 0, 0, 0, 0, 0, 0, 0, 0, 0, 0, 0, 0,
];

const NO_FORMAT: &[u8] = &[
    3, 1, 0, 0, 0, 0, 0, 0, 1, 0, 0, 0, 0, 0, 0, 0, 1, 0, 0, 0, 0, 0, 0, 0, 110, 0, 0, 0, 0, 0, 0,
    0, 0, 0, 0, 0, 0, 0, 0, 0, 1, 0, 0, 0, 0, 0, 0, 0, 0, 0, 0, 0, 0, 0, 0, 0,
];

/// Bytes, whether they are a node's snapshot, and whether it is one for a node that has the database `d`.
const ROWS: &[(&[u8], bool, bool)] = &[
    (&[], false, false),
    (ONE_VOTER, false, false),
    (NO_DATABASE, true, false),
    (BYTE_MORE, false, false),
    (WITH_FORMAT, true, false),
    (NO_FORMAT, false, false),
    (CHECKPOINT, false, false),
];

/// A node that has applied an OpenDb of `d`.
fn with_database(alloc: Global) -> Option<Applied> {
    let mut applied = Applied::new(alloc, nobody(alloc));
    applies(alloc, &mut applied, EntryKind::Command, OPEN_DB)?;
    Some(applied)
}

/// Whether bytes are a node's snapshot, and whether they are one for a node with `d`.
fn reads(alloc: Global, bytes: &[u8]) -> Option<(bool, bool)> {
    let node = with_database(alloc)?;
    let whole = Applied::from_snapshot(alloc, 5, bytes).ok()?;
    let offered = node.offered(alloc, 5, bytes).ok()?;
    Some((whole.is_some(), offered.is_some()))
}

#[test]
fn only_whole_snapshots_are_read(rt: HostRuntime) -> Result<(), Fail> {
    for &(bytes, whole, offered) in ROWS {
        assert_eq!(rt; reads(rt.alloc(), bytes), Some((whole, offered)));
    }
    Ok(())
}

/// The node of the snapshot without databases.
#[tactic(auto, using(crate::proofs::Configured::is_configured))]
fn without_databases(alloc: Global) -> Option<Applied>
    ensures { IfSome result (λ node. IsConfiguration node.servers) }
{
    match Applied::from_snapshot(alloc, 5, NO_DATABASE) {
        Ok(Some(node)) => Some(node),
        _ => None,
    }
}

/// That node, which has applied an OpenDb of `d` and the change to one voter, as a snapshot and back: its index, its
/// databases and its servers.
fn again(alloc: Global) -> Option<(u64, usize, usize)> {
    let mut node = without_databases(alloc)?;
    applies(alloc, &mut node, EntryKind::Command, OPEN_DB)?;
    applies(alloc, &mut node, EntryKind::Change, ONE_VOTER)?;
    let bytes = node.snapshot(alloc).ok()?;
    let mut read = node.offered(alloc, 7, bytes.as_slice()).ok()??;
    read.keep_whole().ok()?;
    Some((
        read.index,
        read.machine.databases().len(),
        read.servers.len(),
    ))
}

#[test]
fn a_snapshot_gives_the_node_back(rt: HostRuntime) -> Result<(), Fail> {
    assert_eq!(rt; again(rt.alloc()), Some((7, 1, 1)));
    Ok(())
}
