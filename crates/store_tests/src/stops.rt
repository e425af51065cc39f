use disk_model::{Disk, MemDisk, Stop};
use dq_base::Items;
use raft_messages::{Entry, EntryKind, SharedBytes, Snapshot};
use segment_store::Store;
use std::alloc::Global;
use store_format::Kept;

/// Which states a load found: the one before; the new snapshot with a longer old part of the log; the new snapshot with
/// the log that was given.
type Outcomes = [bool; 3];

/// The stopped call, and what was found over all picks. The calls are: a torn file of the snapshot is truncated, written and
/// synced, and the names; the new segment's word, its sync, that of the names, its batch, its sync; two segments are
/// removed, with a sync of the names after each; a snapshot is removed. Call 0 is none, and so is 15.
const STOPS: &[(u64, Outcomes)] = &[
    (0, [false, false, true]),
    (1, [true, false, false]),
    (2, [true, true, false]),
    (3, [true, true, false]),
    (4, [false, true, false]),
    (5, [false, true, false]),
    (6, [false, true, false]),
    (7, [false, true, false]),
    (8, [false, true, false]),
    (9, [false, true, false]),
    (10, [false, true, true]),
    (11, [false, true, true]),
    (12, [false, false, true]),
    (13, [false, false, true]),
    (14, [false, false, true]),
    (15, [false, false, true]),
];

/// Entries of term 1 from an index up to another, which say their index.
pub(crate) fn entries(alloc: Global, first: u8, end: u8) -> Option<Vec<Entry>> {
    let mut entries = Vec::new(alloc);
    for index in first..end {
        let bytes = Vec::from_slice(alloc, &[index]).ok()?;
        let entry = Entry {
            term: 1,
            kind: EntryKind::Command,
            bytes: SharedBytes::new(alloc, Items::new(bytes)).ok()?,
        };
        entries.push(entry).ok()?;
    }
    Some(entries)
}

/// Keeps a snapshot up to an index, and the entries from another on up to an end. Answers whether that was `Ok`.
fn keep(
    alloc: Global,
    disk: &mut MemDisk,
    store: &mut Store,
    index: u64,
    first: u8,
    end: u8,
) -> Option<bool> {
    let snapshot = Snapshot {
        index,
        term: 1,
        bytes: SharedBytes::new(alloc, Items::new(Vec::from_slice(alloc, b"state").ok()?)).ok()?,
    };
    let rest = entries(alloc, first, end)?;
    let done = store.keep_snapshot(disk, &snapshot, u64::from(first), &rest);
    Some(done.is_ok())
}

/// Adds the entries from an index on up to an end.
pub(crate) fn add(
    alloc: Global,
    disk: &mut MemDisk,
    store: &mut Store,
    first: u8,
    end: u8,
) -> Option<()> {
    let entries = entries(alloc, first, end)?;
    store.append(disk, u64::from(first), &entries).ok()
}

/// A torn file of a snapshot up to 4.
fn leave_torn(disk: &mut MemDisk) -> Option<()> {
    disk.write_at("snapshot-0000000000000004", 0, b"torn").ok()?;
    disk.sync("snapshot-0000000000000004").ok()?;
    disk.sync_names().ok()
}

/// A term, a vote, a snapshot up to 2 and the entries 2 and 3 in one segment.
fn begin(alloc: Global, disk: &mut MemDisk) -> Option<bool> {
    let (mut store, _kept) = Store::load(alloc, disk).ok()?;
    store.set_meta(disk, 1, 3).ok()?;
    add(alloc, disk, &mut store, 1, 4)?;
    keep(alloc, disk, &mut store, 2, 2, 4)
}

/// With the entries 4 and 5 in a second segment.
fn prepared(alloc: Global, disk: &mut MemDisk) -> Option<Store> {
    leave_torn(disk)?;
    begin(alloc, disk)?;
    let (mut store, _kept) = Store::load(alloc, disk).ok()?;
    add(alloc, disk, &mut store, 4, 6)?;
    Some(store)
}

/// Whether the entries say their indices, up to 5.
fn are_right(kept: &Kept) -> bool {
    let mut index = kept.first;
    for entry in kept.entries.as_slice() {
        if entry.term != 1
            || entry.bytes.as_slice().first().copied().map(u64::from) != Some(index)
        {
            return false;
        }
        index = index.saturating_add(1);
    }
    index == 6
}

/// The place among the outcomes of what is kept, if it is one of them.
fn outcome(kept: &Kept) -> Option<usize> {
    if kept.term != 1 || kept.vote != 3 || !are_right(kept) {
        return None;
    }
    let index = match &kept.snapshot {
        Some(snapshot) => snapshot.index,
        None => 0,
    };
    match (index, kept.first) {
        (2, 2) => Some(0),
        (4, 2) | (4, 3) => Some(1),
        (4, 4) => Some(2),
        _ => None,
    }
}

/// What is found where a snapshot up to 4 with the entries from 4 on was kept, and stopped. After `Ok` it is the new one.
fn after_stop(alloc: Global, call: u64, pick: u64) -> Option<usize> {
    let mut disk = MemDisk::new(alloc);
    let mut store = prepared(alloc, &mut disk)?;
    disk.arm(Some(Stop { call, pick }), None);
    let done = keep(alloc, &mut disk, &mut store, 4, 4, 6)?;
    disk.crash(pick).ok()?;
    let (_store, kept) = Store::load(alloc, &mut disk).ok()?;
    let found = outcome(&kept)?;
    if done && found != 2 {
        return None;
    }
    Some(found)
}

/// What is found over the picks up to 15.
fn outcomes(alloc: Global, call: u64) -> Option<Outcomes> {
    let mut found = [false; 3];
    for pick in 0..16 {
        match after_stop(alloc, call, pick)? {
            0 => found[0] = true,
            1 => found[1] = true,
            _ => found[2] = true,
        }
    }
    Some(found)
}

#[test]
fn each_stop_of_a_snapshot_leaves_what_was_or_what_is_kept(rt: HostRuntime) {
    for (call, wanted) in STOPS {
        assert_eq!(rt; outcomes(rt.alloc(), *call), Some(*wanted));
    }
}
