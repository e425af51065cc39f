use disk_model::{Disk, MemDisk};
use dq_base::Items;
use raft_messages::{Entry, EntryKind, SharedBytes, Snapshot};
use segment_store::Store;
use std::alloc::Global;
use store_format::{read_batch, read_metadata};

/// The version, term and vote in a file of metadata.
fn metadata_in(disk: &mut MemDisk, first: bool) -> Option<(u64, u64, u64)> {
    let mut bytes = [0; 41];
    let name = if first { "metadata1" } else { "metadata2" };
    let count = disk.read_at(name, 0, &mut bytes).ok()?;
    let found = read_metadata(first, &bytes[..count])?;
    Some((found.version, found.term, found.vote))
}

/// What the two files say after two writes.
fn two_writes(alloc: Global) -> Option<[(u64, u64, u64); 2]> {
    let mut disk = MemDisk::new(alloc);
    let (mut store, _kept) = Store::load(alloc, &mut disk).ok()?;
    store.set_meta(&mut disk, 3, 2).ok()?;
    store.set_meta(&mut disk, 4, 0).ok()?;
    let first = metadata_in(&mut disk, true)?;
    let second = metadata_in(&mut disk, false)?;
    Some([first, second])
}

#[test]
fn metadata_goes_to_its_files_in_turn(rt: HostRuntime) {
    assert_eq!(rt; two_writes(rt.alloc()), Some([(1, 3, 2), (2, 4, 0)]));
}

/// The first index, the number of entries and the size of the batch in segment 1, after its format word.
fn batch_in(alloc: Global, disk: &mut MemDisk) -> Option<(u64, usize, usize)> {
    let mut bytes = [0; 100];
    let count = disk
        .read_at("segment-0000000000000001", 0, &mut bytes)
        .ok()?;
    let word = bytes.first()?;
    let batch = read_batch(alloc, u64::from(*word), &bytes[8..count.max(8)]).ok()??;
    Some((batch.first, batch.entries.len(), batch.size))
}

/// What segment 1 says after one entry was appended.
fn one_batch(alloc: Global) -> Option<(u64, usize, usize)> {
    let mut disk = MemDisk::new(alloc);
    let (mut store, _kept) = Store::load(alloc, &mut disk).ok()?;
    let entry = Entry {
        term: 1,
        kind: EntryKind::Command,
        bytes: SharedBytes::new(alloc, Items::new(Vec::from_slice(alloc, b"abc").ok()?)).ok()?,
    };
    store.append(&mut disk, 1, &[entry]).ok()?;
    batch_in(alloc, &mut disk)
}

#[test]
fn a_batch_stands_behind_its_format_word(rt: HostRuntime) {
    assert_eq!(rt; one_batch(rt.alloc()), Some((1, 1, 56)));
}

/// How many bytes a great snapshot has: more than a mebibyte.
const GREAT: usize = 1_300_000;

/// How many bytes of a great snapshot are loaded, if each is what was kept.
fn great_snapshot(alloc: Global) -> Option<usize> {
    let mut disk = MemDisk::new(alloc);
    let (mut store, _kept) = Store::load(alloc, &mut disk).ok()?;
    store.set_meta(&mut disk, 1, 0).ok()?;
    let mut bytes = Vec::from_elem(alloc, 7, GREAT).ok()?;
    bytes.push(8).ok()?;
    let snapshot = Snapshot {
        index: 3,
        term: 1,
        bytes: SharedBytes::new(alloc, Items::new(bytes)).ok()?,
    };
    store.keep_snapshot(&mut disk, &snapshot, 4, &[]).ok()?;
    let (_store, kept) = Store::load(alloc, &mut disk).ok()?;
    let loaded = kept.snapshot?;
    if loaded.bytes.as_slice() != snapshot.bytes.as_slice() {
        return None;
    }
    Some(loaded.bytes.len())
}

#[test]
fn a_snapshot_of_more_than_a_mebibyte_is_loaded(rt: HostRuntime) {
    assert_eq!(rt; great_snapshot(rt.alloc()), Some(GREAT + 1));
}
