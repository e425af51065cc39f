ghost use Rattle.dq_base.specs.Names.{IsName};

use disk_model::{Disk, DiskFault, MemDisk};
use folder_tail::{Tail, look_at_tail};
use segment_store::{LoadFault, Store};
use std::alloc::{AllocError, Global};
use wire_words::Writer;

// The files were computed in Python, the sums of formats 1 and 2 with its zlib and hashlib.

/// Metadata of version 5 with term 3 and vote 2, in format 1.
const METADATA: &[u64] = &[1, 5, 3, 2, 0x6b1e_18f0];

/// Snapshot 7 of term 2, in format 1.
const SNAPSHOT: &[u64] = &[1, 7, 2, 3, 0xef9c_ec15, 0x63_6261];

/// Entries 6 and 7 of term 2, and then entry 8 of term 3, in format 1.
const OLD: &[u64] = &[
    1,
    0x3537_a782_1f2b_9cf2,
    6,
    2,
    2,
    0x3_0000_0001,
    2,
    0x1_0000_0001,
    0x63_6261,
    0x64,
    0x10d6_b751,
    8,
    1,
    3,
    2,
];

/// These entries in format 2.
const NEW: &[u64] = &[
    2,
    0xe150_5113_a943_966d,
    0xd305_1f98_d4df_d22c,
    6,
    2,
    2,
    0x3_0000_0001,
    2,
    0x1_0000_0001,
    0x63_6261,
    0x64,
    0x7ebf_61ac_5e11_4044,
    0x141c_fc98_42c4_b0e3,
    8,
    1,
    3,
    2,
];

/// These entries in format 3.
const LATEST: &[u64] = &[
    3,
    0xd6fc_bbb9_d130_e9b6,
    0x18e8_9c12_b367_0e29,
    6,
    2,
    2,
    0x3_0000_0001,
    2,
    0x1_0000_0001,
    0x63_6261,
    0x64,
    0xd4c4_e7dd_2be8_9a5b,
    0xa4d7_e2fd_a976_5ad2,
    8,
    1,
    3,
    2,
];

/// Words that are no batch, and after them the batch of entry 8.
const LOST: &[u64] = &[
    3,
    1,
    2,
    0xd4c4_e7dd_2be8_9a5b,
    0xa4d7_e2fd_a976_5ad2,
    8,
    1,
    3,
    2,
];

/// One word that is no batch, which could hold no head of an entry, and after it the batch of entry 8.
const FAR: &[u64] = &[
    3,
    1,
    0xd4c4_e7dd_2be8_9a5b,
    0xa4d7_e2fd_a976_5ad2,
    8,
    1,
    3,
    2,
];

/// A change of a segment's bytes.
#[derive(Clone, Copy)]
enum Change {
    /// None.
    None,
    /// Five bits of the byte at this place are turned.
    Flip(usize),
    /// The first byte is this one.
    Format(u8),
    /// Only as many bytes are left.
    Cut(usize),
    /// As many zeros follow.
    Zeros(usize),
}

/// What is found, without the number of the segment.
#[derive(Clone, Copy, Debug, PartialEq, Eq)]
enum SegmentEnd {
    /// It reads to its end.
    Whole,
    /// It is torn after as many bytes.
    Torn(u64),
    /// It is damaged after as many bytes, and a batch is at the second place.
    Damaged(u64, u64),
    /// Its first word is no known format.
    Unknown,
}

fn bytes_of(alloc: Global, words: &[u64]) -> Result<Vec<u8>, AllocError> {
    let mut out = Writer::new(alloc);
    for word in words {
        out.word(*word)?;
    }
    Ok(out.finish().into_vec())
}

/// The bytes of these words, changed.
fn changed(alloc: Global, words: &[u64], change: Change) -> Result<Vec<u8>, AllocError> {
    let mut bytes = bytes_of(alloc, words)?;
    match change {
        Change::None => {}
        Change::Flip(place) => {
            if let Some(byte) = bytes.get_mut(place) {
                *byte ^= 0xf8;
            }
        }
        Change::Format(format) => {
            if let Some(byte) = bytes.first_mut() {
                *byte = format;
            }
        }
        Change::Cut(length) => bytes.truncate(length),
        Change::Zeros(count) => bytes.resize(bytes.len().saturating_add(count), 0)?,
    }
    Ok(bytes)
}

fn put(disk: &mut MemDisk, name: &str, bytes: &[u8]) -> Result<(), DiskFault>
    requires { IsName name.now }
{
    disk.write_at(name, 0, bytes)?;
    disk.sync(name)?;
    disk.sync_names()
}

/// A folder of these segments, the last of them changed, and of metadata, if all is there.
fn folder(
    alloc: Global,
    segments: [&[u64]; 2],
    snapshot: bool,
    change: Change,
) -> Result<MemDisk, DiskFault> {
    let mut disk = MemDisk::new(alloc);
    put(&mut disk, "metadata1", &bytes_of(alloc, METADATA)?)?;
    if snapshot {
        put(
            &mut disk,
            "snapshot-0000000000000007",
            &bytes_of(alloc, SNAPSHOT)?,
        )?;
    }
    let [before, last] = segments;
    if !before.is_empty() {
        put(
            &mut disk,
            "segment-0000000000000001",
            &bytes_of(alloc, before)?,
        )?;
    }
    put(
        &mut disk,
        "segment-0000000000000002",
        &changed(alloc, last, change)?,
    )?;
    Ok(disk)
}

/// What is found in a folder of these segments.
fn found(
    alloc: Global,
    segments: [&[u64]; 2],
    snapshot: bool,
    change: Change,
) -> Option<SegmentEnd> {
    let mut disk = folder(alloc, segments, snapshot, change).ok()?;
    let found = match look_at_tail(alloc, &mut disk).ok()? {
        Tail::Whole => SegmentEnd::Whole,
        Tail::Torn(last) => SegmentEnd::Torn(last.good),
        Tail::Damaged(last, place) => SegmentEnd::Damaged(last.good, place),
        Tail::Unknown(2, _) => SegmentEnd::Unknown,
        Tail::Unknown(_, _) => return None,
    };
    Some(found)
}

/// What is found after a load, which drops what follows the last whole batch.
fn after_load(
    alloc: Global,
    segments: [&[u64]; 2],
    snapshot: bool,
    change: Change,
) -> Option<SegmentEnd> {
    let mut disk = folder(alloc, segments, snapshot, change).ok()?;
    let (_store, _kept) = Store::load(alloc, &mut disk).ok()?;
    match look_at_tail(alloc, &mut disk).ok()? {
        Tail::Whole => Some(SegmentEnd::Whole),
        _ => None,
    }
}

/// A segment of two batches: its words, its size in bytes, and where its first batch ends.
const SEGMENTS: &[(&[u64], usize, u64)] = &[(OLD, 120, 80), (NEW, 136, 88), (LATEST, 136, 88)];

/// What is found where the byte at a place was changed.
fn flipped(place: usize, second: u64) -> SegmentEnd {
    match place {
        0..8 => SegmentEnd::Unknown,
        _ if (place as u64) < second => SegmentEnd::Damaged(8, second),
        _ => SegmentEnd::Torn(second),
    }
}

#[test]
fn each_changed_byte_is_damage_unless_it_is_in_the_last_batch(rt: HostRuntime) {
    for &(words, size, second) in SEGMENTS {
        for place in 0..size {
            let seen = found(rt.alloc(), [&[], words], true, Change::Flip(place));
            assert_eq!(rt; seen, Some(flipped(place, second)));
        }
    }
}

/// What is found where only as many bytes are left.
fn cut(length: usize, second: u64) -> SegmentEnd {
    match length {
        0..8 => SegmentEnd::Torn(0),
        8 => SegmentEnd::Whole,
        _ if (length as u64) < second => SegmentEnd::Torn(8),
        _ if length as u64 == second => SegmentEnd::Whole,
        _ => SegmentEnd::Torn(second),
    }
}

#[test]
fn a_segment_cut_at_every_byte_is_torn(rt: HostRuntime) {
    for &(words, size, second) in SEGMENTS {
        for length in 0..size {
            let seen = found(rt.alloc(), [&[], words], true, Change::Cut(length));
            assert_eq!(rt; seen, Some(cut(length, second)));
        }
    }
}

/// Segments, whether there is a snapshot up to index 7, a change, and what is found.
const ROWS: &[([&[u64]; 2], bool, Change, SegmentEnd)] = &[
    ([&[], LATEST], true, Change::None, SegmentEnd::Whole),
    ([&[], LATEST], true, Change::Zeros(1), SegmentEnd::Torn(136)),
    (
        [&[], LATEST],
        true,
        Change::Zeros(4096),
        SegmentEnd::Torn(136),
    ),
    ([&[], LOST], true, Change::None, SegmentEnd::Damaged(8, 24)),
    ([OLD, LOST], true, Change::None, SegmentEnd::Damaged(8, 24)),
    ([&[], LOST], false, Change::None, SegmentEnd::Torn(8)),
    ([&[], FAR], false, Change::None, SegmentEnd::Torn(8)),
    (
        [&[], LATEST],
        true,
        Change::Format(1),
        SegmentEnd::Damaged(8, 8),
    ),
    (
        [&[], NEW],
        true,
        Change::Format(3),
        SegmentEnd::Damaged(8, 8),
    ),
    (
        [&[], OLD],
        true,
        Change::Format(2),
        SegmentEnd::Damaged(8, 8),
    ),
    ([&[], &[4]], true, Change::None, SegmentEnd::Torn(0)),
    ([&[], &[4, 0]], true, Change::None, SegmentEnd::Unknown),
    ([OLD, &[0, 0]], true, Change::None, SegmentEnd::Unknown),
];

#[test]
fn what_follows_whole_batches_is_judged_by_its_bytes(rt: HostRuntime) {
    for &(segments, snapshot, change, wanted) in ROWS {
        let seen = found(rt.alloc(), segments, snapshot, change);
        assert_eq!(rt; seen, Some(wanted));
        assert_eq!(rt;
            after_load(rt.alloc(), segments, snapshot, change),
            Some(SegmentEnd::Whole)
        );
    }
}

/// What a look at a disk without segments answers, and one at a disk whose first call fails.
fn without_segments(alloc: Global) -> (Result<Tail, LoadFault>, Result<Tail, LoadFault>) {
    let mut disk = MemDisk::new(alloc);
    let none = look_at_tail(alloc, &mut disk);
    disk.arm(None, Some(1));
    (none, look_at_tail(alloc, &mut disk))
}

#[test]
fn a_folder_without_segments_is_whole_and_a_failing_disk_says_so(rt: HostRuntime) {
    let (none, failing) = without_segments(rt.alloc());
    assert_eq!(rt; none, Ok(Tail::Whole));
    assert_eq!(rt; failing, Err(LoadFault::DiskFault));
}
