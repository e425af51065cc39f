ghost use Rattle.dq_base.specs.Names.{IsName};

use disk_model::{Disk, DiskFault, MemDisk, Stop};
use segment_store::{LoadFault, Store};
use std::alloc::{AllocError, Global};
use std::test::Fail;
use store_format::Kept;
use wire_words::Writer;

// The files were computed in Python, the sums of formats 1 and 2 with its zlib and hashlib.

/// The files of a node, by their places in a row.
const FILES: usize = 5;

/// The words of metadata of version 5 with term 3 and vote 2, in format 1.
const METADATA: &[u64] = &[1, 5, 3, 2, 0x6b1e_18f0];

/// Snapshot 7 of term 2, in format 1.
const SNAPSHOT: &[u64] = &[1, 7, 2, 3, 0xef9c_ec15, 0x63_6261];

/// Snapshot 7 of term 9, in format 2.
const OTHER: &[u64] = &[2, 7, 9, 3, 0x23af_47df_594f_7ea0, 0x63_6261];

/// Entries 6 and 7 of term 2, in format 1.
const FRONT: &[u64] = &[
    1,
    0x3537_a782_1f2b_9cf2,
    6,
    2,
    2,
    0x3_0000_0001,
    2,
    0x1_0000_0001,
    0x63_6261,
    0x64,
];

/// Entry 8 of term 3, in format 1.
const BACK: &[u64] = &[1, 0x10d6_b751, 8, 1, 3, 2];

/// Entry 3 of term 2, in format 1.
const LATE: &[u64] = &[1, 0xeb2a_5f74_088f_b226, 3, 1, 2, 0x3_0000_0001, 0x63_6261];

/// Metadata of version 6 with the same term and vote, in format 2.
const NEW_METADATA: &[u64] = &[2, 6, 3, 2, 0x338c_80f7_0891_d07d];

/// Snapshot 7 of term 2, in format 2.
const NEW_SNAPSHOT: &[u64] = &[2, 7, 2, 3, 0x3ae4_e4b9_690a_1622, 0x63_6261];

/// Entries 6 and 7 of term 2, in format 2.
const NEW_FRONT: &[u64] = &[
    2,
    0xe150_5113_a943_966d,
    0xd305_1f98_d4df_d22c,
    6,
    2,
    2,
    0x3_0000_0001,
    2,
    0x1_0000_0001,
    0x63_6261,
    0x64,
];

/// Entry 8 of term 3, in format 2.
const NEW_BACK: &[u64] = &[2, 0x7ebf_61ac_5e11_4044, 0x141c_fc98_42c4_b0e3, 8, 1, 3, 2];

/// Metadata of version 6 with the same term and vote, in format 3.
const LATEST_METADATA: &[u64] = &[3, 6, 3, 2, 0x4f12_d890_7311_595b];

/// Snapshot 7 of term 2, in format 3.
const LATEST_SNAPSHOT: &[u64] = &[3, 7, 2, 3, 0xc5a5_4041_5117_daa5, 0x63_6261];

/// Entries 6 and 7 of term 2, in format 3.
const LATEST_FRONT: &[u64] = &[
    3,
    0xd6fc_bbb9_d130_e9b6,
    0x18e8_9c12_b367_0e29,
    6,
    2,
    2,
    0x3_0000_0001,
    2,
    0x1_0000_0001,
    0x63_6261,
    0x64,
];

/// Entry 8 of term 3, in format 3.
const LATEST_BACK: &[u64] = &[3, 0xd4c4_e7dd_2be8_9a5b, 0xa4d7_e2fd_a976_5ad2, 8, 1, 3, 2];

/// A segment without entries that begins at index 6, in format 3.
const EMPTIED: &[u64] = &[3, 0x1ed8_743a_2c86_1ffb, 0xa4d7_e2fd_a976_5ad2, 6, 0];

/// The words of the files of a folder.
type Folder = [&'static [u64]; FILES];

/// A folder without files.
const EMPTY: Folder = [&[], &[], &[], &[], &[]];

/// A folder of format 1 with a snapshot and two segments.
const WHOLE: Folder = [METADATA, &[], SNAPSHOT, FRONT, BACK];

/// A folder of format 2 with a snapshot and two segments.
const NEW_WHOLE: Folder = [&[], NEW_METADATA, NEW_SNAPSHOT, NEW_FRONT, NEW_BACK];

/// The folder above in format 3.
const LATEST_WHOLE: Folder = [
    &[],
    LATEST_METADATA,
    LATEST_SNAPSHOT,
    LATEST_FRONT,
    LATEST_BACK,
];

/// The folder above with files of each format.
const MIXED: Folder = [METADATA, &[], NEW_SNAPSHOT, FRONT, LATEST_BACK];

/// What a load answers.
#[derive(Clone, Copy, Debug, PartialEq, Eq)]
enum Answer {
    /// Term, vote, the snapshot's index, the first index and the number of entries.
    Kept(u64, u64, u64, u64, usize),
    /// The fault.
    Fault(LoadFault),
}

fn name(file: usize) -> &'static str
    ensures { IsName result.now }
{
    match file {
        0 => "metadata1",
        1 => "metadata2",
        2 => "snapshot-0000000000000007",
        3 => "segment-0000000000000001",
        4 => "segment-0000000000000002",
        _ => "segment-0000000000000003",
    }
}

/// These words as bytes.
fn bytes_of(alloc: Global, words: &[u64]) -> Result<Vec<u8>, AllocError> {
    let mut out = Writer::new(alloc);
    for word in words {
        out.word(*word)?;
    }
    Ok(out.finish().into_vec())
}

/// Puts a file down, cut to a length.
fn put(
    alloc: Global,
    disk: &mut MemDisk,
    file: usize,
    words: &[u64],
    length: usize,
) -> Result<(), DiskFault> {
    if words.is_empty() {
        return Ok(());
    }
    let bytes = bytes_of(alloc, words)?;
    let end = length.min(bytes.len());
    disk.write_at(name(file), 0, &bytes.as_slice()[..end])?;
    disk.sync(name(file))?;
    disk.sync_names()
}

/// A disk with these files, one of which is truncated to a length.
fn fill(
    alloc: Global,
    disk: &mut MemDisk,
    files: &Folder,
    cut: usize,
    length: usize,
) -> Result<(), DiskFault> {
    for file in 0..FILES {
        let words = files[file];
        let length = if file == cut { length } else { usize::MAX };
        put(alloc, disk, file, words, length)?;
    }
    Ok(())
}

fn answer_of(kept: &Kept) -> Answer {
    let snapshot = match &kept.snapshot {
        Some(snapshot) => snapshot.index,
        None => 0,
    };
    Answer::Kept(
        kept.term,
        kept.vote,
        snapshot,
        kept.first,
        kept.entries.len(),
    )
}

/// What a load of the disk answers.
fn load(alloc: Global, disk: &mut MemDisk) -> Answer {
    match Store::load(alloc, disk) {
        Ok((_store, kept)) => answer_of(&kept),
        Err(fault) => Answer::Fault(fault),
    }
}

/// What a look at the disk answers.
fn look(alloc: Global, disk: &mut MemDisk) -> Answer {
    match Store::look(alloc, disk) {
        Ok(kept) => answer_of(&kept),
        Err(fault) => Answer::Fault(fault),
    }
}

/// What a look and two loads of a folder answer, if all three answer the same.
fn loaded_alike(
    alloc: Global,
    files: &Folder,
    cut: usize,
    length: usize,
) -> Result<Option<Answer>, DiskFault> {
    let mut disk = MemDisk::new(alloc);
    fill(alloc, &mut disk, files, cut, length)?;
    let seen = look(alloc, &mut disk);
    let first = load(alloc, &mut disk);
    let second = load(alloc, &mut disk);
    if seen == first && first == second {
        Ok(Some(first))
    } else {
        Ok(None)
    }
}

/// What is answered where one file of a whole folder is truncated to a length, in any format.
fn wanted(file: usize, length: usize) -> Answer {
    match file {
        0 | 1 => Answer::Fault(LoadFault::NoMeta),
        2 => Answer::Fault(LoadFault::Gap(6, 0)),
        3 if length < 8 => Answer::Fault(LoadFault::Damaged(1, 0)),
        3 if length == 8 => Answer::Kept(3, 2, 7, 8, 1),
        3 => Answer::Fault(LoadFault::Damaged(1, 8)),
        _ => Answer::Kept(3, 2, 7, 6, 2),
    }
}

/// Folders, and what a load of each answers.
const FOLDERS: &[(Folder, Answer)] = &[
    (EMPTY, Answer::Kept(0, 0, 0, 1, 0)),
    (WHOLE, Answer::Kept(3, 2, 7, 6, 3)),
    (NEW_WHOLE, Answer::Kept(3, 2, 7, 6, 3)),
    (LATEST_WHOLE, Answer::Kept(3, 2, 7, 6, 3)),
    (MIXED, Answer::Kept(3, 2, 7, 6, 3)),
    (
        [METADATA, &[], SNAPSHOT, &[], &[]],
        Answer::Kept(3, 2, 7, 8, 0),
    ),
    (
        [METADATA, &[], OTHER, FRONT, BACK],
        Answer::Kept(3, 2, 7, 8, 0),
    ),
    (
        [METADATA, &[], &[], LATE, &[]],
        Answer::Fault(LoadFault::Gap(3, 0)),
    ),
    (
        [&[], &[], &[], FRONT, &[]],
        Answer::Fault(LoadFault::NoMeta),
    ),
    (
        [&[], &[], SNAPSHOT, &[], &[]],
        Answer::Fault(LoadFault::NoMeta),
    ),
];

#[test]
fn folders_load_by_the_rules(rt: HostRuntime) {
    for (files, wanted) in FOLDERS {
        assert!(rt; loaded_alike(rt.alloc(), files, 0, usize::MAX) == Ok(Some(*wanted)));
    }
}

/// Folders, a file of each, and its size in bytes.
const SIZES: &[(Folder, usize, usize)] = &[
    (WHOLE, 0, 40),
    (WHOLE, 2, 48),
    (WHOLE, 3, 80),
    (WHOLE, 4, 48),
    (NEW_WHOLE, 1, 40),
    (NEW_WHOLE, 2, 48),
    (NEW_WHOLE, 3, 88),
    (NEW_WHOLE, 4, 56),
    (LATEST_WHOLE, 1, 40),
    (LATEST_WHOLE, 2, 48),
    (LATEST_WHOLE, 3, 88),
    (LATEST_WHOLE, 4, 56),
];

#[test]
fn files_cut_at_every_byte_load_by_the_rules(rt: HostRuntime) {
    for (files, file, size) in SIZES {
        for length in 0..*size {
            assert!(rt;
                loaded_alike(rt.alloc(), files, *file, length) == Ok(Some(wanted(*file, length)))
            );
        }
    }
}

/// A store over a folder with term 3 and vote 2, which it keeps where the folder has no metadata.
fn voted(alloc: Global, disk: &mut MemDisk, files: &Folder) -> Option<Store> {
    fill(alloc, disk, files, 0, usize::MAX).ok()?;
    let (mut store, kept) = Store::load(alloc, disk).ok()?;
    if kept.term == 0 {
        store.set_meta(disk, 3, 2).ok()?;
    }
    Some(store)
}

/// Whether `set_meta` with term 4 and no vote, stopped at a call, answered `Ok`, and what is loaded after a crash with
/// the pick.
fn after_stop(alloc: Global, files: &Folder, call: u64, pick: u64) -> Option<(bool, Answer)> {
    let mut disk = MemDisk::new(alloc);
    let mut store = voted(alloc, &mut disk, files)?;
    disk.arm(Some(Stop { call, pick }), None);
    let answered = store.set_meta(&mut disk, 4, 0).is_ok();
    disk.crash(0).ok()?;
    Some((answered, load(alloc, &mut disk)))
}

/// Whether each stop of the three calls leaves the old state or the new one, and one after them the new one.
fn are_old_or_new(alloc: Global, files: &Folder, old: Answer, new: Answer) -> bool {
    for call in 1..5 {
        for pick in 0..16 {
            let after = after_stop(alloc, files, call, pick);
            if after != Some((call > 3, new)) && after != Some((false, old)) {
                return false;
            }
        }
    }
    true
}

/// Folders, and the old state and the new one of each.
const STATES: &[(Folder, Answer, Answer)] = &[
    (
        EMPTY,
        Answer::Kept(3, 2, 0, 1, 0),
        Answer::Kept(4, 0, 0, 1, 0),
    ),
    (
        WHOLE,
        Answer::Kept(3, 2, 7, 6, 3),
        Answer::Kept(4, 0, 7, 6, 3),
    ),
];

/// Whether a stop of the first call leaves the old state, except for the pick that keeps
/// it.
fn the_pick_decides(alloc: Global, files: &Folder, old: Answer, new: Answer) -> bool {
    after_stop(alloc, files, 1, 0) == Some((false, old))
        && after_stop(alloc, files, 1, 2) == Some((false, old))
        && after_stop(alloc, files, 1, 1) == Some((false, new))
}

#[test]
fn a_stopped_set_meta_kept_the_old_state_or_the_new_one(rt: HostRuntime) {
    for (files, old, new) in STATES {
        assert!(rt; the_pick_decides(rt.alloc(), files, *old, *new));
        assert!(rt; are_old_or_new(rt.alloc(), files, *old, *new));
    }
}

/// Whether a file of a disk has these words.
fn has_words(
    alloc: Global,
    disk: &mut MemDisk,
    file: usize,
    words: &[u64],
) -> Result<bool, DiskFault> {
    let wanted = bytes_of(alloc, words)?;
    let mut bytes = [0; 64];
    let count = disk.read_at(name(file), 0, &mut bytes)?;
    Ok(&bytes[..count.min(64)] == wanted.as_slice())
}

/// Whether the file has these words after a load of a folder and a call of `set_meta`.
fn written(alloc: Global, files: &Folder, file: usize, words: &[u64]) -> Option<bool> {
    let mut disk = MemDisk::new(alloc);
    fill(alloc, &mut disk, files, 0, usize::MAX).ok()?;
    let (mut store, _kept) = Store::load(alloc, &mut disk).ok()?;
    store.set_meta(&mut disk, 4, 0).ok()?;
    has_words(alloc, &mut disk, file, words).ok()
}

/// Folders, a file of each, and its words after a load and a call of `set_meta`.
const WRITTEN: &[(Folder, usize, &[u64])] = &[
    (WHOLE, 1, &[3, 6, 4, 0, 0xcafd_94f7_5282_21c3]),
    (WHOLE, 0, METADATA),
    ([METADATA, &[], OTHER, FRONT, BACK], 5, EMPTIED),
];

#[test]
fn files_after_a_load_are_written_in_format_3(rt: HostRuntime) {
    for (files, file, words) in WRITTEN {
        assert_eq!(rt; written(rt.alloc(), files, *file, words), Some(true));
    }
}

/// What a load of a folder answers where a call of the disk fails.
fn failing(alloc: Global, files: &Folder, call: u64) -> Result<Answer, DiskFault> {
    let mut disk = MemDisk::new(alloc);
    fill(alloc, &mut disk, files, 0, usize::MAX)?;
    disk.arm(None, Some(call));
    Ok(load(alloc, &mut disk))
}

/// How many calls of the disk a load makes, if each that fails is answered and the others are not.
fn calls_of_a_load(alloc: Global, files: &Folder) -> Option<u64> {
    for made in 0..20 {
        match failing(alloc, files, made + 1).ok()? {
            Answer::Fault(LoadFault::DiskFault) => {}
            Answer::Fault(_) => return None,
            Answer::Kept(..) => return Some(made),
        }
    }
    None
}

/// Folders, and how many calls a load of each makes. The folder is listed; each file is read once, by one call for its bytes
/// and one that finds no more; each is synced, and the names are.
const CALLS: &[(Folder, u64)] = &[
    (EMPTY, 2),
    ([METADATA, &[], SNAPSHOT, &[], &[]], 8),
    (WHOLE, 14),
    (NEW_WHOLE, 14),
];

#[test]
fn a_load_reads_each_file_once_and_answers_a_disk_that_fails(rt: HostRuntime) {
    for (files, calls) in CALLS {
        assert_eq!(rt; calls_of_a_load(rt.alloc(), files), Some(*calls));
    }
}
