use disk_model::{Disk, MemDisk};
use dq_base::{Items, MemSink};
use folder_check::{CheckEnd, check};
use raft_messages::{Entry, EntryKind, SharedBytes};
use segment_store::{LoadFault, Store};
use std::alloc::Global;
use std::test::Fail;

/// A folder that is checked.
#[derive(Clone, Copy)]
enum Folder {
    /// No file.
    Empty,
    /// That of one voter after its first timeout.
    Elected,
    /// Two segments, of which the first is truncated in its batch.
    Cut,
    /// No file, and the first call of the disk fails.
    Failing,
}

/// The SHA-256 of no bytes is in these lines.
const EMPTY: &str =
    "term 0 vote 0\nsnapshot none\nlog none\nfiles 0 e3b0c44298fc1c149afbf4c8996fb92427ae41e4649b934ca495991b7852b855\n";

const ELECTED: &str =
    "term 1 vote 1\nsnapshot none\nlog 1 1\nfiles 0 e3b0c44298fc1c149afbf4c8996fb92427ae41e4649b934ca495991b7852b855\nend 1 e3b0c44298fc1c149afbf4c8996fb92427ae41e4649b934ca495991b7852b855\n";

/// A folder, the end of its check, and what is printed.
const ROWS: &[(Folder, CheckEnd, &str)] = &[
    (Folder::Empty, CheckEnd::Done, EMPTY),
    (Folder::Elected, CheckEnd::Done, ELECTED),
    (Folder::Cut, CheckEnd::Damaged(LoadFault::Damaged(1, 8)), ""),
    (Folder::Failing, CheckEnd::DiskFault, ""),
];

/// Adds the entry of a new leader of term 1 in its own segment.
fn add(alloc: Global, disk: &mut MemDisk, index: u64) -> Option<()> {
    let (mut store, _kept) = Store::load(alloc, disk).ok()?;
    store.set_meta(disk, 1, 1).ok()?;
    let entry = Entry {
        term: 1,
        kind: EntryKind::Barrier,
        bytes: SharedBytes::new(alloc, Items::new(Vec::new(alloc))).ok()?,
    };
    store.append(disk, index, &[entry]).ok()
}

fn disk_of(alloc: Global, folder: Folder) -> Option<MemDisk> {
    let mut disk = MemDisk::new(alloc);
    match folder {
        Folder::Empty => {}
        Folder::Elected => add(alloc, &mut disk, 1)?,
        Folder::Cut => {
            add(alloc, &mut disk, 1)?;
            add(alloc, &mut disk, 2)?;
            disk.cut("segment-0000000000000001", 40).ok()?;
        }
        Folder::Failing => disk.arm(None, Some(1)),
    }
    Some(disk)
}

/// Whether a check of a folder ends so and prints this.
fn ends_so(alloc: Global, folder: Folder, end: CheckEnd, lines: &str) -> Option<bool> {
    let mut disk = disk_of(alloc, folder)?;
    let mut sink = MemSink::new(alloc, Vec::new(alloc));
    let found = check(alloc, &mut disk, &mut sink);
    Some(found == end && sink.bytes() == lines.as_bytes())
}

#[test]
fn stopped_nodes_are_told(rt: HostRuntime) -> Result<(), Fail> {
    for &(folder, end, lines) in ROWS {
        assert_eq!(rt; ends_so(rt.alloc(), folder, end, lines), Some(true));
    }
    Ok(())
}
