//! Each fault of a snapshot, and what it says.

use database_state::{Machine, PinFault, SnapFault};
use dq_base::{Name, PAGE_SIZE, Page, PageFault};
use log_commands::Command;
use std::alloc::{AllocError, Global};
use std::test::Fail;
use wal_frames::{Frame, WalFault, write_wal};
use wire_words::{WordFault, Writer};

/// The snapshot of a state machine with one empty database `d`: 4,192 bytes, of which the log begins at byte 32 and the flag at
/// byte 4184.
fn one_database(alloc: Global) -> Result<Vec<u8>, AllocError> {
    let mut machine = Machine::new(alloc);
    if let Some(name) = Name::new(String::from_str(alloc, "d")?) {
        machine.act(&Command::OpenDb { name })?;
    }
    Ok(machine.snapshot()?.into_vec())
}

fn fault(alloc: Global, bytes: &[u8]) -> Option<SnapFault> {
    Machine::from_snapshot(alloc, bytes).err()
}

/// The fault if another byte is at a place, which is put back then.
fn fault_with(alloc: Global, bytes: &mut [u8], place: usize, other: u8) -> Option<SnapFault> {
    let Some(byte) = bytes.get(place).copied() else {
        return None;
    };
    if let Some(place) = bytes.get_mut(place) {
        *place = other;
    }
    let found = fault(alloc, bytes);
    if let Some(place) = bytes.get_mut(place) {
        *place = byte;
    }
    found
}

// The format, more and fewer databases, no name, a name that isn't filled up, the log's magic number and sequence
// number, its frame's page, and the flag.
const OTHER_BYTES: &[(usize, u8, SnapFault)] = &[
    (0, 2, SnapFault::Format),
    (8, 2, SnapFault::Word(WordFault::NoNul(4192))),
    (8, 0, SnapFault::Tail),
    (16, 0, SnapFault::Order(16)),
    (18, 1, SnapFault::Word(WordFault::Pad(16))),
    (32, 0, SnapFault::Wal(WalFault::Magic)),
    (47, 1, SnapFault::Wal(WalFault::HeaderSum)),
    (100, 1, SnapFault::Order(24)),
    (4184, 2, SnapFault::Order(4184)),
];

#[test]
fn a_snapshot_with_another_byte_is_refused(rt: HostRuntime) -> Result<(), Fail> {
    let mut bytes = one_database(rt.alloc())?;
    assert_eq!(rt; bytes.len(), 4192);
    assert_eq!(rt; fault(rt.alloc(), &bytes), None);
    for &(place, other, wanted) in OTHER_BYTES {
        let found = fault_with(rt.alloc(), &mut bytes, place, other);
        assert_eq!(rt; found, Some(wanted), "byte {place}");
    }
    bytes.push(0)?;
    assert_eq!(rt; fault(rt.alloc(), &bytes), Some(SnapFault::Tail));
    assert_eq!(rt;
        fault(rt.alloc(), &[]),
        Some(SnapFault::Word(WordFault::Short(0)))
    );
    Ok(())
}

/// The fault of databases of these names whose images all have the log of these frames, with the pending pages of
/// transaction 1 in a log of those frames.
fn fault_of(
    alloc: Global,
    names: &[&str],
    image: &[Frame],
    pending: &[Frame],
) -> Result<Option<SnapFault>, AllocError> {
    let mut writer = Writer::new(alloc);
    writer.word(1)?;
    writer.word(names.len() as u64)?;
    let image = write_wal(alloc, 0, image)?;
    let pending = write_wal(alloc, 0, pending)?;
    for name in names {
        let mut text = Vec::from_slice(alloc, name.as_bytes())?;
        text.push(0)?;
        writer.raw(&text)?;
        writer.blob(image.as_slice())?;
        writer.word(1)?;
        writer.word(1)?;
        writer.blob(pending.as_slice())?;
    }
    Ok(fault(alloc, writer.finish().as_slice()))
}

const ASCENDING: &[&str] = &["a", "b"];

const DESCENDING: &[&str] = &["b", "a"];

const TWICE: &[&str] = &["a", "a"];

/// A frame of a page of zeros.
fn frame(number: u32, commit: u32) -> Frame {
    Frame {
        number,
        commit,
        page: Page::new([0; PAGE_SIZE]),
    }
}

// The names, the number and commit size of the frame of each image and of the one of the pending pages: as they are
// to be; names out of order and twice; a sizes page without its commit; no sizes page; a pending page with a commit.
const DATABASES: &[(&[&str], (u32, u32), (u32, u32), Option<SnapFault>)] = &[
    (ASCENDING, (1, 1), (7, 0), None),
    (DESCENDING, (1, 1), (7, 0), Some(SnapFault::Order(8360))),
    (TWICE, (1, 1), (7, 0), Some(SnapFault::Order(8360))),
    (ASCENDING, (1, 0), (7, 0), Some(SnapFault::Order(24))),
    (
        ASCENDING,
        (2, 1),
        (7, 0),
        Some(SnapFault::Pages(PageFault::NoSizes)),
    ),
    (ASCENDING, (1, 1), (7, 1), Some(SnapFault::Order(4200))),
];

#[test]
fn logs_and_names_have_to_be_those_of_a_machine(rt: HostRuntime) -> Result<(), Fail> {
    for &(names, image, pending, wanted) in DATABASES {
        let found = fault_of(
            rt.alloc(),
            names,
            &[frame(image.0, image.1)],
            &[frame(pending.0, pending.1)],
        )?;
        assert_eq!(rt; found, wanted);
    }
    Ok(())
}

const SNAP_FAULTS: &[(SnapFault, &str)] = &[
    (SnapFault::Format, "the snapshot has another format"),
    (
        SnapFault::Word(WordFault::NoNul(16)),
        "the snapshot is malformed: no NUL ends the text at byte 16",
    ),
    (
        SnapFault::Order(16),
        "the item at byte 16 is out of its order",
    ),
    (
        SnapFault::Wal(WalFault::Magic),
        "a log of the snapshot is malformed: the log has another magic number",
    ),
    (
        SnapFault::Pages(PageFault::NoSizes),
        "the pages of an image are malformed: the last page is no sizes page",
    ),
    (SnapFault::Tail, "bytes follow the snapshot"),
    (SnapFault::NoMemory, "out of memory"),
];

#[test]
fn faults_say_what_is_wrong(rt: HostRuntime) -> Result<(), Fail> {
    for &(fault, text) in SNAP_FAULTS {
        let said = format!(in rt.alloc(); "{fault}")?;
        assert_eq!(rt; said.as_str(), text);
    }
    Ok(())
}

const PIN_FAULTS: &[(PinFault, &str)] = &[
    (PinFault::Unknown, "there is no such database"),
    (
        PinFault::Full(64),
        "all 64 read marks of the database are live",
    ),
];

#[test]
fn each_fault_of_a_pin_says_what_is_wrong(rt: HostRuntime) -> Result<(), Fail> {
    for &(fault, text) in PIN_FAULTS {
        let said = format!(in rt.alloc(); "{fault}")?;
        assert_eq!(rt; said.as_str(), text);
    }
    Ok(())
}
