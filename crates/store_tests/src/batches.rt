use dq_base::Items;
use raft_messages::{Entry, EntryKind, SharedBytes};
use std::alloc::{AllocError, Global};
use std::test::Fail;
use store_format::{batch_bytes, read_batch};

/// One entry of term 2 at index 3, with the command `abc`, in formats 1, 2 and 3, as another program encodes it.
const OLD: &[u8] =
    b"\x26\xb2\x8f\x08\x74\x5f\x2a\xeb\x03\x00\x00\x00\x00\x00\x00\x00\x01\x00\x00\x00\x00\x00\x00\x00\x02\x00\x00\x00\x00\x00\x00\x00\x01\x00\x00\x00\x03\x00\x00\x00\x61\x62\x63\x00\x00\x00\x00\x00";

const NEW: &[u8] =
    b"\x1b\x7a\x8c\xfc\x36\x71\xd0\xe6\xce\x31\x72\x86\x0f\x25\x3e\x5b\x03\x00\x00\x00\x00\x00\x00\x00\x01\x00\x00\x00\x00\x00\x00\x00\x02\x00\x00\x00\x00\x00\x00\x00\x01\x00\x00\x00\x03\x00\x00\x00\x61\x62\x63\x00\x00\x00\x00\x00";

const LATEST: &[u8] = &[
    0xbc, 0xd7, 0x2a, 0x4e, 0x96, 0x40, 0xe2, 0xdd, 0x49, 0x76, 0x18, 0x71, 0x66, 0x87, 0x1e, 0xdf,
    0x03, 0x00, 0x00, 0x00, 0x00, 0x00, 0x00, 0x00, 0x01, 0x00, 0x00, 0x00, 0x00, 0x00, 0x00, 0x00,
    0x02, 0x00, 0x00, 0x00, 0x00, 0x00, 0x00, 0x00, 0x01, 0x00, 0x00, 0x00, 0x03, 0x00, 0x00, 0x00,
    0x61, 0x62, 0x63, 0x00, 0x00, 0x00, 0x00, 0x00,
];

/// The first index, the number of entries and the size of the batch that bytes begin with.
fn found(
    alloc: Global,
    format: u64,
    bytes: &[u8],
) -> Result<Option<(u64, usize, usize)>, AllocError> {
    let batch = read_batch(alloc, format, bytes)?;
    Ok(batch.map(|batch| (batch.first, batch.entries.len(), batch.size)))
}

/// Whether that entry is written as these bytes.
fn is_written_as(alloc: Global, wanted: &[u8]) -> Result<bool, AllocError> {
    let entry = Entry {
        term: 2,
        kind: EntryKind::Command,
        bytes: SharedBytes::new(alloc, Items::new(Vec::from_slice(alloc, b"abc")?))?,
    };
    let written = batch_bytes(alloc, 3, &[entry])?;
    Ok(written.as_slice() == wanted)
}

#[test]
fn batches_are_written_in_format_3(rt: HostRuntime) -> Result<(), Fail> {
    assert!(rt; is_written_as(rt.alloc(), LATEST)?);
    Ok(())
}

/// A format, bytes, and the batch that they begin with.
type Row = (u64, &'static [u8], Option<(u64, usize, usize)>);

const ROWS: &[Row] = &[
    (1, OLD, Some((3, 1, 48))),
    (2, NEW, Some((3, 1, 56))),
    (1, NEW, None),
    (2, OLD, None),
    (3, LATEST, Some((3, 1, 56))),
    (3, NEW, None),
    (2, LATEST, None),
    (2, &[], None),
];

#[test]
fn batches_are_read_in_the_format_of_their_segment(rt: HostRuntime) -> Result<(), Fail> {
    for &(format, bytes, wanted) in ROWS {
        assert_eq!(rt; found(rt.alloc(), format, bytes)?, wanted);
    }
    let front = &NEW[..NEW.len() - 1];
    assert_eq!(rt; found(rt.alloc(), 2, front)?, None);
    Ok(())
}
