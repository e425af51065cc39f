ghost use Rattle.std.specs.Prelude.{◌≡◌, ◌%◌, length};

use dq_base::{PAGE_SIZE, Page};
use std::alloc::{AllocError, Global};
use std::test::Fail;
use wal_frames::*;

/// A log without frames, of sequence number 0.
fn empty_log() -> [u8; 32] {
    *b"\x37\x7f\x06\x83\x00\x2d\xe2\x18\0\0\x10\0\0\0\0\0\0\0\0\0\0\0\0\0\x16\x04\xe6\xd7\xbc\xdd\xce\x90"
}

/// A header that SQLite wrote, on a little-endian machine.
fn of_sqlite() -> [u8; 32] {
    *b"\x37\x7f\x06\x82\x00\x2d\xe2\x18\0\0\x10\0\0\0\0\0\x63\x17\x23\xda\x82\x37\x13\x5a\xaf\x0a\x1a\x76\xc1\x05\x29\x9d"
}

fn frame(number: u32, commit: u32, byte: u8) -> Frame {
    Frame {
        number,
        commit,
        page: Page::new([byte; PAGE_SIZE]),
    }
}

/// A log of two frames, of sequence number 5.
fn two_frames(alloc: Global) -> Result<Vec<u8>, AllocError> {
    let log = write_wal(alloc, 5, &[frame(2, 0, 7), frame(1, 2, 9)])?;
    Ok(log.into_vec())
}

/// The words 1 and 2, or else 3 and 4.
fn words(first: bool) -> &'static [u8]
    ensures { length result.now % 8 ≡ 0 }
{
    if first {
        b"\0\0\0\x01\0\0\0\x02"
    } else {
        b"\0\0\0\x03\0\0\0\x04"
    }
}

/// The checksum of the second frame of a log that SQLite wrote: page 2, commit size 2, and an empty leaf.
fn sums_of_a_leaf(alloc: Global) -> Result<(u32, u32), AllocError> {
    let start = checksum(
        WordOrder::Little,
        (0x0ca1_d3f6, 0xf39b_9559),
        b"\0\0\0\x02\0\0\0\x02\x0d\0\0\0\0\x10\0\0",
    );
    let zeros = vec![in alloc; 0u8; 4088]?;
    Ok(checksum(WordOrder::Little, start, zeros.as_slice()))
}

#[test]
fn checksums_are_those_of_sqlite(rt: HostRuntime) {
    let first = checksum(WordOrder::Big, (0, 0), words(true));
    assert_eq!(rt; first, (1, 3));
    assert_eq!(rt; checksum(WordOrder::Big, first, words(false)), (7, 14));
    assert_eq!(rt; sums_of_a_leaf(rt.alloc()), Ok((0xf3f2_fbf0, 0x679f_413c)));
}

/// What is read of the header of the empty log where a byte of it is 1.
fn header_with(place: usize) -> Result<WalHeader, WalFault> {
    let mut bytes = empty_log();
    if let Some(byte) = bytes.get_mut(place) {
        *byte = 1;
    }
    WalHeader::read(&bytes)
}

#[test]
fn headers_are_read(rt: HostRuntime) {
    let written = WalHeader::read(&empty_log());
    assert_eq!(rt; written, Ok(WalHeader::written(0)));
    let read = WalHeader {
        order: WordOrder::Little,
        sequence: 0,
        salts: (0x6317_23da, 0x8237_135a),
    };
    assert_eq!(rt; WalHeader::read(&of_sqlite()), Ok(read));
}

const OTHER_BYTES: &[(usize, WalFault)] = &[
    (3, WalFault::Magic),
    (7, WalFault::Version),
    (10, WalFault::PageSize),
    (15, WalFault::HeaderSum),
    (31, WalFault::HeaderSum),
];

#[test]
fn headers_name_their_first_fault(rt: HostRuntime) {
    for &(place, fault) in OTHER_BYTES {
        assert_eq!(rt; header_with(place), Err(fault), "byte {place}");
    }
}

const FAULTS: &[(WalFault, &str)] = &[
    (WalFault::Short, "the log ends within its header"),
    (WalFault::Magic, "the log has another magic number"),
    (WalFault::Version, "the log has another version"),
    (WalFault::PageSize, "the pages of the log have another size"),
    (
        WalFault::HeaderSum,
        "the header of the log has a wrong checksum",
    ),
    (WalFault::NoMemory, "out of memory"),
];

#[test]
fn faults_say_why(rt: HostRuntime) -> Result<(), Fail> {
    for &(fault, text) in FAULTS {
        assert_eq!(rt; fault.to_string(rt.alloc())?.as_str(), text);
    }
    Ok(())
}

/// Whether these bytes are at a place of the log of two frames.
fn has(log: &[u8], place: usize, bytes: &[u8]) -> bool {
    match log.get(place..) {
        Some(rest) => rest.starts_with(bytes),
        None => false,
    }
}

/// Whether a log without frames is written as these bytes.
fn is_written_empty(alloc: Global, wanted: &[u8]) -> Result<bool, AllocError> {
    Ok(write_wal(alloc, 0, &[])?.as_slice() == wanted)
}

#[test]
fn logs_are_written(rt: HostRuntime) -> Result<(), Fail> {
    assert_eq!(rt; is_written_empty(rt.alloc(), &empty_log()), Ok(true));
    assert_eq!(rt; wal_length(2), 8272);
    let log = two_frames(rt.alloc())?;
    assert_eq!(rt; log.len(), 8272);
    let pieces: [(usize, &[u8]); 5] = [
        (
            0,
            b"\x37\x7f\x06\x83\x00\x2d\xe2\x18\0\0\x10\0\0\0\0\x05\0\0\0\x05\0\0\0\0",
        ),
        (
            32,
            b"\0\0\0\x02\0\0\0\0\0\0\0\x05\0\0\0\0\xc7\xad\xa2\x23\x3b\x9e\x02\x14",
        ),
        (56, b"\x07"),
        (
            4152,
            b"\0\0\0\x01\0\0\0\x02\0\0\0\x05\0\0\0\0\xb7\x4c\xcf\x66\x52\x8d\xb2\xcd",
        ),
        (8271, b"\x09"),
    ];
    for (place, bytes) in pieces {
        assert!(rt; has(log.as_slice(), place, bytes), "at {place}");
    }
    Ok(())
}

/// How many frames are read of bytes, and where they end.
fn read(alloc: Global, bytes: &[u8]) -> Result<(usize, u64), WalFault> {
    let read = read_wal(alloc, bytes)?;
    Ok((read.frames.len(), read.end))
}

/// How many frames are read of the first bytes, and where they end.
fn read_front(alloc: Global, bytes: &[u8], len: usize) -> Result<(usize, u64), WalFault> {
    read(alloc, &bytes[..len.min(bytes.len())])
}

/// How many frames are read with another byte at a place, which is put back then.
fn read_with(alloc: Global, bytes: &mut [u8], place: usize) -> Result<(usize, u64), WalFault> {
    if let Some(byte) = bytes.get_mut(place) {
        *byte ^= 1;
    }
    let found = read(alloc, bytes);
    if let Some(byte) = bytes.get_mut(place) {
        *byte ^= 1;
    }
    found
}

/// Whether the log of two frames is read back.
fn is_read_back(alloc: Global, log: &[u8]) -> Result<bool, WalFault> {
    let whole = read_wal(alloc, log)?;
    Ok(
        whole.sequence == 5
            && whole.frames.as_slice() == [frame(2, 0, 7), frame(1, 2, 9)].as_slice(),
    )
}

// How many bytes there are, and what is read of them.
const CUTS: &[(usize, Result<(usize, u64), WalFault>)] = &[
    (8272, Ok((2, 8272))),
    (8271, Ok((1, 4152))),
    (4152, Ok((1, 4152))),
    (4151, Ok((0, 32))),
    (32, Ok((0, 32))),
    (31, Err(WalFault::Short)),
];

#[test]
fn logs_are_read_up_to_where_they_are_cut(rt: HostRuntime) -> Result<(), Fail> {
    let alloc = rt.alloc();
    assert_eq!(rt; read(alloc, &empty_log()), Ok((0, 32)));
    let log = two_frames(alloc)?;
    assert_eq!(rt; is_read_back(alloc, log.as_slice()), Ok(true));
    for &(len, wanted) in CUTS {
        assert_eq!(rt;
            read_front(alloc, log.as_slice(), len),
            wanted,
            "{len} bytes"
        );
    }
    Ok(())
}

#[test]
fn no_frame_is_read_whose_bytes_changed(rt: HostRuntime) -> Result<(), Fail> {
    let mut log = two_frames(rt.alloc())?;
    // The first byte of page number, commit size, salts, checksum and page of the first frame.
    for place in [32, 36, 40, 44, 48, 52, 56] {
        let found = read_with(rt.alloc(), &mut log, place);
        assert_eq!(rt; found, Ok((0, 32)), "byte {place}");
    }
    Ok(())
}

/// A log of one frame after five bytes.
fn behind_bytes(alloc: Global) -> Result<Vec<u8>, AllocError> {
    let mut out = Vec::from_slice(alloc, b"front")?;
    let mut writer = WalWriter::begin(&mut out, 0)?;
    writer.frame(&mut out, 6, 3, &Page::new([8; PAGE_SIZE]))?;
    Ok(out)
}

/// The header of a log, its first frame, and whether that frame is all there is.
fn lent(log: &[u8]) -> Result<Option<(WalHeader, Frame, bool)>, WalFault> {
    let mut reader = WalReader::new(log)?;
    match reader.next_frame() {
        Some(found) => {
            let is_all = reader.rest().is_empty() && reader.next_frame().is_none();
            Ok(Some((reader.header(), found.to_frame(), is_all)))
        }
        None => Ok(None),
    }
}

#[test]
fn frames_are_written_behind_bytes_and_lent(rt: HostRuntime) -> Result<(), Fail> {
    let out = behind_bytes(rt.alloc())?;
    assert_eq!(rt; out.len(), 4157);
    let log = out.as_slice().get(5..).ok_or("a log")?;
    assert_eq!(rt;
        lent(log),
        Ok(Some((WalHeader::written(0), frame(6, 3, 8), true)))
    );
    Ok(())
}
