use std::alloc::{AllocError, Global};
use std::test::Fail;
use store_format::{
    Metadata, crc32, metadata_bytes, read_metadata, read_snapshot, snapshot_head, snapshot_tail,
    sum8, word_sum,
};
use wire_words::Writer;

// The sums and the blocks were computed in Python, those of formats 1 and 2 with its zlib and hashlib.

/// These words as bytes.
fn file_of(alloc: Global, words: &[u64]) -> Result<Vec<u8>, AllocError> {
    let mut out = Writer::new(alloc);
    for word in words {
        out.word(*word)?;
    }
    Ok(out.finish().into_vec())
}

/// What the first or the second metadata file says with these words.
fn metadata_of(alloc: Global, words: &[u64], first: bool) -> Result<Option<Metadata>, AllocError> {
    let file = file_of(alloc, words)?;
    Ok(read_metadata(first, file.as_slice()))
}

/// The term and the first byte of the snapshot in the file with these words and this number.
fn snapshot_of(
    alloc: Global,
    words: &[u64],
    number: u64,
) -> Result<Option<(u64, usize)>, AllocError> {
    let file = file_of(alloc, words)?;
    let Some(found) = read_snapshot(number, file.as_slice()) else {
        return Ok(None);
    };
    Ok(Some((found.term, found.bytes.len())))
}

/// How many fronts of the file, it left out, read as metadata of the first file or as snapshot 7.
fn fronts_that_read(alloc: Global, words: &[u64]) -> Result<u64, AllocError> {
    let file = file_of(alloc, words)?;
    let bytes = file.as_slice();
    let mut count: u64 = 0;
    for end in 0..bytes.len() {
        let front = &bytes[..end];
        if read_metadata(true, front).is_some() || read_snapshot(7, front).is_some() {
            count = count.saturating_add(1);
        }
    }
    Ok(count)
}

/// Whether metadata of version 6, and snapshot 7, are written as these words.
fn are_written(alloc: Global, block: &[u64], file: &[u64]) -> Result<bool, AllocError> {
    let metadata = Metadata {
        version: 6,
        term: 4,
        vote: 0,
    };
    let written = metadata_bytes(alloc, &metadata)?;
    let mut snapshot = snapshot_head(alloc, 7, 2, b"abc")?;
    snapshot.extend_from_slice(b"abc")?;
    snapshot.extend_from_slice(snapshot_tail(b"abc"))?;
    let wanted = file_of(alloc, block)?;
    let wanted_snapshot = file_of(alloc, file)?;
    Ok(written.as_slice() == wanted.as_slice() && snapshot.as_slice() == wanted_snapshot.as_slice())
}

const OLD_BLOCK: &[u64] = &[1, 5, 3, 2, 0x6b1e_18f0];

const NEW_BLOCK: &[u64] = &[2, 6, 4, 0, 0x6288_889d_b51e_9f74];

const LATEST_BLOCK: &[u64] = &[3, 6, 4, 0, 0xcafd_94f7_5282_21c3];

const OLD_SNAPSHOT: &[u64] = &[1, 7, 2, 3, 0xef9c_ec15, 0x63_6261];

const NEW_SNAPSHOT: &[u64] = &[2, 7, 2, 3, 0x3ae4_e4b9_690a_1622, 0x63_6261];

const LATEST_SNAPSHOT: &[u64] = &[3, 7, 2, 3, 0xc5a5_4041_5117_daa5, 0x63_6261];

/// Words of metadata, whether they are those of the first file, and the version that they say.
const BLOCKS: &[(&[u64], bool, Option<u64>)] = &[
    (OLD_BLOCK, true, Some(5)),
    (OLD_BLOCK, false, None),
    (NEW_BLOCK, false, Some(6)),
    (NEW_BLOCK, true, None),
    (LATEST_BLOCK, false, Some(6)),
    (LATEST_BLOCK, true, None),
    // Another sum, and another format.
    (&[2, 6, 4, 0, 0], false, None),
    (&[3, 5, 3, 2, 0x6b1e_18f0], true, None),
    (&[4, 6, 4, 0, 0xcafd_94f7_5282_21c3], false, None),
];

/// Words of a snapshot, the number of its file, and the term and the first byte that they say.
const SNAPSHOTS: &[(&[u64], u64, Option<(u64, usize)>)] = &[
    (OLD_SNAPSHOT, 7, Some((2, 3))),
    (NEW_SNAPSHOT, 7, Some((2, 3))),
    (NEW_SNAPSHOT, 8, None),
    (LATEST_SNAPSHOT, 7, Some((2, 3))),
    (LATEST_SNAPSHOT, 8, None),
    // Padding that isn't zero, and another byte.
    (
        &[2, 7, 2, 3, 0x3ae4_e4b9_690a_1622, 0x100_0000_0063_6261],
        7,
        None,
    ),
    (&[1, 7, 2, 3, 0xef9c_ec15, 0x63_6262], 7, None),
];

const FILES: &[&[u64]] = &[OLD_BLOCK, OLD_SNAPSHOT, NEW_SNAPSHOT, LATEST_SNAPSHOT];

#[test]
fn sums_are_the_public_ones(rt: HostRuntime) {
    assert_eq!(rt; crc32(b"123456789"), 0xcbf4_3926);
    let empty = [0xe3, 0xb0, 0xc4, 0x42, 0x98, 0xfc, 0x1c, 0x14];
    let abc = [0xba, 0x78, 0x16, 0xbf, 0x8f, 0x01, 0xcf, 0xea];
    for (bytes, sum) in [(b"".as_slice(), empty), (b"abc".as_slice(), abc)] {
        assert_eq!(rt; sum8(bytes), sum);
    }
}

/// Bytes, and their sum over words.
const SUMS: &[(&[u8], u64)] = &[
    (b"", 0xa4d7_e2fd_a976_5ad2),
    (b"abc", 0x1b55_72d6_3cb1_5bdf),
    (b"12345678", 0xe85f_b95e_991d_6f2d),
    (b"123456789", 0x00ce_54d8_2fea_dc80),
];

#[test]
fn the_sum_over_words_is_the_one_computed_elsewhere(rt: HostRuntime) {
    for &(bytes, sum) in SUMS {
        assert_eq!(rt; u64::from_le_bytes(word_sum(bytes)), sum);
    }
}

#[test]
fn metadata_has_its_parity_and_sum(rt: HostRuntime) -> Result<(), Fail> {
    for &(words, first, version) in BLOCKS {
        let found = metadata_of(rt.alloc(), words, first)?;
        assert_eq!(rt; found.map(|found| found.version), version);
    }
    Ok(())
}

#[test]
fn snapshots_are_whole(rt: HostRuntime) -> Result<(), Fail> {
    for &(words, number, found) in SNAPSHOTS {
        assert_eq!(rt; snapshot_of(rt.alloc(), words, number)?, found);
    }
    Ok(())
}

#[test]
fn no_front_reads_and_format_3_is_written(rt: HostRuntime) -> Result<(), Fail> {
    for &words in FILES {
        assert_eq!(rt; fronts_that_read(rt.alloc(), words)?, 0);
    }
    assert!(rt; are_written(rt.alloc(), LATEST_BLOCK, LATEST_SNAPSHOT)?);
    Ok(())
}
