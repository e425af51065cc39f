use dq_base::{Items, Name, NumberedPage, Page, PageSet};
use log_commands::*;
use std::alloc::{AllocError, Global};
use std::test::*;
use wire_words::{WireBytes, WordFault};

const OPEN_D: [u8; 16] = *b"\x01\x01\0\0\0\0\0\0d\0\0\0\0\0\0\0";

const CHECKPOINT_D: [u8; 16] = *b"\x01\x04\0\0\0\0\0\0d\0\0\0\0\0\0\0";

// The Undo of the transaction 2^32 + 2.
const UNDO: [u8; 16] = *b"\x01\x03\0\0\0\0\0\0\x02\0\0\0\x01\0\0\0";

// A Frames command of the database `d` up to its page: transaction 1 commits with one page, which is page 1.
const ONE_PAGE: [u8; 48] =
    *b"\x01\x02\0\0\0\0\0\0d\0\0\0\0\0\0\0\x01\0\0\0\0\0\0\0\x01\0\0\0\x01\0\0\0\x01\0\0\0\0\x10\0\0\x01\0\0\0\0\0\0\0";

// That command whole: its page states two empty files.
fn empty_commit(alloc: Global) -> Result<Vec<u8>, AllocError> {
    let mut bytes = Vec::from_slice(alloc, &ONE_PAGE)?;
    bytes.resize(4144, 0)?;
    Ok(bytes)
}

// The largest Frames command: a name of 255 bytes, transaction 2^32 + 3, no commit, and 64 pages of numbers from 2 on,
// each filled with its number.
fn largest(alloc: Global) -> Result<Vec<u8>, AllocError> {
    let mut bytes = Vec::from_slice(alloc, &ONE_PAGE[..8])?;
    bytes.resize(263, b'n')?;
    bytes.extend_from_slice(b"\0\x03\0\0\0\x01\0\0\0\0\0\0\0\0\0\0\0\x40\0\0\0\0\x10\0\0")?;
    for number in 2..66 {
        bytes.extend_from_slice(&[number, 0, 0, 0, 0, 0, 0, 0])?;
    }
    for number in 2..66 {
        bytes.resize(bytes.len() + 4096, number)?;
    }
    Ok(bytes)
}

// Whether the bytes are read as a command, and are what is written of it.
fn reads_back(alloc: Global, bytes: &[u8]) -> Result<bool, Fail> {
    let command = read_command(alloc, bytes)?;
    if !command.numbers_fit() {
        return Ok(false);
    }
    Ok(write_command(alloc, &command)?.as_slice() == bytes)
}

#[test]
fn commands_both_ways(rt: HostRuntime) -> Result<(), Fail> {
    for bytes in [OPEN_D, CHECKPOINT_D, UNDO] {
        assert!(rt; reads_back(rt.alloc(), &bytes)?);
    }
    assert!(rt; reads_back(rt.alloc(), &empty_commit(rt.alloc())?)?);
    assert!(rt; reads_back(rt.alloc(), &largest(rt.alloc())?)?);
    Ok(())
}

// What is written of a commit of one page, which states two empty files.
fn written(alloc: Global, name: Name) -> Result<Option<WireBytes>, AllocError> {
    let page = NumberedPage {
        number: 1,
        page: Page::zeroed(),
    };
    let command = Command::Frames {
        name,
        tx: 1,
        truncate: 1,
        commit: true,
        pages: Items::new(Vec::from_slice(alloc, &[page])?),
    };
    if !command.numbers_fit() {
        return Ok(None);
    }
    Ok(Some(write_command(alloc, &command)?))
}

#[test]
fn a_commit_is_written(rt: HostRuntime) -> Result<(), Fail> {
    let name = Name::new(String::from_str(rt.alloc(), "d")?).ok_or("a name")?;
    let bytes = written(rt.alloc(), name)?.ok_or("numbers that fit")?;
    assert!(rt; bytes.as_slice() == empty_commit(rt.alloc())?.as_slice());
    Ok(())
}

// The pages of each command that a set of this many pages is split into, and whether it commits. The set's transaction is 7.
fn cut(alloc: Global, count: u64) -> Result<Vec<(u64, usize, u32, bool)>, AllocError> {
    let mut pages = Vec::new(alloc);
    for number in 2..=count {
        pages.push(NumberedPage {
            number,
            page: Page::zeroed(),
        })?;
    }
    pages.push(NumberedPage {
        number: 1,
        page: Page::zeroed(),
    })?;
    let set = PageSet {
        tx: 7,
        pages: Items::new(pages),
    };
    let mut cuts = Vec::new(alloc);
    if !can_split(&set) {
        return Ok(cuts);
    }
    for command in &split(alloc, "d", &set)? {
        if let Command::Frames {
            tx,
            truncate,
            commit,
            pages,
            ..
        } = command
        {
            cuts.push((*tx, pages.len(), *truncate, *commit))?;
        }
    }
    Ok(cuts)
}

#[test]
fn sixty_five_pages_make_two_commands(rt: HostRuntime) -> Result<(), Fail> {
    let cuts = cut(rt.alloc(), 65)?;
    assert!(rt; cuts.as_slice() == [(7, 64, 0, false), (7, 1, 1, true)].as_slice());
    Ok(())
}

const HEADS: &[(&[u8], CommandFault)] = &[
    (b"", CommandFault::Word(WordFault::Short(0))),
    (
        b"\x01\x01\0\0\0\0\0",
        CommandFault::Word(WordFault::Short(0)),
    ),
    // What isn't there is looked for after what is.
    (b"\x01", CommandFault::Word(WordFault::Short(0))),
    (b"\x02", CommandFault::Format),
    (b"\x01\x09", CommandFault::Kind),
    (b"\x02\x09\0\0\0\0\0\x01", CommandFault::Format),
    (b"\x01\0\0\0\0\0\0\x01", CommandFault::Kind),
    (
        b"\x01\x03\0\0\0\0\0\0",
        CommandFault::Word(WordFault::Short(8)),
    ),
    (
        b"\x01\x04\0\0\0\0\0\0",
        CommandFault::Word(WordFault::NoNul(8)),
    ),
    (b"\x01\x05\0\0\0\0\0\0", CommandFault::Kind),
    (
        b"\x01\x01\x01\0\0\0\0\0",
        CommandFault::Word(WordFault::Pad(0)),
    ),
    (
        b"\x01\x02\0\0\0\0\0\x01",
        CommandFault::Word(WordFault::Pad(0)),
    ),
    (
        b"\x01\x01\0\0\0\0\0\0",
        CommandFault::Word(WordFault::NoNul(8)),
    ),
    (
        b"\x01\x01\0\0\0\0\0\0\0\0\0\0\0\0\0\0",
        CommandFault::Word(WordFault::Short(8)),
    ),
    (
        b"\x01\x01\0\0\0\0\0\0d\0\0\0\0\0\0\x01",
        CommandFault::Word(WordFault::Pad(8)),
    ),
    (
        b"\x01\x01\0\0\0\0\0\0\xff\0\0\0\0\0\0\0",
        CommandFault::Word(WordFault::NotUtf8(8)),
    ),
    // A name's length comes before its bytes.
    (
        b"\x01\x01\0\0\0\0\0\0\0\0\0\0\0\0\0\x01",
        CommandFault::Word(WordFault::Short(8)),
    ),
    (b"\x01\x01\0\0\0\0\0\0d\0\0\0\0\0\0\0\0", CommandFault::Tail),
];

#[test]
fn faults_of_heads_and_names(rt: HostRuntime) -> Result<(), Fail> {
    for &(bytes, fault) in HEADS {
        assert_eq!(rt; read_command(rt.alloc(), bytes).err(), Some(fault));
    }
    Ok(())
}

// Bytes that begin as an OpenDb command and have a name of one byte, this many times.
fn named(alloc: Global, len: u16, byte: u8) -> Result<Vec<u8>, AllocError> {
    let len = usize::from(len);
    let mut bytes = Vec::from_slice(alloc, &OPEN_D[..8])?;
    bytes.resize(8 + len, byte)?;
    bytes.resize(8 + (len / 8 + 1) * 8, 0)?;
    Ok(bytes)
}

const NAMES: &[(u16, u8, Option<CommandFault>)] = &[
    (255, b'n', None),
    (
        255,
        b'\xff',
        Some(CommandFault::Word(WordFault::NotUtf8(8))),
    ),
    (256, b'n', Some(CommandFault::Word(WordFault::Short(8)))),
    (256, b'\xff', Some(CommandFault::Word(WordFault::Short(8)))),
];

#[test]
fn names_have_lengths(rt: HostRuntime) -> Result<(), Fail> {
    for &(len, byte, fault) in NAMES {
        let bytes = named(rt.alloc(), len, byte)?;
        let answer = read_command(rt.alloc(), &bytes).err();
        assert_eq!(rt; answer, fault);
    }
    Ok(())
}

const CUTS: &[(usize, u64)] = &[(4143, 48), (47, 40), (39, 32), (31, 24), (23, 16)];

// Bytes put one after the other at their places, and the fault that then comes first.
const CHANGES: &[(usize, u8, CommandFault)] = &[
    (24, 1, CommandFault::Tail),
    (28, 2, CommandFault::Number),
    (37, 4, CommandFault::PageSize),
    // A count is only what the bytes state: with two numbers the first page begins at byte 56, and is incomplete.
    (32, 2, CommandFault::Word(WordFault::Short(56))),
    (39, 1, CommandFault::Word(WordFault::Pad(32))),
    (31, 1, CommandFault::Word(WordFault::Pad(24))),
    (15, 1, CommandFault::Word(WordFault::Pad(8))),
    (7, 1, CommandFault::Word(WordFault::Pad(0))),
    (1, 9, CommandFault::Kind),
    (0, 9, CommandFault::Format),
];

#[test]
fn faults_in_their_order(rt: HostRuntime) -> Result<(), Fail> {
    let mut bytes = empty_commit(rt.alloc())?;
    for &(len, at) in CUTS {
        let answer = read_command(rt.alloc(), bytes.get(..len).unwrap_or(&[])).err();
        assert_eq!(rt; answer, Some(CommandFault::Word(WordFault::Short(at))));
    }
    assert_eq!(rt; read_command(rt.alloc(), &bytes).err(), None);
    bytes.push(0)?;
    for &(place, byte, fault) in CHANGES {
        if let Some(slot) = bytes.get_mut(place) {
            *slot = byte;
        }
        assert_eq!(rt; read_command(rt.alloc(), &bytes).err(), Some(fault));
    }
    Ok(())
}

const FAULTS: &[(CommandFault, &str)] = &[
    (CommandFault::Format, "the command has another format"),
    (CommandFault::Kind, "no command has this type"),
    (
        CommandFault::Word(WordFault::NoMemory),
        "the command is malformed: out of memory",
    ),
    (CommandFault::PageSize, "the pages have another size"),
    (
        CommandFault::Number,
        "a number of the command is out of its range",
    ),
    (CommandFault::Tail, "bytes follow the command"),
    (CommandFault::NoMemory, "out of memory"),
];

#[test]
fn faults_say_why(rt: HostRuntime) -> Result<(), Fail> {
    for &(fault, text) in FAULTS {
        assert_eq!(rt; fault.to_string(rt.alloc())?.as_str(), text);
    }
    Ok(())
}
