use std::alloc::{AllocError, Global};
use std::test::*;
use wire_words::*;

/// How many messages a stream has that comes in pieces of this size, and how many bytes are unread at its end.
fn fed(mut splitter: Splitter, stream: &[u8], size: usize) -> Result<(usize, u64), SplitFault> {
    let mut count = 0;
    for piece in stream.chunks(size.max(1)) {
        count = splitter.feed(piece)?.len().saturating_add(count);
    }
    Ok((count, splitter.held()))
}

const TWO_MESSAGES: &[u8] =
    b"\x01\0\0\0\0\0\0\0\0\0\0\0\x05\x01\xff\xff\x01\0\0\0\x07\0\0\0bodybody";

const STREAMS: &[(&[u8], usize, Result<(usize, u64), SplitFault>)] = &[
    (TWO_MESSAGES, 32, Ok((2, 0))),
    (TWO_MESSAGES, 1, Ok((2, 0))),
    (b"\x01\0\0\0\0\0\0\0\0\0\x20\0\0\0\0\0", 16, Ok((0, 8))),
    (b"\x02\0\0\0\0\0\0\0", 8, Err(SplitFault::Version(2))),
];

const BROKEN: &[u8] = b"\0\0\0\0\0\0\0\0\x01\0\x20\0\0\0\0\0";

const CUTS_OF_BROKEN: &[(usize, Result<(usize, u64), SplitFault>)] = &[
    (16, Ok((1, 0))),
    (8, Err(SplitFault::TooLong(2_097_153))),
];

#[test]
fn streams_are_cut(rt: HostRuntime) {
    for &(bytes, size, wanted) in STREAMS {
        assert_eq!(rt; fed(Splitter::new(rt.alloc()), bytes, size), wanted);
    }
    for &(size, wanted) in CUTS_OF_BROKEN {
        assert_eq!(rt;
            fed(Splitter::after_version(rt.alloc()), BROKEN, size),
            wanted
        );
    }
}

/// The fault that a splitter reports of a piece after a version word, and how many messages come of that piece and these bytes,
/// if a peer's messages follow after the piece.
fn peers(alloc: Global, piece: &[u8], behind: &[u8]) -> (Option<SplitFault>, Option<usize>) {
    let mut splitter = Splitter::after_version(alloc);
    let Ok(first) = splitter.feed(piece) else {
        return (splitter.fault(), None);
    };
    let fault = splitter.fault();
    let mut splitter = splitter.for_peer();
    match splitter.feed(behind) {
        Ok(more) => (fault, Some(first.len().saturating_add(more.len()))),
        Err(_) => (fault, Some(first.len())),
    }
}

const LONG: &[u8] = b"\x01\0\x20\0\0\0\0\0";

const PEERS: &[(&[u8], &[u8], Option<SplitFault>, Option<usize>)] = &[
    (b"\0\0\0\0\0\0\0\0", LONG, None, Some(1)),
    (
        b"\0\0\0\0\0\0\0\0\x01\0",
        b"\0\0\0\0\0\0 byte by",
        None,
        Some(2),
    ),
    (LONG, b"", Some(SplitFault::TooLong(2_097_153)), None),
    (b"", b"\x01\0\0\x02\0\0\0\0", None, Some(0)),
];

#[test]
fn peers_may_send_longer_messages(rt: HostRuntime) {
    for &(piece, behind, fault, count) in PEERS {
        assert_eq!(rt; peers(rt.alloc(), piece, behind), (fault, count));
    }
}

/// The fault of a piece, and then that of a byte, after the messages that one piece gave; and what is held then.
fn faults_behind(alloc: Global, stream: &[u8], piece: &[u8]) -> Option<([SplitFault; 2], u64)> {
    let mut splitter = Splitter::after_version(alloc);
    splitter.feed(stream).ok()?;
    let first = splitter.feed(piece).err()?;
    let second = splitter.feed(b"\0").err()?;
    Some(([first, second], splitter.held()))
}

#[test]
fn faults_stay(rt: HostRuntime) {
    assert_eq!(rt;
        faults_behind(rt.alloc(), b"\0\0\0\0\0\0\0\0\x01\0\x20\0\0\0\0\0", b""),
        Some(([SplitFault::TooLong(2_097_153); 2], 0))
    );
}

/// A message with a blob of a mebibyte.
fn large_message(alloc: Global) -> Result<WireBytes, AllocError> {
    let bytes = vec![in alloc; 7u8; 1_048_576]?;
    let mut writer = Writer::new(alloc);
    writer.header(3, 0)?;
    writer.blob(&bytes)?;
    writer.finish_message()
}

/// How many bytes the blob of the last message has, if there is a message.
fn blob_size(alloc: Global, messages: &[Message]) -> Option<u64> {
    let blob = Words::new(messages.last()?.body.as_slice())
        .blob(alloc)
        .ok()?;
    Some(blob.len() as u64)
}

/// That of the last piece of a stream.
fn last_blob_size(alloc: Global, stream: &[u8]) -> Option<u64> {
    let mut splitter = Splitter::after_version(alloc);
    let mut size = None;
    for piece in stream.chunks(4_096) {
        size = blob_size(alloc, &splitter.feed(piece).ok()?);
    }
    size
}

#[test]
fn calls_at_size(rt: HostRuntime) -> Result<(), Fail> {
    let message = large_message(rt.alloc())?;
    assert_eq!(rt;
        last_blob_size(rt.alloc(), message.as_slice()),
        Some(1_048_576)
    );
    Ok(())
}
