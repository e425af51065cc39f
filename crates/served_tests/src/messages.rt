//! What clients and peers say.

use dq_base::Items;
use raft_messages::{MessageBody, RaftMessage, write_message};
use std::alloc::Global;

/// The version of the wire, and an OPEN of `d`.
const OPEN: &[u8] =
    b"\x01\0\0\0\0\0\0\0\x04\0\0\0\x03\0\0\0d\0\0\0\0\0\0\0\0\0\0\0\0\0\0\0volatile\0\0\0\0\0\0\0\0";

/// The version of the wire, and a CONNECT of the second node at `n`.
const CONNECT: &[u8] = b"\x01\0\0\0\0\0\0\0\x02\0\0\0\x0b\0\0\0\x02\0\0\0\0\0\0\0n\0\0\0\0\0\0\0";

/// Something that is said on a connection.
#[derive(Clone, Copy)]
pub(crate) enum Said {
    /// The version, and that a database is opened.
    Open,
    /// A statement.
    Exec(&'static str),
    /// A query.
    Query(&'static str),
    /// The version, and that the second node speaks.
    Connect,
    /// A message of Raft from the node of this number to the first one.
    Raft(u64),
    /// The version, and this many bytes of a message that has more.
    Front(usize),
    /// This many bytes more of a message.
    More(usize),
    /// That a statement is prepared whose text has this many bytes.
    Prepare(usize),
}

/// A message of this type with a statement's text for the first database.
fn statement(alloc: Global, kind: u8, text: &str) -> Option<Vec<u8>> {
    let words = u32::try_from(text.len() / 8 + 2).ok()?;
    let mut bytes = Vec::from_slice(alloc, &words.to_le_bytes()).ok()?;
    bytes.extend_from_slice(&[kind, 0, 0, 0]).ok()?;
    bytes.extend_from_slice(&[0; 8]).ok()?;
    bytes.extend_from_slice(text.as_bytes()).ok()?;
    for _ in text.len() % 8..8 {
        bytes.push(0).ok()?;
    }
    Some(bytes)
}

/// The version, the header of a message of 16 MiB, and this many bytes of it.
fn front(alloc: Global, count: usize) -> Option<Vec<u8>> {
    let mut bytes = Vec::from_slice(alloc, b"\x01\0\0\0\0\0\0\0\0\0\x20\0\x08\0\0\0").ok()?;
    bytes
        .extend_from_slice(spaces(alloc, count)?.as_slice())
        .ok()?;
    Some(bytes)
}

/// This many spaces.
fn spaces(alloc: Global, count: usize) -> Option<Vec<u8>> {
    vec![in alloc; b' '; count].ok()
}

/// A PREPARE of a statement whose text has this many bytes, six at least.
fn preparing(alloc: Global, count: usize) -> Option<Vec<u8>> {
    let mut text = String::from_str(alloc, "SELECT 1").ok()?;
    for _ in 8..count {
        text.push(' ').ok()?;
    }
    statement(alloc, 4, text.as_str())
}

/// A TimeoutNow from the node of this number to the first one.
fn raft(alloc: Global, from: u64) -> Option<Vec<u8>> {
    let message = RaftMessage {
        from,
        to: 1,
        term: 3,
        what: MessageBody::TimeoutNow,
    };
    Some(write_message(alloc, &message).ok()?.into_vec())
}

/// The bytes of what is said.
pub(crate) fn bytes_of(alloc: Global, said: Said) -> Option<Items<u8>> {
    let bytes = match said {
        Said::Open => Vec::from_slice(alloc, OPEN).ok()?,
        Said::Connect => Vec::from_slice(alloc, CONNECT).ok()?,
        Said::Exec(text) => statement(alloc, 8, text)?,
        Said::Query(text) => statement(alloc, 9, text)?,
        Said::Raft(from) => raft(alloc, from)?,
        Said::Front(count) => front(alloc, count)?,
        Said::More(count) => spaces(alloc, count)?,
        Said::Prepare(count) => preparing(alloc, count)?,
    };
    Some(Items::new(bytes))
}
