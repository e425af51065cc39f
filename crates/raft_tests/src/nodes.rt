//! Nodes to test.
use raft_core::{RaftEvent, RaftNode, StoredRaft, Todo};
use raft_messages::{Entries, Entry, EntryKind, SharedBytes, read_servers};
use std::alloc::{AllocError, Global};
use std::test::Fail;
use wire_words::WireBytes;

/// Three voters.
pub const THREE: &[u64] = &[0, 0, 0];

/// Five voters.
pub const FIVE: &[u64] = &[0, 0, 0, 0, 0];

/// The bytes of a configuration of servers 1, 2, .. with these roles.
pub fn configuration(alloc: Global, roles: &[u64]) -> Result<Vec<u8>, AllocError> {
    let mut bytes = Vec::new(alloc);
    bytes.extend_from_slice(&(roles.len() as u64).to_le_bytes())?;
    let mut id: u64 = 0;
    for role in roles {
        id = id.saturating_add(1);
        for word in [id, 0x6e, *role] {
            bytes.extend_from_slice(&word.to_le_bytes())?;
        }
    }
    Ok(bytes)
}

/// Entries of these terms.
pub fn entries(alloc: Global, terms: &[u64]) -> Result<Entries, AllocError> {
    let mut entries = Vec::new(alloc);
    for term in terms {
        entries.push(Entry {
            term: *term,
            kind: EntryKind::Command,
            bytes: SharedBytes::new(alloc, WireBytes::new(Vec::new(alloc)))?,
        })?;
    }
    Ok(Entries::new(entries))
}

/// A fresh node among servers of these roles.
pub fn fresh(alloc: Global, id: u64, roles: &[u64]) -> Result<RaftNode, Fail> {
    let bytes = configuration(alloc, roles)?;
    let (servers, _) = read_servers(alloc, bytes.as_slice())?;
    let kept = StoredRaft {
        term: 0,
        vote: 0,
        snapshot: None,
        first: 1,
        entries: entries(alloc, &[])?,
    };
    Ok(RaftNode::new(alloc, id, servers.as_slice(), kept)?)
}

/// A step of a node, of an event that doesn't tell it servers.
pub fn step(alloc: Global, node: &mut RaftNode, event: RaftEvent) -> Result<Todo, Fail> {
    if let RaftEvent::Servers(_) = &event {
        return Err(Fail::from("servers"));
    }
    Ok(node.step(alloc, event)?)
}
