//! The configurations of a log, as entries join, are truncated and are applied.
use crate::nodes::configuration;
use crate::owner::{entry_of, joins, leaves, members_at, roles_of, settles_at};
use raft_membership::Members;
use raft_messages::{EntryKind, read_servers};
use std::alloc::{AllocError, Global};
use std::test::*;

// What happens to the configurations of a log. An entry has an index; a change has the roles of its servers and bytes after
// the last server, and one that is truncated lacks this many bytes.
#[derive(Clone, Copy)]
enum Row {
    Entry(u64, EntryKind),
    Change(u64, &'static [u64], &'static [u8]),
    Cut(u64, &'static [u64], usize),
    Push(u64, &'static [u64]),
    From(u64),
    Settle(u64),
}

// An entry of this kind and these bytes joins.
fn joined(
    alloc: Global,
    members: &mut Members,
    index: u64,
    kind: EntryKind,
    bytes: Vec<u8>,
) -> Result<bool, Fail> {
    let entry = entry_of(alloc, kind, bytes)?;
    joins(alloc, members, index, &entry)
}

// The bytes of a configuration of servers with these roles, and those after it.
fn longer(alloc: Global, roles: &[u64], behind: &[u8]) -> Result<Vec<u8>, AllocError> {
    let mut bytes = configuration(alloc, roles)?;
    bytes.extend_from_slice(behind)?;
    Ok(bytes)
}

// The bytes of a configuration without this many at its end.
fn shorter(alloc: Global, roles: &[u64], less: usize) -> Result<Vec<u8>, AllocError> {
    let mut bytes = configuration(alloc, roles)?;
    bytes.truncate(bytes.len().saturating_sub(less));
    Ok(bytes)
}

// A change of servers with these roles joins, whose bytes aren't read.
fn pushed(alloc: Global, members: &mut Members, index: u64, roles: &[u64]) -> Result<bool, Fail> {
    let bytes = configuration(alloc, roles)?;
    let (servers, _) = read_servers(alloc, bytes.as_slice())?;
    if index <= members.last_index() {
        return Err(Fail::from("a change below a change"));
    }
    members.push(index, servers)?;
    Ok(true)
}

// What a row answers.
fn answer(alloc: Global, members: &mut Members, row: Row) -> Result<bool, Fail> {
    match row {
        Row::Entry(index, kind) => joined(alloc, members, index, kind, Vec::new(alloc)),
        Row::Change(index, roles, behind) => {
            let bytes = longer(alloc, roles, behind)?;
            joined(alloc, members, index, EntryKind::Change, bytes)
        }
        Row::Cut(index, roles, less) => {
            let bytes = shorter(alloc, roles, less)?;
            joined(alloc, members, index, EntryKind::Change, bytes)
        }
        Row::Push(index, roles) => pushed(alloc, members, index, roles),
        Row::From(index) => leaves(members, index),
        Row::Settle(applied) => {
            settles_at(members, applied)?;
            Ok(false)
        }
    }
}

// Whether the configurations are those of these roles: the current one and the applied one, with the index of the last change.
fn stand(
    alloc: Global,
    members: &Members,
    current: &[u64],
    applied: &[u64],
    last: u64,
) -> Result<bool, AllocError> {
    let now = roles_of(alloc, members.current())?;
    let before = roles_of(alloc, members.applied())?;
    Ok(now.as_slice() == current && before.as_slice() == applied && members.last_index() == last)
}

const THREE: &[u64] = &[0, 0, 0];

const OTHER: &[u64] = &[0, 0, 1];

// A row, what it answers, and then the roles of the current servers, those of the applied ones, and the last change's index.
// The log ends at 2 at first, with three voters.
const ROWS: &[(Row, bool, &[u64], &[u64], u64)] = &[
    // Only a change joins them, and only if its bytes end with the last server.
    (Row::Entry(3, EntryKind::Command), false, THREE, THREE, 2),
    (Row::Entry(3, EntryKind::Barrier), false, THREE, THREE, 2),
    (Row::Entry(3, EntryKind::Change), false, THREE, THREE, 2),
    (Row::Change(3, OTHER, &[0]), false, THREE, THREE, 2),
    (Row::Change(3, OTHER, &[0; 8]), false, THREE, THREE, 2),
    (Row::Cut(3, OTHER, 1), false, THREE, THREE, 2),
    (Row::Cut(3, OTHER, 24), false, THREE, THREE, 2),
    (Row::Change(3, &[0, 0, 3], &[]), false, THREE, THREE, 2),
    (Row::Change(4, OTHER, &[]), true, OTHER, THREE, 4),
    (Row::Change(7, &[0, 0], &[]), true, &[0, 0], THREE, 7),
    // What is truncated takes its changes with it, and no other.
    (Row::From(8), false, &[0, 0], THREE, 7),
    (Row::From(7), true, OTHER, THREE, 4),
    (Row::From(3), true, THREE, THREE, 2),
    (Row::Push(3, OTHER), true, OTHER, THREE, 3),
    (Row::Push(6, &[0, 1, 1]), true, &[0, 1, 1], THREE, 6),
    (Row::Push(9, &[0]), true, &[0], THREE, 9),
    // The applied configuration is the last one up to there.
    (Row::Settle(2), false, &[0], THREE, 9),
    (Row::Settle(5), false, &[0], OTHER, 9),
    (Row::From(7), true, &[0, 1, 1], OTHER, 6),
    (Row::Settle(8), false, &[0, 1, 1], &[0, 1, 1], 8),
    (Row::From(9), false, &[0, 1, 1], &[0, 1, 1], 8),
];

// The first row whose answer or whose configurations are others.
fn first_other(alloc: Global) -> Result<Option<usize>, Fail> {
    let mut members = members_at(alloc, THREE, 2)?;
    for n in 0..ROWS.len() {
        let (row, told, current, applied, last) = ROWS[n];
        if answer(alloc, &mut members, row)? != told {
            return Ok(Some(n));
        }
        if !stand(alloc, &members, current, applied, last)? {
            return Ok(Some(n));
        }
    }
    Ok(None)
}

#[test]
fn rows_of_configurations(rt: HostRuntime) -> Result<(), Fail> {
    assert_eq!(rt; first_other(rt.alloc())?, None);
    Ok(())
}
