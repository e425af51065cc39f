//! Entries that are applied, one after another.

ghost use Rattle.raft_messages.specs.Servers.{IsConfiguration};

use applied_state::{Applied, AppliedEffect};
use dq_base::Items;
use raft_messages::{Entry, EntryKind, Servers, SharedBytes};
use std::alloc::{AllocError, Global};
use std::test::Fail;

/// What is reported of an entry.
#[derive(Clone, Copy, Debug, PartialEq, Eq)]
pub(crate) enum Told {
    Committed,
    Configured,
    Unmarked,
}

/// An OpenDb of `d`.
pub(crate) const OPEN_DB: &[u8] = &[1, 1, 0, 0, 0, 0, 0, 0, 100, 0, 0, 0, 0, 0, 0, 0];

/// A Checkpoint of `d`.
pub(crate) const CHECKPOINT: &[u8] = &[1, 4, 0, 0, 0, 0, 0, 0, 100, 0, 0, 0, 0, 0, 0, 0];

/// The configuration of one voter, 1 at `n`.
pub(crate) const ONE_VOTER: &[u8] = &[
    1, 0, 0, 0, 0, 0, 0, 0, 1, 0, 0, 0, 0, 0, 0, 0, 110, 0, 0, 0, 0, 0, 0, 0, 0, 0, 0, 0, 0, 0, 0,
    0,
];

/// One byte more than a configuration has.
const BYTE_MORE: &[u8] = &[
    1, 0, 0, 0, 0, 0, 0, 0, 1, 0, 0, 0, 0, 0, 0, 0, 110, 0, 0, 0, 0, 0, 0, 0, 0, 0, 0, 0, 0, 0, 0,
    0, 0,
];

/// An entry, what is reported of it, and how many databases and servers there are after it and those above it, with its index.
const ROWS: &[(EntryKind, &[u8], Told, usize, usize, u64)] = &[
    (EntryKind::Barrier, &[], Told::Unmarked, 0, 0, 1),
    (EntryKind::Barrier, OPEN_DB, Told::Unmarked, 0, 0, 2),
    (EntryKind::Command, &[2], Told::Unmarked, 0, 0, 3),
    (EntryKind::Command, ONE_VOTER, Told::Unmarked, 0, 0, 4),
    (EntryKind::Command, OPEN_DB, Told::Unmarked, 1, 0, 5),
    (EntryKind::Command, CHECKPOINT, Told::Unmarked, 1, 0, 6),
    (EntryKind::Change, OPEN_DB, Told::Unmarked, 1, 0, 7),
    (EntryKind::Change, BYTE_MORE, Told::Unmarked, 1, 0, 8),
    (EntryKind::Change, ONE_VOTER, Told::Configured, 1, 1, 9),
];

pub(crate) fn entry_of(alloc: Global, kind: EntryKind, bytes: &[u8]) -> Result<Entry, AllocError> {
    let bytes = Items::new(Vec::from_slice(alloc, bytes)?);
    Ok(Entry {
        term: 1,
        kind,
        bytes: SharedBytes::new(alloc, bytes)?,
    })
}

fn told_of(effect: &AppliedEffect) -> Told {
    match effect {
        AppliedEffect::Committed(_) => Told::Committed,
        AppliedEffect::Configured => Told::Configured,
        AppliedEffect::Other => Told::Unmarked,
    }
}

/// Applies an entry; `None` where there is no index for it, or no memory.
pub(crate) fn applies(
    alloc: Global,
    applied: &mut Applied,
    kind: EntryKind,
    bytes: &[u8],
) -> Option<Told>
    ensures { IsConfiguration applied.old.servers → IsConfiguration applied.new.servers }
{
    let entry = entry_of(alloc, kind, bytes).ok()?;
    if applied.index >= 1_000_000 {
        return None;
    }
    let effect = applied.apply(alloc, &entry).ok()?;
    Some(told_of(&effect))
}

pub(crate) fn nobody(alloc: Global) -> Servers {
    Items::new(Vec::new(alloc))
}

/// How many databases and servers there are, and the applied index.
fn counts(applied: &Applied) -> (usize, usize, u64) {
    (
        applied.machine.databases().len(),
        applied.servers.len(),
        applied.index,
    )
}

#[test]
fn entries_are_applied(rt: HostRuntime) -> Result<(), Fail> {
    let mut applied = Applied::new(rt.alloc(), nobody(rt.alloc()));
    for &(kind, bytes, told, databases, servers, index) in ROWS {
        assert_eq!(rt; applies(rt.alloc(), &mut applied, kind, bytes), Some(told));
        assert_eq!(rt; counts(&applied), (databases, servers, index));
    }
    Ok(())
}
