//! The databases that what a node has kept represents.

ghost use Rattle.std.specs.Prelude.{◌≡◌, drop, IfOk, OnOk};
ghost use Rattle.std.specs.Option.{option_map};
ghost use Rattle.database_state.specs.Databases.{contents_of};
ghost use Rattle.session_spec.specs.Seen.{HasSpelling};
ghost use Rattle.applied_state.specs.Content.{meaning};
ghost use Rattle.store_format.specs.FilesRead.{snap_kept, HasIndex};
ghost use Rattle.folder_check.specs.Files.{databases_of, databases_at, after_content, after_entry, after_entries, entries_behind};

use applied_state::{Applied, Content, content_of};
use database_state::Machine;
use raft_messages::{Entry, Snapshot};
use std::alloc::{AllocError, Global};

/// What is left of items after this many; nothing if there are fewer.
fn rest<T>(items: &[T], count: usize) -> &[T]
    ensures { result.now ≡ drop count items.now }
{
    &items[count.min(items.len())..]
}

// ---- a node's snapshot

/// The state machine of a node's snapshot of an index, if the bytes are one.
fn restored(alloc: Global, index: u64, bytes: &[u8]) -> Result<Option<Machine>, AllocError>
    ensures { IfOk result (λ machine. option_map contents_of machine ≡ databases_of bytes.now) }
{
    let applied = Applied::from_snapshot(alloc, index, bytes)?;
    match applied {
        Some(applied) => Ok(Some(applied.machine)),
        None => Ok(None),
    }
}

/// The state machine at the kept snapshot, and one without databases if index 0 is kept; nothing if the snapshot isn't one of
/// a node.
pub(crate) fn machine_at(
    alloc: Global,
    snapshot: &Option<Snapshot>,
) -> Result<Option<Machine>, AllocError>
    requires { HasIndex snapshot.now }
    ensures { IfOk result (λ machine. option_map contents_of machine ≡ databases_at (snap_kept snapshot.now)) }
{
    match snapshot {
        Some(snapshot) => restored(alloc, snapshot.index, snapshot.bytes.as_slice()),
        None => Ok(Some(Machine::new(alloc))),
    }
}

// ---- entries

/// Does what an entry is for.
fn perform(machine: &mut Machine, content: &Content) -> Result<(), AllocError>
    requires { HasSpelling (meaning content.now) }
    ensures { OnOk result (contents_of machine.new ≡ after_content (contents_of machine.old) (meaning content.now)) }
{
    match content {
        Content::Does(command) => machine.act(command),
        Content::Configures(_) | Content::Other => Ok(()),
    }
}

/// Does what an entry says.
fn apply(alloc: Global, machine: &mut Machine, entry: &Entry) -> Result<(), AllocError>
    ensures { OnOk result (contents_of machine.new ≡ after_entry (contents_of machine.old) entry.now) }
{
    let content = content_of(alloc, entry)?;
    perform(machine, &content)
}

/// Does what entries say, one after the other.
pub(crate) fn apply_all(
    alloc: Global,
    machine: &mut Machine,
    entries: &[Entry],
) -> Result<(), AllocError>
    ensures { OnOk result (contents_of machine.new ≡ after_entries (contents_of machine.old) entries.now) }
{
    for entry in entries {
        apply(alloc, machine, entry)?;
    }
    Ok(())
}

/// The entries that lie after an index, of those from `first` on.
pub(crate) fn entries_behind(index: u64, first: u64, entries: &[Entry]) -> &[Entry]
    ensures { result.now ≡ entries_behind index (record { first = first; entries = entries.now }) }
{
    if index < first {
        entries
    } else {
        rest(rest(entries, (index - first) as usize), 1)
    }
}
