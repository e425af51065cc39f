//! Commands as entries of a leader, and the Undos that it owes.

ghost use Rattle.std.specs.Prelude.{◌≡◌, ◌++◌, true, Some, IfOk, OnOk};
ghost use Rattle.std.specs.List.{AllByRecursion};
ghost use Rattle.log_commands.specs.Numbers.{numbers_fit};
ghost use Rattle.session_spec.specs.Entries.{Does, written_in, written};
ghost use Rattle.session_spec.specs.Machine.{machine_of};
ghost use Rattle.session_spec.specs.Seen.{HasSpelling};
ghost use Rattle.session_safety.specs.Logs.{undos};
ghost use Rattle.applied_state.specs.Office.{undo_of};

use database_state::{Database, Machine};
use log_commands::{Command, write_command};
use raft_messages::{Entries, Entry, EntryKind, SharedBytes};
use std::alloc::{AllocError, Global};

/// A command as an entry of a term. No number of it is out of its range. `Err` means out of memory, here and in the
/// functions that follow.
pub(crate) fn command_entry(
    alloc: Global,
    term: u64,
    command: &Command,
) -> Result<Entry, AllocError>
    requires { numbers_fit command.now ≡ true }
    ensures entry { IfOk result (λ entry. entry ≡ written_in term (Does command.now)) }
    ensures spelled { OnOk result (HasSpelling (Does command.now)) }
{
    let bytes = write_command(alloc, command)?;
    Ok(Entry {
        term,
        kind: EntryKind::Command,
        bytes: SharedBytes::new(alloc, bytes)?,
    })
}

/// Appends the Undo of a transaction, if there is one.
fn push_undo(
    alloc: Global,
    term: u64,
    pending: Option<u64>,
    entries: &mut Vec<Entry>,
) -> Result<(), AllocError>
    ensures pushed { OnOk result (entries.new.items ≡ entries.old.items ++ written term (undo_of pending)) }
    ensures spelled { OnOk result (AllByRecursion HasSpelling (undo_of pending)) }
{
    if let Some(tx) = pending {
        entries.push(command_entry(alloc, term, &Command::Undo { tx })?)?;
    }
    Ok(())
}

/// One Undo for each of a state machine's databases with pending pages, as they stand.
fn undos_of(
    alloc: Global,
    term: u64,
    machine: &Machine,
    databases: &[Database],
) -> Result<Entries, AllocError>
    requires { databases.now ≡ machine.now }
    ensures entries { IfOk result (λ entries. entries ≡ written term (undos (machine_of databases.now))) }
    ensures spelled { OnOk result (AllByRecursion HasSpelling (undos (machine_of databases.now))) }
{
    let mut entries = Vec::new(alloc);
    for database in databases {
        let pending = machine.pending(database.name().as_str());
        push_undo(alloc, term, pending, &mut entries)?;
    }
    Ok(Entries::new(entries))
}

/// One Undo for each database with pending pages, in the order of names, as entries of a term.
pub(crate) fn undos(alloc: Global, term: u64, machine: &Machine) -> Result<Entries, AllocError>
    ensures entries { IfOk result (λ entries. entries ≡ written term (undos (machine_of machine.now))) }
    ensures spelled { OnOk result (AllByRecursion HasSpelling (undos (machine_of machine.now))) }
{
    undos_of(alloc, term, machine, machine.databases())
}
