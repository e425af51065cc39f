//! The Checkpoint that a serving leader owes after a commit.

ghost use Rattle.std.specs.Prelude.{◌≡◌, ℕ, List, nat_le, bytes_eq, IfOk, OnOk};
ghost use Rattle.std.specs.List.{AllByRecursion};
ghost use Rattle.log_commands.specs.declared.command.Command.TheVariants.{Checkpoint};
ghost use Rattle.log_commands.specs.Reading.{command_of};
ghost use Rattle.log_commands.specs.Spelling.{Writes};
ghost use Rattle.session_spec.specs.Entries.{Does, written_in, written};
ghost use Rattle.session_spec.specs.Machine.{machine_of};
ghost use Rattle.session_spec.specs.Seen.{HasSpelling, command_seen, entry_seen, log_seen};
ghost use Rattle.applied_state.specs.Office.{is_checkpoint, awaits_checkpoint, checkpoint_due, checkpoint_behind};

use crate::effect::AppliedEffect;
use crate::undoing::command_entry;
use database_state::Machine;
use dq_base::Name;
use log_commands::Command;
use raft_messages::{Entries, Entry, EntryKind};
use std::alloc::{AllocError, Global};

/// How many pages are committed in a database before a checkpoint of it is due.
const CHECKPOINT_PAGES: u64 = 1000;

/// Whether this many pages were committed in the database of a name.
fn has_grown(machine: &Machine, name: &Name) -> bool
    ensures { result ≡ nat_le 1000 ((machine_of machine.now).base name.now).since }
{
    match machine.since(name.as_str()) {
        Some(pages) => pages >= CHECKPOINT_PAGES,
        None => false,
    }
}

/// The Checkpoint of a database as an entry of a term.
fn checkpoint_entry(alloc: Global, term: u64, name: &Name) -> Result<Entry, AllocError>
    ensures entry { IfOk result (λ entry. entry ≡ written_in term (Does (Checkpoint name.now))) }
    ensures spelled { OnOk result (HasSpelling (Does (Checkpoint name.now))) }
{
    let command = Command::Checkpoint {
        name: name.try_clone(alloc)?,
    };
    command_entry(alloc, term, &command)
}

/// Whether bytes are the same.
fn are_same(bytes: &[u8], others: &[u8]) -> bool
    ensures { result ≡ bytes_eq bytes.now others.now }
{
    bytes == others
}

/// Whether bytes are those of a checkpoint, which has one encoding.
fn is_same(bytes: &[u8], checkpoint: &[u8]) -> bool
    ensures { (name : List ℕ) → Writes (Checkpoint name) checkpoint.now → result ≡ is_checkpoint name (command_seen (command_of bytes.now)) }
{
    are_same(bytes, checkpoint)
}

/// Whether an entry is the checkpoint of these bytes.
fn is_checkpoint(entry: &Entry, checkpoint: &[u8]) -> bool
    ensures { (name : List ℕ) → Writes (Checkpoint name) checkpoint.now → result ≡ is_checkpoint name (entry_seen entry.now).content }
{
    match entry.kind {
        EntryKind::Command => is_same(entry.bytes.as_slice(), checkpoint),
        EntryKind::Barrier | EntryKind::Change => false,
    }
}

/// Whether one of these entries is the checkpoint of these bytes.
fn awaits(checkpoint: &[u8], waiting: &[Entry]) -> bool
    ensures { (name : List ℕ) → Writes (Checkpoint name) checkpoint.now → result ≡ awaits_checkpoint name (log_seen waiting.now) }
{
    for entry in waiting {
        if is_checkpoint(entry, checkpoint) {
            return true;
        }
    }
    false
}

/// The checkpoint of the database of a name, as entries of a term: one, where 1,000 pages or more were committed since the
/// last one and none waits among the entries that aren't applied; else none.
fn checkpoint_due(
    alloc: Global,
    term: u64,
    machine: &Machine,
    name: &Name,
    waiting: &[Entry],
) -> Result<Entries, AllocError>
    ensures entries { IfOk result (λ entries. entries ≡ written term (checkpoint_due (machine_of machine.now) name.now (log_seen waiting.now))) }
    ensures spelled { OnOk result (AllByRecursion HasSpelling (checkpoint_due (machine_of machine.now) name.now (log_seen waiting.now))) }
{
    let mut entries = Vec::new(alloc);
    if has_grown(machine, name) {
        let entry = checkpoint_entry(alloc, term, name)?;
        if !awaits(entry.bytes.as_slice(), waiting) {
            entries.push(entry)?;
        }
    }
    Ok(Entries::new(entries))
}

/// The Checkpoint that a serving leader owes after an entry that was applied: none unless that was a commit.
pub(crate) fn checkpoint_behind(
    alloc: Global,
    term: u64,
    machine: &Machine,
    effect: &AppliedEffect,
    waiting: &[Entry],
) -> Result<Entries, AllocError>
    ensures entries { IfOk result (λ entries. entries ≡ written term (checkpoint_behind (machine_of machine.now) effect.now (log_seen waiting.now))) }
    ensures spelled { OnOk result (AllByRecursion HasSpelling (checkpoint_behind (machine_of machine.now) effect.now (log_seen waiting.now))) }
{
    match effect {
        AppliedEffect::Committed(name) => checkpoint_due(alloc, term, machine, name, waiting),
        AppliedEffect::Configured | AppliedEffect::Other => Ok(Entries::new(Vec::new(alloc))),
    }
}
