//! The entries that bring commands to every node.

ghost use Rattle.std.specs.Prelude.{◌≡◌, ◌<◌, ◌≤◌, ◌^◌, suc, true, is_none, map, OnOk, IfOk};
ghost use Rattle.std.specs.List.{AllByRecursion};
ghost use Rattle.log_commands.specs.Numbers.{numbers_fit};
ghost use Rattle.dq_base.specs.Applying.{page_fault};
ghost use Rattle.log_commands.specs.Splitting.{split};
ghost use Rattle.session_spec.specs.Entries.{Does, written_in, written, tx_of};
ghost use Rattle.session_spec.specs.Seen.{HasSpelling};

use dq_base::{Name, PageSet};
use log_commands::{Command, split, write_command};
use raft_messages::{Entries, Entry, EntryKind, SharedBytes};
use std::alloc::{AllocError, Global};

/// A command as an entry of a term. No number of it is out of its range.
pub(crate) fn entry(alloc: Global, term: u64, command: &Command) -> Result<Entry, AllocError>
    requires { numbers_fit command.now ≡ true }
    ensures entry { IfOk result (λ entry. entry ≡ written_in term (Does command.now)) }
    // So it is seen again.
    ensures spelled { OnOk result (HasSpelling (Does command.now)) }
{
    let bytes = write_command(alloc, command)?;
    Ok(Entry {
        term,
        kind: EntryKind::Command,
        bytes: SharedBytes::new(alloc, bytes)?,
    })
}

/// Commands as entries of a term, in order. No number of them is out of its range.
pub(crate) fn entries(alloc: Global, term: u64, commands: &[Command]) -> Result<Entries, AllocError>
    requires { AllByRecursion (λ command. numbers_fit command ≡ true) commands.now }
    ensures entries { IfOk result (λ entries. entries ≡ written term (map Does commands.now)) }
    // So they are seen again.
    ensures spelled { OnOk result (AllByRecursion HasSpelling (map Does commands.now)) }
{
    let mut entries = Vec::with_capacity(alloc, commands.len())?;
    for command in commands {
        entries.push(entry(alloc, term, command)?)?;
    }
    Ok(Entries::new(entries))
}

/// The entries that bring a change of a database's pages to every node, as commands of a term. The pages can be applied. Each is
/// copied once.
#[tactic(auto, using(crate::proofs::LowNumbers::splits))]
pub(crate) fn change_entries(
    alloc: Global,
    term: u64,
    name: &Name,
    set: &PageSet,
) -> Result<Entries, AllocError>
    requires { is_none (page_fault set.now.pages) ≡ true }
    ensures entries { IfOk result (λ entries. entries ≡ written term (map Does (split name.now set.now))) }
    // So they are seen again.
    ensures spelled { OnOk result (AllByRecursion HasSpelling (map Does (split name.now set.now))) }
{
    let commands = split(alloc, name.as_str(), set)?;
    entries(alloc, term, commands.as_slice())
}

/// The number of the transaction whose entries come next after an index in a term; 0 where the two have no number of
/// 64 bits: the term is above 4,294,967,295, or the index is not below it.
#[tactic(auto, unfolding(session_spec::specs::Entries::tx_of))]
pub(crate) fn transaction_number(term: u64, last: u64) -> u64
    ensures number { term ≤ 4294967295 → last < 4294967295 → result ≡ tx_of term (suc last) }
    ensures term_above { 4294967295 < term → result ≡ 0 }
    ensures index_above { 4294967295 ≤ last → result ≡ 0 }
{
    if term > 4_294_967_295 || last >= 4_294_967_295 {
        return 0;
    }
    term * 4_294_967_296 + (last + 1)
}
