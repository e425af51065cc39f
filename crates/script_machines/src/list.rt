//! The list of commands that state machines apply, within its limits.

ghost use Rattle.std.specs.Prelude.{◌≡◌, ◌<◌, ◌+◌, ◌^◌, ◌++◌, ◌∷◌, [], length, vec_len, set, get_or, slice_get, IfOk, IfSome, OnSome, OnErr, Some, MatchOption, true, false, option_copied, if◌then◌else◌};
ghost use Rattle.dq_base.specs.Applying.{last_page};
ghost use Rattle.log_commands.specs.Numbers.{numbers_fit, HasLowNumbers};
ghost use Rattle.script_machines.specs.declared.stated.Stated.{Stated};
ghost use Rattle.script_machines.specs.Limits.{length_stated_by, stated_by, note, noted, is_allowed, IsNotedAt, IsNew};

use crate::stated::Stated;
use dq_base::{Name, NumberedPage, stated_lengths};
use log_commands::Command;
use std::alloc::{AllocError, Global};
use std::marker::Model;

/// How many names a list may have.
const MAX_NAMES: usize = 16;

/// How long the files may be that a list states, all together.
const MAX_TOTAL_LENGTH: u64 = 67_108_864;

/// The place of the entry of a name.
fn place_of(table: &[Stated], name: &Name) -> Option<usize>
    ensures { MatchOption result (IsNew name.now table.now) (IsNotedAt name.now table.now) }
{
    for (place, stated) in table.iter().enumerate() {
        if stated.name == *name {
            return Some(place);
        }
    }
    None
}

/// Whether a table is within the limits.
#[tactic(auto, unfolding(crate::specs::Limits::is_allowed))]
fn is_within(table: &[Stated]) -> bool
    ensures { result ≡ is_allowed table.now }
{
    let mut total: u64 = 0;
    for stated in table {
        total = total.saturating_add(stated.length);
    }
    table.len() <= MAX_NAMES && total <= MAX_TOTAL_LENGTH
}

/// Gives the entry at a place another length.
fn put_length(table: &mut Vec<Stated>, place: usize, size: u64)
    requires { place < vec_len table.old }
    ensures { (s : Stated) → table.new.items ≡ set table.old.items place (record { name = (get_or table.old.items place s).name; length = size }) }
{
    let stated = &mut table[place];
    stated.length = size;
}

/// Notes a length for a name where the table stays within the limits, and else leaves the table as it was. Answers
/// whether it did.
fn try_note(
    alloc: Global,
    table: &mut Vec<Stated>,
    name: &Name,
    length: u64,
) -> Result<bool, AllocError>
    ensures allowed { IfOk result (λ noted. noted ≡ is_allowed (note table.old.items name.now length)) }
    ensures noted { IfOk result (λ noted. noted ≡ true → table.new.items ≡ note table.old.items name.now length) }
    ensures kept { IfOk result (λ noted. noted ≡ false → table.new.items ≡ table.old.items) }
    ensures err { OnErr result (table.new.items ≡ table.old.items) }
{
    let Some(place) = place_of(table.as_slice(), name) else {
        let name = name.try_clone(alloc)?;
        table.push(Stated { name, length })?;
        let within = is_within(table.as_slice());
        if !within {
            table.pop();
        }
        return Ok(within);
    };
    let before = table[place].length;
    put_length(table, place, before.max(length));
    let within = is_within(table.as_slice());
    if !within {
        put_length(table, place, before);
    }
    Ok(within)
}

/// The length that a page states, of both files together: 0 where it is no sizes page.
#[tactic(auto, using(crate::proofs::CommandSizes::small_files))]
fn length_in(page: &NumberedPage) -> u64
    ensures { result ≡ length_stated_by (Some page.now) }
{
    match stated_lengths(page) {
        Some(lengths) => lengths.main as u64 + lengths.side as u64,
        None => 0,
    }
}

/// The length that Frames with these pages state: that of the sizes page with which they commit, else 0.
fn length_stated(commit: bool, pages: &[NumberedPage]) -> u64
    ensures { result ≡ (if commit then length_stated_by (last_page pages.now) else 0) }
{
    if !commit {
        return 0;
    }
    match pages.last() {
        Some(page) => length_in(page),
        None => 0,
    }
}

/// Notes what a command states where the table stays within the limits, and else leaves the table as it was. Answers
/// whether it is within them.
fn try_note_command(
    alloc: Global,
    table: &mut Vec<Stated>,
    command: &Command,
) -> Result<bool, AllocError>
    ensures allowed { IfOk result (λ within. within ≡ is_allowed (noted table.old.items (stated_by command.now))) }
    ensures noted { IfOk result (λ within. within ≡ true → table.new.items ≡ noted table.old.items (stated_by command.now)) }
    ensures kept { IfOk result (λ within. within ≡ false → table.new.items ≡ table.old.items) }
    ensures err { OnErr result (table.new.items ≡ table.old.items) }
{
    match command {
        Command::OpenDb { name } => try_note(alloc, table, name, 0),
        Command::Frames {
            name,
            commit,
            pages,
            ..
        } => {
            let length = length_stated(*commit, pages.as_slice());
            try_note(alloc, table, name, length)
        }
        Command::Undo { .. } | Command::Checkpoint { .. } => Ok(is_within(table.as_slice())),
    }
}

/// A list of commands within its limits: at most 16 names, and in all at most 67,108,864 bytes of files that it states.
/// Contracts see it as its commands.
#[derive(Drop)]
pub(crate) struct CommandList {
    commands: Vec<Command>,
    table: Vec<Stated>,
}

impl Model for CommandList {
    ghost use Rattle.std.specs.Prelude.{List};
    ghost use Rattle.log_commands.specs.declared.command.Command.{Command};
    ghost use Rattle.script_machines.specs.Kept.{IsKept};

    ghost Value = { List Command };

    ghost view = { λ l. l.commands.items };

    ghost invariant = { λ l. IsKept l.commands.items l.table.items };
}

impl CommandList {
    ghost use Rattle.script_machines.specs.Limits.{may_join};

    /// No commands.
    pub fn new(alloc: Global) -> CommandList
        ensures { result ≡ [] }
    {
        CommandList {
            commands: Vec::new(alloc),
            table: Vec::new(alloc),
        }
    }

    /// The command at a place, counted from 0, if the list is so long. No page of it has a number above 4,294,967,295.
    pub fn get(&self, place: usize) -> Option<&Command>
        ensures command { option_copied result ≡ slice_get self.now place }
        ensures low { IfSome result (λ command. HasLowNumbers command.now) }
        ensures small { OnSome result (place + 1 < 2 ^ 64) }
    {
        self.commands.get(place)
    }

    /// Adds a command where the limits allow it, and answers whether it did. If they don't, and after `Err`, which
    /// means out of memory, the list is as before. The command's numbers are in their ranges, as `Command::numbers_fit`
    /// tells and as those of a command are that was read. Looks at each name of the list, and copies none that is there.
    pub fn try_push(&mut self, alloc: Global, command: Command) -> Result<bool, AllocError>
        requires { numbers_fit command ≡ true }
        ensures allowed { IfOk result (λ joined. joined ≡ may_join self.old command) }
        ensures joined { IfOk result (λ joined. joined ≡ true → self.new ≡ self.old ++ command ∷ []) }
        ensures refused { IfOk result (λ joined. joined ≡ false → self.new ≡ self.old) }
        ensures err { OnErr result (self.new ≡ self.old) }
    {
        self.commands.reserve(1)?;
        let joins = try_note_command(alloc, &mut self.table, &command)?;
        if joins {
            self.commands.push(command)?;
        }
        Ok(joins)
    }
}
