ghost use Rattle.std.specs.Prelude.{◌≡◌, ◌≤◌, length, drop, IfOk, OnOk, IsErrOf, MatchResult, Ok, Err};
ghost use Rattle.log_commands.specs.declared.command.Command.{Command};
ghost use Rattle.log_commands.specs.declared.command.Command.TheVariants.{OpenDb, Checkpoint};
ghost use Rattle.log_commands.specs.declared.fault.CommandFault.{CommandFault};
ghost use Rattle.log_commands.specs.Spelling.{Writes};
ghost use Rattle.log_commands.specs.Reading.{Gives, Finds, kind_of, kind_at, frames_at, named_frames_at, named_at, undo_at, command_after, command_at, command_of};
ghost use Rattle.wire_words.specs.Reading.{unread};

use crate::command::Command;
use crate::fault::CommandFault;
use crate::items::{frame_items, name};
use crate::kind::CommandKind;
use dq_base::{Name, PAGE_SIZE};
use std::alloc::Global;
use wire_words::{WordFault, Words};

/// How many bytes the head of a command has.
const HEAD: usize = 8;

/// The type of the command that begins so. A first byte that isn't 1 is `Format`, and a second that represents no type
/// `Kind`.
fn kind(bytes: &[u8]) -> Result<CommandKind, CommandFault>
    ensures { result ≡ kind_of bytes.now }
{
    match bytes {
        [1, kind, ..] => CommandKind::of(*kind).ok_or(CommandFault::Kind),
        [] | [1] => Err(CommandFault::Word(WordFault::Short(0))),
        _ => Err(CommandFault::Format),
    }
}

/// The head, which the reader over the bytes is to pass: its type of command.
#[tactic(auto, unfolding(crate::specs::Reading::kind_at))]
fn head(bytes: &[u8], words: &mut Words<'_>) -> Result<CommandKind, CommandFault>
    requires { words.old ≡ unread bytes.now }
    ensures exact { MatchResult result (λ kind. kind_at words.old ≡ Ok (kind, words.new)) (λ fault. kind_at words.old ≡ Err fault) }
    ensures passed { OnOk result (8 ≤ length bytes.now) }
    ensures left { OnOk result (words.new.bytes ≡ drop 8 bytes.now) }
{
    let kind = kind(bytes)?;
    words.raw_slice(2)?;
    Ok(kind)
}

/// The rest of a Frames command. The first fault comes: that of an item, then `PageSize`, then `Number`.
#[tactic(auto, unfolding(crate::specs::Reading::frames_at))]
fn frames(alloc: Global, name: Name, words: &mut Words<'_>) -> Result<Command, CommandFault>
    ensures { Finds (frames_at name) words.old words.new result }
{
    let items = frame_items(alloc, words)?;
    if usize::from(items.size) != PAGE_SIZE {
        return Err(CommandFault::PageSize);
    }
    let command = Command::Frames {
        name,
        tx: items.tx,
        truncate: items.truncate,
        commit: items.flag == 1,
        pages: items.pages,
    };
    if items.flag > 1 || !command.numbers_fit() {
        return Err(CommandFault::Number);
    }
    Ok(command)
}

/// What follows the head of a Frames command: the reader has these bytes left.
#[tactic(auto, unfolding(crate::specs::Reading::named_frames_at))]
fn named_frames(alloc: Global, left: &[u8], words: &mut Words<'_>) -> Result<Command, CommandFault>
    requires { words.old.bytes ≡ left.now }
    ensures { Finds named_frames_at words.old words.new result }
{
    let name = name(alloc, left, words)?;
    frames(alloc, name, words)
}

/// What follows the head of an Undo command.
#[tactic(auto, unfolding(crate::specs::Reading::undo_at))]
fn undo(words: &mut Words<'_>) -> Result<Command, CommandFault>
    ensures { Finds undo_at words.old words.new result }
{
    let tx = words.u64()?;
    Ok(Command::Undo { tx })
}

/// What follows the head of an OpenDb command: the reader has these bytes left.
#[tactic(auto, unfolding(crate::specs::Reading::named_at))]
fn open_db(alloc: Global, left: &[u8], words: &mut Words<'_>) -> Result<Command, CommandFault>
    requires { words.old.bytes ≡ left.now }
    ensures { Finds (named_at (λ name. OpenDb name)) words.old words.new result }
{
    let name = name(alloc, left, words)?;
    Ok(Command::OpenDb { name })
}

/// What follows the head of a Checkpoint command: the reader has these bytes left.
#[tactic(auto, unfolding(crate::specs::Reading::named_at))]
fn checkpoint(alloc: Global, left: &[u8], words: &mut Words<'_>) -> Result<Command, CommandFault>
    requires { words.old.bytes ≡ left.now }
    ensures { Finds (named_at (λ name. Checkpoint name)) words.old words.new result }
{
    let name = name(alloc, left, words)?;
    Ok(Command::Checkpoint { name })
}

/// What follows the head of a command of this type: the reader has these bytes left.
fn rest(
    alloc: Global,
    kind: CommandKind,
    left: &[u8],
    words: &mut Words<'_>,
) -> Result<Command, CommandFault>
    requires { words.old.bytes ≡ left.now }
    ensures { Finds (command_after kind) words.old words.new result }
{
    match kind {
        CommandKind::OpenDb => open_db(alloc, left, words),
        CommandKind::Frames => named_frames(alloc, left, words),
        CommandKind::Undo => undo(words),
        CommandKind::Checkpoint => checkpoint(alloc, left, words),
    }
}

/// A command, whatever follows it. The reader is one over the bytes.
#[tactic(auto, unfolding(crate::specs::Reading::command_at))]
fn command(alloc: Global, bytes: &[u8], words: &mut Words<'_>) -> Result<Command, CommandFault>
    requires { words.old ≡ unread bytes.now }
    ensures exact { Finds command_at words.old words.new result }
    ensures head { (fault : CommandFault) → kind_at words.old ≡ Err fault → IsErrOf result fault }
{
    let kind = head(bytes, words)?;
    rest(alloc, kind, &bytes[HEAD..], words)
}

#[tactic(auto, unfolding(crate::specs::Reading::command_of))]
fn whole_command(alloc: Global, bytes: &[u8]) -> Result<Command, CommandFault>
    ensures exact { Gives (command_of bytes.now) result }
    ensures head { (fault : CommandFault) → kind_at (unread bytes.now) ≡ Err fault → IsErrOf result fault }
{
    let mut words = Words::new(bytes);
    let command = command(alloc, bytes, &mut words)?;
    if words.left() != 0 {
        return Err(CommandFault::Tail);
    }
    Ok(command)
}

/// Reads a command, which has to be all of the bytes. The first fault comes: `Format` where the first byte isn't 1,
/// `Kind` where the second represents no type, `Word` at the first item that isn't there, isn't filled up with zeros, or
/// is a name without a NUL or not in UTF-8, then `PageSize`, `Number` and `Tail`. A name that isn't 1 to 255 bytes is
/// `Word(Short(at))`, whatever bytes it has; no bytes, or a 1 alone, are `Word(Short(0))`. `NoMemory` means out of
/// memory, which no fault of the first eight bytes waits for. Each page is copied once, into the command.
pub fn read_command(alloc: Global, bytes: &[u8]) -> Result<Command, CommandFault>
    // What is read is what the bytes represent.
    ensures found { IfOk result (λ command. Writes command bytes.now) }
    // What the bytes represent is read, unless memory runs out.
    ensures only { (command : Command) → Writes command bytes.now → Gives (Ok command) result }
    // Which fault it is.
    ensures exact { Gives (command_of bytes.now) result }
    // A fault of the head comes whatever memory there is.
    ensures head { (fault : CommandFault) → kind_at (unread bytes.now) ≡ Err fault → IsErrOf result fault }
{
    whole_command(alloc, bytes)
}
