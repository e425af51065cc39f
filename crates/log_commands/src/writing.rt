ghost use Rattle.std.specs.Prelude.{◌≡◌, ◌<◌, ◌≤◌, ◌^◌, ◌++◌, true, length, IfOk, OnOk};
ghost use Rattle.log_commands.specs.Numbers.{numbers_fit, frames_fit};
ghost use Rattle.log_commands.specs.Spelling.{Writes, IsInRange, IsTextName, HaveNumbers, HaveSizes, flag, head, command_bytes, frames_bytes, number_words, page_bytes};
ghost use Rattle.wire_words.specs.Items.{text, word};

use crate::command::Command;
use dq_base::{Name, NumberedPage, PAGE_SIZE};
use std::alloc::{AllocError, Global};
use wire_words::{WireBytes, Writer};

/// The format and the type of an OpenDb command, which zeros fill up to a word.
const OPEN_DB: [u8; 2] = [1, 1];

/// The format and the type of a Frames command, which zeros fill up to a word.
const FRAMES: [u8; 2] = [1, 2];

/// The format and the type of an Undo command, which zeros fill up to a word.
const UNDO: [u8; 2] = [1, 3];

/// The format and the type of a Checkpoint command, which zeros fill up to a word.
const CHECKPOINT: [u8; 2] = [1, 4];

fn put_name(out: &mut Writer, name: &Name) -> Result<(), AllocError>
    ensures bytes { OnOk result (out.new ≡ out.old ++ text name.now) }
    ensures fits { OnOk result (IsTextName name.now) }
{
    let name = name.as_str();
    out.text(name)
}

/// The numbers of the pages, a word each.
fn put_numbers(out: &mut Writer, pages: &[NumberedPage]) -> Result<(), AllocError>
    ensures bytes { OnOk result (out.new ≡ out.old ++ number_words pages.now) }
    ensures fit { OnOk result (HaveNumbers pages.now) }
{
    for page in pages {
        out.word(page.number)?;
    }
    Ok(())
}

/// The bytes of the pages.
fn put_pages(out: &mut Writer, pages: &[NumberedPage]) -> Result<(), AllocError>
    ensures bytes { OnOk result (out.new ≡ out.old ++ page_bytes pages.now) }
    ensures fit { OnOk result (HaveSizes pages.now) }
{
    for page in pages {
        let bytes = page.page.bytes();
        out.raw(bytes)?;
    }
    Ok(())
}

/// 1 for a commit, else 0.
fn flag(commit: bool) -> u32
    ensures { result ≡ flag commit }
{
    if commit { 1 } else { 0 }
}

/// What follows the name of a Frames command.
fn put_frames(
    out: &mut Writer,
    tx: u64,
    truncate: u32,
    commit: bool,
    pages: &[NumberedPage],
) -> Result<(), AllocError>
    requires { length pages.now ≤ 64 }
    ensures bytes { OnOk result (out.new ≡ out.old ++ frames_bytes tx truncate commit pages.now) }
    ensures numbers { OnOk result (HaveNumbers pages.now) }
    ensures sizes { OnOk result (HaveSizes pages.now) }
{
    out.word(tx)?;
    out.pair(truncate, flag(commit))?;
    out.pair(pages.len() as u32, PAGE_SIZE as u32)?;
    put_numbers(out, pages)?;
    put_pages(out, pages)
}

/// An Undo command.
fn put_undo(out: &mut Writer, tx: u64) -> Result<(), AllocError>
    ensures bytes { OnOk result (out.new ≡ out.old ++ (head 3 ++ word tx)) }
    ensures fits { tx < 2 ^ 64 }
{
    out.raw(&UNDO)?;
    out.word(tx)?;
    Ok(())
}

fn put_command(out: &mut Writer, command: &Command) -> Result<(), AllocError>
    requires { numbers_fit command.now ≡ true }
    ensures bytes { OnOk result (out.new ≡ out.old ++ command_bytes command.now) }
    ensures fits { OnOk result (IsInRange command.now) }
{
    match command {
        Command::OpenDb { name } => {
            out.raw(&OPEN_DB)?;
            put_name(out, name)
        }
        Command::Frames {
            name,
            tx,
            truncate,
            commit,
            pages,
        } => {
            out.raw(&FRAMES)?;
            put_name(out, name)?;
            put_frames(out, *tx, *truncate, *commit, pages.as_slice())
        }
        Command::Undo { tx } => put_undo(out, *tx),
        Command::Checkpoint { name } => {
            out.raw(&CHECKPOINT)?;
            put_name(out, name)
        }
    }
}

/// Writes a command, of which no number is out of its range: `Command::numbers_fit` tells. Fails where memory runs out.
pub fn write_command(alloc: Global, command: &Command) -> Result<WireBytes, AllocError>
    requires { numbers_fit command.now ≡ true }
    // What is written represents the command.
    ensures writes { IfOk result (Writes command.now) }
    // Which bytes they are.
    ensures bytes { IfOk result (λ bytes. bytes ≡ command_bytes command.now) }
{
    let mut out = Writer::new(alloc);
    put_command(&mut out, command)?;
    Ok(out.finish())
}
