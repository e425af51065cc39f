ghost use Rattle.std.specs.Prelude.{◌≡◌, true, length, IfOk};
ghost use Rattle.std.specs.List.{AllByRecursion};
ghost use Rattle.dq_base.specs.Names.{IsName};
ghost use Rattle.dq_base.specs.Applying.{is_sizes, last_page};
ghost use Rattle.log_commands.specs.declared.command.Command.TheVariants.{Frames};
ghost use Rattle.log_commands.specs.Numbers.{numbers_fit};
ghost use Rattle.log_commands.specs.Splitting.{count_stated, split_from, before_last, split, can_split};

use crate::command::Command;
use crate::numbers::{MAX_FRAME_PAGES, ascend, stated_count};
use dq_base::{Items, Name, NumberedPage, PageSet};
use std::alloc::{AllocError, Global};

/// The page count that the last of these pages states; 0 where it is no sizes page.
#[tactic(auto, using(crate::proofs::SplitFits::small_count))]
fn count_stated(pages: &[NumberedPage]) -> u32
    ensures { result ≡ count_stated (last_page pages.now) }
{
    let Some(last) = pages.last() else {
        return 0;
    };
    match stated_count(last) {
        Some(count) => count as u32,
        None => 0,
    }
}

/// A Frames command with a copy of these pages.
fn frames(
    alloc: Global,
    name: &str,
    tx: u64,
    truncate: u32,
    commit: bool,
    pages: &[NumberedPage],
) -> Result<Command, AllocError>
    requires { IsName name.now }
    ensures { IfOk result (λ command. command ≡ Frames name.now tx truncate commit pages.now) }
{
    let name = String::from_str(alloc, name)?;
    let pages = Vec::from_slice(alloc, pages)?;
    Ok(Command::Frames {
        name: Name::new(name).unwrap(),
        tx,
        truncate,
        commit,
        pages: Items::new(pages),
    })
}

/// Whether a page set may be split: it ends with a sizes page, and the numbers before that ascend from 2 on and are at most
/// 4,294,967,295.
pub fn can_split(set: &PageSet) -> bool
    ensures { result ≡ can_split set.now.pages }
{
    pages_can_split(set.pages.as_slice())
}

/// Whether a page is a sizes page.
fn is_sizes(page: &NumberedPage) -> bool
    ensures { result ≡ is_sizes page.now }
{
    stated_count(page).is_some()
}

/// Works on the pages alone, which belong to no set.
fn pages_can_split(pages: &[NumberedPage]) -> bool
    ensures { result ≡ can_split pages.now }
{
    let Some((last, front)) = pages.split_last() else {
        return false;
    };
    is_sizes(last) && ascend(2, front)
}

/// Cuts a page set into the commands that bring it to every node: Frames of 64 pages each but the last, in order, all of
/// the set's transaction. Only the last one commits, and it states the page count of the image after; the others state
/// 0. The name is that of a database, and the set may be split: `can_split` tells. Each page is copied once.
pub fn split(alloc: Global, name: &str, set: &PageSet) -> Result<Vec<Command>, AllocError>
    requires name { IsName name.now }
    requires pages { can_split set.now.pages ≡ true }
    ensures commands { IfOk result (λ commands. commands.items ≡ split name.now set.now) }
    // So each of them can be written.
    ensures fit { IfOk result (λ commands. AllByRecursion (λ command. numbers_fit command ≡ true) commands.items) }
{
    split_pages(alloc, name, set.tx, set.pages.as_slice())
}

/// Works on the pages alone, which belong to no set.
fn split_pages(
    alloc: Global,
    name: &str,
    tx: u64,
    pages: &[NumberedPage],
) -> Result<Vec<Command>, AllocError>
    requires { IsName name.now }
    ensures { IfOk result (λ commands. commands.items ≡ split_from (before_last pages.now) name.now tx pages.now) }
{
    let mut commands = Vec::new(alloc);
    let mut rest = pages;
    while rest.len() > MAX_FRAME_PAGES {
        let (piece, later) = rest.split_at(MAX_FRAME_PAGES);
        commands.push(frames(alloc, name, tx, 0, false, piece)?)?;
        rest = later;
    }
    let truncate = count_stated(rest);
    commands.push(frames(alloc, name, tx, truncate, true, rest)?)?;
    Ok(commands)
}
