//! Whether one database file represents the same pages with either of two logs.

ghost use Rattle.std.specs.Prelude.{◌≡◌, ℕ, ◌+◌, ◌<◌, ◌≤◌, length, IsTrue, IfOk, IfSome};
ghost use Rattle.sqlite_wal.specs.Format.{part};
ghost use Rattle.sqlite_wal.specs.PageSize.{size_in_file};
ghost use Rattle.sqlite_wal.specs.Recovery.{AreFramesOf};
ghost use Rattle.sqlite_facts.specs.Alike.{HoldAlike, IsAlikeAt, AreAlike};

use dq_base::{Bytes, Image};
use sqlite_files::{PageFile, PairDisk};
use sqlite_wal::{PageSize, probe_frames};
use std::alloc::{AllocError, Global};

/// Whether one database file represents the same pages with either of two logs, by the frames of the logs: up to their
/// last commit both have the same number of frames, each for the same page, with the same bytes and the same count of
/// pages. Salts, checksums and what follows the last commit may differ. `false` also if memory runs out, and if the
/// database file doesn't name pages of 4,096 bytes. It reads the frames of both logs, with their checksums, and copies
/// both logs. Of the database file it reads two bytes.
pub fn same_pages(alloc: Global, main: &[u8], one: &[u8], other: &[u8]) -> bool
    ensures { IsTrue result → HoldAlike (record { log = one.now; db = main.now }) (record { log = other.now; db = main.now }) }
{
    if !names_size(main) {
        return false;
    }
    are_alike(alloc, one, other)
}

/// Whether the header of a database file names pages of 4,096 bytes.
fn names_size(main: &[u8]) -> bool
    ensures { IsTrue result → size_in_file main.now ≡ 4096 }
{
    main.len() >= 18 && main[16] == 16 && main[17] == 0
}

/// Whether both logs have the same frames up to their last commit, except for salts and checksums. `false` also if
/// memory runs out.
fn are_alike(alloc: Global, one: &[u8], other: &[u8]) -> bool
    ensures { IsTrue result → AreAlike 4096 one.now other.now }
{
    let Some(first) = frames_of(alloc, one) else {
        return false;
    };
    let Some(second) = frames_of(alloc, other) else {
        return false;
    };
    share_frames(one, other, first.as_slice(), second.as_slice())
}

/// Whether both logs have frames for the same pages, and these are alike.
fn share_frames(one: &[u8], other: &[u8], first: &[u32], second: &[u32]) -> bool
    ensures same { IsTrue result → first.now ≡ second.now }
    ensures alike { IsTrue result → (i : ℕ) → i < length first.now → IsAlikeAt 4096 one.now other.now i }
{
    if first != second {
        return false;
    }
    frames_are_alike(one, other, first.len())
}

/// The page of each frame up to the last commit of a log. `None` if memory runs out, or if the log is refused.
fn frames_of(alloc: Global, log: &[u8]) -> Option<Vec<u32>>
    ensures { IfSome result (λ numbers. AreFramesOf 4096 log.now numbers.items) }
{
    let size = PageSize::new(4096)?;
    let mut file = file_of(alloc, log).ok()?;
    probe_frames(alloc, &mut file, size).ok()
}

/// A file in memory with these bytes. It fails if memory runs out.
fn file_of(alloc: Global, log: &[u8]) -> Result<PageFile, AllocError>
    ensures { IfOk result (λ file. file.after ≡ log.now) }
{
    let side = Bytes::new(Vec::from_slice(alloc, log)?);
    let main = Bytes::new(Vec::new(alloc));
    let files = PairDisk::grown_to(alloc, &Image { main, side })?.into_files();
    Ok(files.log)
}

/// Whether this number of frames, from the first on, are alike in both logs.
fn frames_are_alike(one: &[u8], other: &[u8], count: usize) -> bool
    ensures { IsTrue result → (i : ℕ) → i < count → IsAlikeAt 4096 one.now other.now i }
{
    let mut at = 32;
    for i in 0..count {
        if !is_alike(one, other, at) {
            return false;
        }
        at += 4120;
    }
    true
}

/// Whether the frames that begin there have the same count of pages and the same bytes of their page.
fn is_alike(one: &[u8], other: &[u8], at: usize) -> bool
    ensures within { IsTrue result → at + 4120 ≤ length one.now }
    ensures count { IsTrue result → part one.now (at + 4) 4 ≡ part other.now (at + 4) 4 }
    ensures content { IsTrue result → part one.now (at + 24) 4096 ≡ part other.now (at + 24) 4096 }
{
    if one.len() < 4120 || other.len() < 4120 {
        return false;
    }
    if at > one.len() - 4120 || at > other.len() - 4120 {
        return false;
    }
    if !have_same_bytes(one, other, at + 4, 4) {
        return false;
    }
    have_same_bytes(one, other, at + 24, 4096)
}

/// Whether both logs have the same bytes there, as many as the count.
#[tactic(auto, unfolding(sqlite_wal::specs::Format::part))]
fn have_same_bytes(one: &[u8], other: &[u8], at: usize, count: usize) -> bool
    requires one { at + count ≤ length one.now }
    requires other { at + count ≤ length other.now }
    ensures { IsTrue result → part one.now at count ≡ part other.now at count }
{
    one[at..at + count] == other[at..at + count]
}
