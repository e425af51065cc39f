//! What hinders a change of pages.

ghost use Rattle.std.specs.Prelude.{◌≡◌, ◌≤◌, ◌^◌, ◌==◌, ℕ, not, true, false, is_none, None, IfOk, MatchOption};
ghost use Rattle.dq_base.specs.declared.images.Image.{Image};
ghost use Rattle.dq_base.specs.Images.{page_count, pages_of};
ghost use Rattle.dq_base.specs.Applying.{applied, page_fault};
ghost use Rattle.log_commands.specs.Spelling.{HaveSizes};
ghost use Rattle.session_spec.specs.Machine.{machine_of};
ghost use Rattle.session_spec.specs.Engines.{no_pages};
ghost use Rattle.session_spec.specs.Limits as limits;
ghost use Rattle.session_table.specs.Table.{table_of, AreApart};
ghost use Rattle.session_outcomes.specs.Hindered.{LeadsTo, HasRoom, Hinders};

use database_state::Machine;
use dq_base::{NumberedPage, PAGE_SIZE, set_lengths};
use session_requests::pages_full;
use session_table::{Cause, Session, newest, other_holds};
use std::alloc::{AllocError, Global};

/// How many pages this many bytes fill, the last of them maybe in part.
fn pages_of(bytes: usize) -> u64
    ensures count { result ≡ pages_of bytes }
    ensures small { result ≤ 2 ^ 53 }
{
    bytes.div_ceil(PAGE_SIZE) as u64
}

/// How many pages an image has after these pages, the sizes page included; none if they can't be applied. Looks at their
/// numbers.
pub(crate) fn pages_after(pages: &[NumberedPage]) -> Option<u64>
    ensures { MatchOption result (is_none (page_fault pages.now) ≡ false)
        (λ count. (is_none (page_fault pages.now) ≡ true) × (HaveSizes pages.now → (image : Image) → page_count (applied image pages.now) ≡ count)) }
{
    match set_lengths(pages) {
        Ok(lengths) => {
            let main = pages_of(lengths.main);
            let side = pages_of(lengths.side);
            Some(1 + main + side)
        }
        Err(_) => None,
    }
}

/// How many pages a database has after this change of it; none if all databases would have too many then, or it can't be
/// applied. There are pages.
fn room(
    alloc: Global,
    machine: &Machine,
    sessions: &[Session],
    name: &str,
    pages: &[NumberedPage],
) -> Result<Option<u64>, AllocError>
    requires apart { AreApart sessions.now }
    requires some { no_pages pages.now ≡ false }
    ensures { (weight : ℕ) (to : Image) → LeadsTo pages.now to → IfOk result
        (HasRoom pages.now to (limits.too_full (machine_of machine.now) (table_of machine.now sessions.now weight) name.now pages.now to)) }
{
    let Some(count) = pages_after(pages) else {
        return Ok(None);
    };
    if pages_full(alloc, machine, sessions, name, count)? {
        return Ok(None);
    }
    Ok(Some(count))
}

/// Whether a database had another number of commits.
fn is_out_of_date(machine: &Machine, name: &str, mark: u64) -> bool
    ensures { result ≡ not (((machine_of machine.now).base name.now).newest == mark) }
{
    newest(machine, name) != mark
}

/// What hinders a change of pages of a database by the session of a connection, which began when the database had this many
/// commits: another session has the write lock; there were commits since; or there would be too many pages. If nothing
/// does, how many pages the database has after it. There are pages. Looks at each session for each database. The outer `Err`
/// means out of memory.
pub(crate) fn change_refusal(
    alloc: Global,
    machine: &Machine,
    sessions: &[Session],
    conn: u64,
    name: &str,
    mark: u64,
    pages: &[NumberedPage],
) -> Result<Result<u64, Cause>, AllocError>
    requires apart { AreApart sessions.now }
    requires some { no_pages pages.now ≡ false }
    ensures { (weight : ℕ) (to : Image) → LeadsTo pages.now to → IfOk result
        (Hinders pages.now to (limits.change_refusal (machine_of machine.now) (table_of machine.now sessions.now weight) conn name.now mark pages.now to)) }
{
    if other_holds(sessions, conn, name) {
        return Ok(Err(Cause::Locked));
    }
    if is_out_of_date(machine, name, mark) {
        return Ok(Err(Cause::OutOfDate));
    }
    match room(alloc, machine, sessions, name, pages)? {
        Some(count) => Ok(Ok(count)),
        None => Ok(Err(Cause::DatabaseFull)),
    }
}
