//! Tests of what statements changed.

ghost use Rattle.std.specs.Prelude.{◌≡◌, ℕ, Some, true, false, is_none, map, IfOk, OnOk};
ghost use Rattle.dq_base.specs.declared.images.Image.{Image};
ghost use Rattle.session_spec.specs.Engines as engines;
ghost use Rattle.session_spec.specs.Limits as limits;
ghost use Rattle.session_spec.specs.Machine.{machine_of};
ghost use Rattle.session_statements.specs.Running.{change_in};
ghost use Rattle.session_table.specs.Named.{cause_named};
ghost use Rattle.std.specs.List.{AllByRecursion};
ghost use Rattle.dq_base.specs.Applying.{page_fault};
ghost use Rattle.log_commands.specs.Splitting.{split};
ghost use Rattle.session_spec.specs.Entries.{Does, written};
ghost use Rattle.session_spec.specs.Seen.{HasSpelling};
ghost use Rattle.session_outcomes.specs.Hindered.{LeadsTo, Hinders};
ghost use Rattle.session_outcomes.specs.Runs.{AreTaken};
ghost use Rattle.session_table.specs.Table.{table_of, AreApart};

use crate::change_limits::change_refusal;
use crate::writing::change_entries;
use database_state::Machine;
use dq_base::{Name, PageSet};
use raft_messages::Entries;
use session_statements::AllRan;
use session_table::{Cause, Session};
use sql_engine::StatementResult;
use std::alloc::{AllocError, Global};

/// What hinders a set of pages, or how many pages the database has after it. There are pages. The outer `Err` means out
/// of memory.
fn refusal_by_limits(
    alloc: Global,
    machine: &Machine,
    sessions: &[Session],
    conn: u64,
    name: &Name,
    mark: u64,
    set: &PageSet,
) -> Result<Result<u64, Cause>, AllocError>
    requires apart { AreApart sessions.now }
    requires some { engines.no_pages set.now.pages ≡ false }
    ensures { (weight : ℕ) (to : Image) → LeadsTo set.now.pages to
        → IfOk result (Hinders set.now.pages to (limits.change_refusal (machine_of machine.now)
        (table_of machine.now sessions.now weight) conn name.now mark set.now.pages to)) }
{
    let pages = set.pages.as_slice();
    change_refusal(alloc, machine, sessions, conn, name.as_str(), mark, pages)
}

/// What hinders the change by the pages that statements changed.
pub(crate) fn refused_change(
    alloc: Global,
    machine: &Machine,
    sessions: &[Session],
    conn: u64,
    name: &Name,
    mark: u64,
    ran: &AllRan,
) -> Result<Result<u64, Cause>, AllocError>
    requires apart { AreApart sessions.now }
    requires some { engines.no_pages (change_in ran.now).pages ≡ false }
    ensures hinders { (weight : ℕ) (to : Image) → LeadsTo (change_in ran.now).pages to
        → IfOk result (Hinders (change_in ran.now).pages to (limits.change_refusal (machine_of machine.now)
        (table_of machine.now sessions.now weight) conn name.now mark (change_in ran.now).pages to)) }
    ensures taken { IfOk result (AreTaken (change_in ran.now).pages) }
{
    refusal_by_limits(alloc, machine, sessions, conn, name, mark, ran.change())
}

/// What hinders pages that can't be applied.
pub(crate) fn oversize_refusal(
    alloc: Global,
    machine: &Machine,
    sessions: &[Session],
    conn: u64,
    name: &Name,
    mark: u64,
    answer: &StatementResult,
) -> Result<Cause, AllocError>
    requires apart { AreApart sessions.now }
    requires large { engines.takes answer.now.after.pages ≡ false }
    ensures { (weight : ℕ) (to : Image) → IfOk result (λ cause. limits.change_refusal (machine_of machine.now)
        (table_of machine.now sessions.now weight) conn name.now mark answer.now.after.pages to ≡ Some (cause_named cause)) }
{
    let hindered = refusal_by_limits(alloc, machine, sessions, conn, name, mark, &answer.after)?;
    match hindered {
        Err(cause) => Ok(cause),
        Ok(_pages) => Ok(Cause::DatabaseFull),
    }
}

/// The entries of the pages that statements changed, which can be applied.
pub(crate) fn entries_of(
    alloc: Global,
    term: u64,
    name: &Name,
    ran: &AllRan,
) -> Result<Entries, AllocError>
    requires { is_none (page_fault (change_in ran.now).pages) ≡ true }
    ensures entries { IfOk result (λ entries. entries ≡ written term (map Does (split name.now (change_in ran.now)))) }
    ensures spelled { OnOk result (AllByRecursion HasSpelling (map Does (split name.now (change_in ran.now)))) }
{
    change_entries(alloc, term, name, ran.change())
}

/// Whether statements changed no page.
pub(crate) fn is_unchanged(ran: &AllRan) -> bool
    ensures { result ≡ engines.no_pages (change_in ran.now).pages }
{
    let pages = ran.change().pages.as_slice();
    pages.is_empty()
}
