//! How many pages all databases have together.

ghost use Rattle.std.specs.Prelude.{◌≡◌, ◌+◌, ◌-◌, ◌^◌, ℕ, List, min, max, nat_lt, sum_by, IfOk};
ghost use Rattle.dq_base.specs.Images.{page_count};
ghost use Rattle.session_spec.specs.Limits as limits;
ghost use Rattle.session_spec.specs.Machine.{machine_of};
ghost use Rattle.session_table.specs.Table.{AreApart, table_of};
ghost use Rattle.session_requests.specs.Looking.{pages_beside};

use crate::names::all_names;
use database_state::Machine;
use dq_base::Name;
use session_table::{MAX_PAGES, Session, flown};
use std::alloc::{AllocError, Global};

/// The greater one of two numbers.
fn greater(a: u64, b: u64) -> u64
    ensures { result ≡ max a b }
{
    a.max(b)
}

/// How many pages the newest image of a database has; of one that isn't there, the sizes page.
fn newest_pages(machine: &Machine, name: &str) -> u64
    ensures { result ≡ page_count ((machine_of machine.now).base name.now).image }
{
    match machine.pages(name) {
        Some(pages) => pages,
        None => 1,
    }
}

/// The pages of a database: of its newest image, or of its pending proposal, whichever has more.
fn held_pages(machine: &Machine, sessions: &[Session], name: &str) -> u64
    requires { AreApart sessions.now }
    ensures { (weight : ℕ) → result ≡ limits.held_pages (machine_of machine.now) (table_of machine.now sessions.now weight) name.now }
{
    greater(newest_pages(machine, name), flown(sessions, name))
}

/// The pages of a database other than the one of a name.
fn pages_beside(machine: &Machine, sessions: &[Session], name: &str, other: &str) -> u64
    requires { AreApart sessions.now }
    ensures { (weight : ℕ) → result ≡ pages_beside (machine_of machine.now) (table_of machine.now sessions.now weight) name.now other.now }
{
    if other == name {
        0
    } else {
        held_pages(machine, sessions, other)
    }
}

/// The pages of these databases other than the one of a name, as far as a number of 64 bits counts.
fn all_beside(machine: &Machine, sessions: &[Session], names: &[Name], name: &str) -> u64
    requires { AreApart sessions.now }
    ensures { (weight : ℕ) → result ≡ min (sum_by (pages_beside (machine_of machine.now) (table_of machine.now sessions.now weight) name.now) names.now)
        (2 ^ 64 - 1) }
{
    let mut pages: u64 = 0;
    for other in names {
        let more = pages_beside(machine, sessions, name, other.as_str());
        pages = pages.saturating_add(more);
    }
    pages
}

/// Whether a sum passes the limit on the pages of all databases.
fn is_full(own: u64, others: u64) -> bool
    ensures { (all : ℕ) → others ≡ min all (2 ^ 64 - 1) → result ≡ nat_lt 16384 (own + all) }
{
    own.saturating_add(others) > MAX_PAGES
}

/// Whether all databases would have more than 16,384 pages together, those that are proposed counted, if the one of a name had
/// this many. Looks at each session for each database.
pub fn pages_full(
    alloc: Global,
    machine: &Machine,
    sessions: &[Session],
    name: &str,
    pages: u64,
) -> Result<bool, AllocError>
    requires { AreApart sessions.now }
    ensures { (weight : ℕ) → IfOk result (λ full. full ≡ nat_lt 16384 (limits.pages_with (machine_of machine.now)
        (table_of machine.now sessions.now weight) name.now pages)) }
{
    let names = all_names(alloc, machine, sessions)?;
    let own = greater(held_pages(machine, sessions, name), pages);
    let others = all_beside(machine, sessions, names.as_slice(), name);
    Ok(is_full(own, others))
}
