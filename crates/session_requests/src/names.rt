//! The databases that there are, with those that are proposed.

ghost use Rattle.std.specs.Prelude.{◌≡◌, ◌∷◌, [], ℕ, List, IfOk, OnOk, MatchOption, MatchResult};
ghost use Rattle.std.specs.Ordering.{nat_cmp};
ghost use Rattle.std.specs.Cmp.Lexicographic.{slice_cmp};
ghost use Rattle.session_spec.specs.Limits as limits;
ghost use Rattle.session_spec.specs.Machine.{is_named, machine_of, with_name};
ghost use Rattle.session_table.specs.Table.{AreApart, table_of};
ghost use Rattle.session_requests.specs.Looking.{proposed_by, BelongsAt};

use database_state::Machine;
use dq_base::Name;
use session_table::{MAX_DATABASES, ProposalKind, Session};
use std::alloc::{AllocError, Global};
use std::cmp::Ordering;

/// How two names stand to each other, by their bytes.
fn order(name: &Name, other: &Name) -> Ordering
    ensures { result ≡ slice_cmp nat_cmp name.now other.now }
{
    name.as_str().cmp(other.as_str())
}

/// Where a name stands among names that ascend, or where it would stand.
fn place_of(names: &[Name], name: &Name) -> Result<usize, usize>
    ensures { MatchResult result (λ place. with_name name.now names.now ≡ names.now) (BelongsAt name.now names.now) }
{
    for (place, other) in names.iter().enumerate() {
        match order(name, other) {
            Ordering::Less => return Err(place),
            Ordering::Equal => return Ok(place),
            Ordering::Greater => {}
        }
    }
    Err(names.len())
}

/// Puts a name among names that ascend, if it isn't there.
fn add_name(alloc: Global, names: &mut Vec<Name>, name: &Name) -> Result<(), AllocError>
    ensures { OnOk result (names.new.items ≡ with_name name.now names.old.items) }
{
    match place_of(names.as_slice(), name) {
        Ok(_place) => Ok(()),
        Err(place) => {
            names.insert(place, name.try_clone(alloc)?)?;
            Ok(())
        }
    }
}

/// The name of the new database that a session's proposal is for.
fn proposed_by(session: &Session) -> Option<&Name>
    ensures { MatchOption result (proposed_by session.now ≡ []) (λ name. proposed_by session.now ≡ name.now ∷ []) }
{
    let flight = session.flight.as_ref()?;
    match &flight.kind {
        ProposalKind::Opening { name } => Some(name),
        ProposalKind::Configuring { .. }
        | ProposalKind::Writing { .. }
        | ProposalKind::Committing { .. }
        | ProposalKind::Querying { .. } => None,
    }
}

/// Puts the name of the new database that a session's proposal is for among others.
fn add_proposed(alloc: Global, names: &mut Vec<Name>, session: &Session) -> Result<(), AllocError>
    ensures { OnOk result (names.new.items ≡ limits.with_names names.old.items (proposed_by session.now)) }
{
    match proposed_by(session) {
        Some(name) => add_name(alloc, names, name),
        None => Ok(()),
    }
}

/// The names of the databases that there are and of those that are proposed, ascending by their bytes. Looks at each session.
pub fn all_names(
    alloc: Global,
    machine: &Machine,
    sessions: &[Session],
) -> Result<Vec<Name>, AllocError>
    requires { AreApart sessions.now }
    ensures { (weight : ℕ) → IfOk result (λ names. names.items ≡ limits.all_names (machine_of machine.now) (table_of machine.now sessions.now weight)) }
{
    let mut names = machine.names()?;
    for session in sessions {
        add_proposed(alloc, &mut names, session)?;
    }
    Ok(names)
}

/// Whether a name is one of these.
fn is_among(names: &[Name], name: &Name) -> bool
    ensures { result ≡ is_named names.now name.now }
{
    names.iter().any(|other| name == other)
}

/// Whether there would be more than 16 databases with the one of a name.
pub(crate) fn one_too_many(
    alloc: Global,
    machine: &Machine,
    sessions: &[Session],
    name: &Name,
) -> Result<bool, AllocError>
    requires { AreApart sessions.now }
    ensures { (weight : ℕ) → IfOk result (λ many. many ≡ limits.one_too_many (machine_of machine.now) (table_of machine.now sessions.now weight) name.now) }
{
    let names = all_names(alloc, machine, sessions)?;
    let known = names.as_slice();
    if is_among(known, name) {
        return Ok(false);
    }
    Ok(known.len() >= MAX_DATABASES)
}
