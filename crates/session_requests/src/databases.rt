//! Requests for whole databases: to open one, and for its files.

ghost use Rattle.std.specs.Prelude.{◌≡◌, ◌-◌, ◌^◌, ◌++◌, ℕ, List, [], min, length, false, true, None, Some, nat_lt, IfOk, MatchOption, string_bytes, codes};
ghost use Rattle.dq_base.specs.Names.{has_nul};
ghost use Rattle.database_state.specs.declared.database.Database.{Database};
ghost use Rattle.database_state.specs.Databases.{named};
ghost use Rattle.page_store.specs.Store.{newest_image};
ghost use Rattle.session_spec.specs.Asking as rules;
ghost use Rattle.session_spec.specs.Machine.{is_named, machine_of};
ghost use Rattle.session_table.specs.Table.{AreApart, session_of, table_of};
ghost use Rattle.session_requests.specs.Meant.{meant};
ghost use Rattle.session_requests.specs.Looking.{padded, files_size};

use crate::names::one_too_many;
use crate::view::{View, log_full};
use crate::wanted::RequestPlan;
use database_state::{Database, Machine};
use dq_base::{Image, Items, Lengths, Name};
use session_table::{Cause, MAX_QUERY_ANSWER, Session};
use std::alloc::{AllocError, Global};
use wire_msgs::{File, Response};
use wire_words::WireText;

/// Whether a session has opened a database.
pub(crate) fn has_database(session: &Session) -> bool
    ensures { (databases : List Database) → result ≡ rules.has_database (session_of databases session.now) }
{
    match &session.database {
        Some(name) => !name.as_str().is_empty(),
        None => false,
    }
}

/// The text as a name, if it may be one. It holds no NUL.
fn name_of(alloc: Global, text: &str) -> Result<Option<Name>, AllocError>
    requires { has_nul text.now ≡ false }
    ensures { IfOk result (λ name. MatchOption name (rules.is_name text.now ≡ false) (λ name. (rules.is_name text.now ≡ true) × (name ≡ text.now))) }
{
    Ok(Name::new(String::from_str(alloc, text)?))
}

/// The database of a name, lent; `None` exactly without one. Looks at the databases.
pub fn database_named<'a>(databases: &'a [Database], name: &str) -> Option<&'a Database>
    ensures { MatchOption result (named name.now databases.now ≡ None) (λ database. named name.now databases.now ≡ Some database.now) }
{
    for database in databases {
        if name == database.name().as_str() {
            return Some(database);
        }
    }
    None
}

/// Whether there is a database of a name.
fn is_there(machine: &Machine, name: &str) -> bool
    ensures { result ≡ is_named (machine_of machine.now).names name.now }
{
    machine.newest(name).is_some()
}

/// What OPEN wants by a name of which there is no database, with barrier reads or not.
fn wanted_by_new(
    alloc: Global,
    view: &View,
    machine: &Machine,
    sessions: &[Session],
    name: Name,
    barriers: bool,
) -> Result<RequestPlan, AllocError>
    requires { AreApart sessions.now }
    ensures { (weight : ℕ) → IfOk result (λ wanted. meant [] wanted ≡ rules.asks_new view.now (machine_of machine.now)
        (table_of machine.now sessions.now weight) name barriers) }
{
    if one_too_many(alloc, machine, sessions, &name)? {
        return Ok(RequestPlan::Never(Cause::TooManyDatabases));
    }
    if log_full(view) {
        return Ok(RequestPlan::Never(Cause::LogFull));
    }
    Ok(RequestPlan::Creates(name, barriers))
}

/// What OPEN wants of a serving leader by a name that holds no NUL, with barrier reads or not.
pub(crate) fn wanted_by_open(
    alloc: Global,
    view: &View,
    machine: &Machine,
    sessions: &[Session],
    session: &Session,
    name: &str,
    barriers: bool,
) -> Result<RequestPlan, AllocError>
    requires apart { AreApart sessions.now }
    requires text { has_nul name.now ≡ false }
    ensures { (weight : ℕ) → IfOk result (λ wanted. meant [] wanted ≡ rules.asks_open view.now (machine_of machine.now)
        (table_of machine.now sessions.now weight) (session_of machine.now session.now) name.now barriers) }
{
    if has_database(session) {
        return Ok(RequestPlan::Never(Cause::DatabaseOpen));
    }
    let Some(name) = name_of(alloc, name)? else {
        return Ok(RequestPlan::Never(Cause::BadName));
    };
    if is_there(machine, name.as_str()) {
        return Ok(RequestPlan::Opens(name, barriers));
    }
    wanted_by_new(alloc, view, machine, sessions, name, barriers)
}

/// This many bytes up to a whole word, as far as a number of 64 bits counts.
fn padded(bytes: u64) -> u64
    ensures { result ≡ min (padded bytes) (2 ^ 64 - 1) }
{
    bytes.div_ceil(8).saturating_mul(8)
}

/// How many bytes the body with the files of a database has, as far as a number of 64 bits counts.
fn files_size(name: u64, main: u64, side: u64) -> u64
    ensures { result ≡ min (files_size name main side) (2 ^ 64 - 1) }
{
    let main_file = padded(name.saturating_add(1)).saturating_add(padded(main));
    let side_file = padded(name.saturating_add(6)).saturating_add(padded(side));
    main_file.saturating_add(side_file).saturating_add(24)
}

/// Whether the body with the files of a database is too big.
fn is_too_big(name: &str, lengths: Lengths) -> bool
    ensures { result ≡ nat_lt 16777216 (files_size (length name.now) lengths.main lengths.side) }
{
    files_size(name.len() as u64, lengths.main as u64, lengths.side as u64) > MAX_QUERY_ANSWER
}

/// The name of the side file of a database.
fn side_name(alloc: Global, name: &str) -> Result<String, AllocError>
    ensures { IfOk result (λ side. string_bytes side ≡ name.now ++ codes "-side") }
{
    let mut side = String::from_str(alloc, name)?;
    side.push_str("-side")?;
    Ok(side)
}

/// The files of a database as they are sent.
fn files_of(alloc: Global, name: &str, image: Image) -> Result<Response, AllocError>
    ensures { IfOk result (λ response. response ≡ rules.files_of name.now image) }
{
    let main = File {
        name: WireText::new(String::from_str(alloc, name)?),
        content: image.main,
    };
    let side = File {
        name: WireText::new(side_name(alloc, name)?),
        content: image.side,
    };
    Ok(Response::Files {
        files: Items::new(vec![in alloc; main, side]?),
    })
}

/// What DUMP wants of a database.
pub(crate) fn wanted_by_dump(
    alloc: Global,
    machine: &Machine,
    name: &str,
) -> Result<RequestPlan, AllocError>
    ensures { IfOk result (λ wanted. meant [] wanted ≡ rules.asks_dump (machine_of machine.now) name.now) }
{
    let Some(database) = database_named(machine.databases(), name) else {
        return Ok(RequestPlan::Never(Cause::NoDatabase));
    };
    if is_too_big(name, database.lengths()) {
        return Ok(RequestPlan::Never(Cause::AnswerTooBig));
    }
    let Some(image) = machine.newest_image(name)? else {
        return Ok(RequestPlan::Never(Cause::NoDatabase));
    };
    Ok(RequestPlan::Tells(files_of(alloc, name, image)?))
}
