//! What hinders a write before an engine runs it.

ghost use Rattle.std.specs.Prelude.{◌≡◌, ◌==◌, ℕ, List, not, None, if◌then◌else◌};
ghost use Rattle.database_state.specs.declared.database.Database.{Database};
ghost use Rattle.session_spec.specs.Asking.{Asked, never_or};
ghost use Rattle.session_spec.specs.Causes.{Locked, OutOfDate};
ghost use Rattle.session_spec.specs.Limits as limits;
ghost use Rattle.session_spec.specs.Machine.{machine_of};
ghost use Rattle.session_spec.specs.Statements as statements;
ghost use Rattle.session_statements.specs.Texts.{cut_at};
ghost use Rattle.session_table.specs.Table.{AreApart, session_of, table_of};
ghost use Rattle.session_requests.specs.Meant.{hinders_named, refused_by};

use database_state::Machine;
use dq_base::Name;
use session_table::{Cause, Session, name_of, newest_of, other_holds};
use sql_scan::{StatementSpan, WordKind};

/// Whether the session of another connection has the write lock of the database of a name.
fn is_held(sessions: &[Session], conn: u64, name: &Name) -> bool
    requires { AreApart sessions.now }
    ensures { (databases : List Database) (weight : ℕ) → result ≡ limits.other_holds (table_of databases sessions.now weight) conn name.now }
{
    other_holds(sessions, conn, name.as_str())
}

/// Whether a database had another number of commits.
fn is_old(machine: &Machine, name: &Name, mark: u64) -> bool
    ensures { result ≡ not (((machine_of machine.now).base name.now).newest == mark) }
{
    newest_of(machine, name) != mark
}

/// What hinders a write outside a transaction, of the database of a name.
fn hindrance_outside(sessions: &[Session], conn: u64, name: &str) -> Option<Cause>
    requires { AreApart sessions.now }
    ensures { (databases : List Database) (weight : ℕ) → hinders_named result ≡
        limits.first_cause (limits.other_holds (table_of databases sessions.now weight) conn name.now) Locked None }
{
    if other_holds(sessions, conn, name) {
        return Some(Cause::Locked);
    }
    None
}

/// What hinders a write in a transaction, which began when the database of a name had this many commits.
fn hindrance_inside(
    machine: &Machine,
    sessions: &[Session],
    conn: u64,
    name: &Name,
    mark: u64,
) -> Option<Cause>
    requires { AreApart sessions.now }
    ensures { (databases : List Database) (weight : ℕ) → hinders_named result ≡
        limits.first_cause (limits.other_holds (table_of databases sessions.now weight) conn name.now) Locked
        (limits.first_cause (not (((machine_of machine.now).base name.now).newest == mark)) OutOfDate None) }
{
    if is_held(sessions, conn, name) {
        return Some(Cause::Locked);
    }
    if is_old(machine, name, mark) {
        return Some(Cause::OutOfDate);
    }
    None
}

/// What hinders a write of a session before an engine runs it: another session has the write lock, or its transaction's image
/// is no longer the newest. Looks at each session.
pub(crate) fn write_hindrance(
    machine: &Machine,
    sessions: &[Session],
    session: &Session,
) -> Option<Cause>
    requires { AreApart sessions.now }
    ensures { (weight : ℕ) → hinders_named result ≡ limits.write_hindrance (machine_of machine.now) (table_of machine.now sessions.now weight)
        session.now.conn (session_of machine.now session.now) }
{
    match &session.transaction {
        Some(transaction) => {
            let name = &transaction.name;
            hindrance_inside(machine, sessions, session.conn, name, transaction.mark)
        }
        None => hindrance_outside(sessions, session.conn, name_of(&session.database)),
    }
}

/// Whether statements of this kind are writes: INSERT, REPLACE, UPDATE, DELETE, CREATE, DROP and ALTER.
pub(crate) fn is_write_word(word: WordKind) -> bool
    ensures { result ≡ statements.is_write_word word }
{
    match word {
        WordKind::Write => true,
        WordKind::Begin { .. }
        | WordKind::Commit
        | WordKind::Rollback
        | WordKind::LeftOut
        | WordKind::Other => false,
    }
}

/// Whether one of the statements of a text is a write.
pub(crate) fn any_write(pieces: &[StatementSpan]) -> bool
    ensures { (text : List ℕ) → result ≡ statements.any_write (cut_at text pieces.now) }
{
    for piece in pieces {
        if is_write_word(piece.word) {
            return true;
        }
    }
    false
}

/// What hinders statements, if there is a write among them.
pub(crate) fn hindrance_of(hinders: Option<Cause>, writes: bool) -> Option<Cause>
    ensures { (asked : Asked) → (if writes then never_or (hinders_named hinders) asked else asked) ≡ refused_by result asked }
{
    if writes { hinders } else { None }
}
