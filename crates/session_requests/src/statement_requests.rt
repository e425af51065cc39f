//! Requests for statements of the session's database.

ghost use Rattle.std.specs.Prelude.{◌≡◌, List, [], IfOk};
ghost use Rattle.database_state.specs.declared.database.Database.{Database};
ghost use Rattle.sql_scan.specs.Statements.{scan_of};
ghost use Rattle.session_spec.specs.Asking as rules;
ghost use Rattle.session_spec.specs.Asking.{Asked};
ghost use Rattle.session_spec.specs.Sessions.{in_tx};
ghost use Rattle.session_spec.specs.Statements as statements;
ghost use Rattle.session_table.specs.Table.{session_of};
ghost use Rattle.wire_msgs.specs.declared.response.Response.TheVariants as responses;
ghost use Rattle.session_requests.specs.Meant.{meant, hinders_named, refused_by, FitsStatements};

use crate::databases::has_database;
use crate::prepare_requests::wanted_by_prepare;
use crate::single_statements::{wanted_by_exec, wanted_by_finalize, wanted_by_query};
use crate::text_requests::{wanted_by_rows, wanted_by_text};
use crate::view::View;
use crate::wanted::RequestPlan;
use session_table::{Cause, Prepared, Session, prepared_at};
use std::alloc::{AllocError, Global};
use wire_msgs::Response;
use wire_words::{Value, WireText};

/// Whether a number is not that of the session's database.
pub(crate) fn no_database(session: &Session, db: u64) -> bool
    ensures { (databases : List Database) → result ≡ rules.no_database (session_of databases session.now) db }
{
    if !has_database(session) {
        return true;
    }
    db != 0
}

/// Why what needs the session's database is refused at once: the number is that of none.
fn refusal(session: &Session, db: u64) -> Option<Cause>
    ensures { (databases : List Database) (asked : Asked) → rules.in_database (session_of databases session.now) db asked ≡ refused_by result asked }
{
    if no_database(session, db) {
        Some(Cause::NoDatabase)
    } else {
        None
    }
}

/// Why what needs a serving leader and the session's database is refused at once.
fn hindrance_at_leader(view: &View, session: &Session, db: u64) -> Option<Cause>
    ensures { (databases : List Database) (asked : Asked) → rules.at_leader view.now (rules.in_database (session_of databases session.now) db asked) ≡
        refused_by result asked }
{
    if view.serving {
        refusal(session, db)
    } else {
        Some(Cause::NotLeader)
    }
}

fn copied(alloc: Global, prepared: &Prepared) -> Result<Prepared, AllocError>
    ensures { IfOk result (λ copy. copy ≡ prepared.now) }
{
    Ok(Prepared {
        text: WireText::new(String::from_str(alloc, prepared.text.as_str())?),
        word: prepared.word,
        params: prepared.params,
    })
}

/// The prepared statement of a number, copied.
pub(crate) fn statement_at(
    alloc: Global,
    session: &Session,
    id: u32,
) -> Result<Option<Prepared>, AllocError>
    ensures { IfOk result (λ statement. statement ≡ statements.prepared_at session.now.statements.items id) }
{
    match prepared_at(session.statements.as_slice(), id) {
        Some(prepared) => Ok(Some(copied(alloc, prepared)?)),
        None => Ok(None),
    }
}

/// Whether a session has an open transaction.
fn is_inside(session: &Session) -> bool
    ensures { (databases : List Database) → result ≡ in_tx (session_of databases session.now) }
{
    session.transaction.is_some()
}

/// What PREPARE wants.
pub(crate) fn prepares(
    alloc: Global,
    view: &View,
    session: &Session,
    db: u64,
    sql: &str,
    wide: bool,
) -> Result<RequestPlan, AllocError>
    ensures wants { (databases : List Database) → IfOk result (λ wanted. meant [] wanted ≡
        rules.at_leader view.now (rules.in_database (session_of databases session.now) db
        (rules.asks_prepare (session_of databases session.now) sql.now wide (scan_of sql.now)))) }
    ensures can { IfOk result (FitsStatements session.now.statements.items []) }
{
    match hindrance_at_leader(view, session, db) {
        Some(cause) => Ok(RequestPlan::Never(cause)),
        None => wanted_by_prepare(alloc, session, sql, wide),
    }
}

/// What EXEC wants, if this hinders a write.
pub(crate) fn executes(
    alloc: Global,
    view: &View,
    session: &Session,
    hinders: Option<Cause>,
    db: u64,
    id: u32,
    params: &[Value],
) -> Result<RequestPlan, AllocError>
    ensures wants { (databases : List Database) → IfOk result (λ wanted. meant params.now wanted ≡
        rules.at_leader view.now (rules.in_database (session_of databases session.now) db
        (rules.asks_exec (hinders_named hinders) (in_tx (session_of databases session.now)) (statements.prepared_at session.now.statements.items id) params.now))) }
    ensures can { IfOk result (FitsStatements session.now.statements.items params.now) }
{
    match hindrance_at_leader(view, session, db) {
        Some(cause) => Ok(RequestPlan::Never(cause)),
        None => {
            let statement = statement_at(alloc, session, id)?;
            Ok(wanted_by_exec(hinders, is_inside(session), statement, params))
        }
    }
}

/// What QUERY wants, if this hinders a write.
pub(crate) fn queries(
    alloc: Global,
    view: &View,
    session: &Session,
    hinders: Option<Cause>,
    db: u64,
    id: u32,
    params: &[Value],
) -> Result<RequestPlan, AllocError>
    ensures wants { (databases : List Database) → IfOk result (λ wanted. meant params.now wanted ≡
        rules.at_leader view.now (rules.in_database (session_of databases session.now) db
        (rules.asks_prepared_query (hinders_named hinders) (statements.prepared_at session.now.statements.items id) params.now))) }
    ensures can { IfOk result (FitsStatements session.now.statements.items params.now) }
{
    match hindrance_at_leader(view, session, db) {
        Some(cause) => Ok(RequestPlan::Never(cause)),
        None => {
            let statement = statement_at(alloc, session, id)?;
            Ok(wanted_by_query(hinders, statement, params))
        }
    }
}

/// What EXEC_SQL wants, if this hinders a write.
pub(crate) fn executes_text(
    alloc: Global,
    view: &View,
    session: &Session,
    hinders: Option<Cause>,
    db: u64,
    sql: &str,
    params: &[Value],
) -> Result<RequestPlan, AllocError>
    ensures wants { (databases : List Database) → IfOk result (λ wanted. meant params.now wanted ≡
        rules.at_leader view.now (rules.in_database (session_of databases session.now) db
        (rules.asks_text (hinders_named hinders) (in_tx (session_of databases session.now)) sql.now (scan_of sql.now) params.now))) }
    ensures can { IfOk result (FitsStatements session.now.statements.items params.now) }
{
    match hindrance_at_leader(view, session, db) {
        Some(cause) => Ok(RequestPlan::Never(cause)),
        None => wanted_by_text(alloc, hinders, is_inside(session), sql, params),
    }
}

/// What QUERY_SQL wants, if this hinders a write.
pub(crate) fn queries_text(
    alloc: Global,
    view: &View,
    session: &Session,
    hinders: Option<Cause>,
    db: u64,
    sql: &str,
    params: &[Value],
) -> Result<RequestPlan, AllocError>
    ensures wants { (databases : List Database) → IfOk result (λ wanted. meant params.now wanted ≡
        rules.at_leader view.now (rules.in_database (session_of databases session.now) db
        (rules.asks_rows (hinders_named hinders) sql.now (scan_of sql.now) params.now))) }
    ensures can { IfOk result (FitsStatements session.now.statements.items params.now) }
{
    match hindrance_at_leader(view, session, db) {
        Some(cause) => Ok(RequestPlan::Never(cause)),
        None => wanted_by_rows(alloc, hinders, sql, params),
    }
}

/// What FINALIZE wants.
pub(crate) fn finalizes(session: &Session, db: u64, id: u32) -> RequestPlan
    ensures wants { (databases : List Database) → meant [] result ≡ rules.in_database (session_of databases session.now) db
        (rules.asks_finalize (statements.prepared_at session.now.statements.items id) id) }
    ensures can { FitsStatements session.now.statements.items [] result }
{
    match refusal(session, db) {
        Some(cause) => RequestPlan::Never(cause),
        None => wanted_by_finalize(session, id),
    }
}

/// What INTERRUPT wants.
pub(crate) fn interrupts(session: &Session, db: u64) -> RequestPlan
    ensures { (databases : List Database) → meant [] result ≡ rules.in_database (session_of databases session.now) db (rules.Tells responses.Empty) }
{
    match refusal(session, db) {
        Some(cause) => RequestPlan::Never(cause),
        None => RequestPlan::Tells(Response::Empty),
    }
}
