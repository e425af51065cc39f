//! Requests at a session whose transaction was lost with leadership.

ghost use Rattle.std.specs.Prelude.{◌≡◌, IfOk, All, List, Ok};
ghost use Rattle.std.specs.Option.{option_map};
ghost use Rattle.database_state.specs.declared.database.Database.{Database};
ghost use Rattle.sql_scan.specs.Places.{StandsIn};
ghost use Rattle.sql_scan.specs.Statements.{scan_of};
ghost use Rattle.session_spec.specs.Asking as rules;
ghost use Rattle.session_spec.specs.Asking.{Asked};
ghost use Rattle.session_spec.specs.Statements as statements;
ghost use Rattle.session_table.specs.Table.{session_of};
ghost use Rattle.session_requests.specs.Meant.{meant, params_of, planned_or};

use crate::single_statements::wrong_params;
use crate::statement_requests::{no_database, statement_at};
use crate::text_requests::{cut, prepared_from};
use crate::wanted::RequestPlan;
use session_table::{Cause, Prepared, Session};
use sql_scan::{StatementSpan, WordKind};
use std::alloc::{AllocError, Global};
use wire_msgs::{Request, Response};
use wire_words::Value;

/// What one statement wants: COMMIT ends the transaction and is refused, ROLLBACK ends it, and any other is refused.
fn wanted_by_statement(
    alloc: Global,
    prepared: &Prepared,
    params: &[Value],
) -> Result<RequestPlan, AllocError>
    ensures { IfOk result (λ wanted. meant params.now wanted ≡ rules.lost_one prepared.now params.now) }
{
    if wrong_params(prepared, params) {
        return Ok(RequestPlan::Never(Cause::NotLeader));
    }
    let word = prepared.word;
    match word {
        WordKind::Commit => Ok(RequestPlan::Forgets(Cause::NotLeader.failure(alloc)?)),
        WordKind::Rollback => Ok(RequestPlan::Forgets(Response::Result {
            last_insert_id: 0,
            rows_affected: 0,
        })),
        WordKind::Begin { .. } | WordKind::Write | WordKind::LeftOut | WordKind::Other => {
            Ok(RequestPlan::Never(Cause::NotLeader))
        }
    }
}

/// What the statements of a text want.
fn wanted_by_statements(
    alloc: Global,
    sql: &str,
    pieces: &[StatementSpan],
    params: &[Value],
) -> Result<RequestPlan, AllocError>
    requires { All (StandsIn sql.now) pieces.now }
    ensures { IfOk result (λ wanted. meant params.now wanted ≡ rules.lost_text sql.now (Ok pieces.now) params.now) }
{
    if let [piece] = pieces {
        let prepared = prepared_from(alloc, sql, piece)?;
        return wanted_by_statement(alloc, &prepared, params);
    }
    Ok(RequestPlan::Never(Cause::NotLeader))
}

/// What a text wants.
fn wanted_by_text(alloc: Global, sql: &str, params: &[Value]) -> Result<RequestPlan, AllocError>
    ensures { IfOk result (λ wanted. meant params.now wanted ≡ rules.lost_text sql.now (scan_of sql.now) params.now) }
{
    match cut(alloc, sql)? {
        Ok(pieces) => {
            let wanted = wanted_by_statements(alloc, sql, pieces.as_slice(), params)?;
            Ok(wanted)
        }
        Err(_cause) => Ok(RequestPlan::Never(Cause::NotLeader)),
    }
}

/// What EXEC_SQL wants.
fn executes_text(
    alloc: Global,
    session: &Session,
    db: u64,
    sql: &str,
    params: &[Value],
) -> Result<RequestPlan, AllocError>
    ensures { (databases : List Database) → IfOk result (λ wanted. meant params.now wanted ≡
        rules.lost_in (session_of databases session.now) db (rules.lost_text sql.now (scan_of sql.now) params.now)) }
{
    if no_database(session, db) {
        return Ok(RequestPlan::Never(Cause::NotLeader));
    }
    wanted_by_text(alloc, sql, params)
}

/// What a prepared statement wants.
fn wanted_by_prepared(
    alloc: Global,
    statement: Option<Prepared>,
    params: &[Value],
) -> Result<RequestPlan, AllocError>
    ensures { IfOk result (λ wanted. meant params.now wanted ≡ rules.lost_exec statement params.now) }
{
    match statement {
        Some(prepared) => wanted_by_statement(alloc, &prepared, params),
        None => Ok(RequestPlan::Never(Cause::NotLeader)),
    }
}

/// What EXEC wants.
fn executes(
    alloc: Global,
    session: &Session,
    db: u64,
    id: u32,
    params: &[Value],
) -> Result<RequestPlan, AllocError>
    ensures { (databases : List Database) → IfOk result (λ wanted. meant params.now wanted ≡
        rules.lost_in (session_of databases session.now) db (rules.lost_exec (statements.prepared_at session.now.statements.items id) params.now)) }
{
    if no_database(session, db) {
        return Ok(RequestPlan::Never(Cause::NotLeader));
    }
    let statement = statement_at(alloc, session, id)?;
    wanted_by_prepared(alloc, statement, params)
}

/// What a request with a statement wants; none if it has no statement.
fn wanted_by_request(
    alloc: Global,
    session: &Session,
    request: &Request,
) -> Result<Option<RequestPlan>, AllocError>
    ensures { (databases : List Database) → IfOk result (λ wanted. option_map (meant (params_of request.now)) wanted ≡
        rules.asks_lost (session_of databases session.now) request.now) }
{
    match request {
        Request::Prepare { .. } => Ok(Some(RequestPlan::Never(Cause::NotLeader))),
        Request::Query { .. } => Ok(Some(RequestPlan::Never(Cause::NotLeader))),
        Request::QuerySql { .. } => Ok(Some(RequestPlan::Never(Cause::NotLeader))),
        Request::Exec {
            db,
            statement,
            params,
            ..
        } => {
            let params = params.as_slice();
            let wanted = executes(alloc, session, *db as u64, *statement, params)?;
            Ok(Some(wanted))
        }
        Request::ExecSql {
            db,
            sql,
            params,
            ..
        } => {
            let params = params.as_slice();
            let wanted = executes_text(alloc, session, *db, sql.as_str(), params)?;
            Ok(Some(wanted))
        }
        _ => Ok(None),
    }
}

/// What a request with a statement wants at a session whose transaction is lost: that ROLLBACK or COMMIT ends the transaction, or
/// nothing, as it is refused. None at any other session, and if the request has no statement.
pub(crate) fn wanted_if_lost(
    alloc: Global,
    session: &Session,
    request: &Request,
) -> Result<Option<RequestPlan>, AllocError>
    ensures { (databases : List Database) (asked : Asked) → IfOk result (λ wanted. rules.unless_lost session.now.lost
        (rules.asks_lost (session_of databases session.now) request.now) asked ≡ planned_or (params_of request.now) wanted asked) }
{
    if session.lost {
        wanted_by_request(alloc, session, request)
    } else {
        Ok(None)
    }
}
