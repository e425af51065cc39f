//! Statements that are to be prepared.

ghost use Rattle.std.specs.Prelude.{◌≡◌, ◌<◌, ◌∷◌, [], List, length, All, Ok, IfOk};
ghost use Rattle.database_state.specs.declared.database.Database.{Database};
ghost use Rattle.sql_scan.specs.Places.{StandsIn};
ghost use Rattle.sql_scan.specs.Statements.{scan_of};
ghost use Rattle.session_spec.specs.Asking as rules;
ghost use Rattle.session_spec.specs.Statements as statements;
ghost use Rattle.session_table.specs.Table.{session_of};
ghost use Rattle.session_requests.specs.Meant.{meant, FitsStatements};

use crate::text_requests::{cut, prepared_from};
use crate::wanted::RequestPlan;
use session_statements::{any_barred, is_left_out};
use session_table::{Cause, MAX_STATEMENTS, Prepared, Session, prepared_count};
use sql_scan::StatementSpan;
use std::alloc::{AllocError, Global};

/// What preparing a statement wants, with the place of the rest of its text where that is reported.
fn with_room(session: &Session, prepared: Prepared, tail: Option<u64>) -> RequestPlan
    ensures wants { (databases : List Database) → meant [] result ≡ rules.with_room (session_of databases session.now) prepared tail }
    ensures can { FitsStatements session.now.statements.items [] result }
{
    if prepared_count(session.statements.as_slice()) >= MAX_STATEMENTS {
        RequestPlan::Never(Cause::TooManyStatements)
    } else {
        RequestPlan::Prepares(prepared, tail)
    }
}

/// The place of the rest of a text after a statement, if that is reported.
fn tail_of(wide: bool, piece: &StatementSpan) -> Option<u64>
    ensures { result ≡ rules.tail_of wide piece.now }
{
    if wide { Some(piece.after) } else { None }
}

/// What a PREPARE wants whose first statement may be prepared.
fn prepares_first(
    alloc: Global,
    session: &Session,
    sql: &str,
    wide: bool,
    piece: &StatementSpan,
) -> Result<RequestPlan, AllocError>
    requires { StandsIn sql.now piece.now }
    ensures wants { (databases : List Database) → IfOk result (λ wanted. meant [] wanted ≡
        rules.with_room (session_of databases session.now) (statements.prepared_from sql.now piece.now) (rules.tail_of wide piece.now)) }
    ensures can { IfOk result (FitsStatements session.now.statements.items []) }
{
    let tail = tail_of(wide, piece);
    let prepared = prepared_from(alloc, sql, piece)?;
    Ok(with_room(session, prepared, tail))
}

/// What a PREPARE of the only statement of a text wants.
fn prepares_only(
    alloc: Global,
    session: &Session,
    sql: &str,
    wide: bool,
    piece: &StatementSpan,
) -> Result<RequestPlan, AllocError>
    requires { StandsIn sql.now piece.now }
    ensures wants { (databases : List Database) → IfOk result (λ wanted. meant [] wanted ≡
        rules.asks_prepare_pieces (session_of databases session.now) sql.now wide (piece.now ∷ [])) }
    ensures can { IfOk result (FitsStatements session.now.statements.items []) }
{
    if is_left_out(piece.word) {
        return Ok(RequestPlan::Never(Cause::NotAllowed));
    }
    prepares_first(alloc, session, sql, wide, piece)
}

/// What a PREPARE of a text with several statements wants.
fn prepares_several(
    alloc: Global,
    session: &Session,
    sql: &str,
    wide: bool,
    pieces: &[StatementSpan],
) -> Result<RequestPlan, AllocError>
    requires stand { All (StandsIn sql.now) pieces.now }
    requires several { 1 < length pieces.now }
    ensures wants { (databases : List Database) → IfOk result (λ wanted. meant [] wanted ≡
        rules.asks_prepare_pieces (session_of databases session.now) sql.now wide pieces.now) }
    ensures can { IfOk result (FitsStatements session.now.statements.items []) }
{
    if any_barred(pieces) {
        return Ok(RequestPlan::Never(Cause::NotAllowed));
    }
    if !wide {
        return Ok(RequestPlan::Never(Cause::OneStatementWanted));
    }
    prepares_first(alloc, session, sql, wide, &pieces[0])
}

/// What a PREPARE of the statements of a text wants.
fn prepares_pieces(
    alloc: Global,
    session: &Session,
    sql: &str,
    wide: bool,
    pieces: &[StatementSpan],
) -> Result<RequestPlan, AllocError>
    requires { All (StandsIn sql.now) pieces.now }
    ensures wants { (databases : List Database) → IfOk result (λ wanted. meant [] wanted ≡
        rules.asks_prepare_pieces (session_of databases session.now) sql.now wide pieces.now) }
    ensures can { IfOk result (FitsStatements session.now.statements.items []) }
{
    match pieces {
        [] => Ok(RequestPlan::Never(Cause::OneStatementWanted)),
        [piece] => prepares_only(alloc, session, sql, wide, piece),
        _ => prepares_several(alloc, session, sql, wide, pieces),
    }
}

/// What a PREPARE wants by its text, wide or not.
pub(crate) fn wanted_by_prepare(
    alloc: Global,
    session: &Session,
    sql: &str,
    wide: bool,
) -> Result<RequestPlan, AllocError>
    ensures wants { (databases : List Database) → IfOk result (λ wanted. meant [] wanted ≡
        rules.asks_prepare (session_of databases session.now) sql.now wide (scan_of sql.now)) }
    ensures can { IfOk result (FitsStatements session.now.statements.items []) }
{
    match cut(alloc, sql)? {
        Ok(pieces) => {
            let wanted = prepares_pieces(alloc, session, sql, wide, pieces.as_slice())?;
            Ok(wanted)
        }
        Err(cause) => Ok(RequestPlan::Never(cause)),
    }
}
