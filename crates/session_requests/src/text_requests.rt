//! Texts that come with a request.

ghost use Rattle.std.specs.Prelude.{◌≡◌, ◌≢◌, ◌==◌, length, All, IfOk, IsErr, Ok};
ghost use Rattle.sql_scan.specs.Places.{StandsIn};
ghost use Rattle.sql_scan.specs.Statements.{scan_of};
ghost use Rattle.sql_scan.specs.declared.fault.ScanFault.TheVariants.{NoMemory};
ghost use Rattle.session_spec.specs.Causes.{scan_cause};
ghost use Rattle.session_table.specs.Named.{cause_named};
ghost use Rattle.session_spec.specs.Asking as rules;
ghost use Rattle.session_spec.specs.Statements as statements;
ghost use Rattle.session_statements.specs.Texts.{cut_at};
ghost use Rattle.session_requests.specs.Meant.{meant, hinders_named, CanRun, CutInto};

use crate::single_statements::{wanted_by_one, wanted_by_reading};
use crate::wanted::{RequestPlan, Script};
use crate::write_hindrance::{any_write, hindrance_of};
use dq_base::Items;
use session_statements::{any_barred, params_fit};
use session_table::{Cause, Prepared};
use sql_scan::{ScanFault, StatementSpan, scan};
use std::alloc::{AllocError, Global};
use wire_words::{Value, WireText};

/// The statement that is at a place of a text, copied.
pub(crate) fn prepared_from(
    alloc: Global,
    sql: &str,
    piece: &StatementSpan,
) -> Result<Prepared, AllocError>
    requires { StandsIn sql.now piece.now }
    ensures { IfOk result (λ prepared. prepared ≡ statements.prepared_from sql.now piece.now) }
{
    let text = &sql[piece.start as usize..piece.end as usize];
    Ok(Prepared {
        text: WireText::new(String::from_str(alloc, text)?),
        word: piece.word,
        params: piece.params,
    })
}

/// Why a text with a fault can't be split into statements. `Err` means out of memory, if that is the fault.
fn scan_refusal(fault: ScanFault) -> Result<Cause, AllocError>
    ensures cause { IfOk result (λ cause. (fault ≢ NoMemory) × (cause_named cause ≡ scan_cause fault)) }
    ensures gives_up { IsErr result → fault ≡ NoMemory }
{
    match fault {
        ScanFault::OpenQuote(_)
        | ScanFault::OpenComment(_)
        | ScanFault::Named(_)
        | ScanFault::Number(_) => Ok(Cause::of_scan(fault)),
        ScanFault::NoMemory => Err(AllocError),
    }
}

/// The statements of a text; or why it can't be split into statements.
pub(crate) fn cut(
    alloc: Global,
    sql: &str,
) -> Result<Result<Items<StatementSpan>, Cause>, AllocError>
    ensures { IfOk result (CutInto sql.now) }
{
    match scan(alloc, sql) {
        Ok(scan) => Ok(Ok(scan.statements)),
        Err(fault) => Ok(Err(scan_refusal(fault)?)),
    }
}

/// Whether there is exactly one statement.
fn is_sole(pieces: &[StatementSpan]) -> bool
    ensures { result ≡ (length pieces.now == 1) }
{
    pieces.len() == 1
}

/// What several statements want, or none, if this hinders a write.
fn wanted_by_several(
    alloc: Global,
    hinders: Option<Cause>,
    sql: &str,
    pieces: Items<StatementSpan>,
    params: &[Value],
) -> Result<RequestPlan, AllocError>
    requires { All (StandsIn sql.now) pieces }
    ensures wants { IfOk result (λ wanted. meant params.now wanted ≡ rules.asks_several (hinders_named hinders) (cut_at sql.now pieces) params.now) }
    ensures runs { IfOk result (CanRun params.now) }
{
    if any_barred(pieces.as_slice()) {
        return Ok(RequestPlan::Never(Cause::NotAllowed));
    }
    if !params_fit(pieces.as_slice(), params) {
        return Ok(RequestPlan::Never(Cause::WrongParameters));
    }
    match hindrance_of(hinders, any_write(pieces.as_slice())) {
        Some(cause) => Ok(RequestPlan::Never(cause)),
        None => Ok(RequestPlan::RunsAll(Script {
            text: WireText::new(String::from_str(alloc, sql)?),
            pieces,
        })),
    }
}

/// What the statements of a text want whose rows are dropped, if this hinders a write.
fn wanted_by_pieces(
    alloc: Global,
    hinders: Option<Cause>,
    inside: bool,
    sql: &str,
    pieces: Items<StatementSpan>,
    params: &[Value],
) -> Result<RequestPlan, AllocError>
    requires { All (StandsIn sql.now) pieces }
    ensures wants { IfOk result (λ wanted. meant params.now wanted ≡ rules.asks_text (hinders_named hinders) inside sql.now (Ok pieces) params.now) }
    ensures runs { IfOk result (CanRun params.now) }
{
    if is_sole(pieces.as_slice()) {
        let piece = &pieces.as_slice()[0];
        let prepared = prepared_from(alloc, sql, piece)?;
        return Ok(wanted_by_one(hinders, inside, prepared, params));
    }
    let wanted = wanted_by_several(alloc, hinders, sql, pieces, params)?;
    Ok(wanted)
}

/// What an EXEC_SQL wants by its text and parameters, if a transaction is open or none is, and if this hinders a write.
pub(crate) fn wanted_by_text(
    alloc: Global,
    hinders: Option<Cause>,
    inside: bool,
    sql: &str,
    params: &[Value],
) -> Result<RequestPlan, AllocError>
    ensures wants { IfOk result (λ wanted. meant params.now wanted ≡ rules.asks_text (hinders_named hinders) inside sql.now (scan_of sql.now) params.now) }
    ensures runs { IfOk result (CanRun params.now) }
{
    match cut(alloc, sql)? {
        Ok(pieces) => {
            let wanted = wanted_by_pieces(alloc, hinders, inside, sql, pieces, params)?;
            Ok(wanted)
        }
        Err(cause) => Ok(RequestPlan::Never(cause)),
    }
}

/// What the statements of a text want where one is to be, whose rows are reported, and if this hinders a write.
fn wanted_by_sole(
    alloc: Global,
    hinders: Option<Cause>,
    sql: &str,
    pieces: &[StatementSpan],
    params: &[Value],
) -> Result<RequestPlan, AllocError>
    requires { All (StandsIn sql.now) pieces.now }
    ensures { IfOk result (λ wanted. meant params.now wanted ≡ rules.asks_rows (hinders_named hinders) sql.now (Ok pieces.now) params.now) }
{
    if let [piece] = pieces {
        let prepared = prepared_from(alloc, sql, piece)?;
        return Ok(wanted_by_reading(hinders, prepared, params));
    }
    if any_barred(pieces) {
        return Ok(RequestPlan::Never(Cause::NotAllowed));
    }
    Ok(RequestPlan::Never(Cause::OneStatementWanted))
}

/// What a QUERY_SQL wants by its text and parameters, if this hinders a write.
pub(crate) fn wanted_by_rows(
    alloc: Global,
    hinders: Option<Cause>,
    sql: &str,
    params: &[Value],
) -> Result<RequestPlan, AllocError>
    ensures wants { IfOk result (λ wanted. meant params.now wanted ≡ rules.asks_rows (hinders_named hinders) sql.now (scan_of sql.now) params.now) }
{
    match cut(alloc, sql)? {
        Ok(pieces) => {
            let wanted = wanted_by_sole(alloc, hinders, sql, pieces.as_slice(), params)?;
            Ok(wanted)
        }
        Err(cause) => Ok(RequestPlan::Never(cause)),
    }
}
