//! Statements that are prepared already, or are alone in their text.

ghost use Rattle.std.specs.Prelude.{◌≡◌, [], ◌∷◌};
ghost use Rattle.session_spec.specs.Asking as rules;
ghost use Rattle.session_spec.specs.Statements as statements;
ghost use Rattle.session_spec.specs.Statements.{with_all};
ghost use Rattle.session_requests.specs.Meant.{meant, hinders_named, CanRun, FitsStatements};

use crate::wanted::RequestPlan;
use crate::write_hindrance::{hindrance_of, is_write_word};
use session_statements::{is_control, is_left_out};
use session_table::{Cause, Prepared, Session, prepared_at};
use sql_scan::WordKind;
use wire_words::Value;

/// Whether a statement wants another number of parameters than there are.
pub(crate) fn wrong_params(prepared: &Prepared, params: &[Value]) -> bool
    ensures { result ≡ statements.wrong_params (prepared.now ∷ []) params.now }
{
    let wants = prepared.params;
    wants != params.len() as u64
}

/// What a write wants.
fn wanted_by_write(hinders: Option<Cause>, prepared: Prepared, params: &[Value]) -> RequestPlan
    ensures wants { meant params.now result ≡ rules.never_or (hinders_named hinders) (rules.Runs (with_all prepared params.now ∷ [])) }
    ensures runs { CanRun params.now result }
{
    match hinders {
        Some(cause) => RequestPlan::Never(cause),
        None => RequestPlan::RunsOne(prepared),
    }
}

/// What a statement that may run wants, by its kind.
fn wanted_by_kind(
    hinders: Option<Cause>,
    inside: bool,
    prepared: Prepared,
    params: &[Value],
) -> RequestPlan
    ensures wants { meant params.now result ≡ rules.asks_kind (hinders_named hinders) inside prepared.word (with_all prepared params.now) }
    ensures runs { CanRun params.now result }
{
    let word = prepared.word;
    match word {
        WordKind::Begin { at_once } => {
            if inside {
                RequestPlan::Never(Cause::InTransaction)
            } else {
                RequestPlan::Begins(at_once)
            }
        }
        WordKind::Commit => {
            if inside {
                RequestPlan::Commits
            } else {
                RequestPlan::Never(Cause::NoTransaction)
            }
        }
        WordKind::Rollback => {
            if inside {
                RequestPlan::RollsBack
            } else {
                RequestPlan::Never(Cause::NoTransaction)
            }
        }
        WordKind::LeftOut => RequestPlan::Never(Cause::NotAllowed),
        WordKind::Write => wanted_by_write(hinders, prepared, params),
        WordKind::Other => RequestPlan::RunsOne(prepared),
    }
}

/// What one statement wants whose rows are dropped, if a transaction is open or none is, and if this hinders a write.
pub(crate) fn wanted_by_one(
    hinders: Option<Cause>,
    inside: bool,
    prepared: Prepared,
    params: &[Value],
) -> RequestPlan
    ensures wants { meant params.now result ≡ rules.asks_one (hinders_named hinders) inside prepared params.now }
    ensures runs { CanRun params.now result }
{
    let word = prepared.word;
    if is_left_out(word) {
        return RequestPlan::Never(Cause::NotAllowed);
    }
    if wrong_params(&prepared, params) {
        return RequestPlan::Never(Cause::WrongParameters);
    }
    wanted_by_kind(hinders, inside, prepared, params)
}

/// What one statement wants whose rows are reported, if this hinders a write.
pub(crate) fn wanted_by_reading(
    hinders: Option<Cause>,
    prepared: Prepared,
    params: &[Value],
) -> RequestPlan
    ensures { meant params.now result ≡ rules.asks_query (hinders_named hinders) prepared params.now }
{
    let word = prepared.word;
    if is_control(word) || is_left_out(word) {
        return RequestPlan::Never(Cause::NotAllowed);
    }
    if wrong_params(&prepared, params) {
        return RequestPlan::Never(Cause::WrongParameters);
    }
    match hindrance_of(hinders, is_write_word(word)) {
        Some(cause) => RequestPlan::Never(cause),
        None => RequestPlan::Reads(prepared),
    }
}

/// What an EXEC of a prepared statement wants, if a transaction is open or none is, and if this hinders a write. The
/// statement is that of the request's number, if there is one.
pub(crate) fn wanted_by_exec(
    hinders: Option<Cause>,
    inside: bool,
    statement: Option<Prepared>,
    params: &[Value],
) -> RequestPlan
    ensures wants { meant params.now result ≡ rules.asks_exec (hinders_named hinders) inside statement params.now }
    ensures runs { CanRun params.now result }
{
    match statement {
        Some(prepared) => wanted_by_one(hinders, inside, prepared, params),
        None => RequestPlan::Never(Cause::NoStatement),
    }
}

/// What a QUERY of a prepared statement wants, if this hinders a write.
pub(crate) fn wanted_by_query(
    hinders: Option<Cause>,
    statement: Option<Prepared>,
    params: &[Value],
) -> RequestPlan
    ensures { meant params.now result ≡ rules.asks_prepared_query (hinders_named hinders) statement params.now }
{
    match statement {
        Some(prepared) => wanted_by_reading(hinders, prepared, params),
        None => RequestPlan::Never(Cause::NoStatement),
    }
}

/// What a FINALIZE wants of the statement of a number.
pub(crate) fn wanted_by_finalize(session: &Session, id: u32) -> RequestPlan
    ensures wants { meant [] result ≡ rules.asks_finalize (statements.prepared_at session.now.statements.items id) id }
    ensures can { FitsStatements session.now.statements.items [] result }
{
    match prepared_at(session.statements.as_slice(), id) {
        Some(_prepared) => RequestPlan::Drops(id),
        None => RequestPlan::Never(Cause::NoStatement),
    }
}
