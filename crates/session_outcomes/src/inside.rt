//! Statements that ran in a transaction.

ghost use Rattle.std.specs.Prelude.{◌≡◌, ℕ, List, [], Option, Some, true, false, IfOk};
ghost use Rattle.dq_base.specs.declared.images.Image.{Image};
ghost use Rattle.dq_base.specs.Applying.{applied};
ghost use Rattle.dq_base.specs.Changes.{changed};
ghost use Rattle.sql_engine.specs.Replies.{IsTable, Statement};
ghost use Rattle.session_spec.specs.Causes.{DatabaseFull};
ghost use Rattle.session_spec.specs.Engines as engines;
ghost use Rattle.session_spec.specs.Limits as limits;
ghost use Rattle.session_spec.specs.Machine.{machine_of};
ghost use Rattle.session_spec.specs.Requests as requests;
ghost use Rattle.session_spec.specs.Requests.{unless, row_cause, reply_of};
ghost use Rattle.session_spec.specs.Sessions as rules;
ghost use Rattle.session_spec.specs.Sessions.{Session as RuleSession, View as RuleView, Transaction as RuleTransaction, Note};
ghost use Rattle.session_statements.specs.Running.{Shows, change_in};
ghost use Rattle.session_table.specs.Table.{session_of, transaction_of, table_of, AreApart};
ghost use Rattle.session_table.specs.Working.{work_with, AreAmong};
ghost use Rattle.session_table.specs.declared.session.Transaction.{Transaction as TransactionValue};
ghost use Rattle.session_outcomes.specs.Numbers.{work_in, work_left};
ghost use Rattle.session_outcomes.specs.Turning.{MatchesOutcome};
ghost use Rattle.session_outcomes.specs.Hindered.{LeadsTo};
ghost use Rattle.session_outcomes.specs.Runs.{IsWellFormed};

use crate::decision::Decision;
use crate::decision_context::DecisionContext;
use crate::ends::{idle, refused, worked};
use crate::ran_changes::{is_unchanged, oversize_refusal, refused_change};
use dq_base::{Items, PageSet};
use session_statements::{AllRan, Ending};
use session_table::{Cause, Session, Transaction};
use sql_engine::StatementResult;
use std::alloc::{AllocError, Global};

/// A copy of the pages that statements changed.
fn change_of(alloc: Global, ran: &AllRan) -> Result<PageSet, AllocError>
    ensures { IfOk result (λ copy. copy ≡ change_in ran.now) }
{
    let set = ran.change();
    let pages = Items::new(Vec::from_slice(alloc, set.pages.as_slice())?);
    Ok(PageSet { tx: set.tx, pages })
}

/// The pages of a statement can't be applied.
fn too_large(
    setting: &DecisionContext,
    sessions: &[Session],
    conn: u64,
    transaction: &Transaction,
    rows: bool,
    answer: StatementResult,
) -> Result<Decision, AllocError>
    requires apart { AreApart sessions.now }
    requires table { IsTable answer.columns answer.rows }
    requires large { engines.takes answer.after.pages ≡ false }
    ensures works { IfOk result (λ decision. (tx : Option TransactionValue) → work_in decision tx ≡ []) }
    ensures comes { (weight : ℕ) (v : RuleView) (s : RuleSession) (to : Image)
        → IfOk result (MatchesOutcome v (machine_of setting.now.machine.now) s (unless
        (row_cause rows answer (limits.change_refusal (machine_of setting.now.machine.now)
        (table_of setting.now.machine.now sessions.now weight) conn transaction.now.name transaction.now.mark answer.after.pages to))
        (rules.Refused DatabaseFull))) }
{
    let DecisionContext { alloc, machine, .. } = *setting;
    let name = &transaction.name;
    let cause = oversize_refusal(
        alloc,
        machine,
        sessions,
        conn,
        name,
        transaction.mark,
        &answer,
    )?;
    refused(alloc, rows, answer, cause)
}

/// Statements changed pages: the transaction takes the write lock, if nothing hinders it.
fn work(
    setting: &DecisionContext,
    sessions: &[Session],
    conn: u64,
    transaction: &Transaction,
    rows: bool,
    ran: AllRan,
) -> Result<Decision, AllocError>
    requires apart { AreApart sessions.now }
    requires table { IsTable ran.answer.columns ran.answer.rows }
    requires some { engines.no_pages (change_in ran).pages ≡ false }
    ensures works { IfOk result (λ decision. (tx : Option TransactionValue) → AreAmong (work_with (change_in ran).pages setting.now.number tx)
        (work_in decision tx)) }
    ensures comes { (weight : ℕ) (v : RuleView) (s : RuleSession) (x : RuleTransaction) (note : Note) (to : Image) → LeadsTo (change_in ran).pages to
        → s.tx ≡ Some x → applied x.working (change_in ran).pages ≡ to → (change_in ran).pages ≡ changed x.working to
        → IfOk result (MatchesOutcome v (machine_of setting.now.machine.now) s (unless
        (row_cause rows ran.answer (limits.change_refusal (machine_of setting.now.machine.now)
        (table_of setting.now.machine.now sessions.now weight) conn transaction.now.name transaction.now.mark (change_in ran).pages to))
        (rules.Answers (requests.worked s x to true) (reply_of rows ran.answer) note))) }
{
    let DecisionContext {
        alloc,
        machine,
        number,
        ..
    } = *setting;
    let name = &transaction.name;
    let hindered = refused_change(alloc, machine, sessions, conn, name, transaction.mark, &ran)?;
    match hindered {
        Err(cause) => refused(alloc, rows, ran.answer, cause),
        Ok(_count) => {
            let set = change_of(alloc, &ran)?;
            worked(alloc, rows, ran.answer, set, number)
        }
    }
}

/// The outcome of statements that ran in a transaction, over its own image: they are answered, and the transaction takes the write lock with
/// the first that changes pages, if nothing hinders it; the number is that of its working image then.
pub(crate) fn decision_inside(
    setting: &DecisionContext,
    sessions: &[Session],
    session: &Session,
    transaction: &Transaction,
    rows: bool,
    ending: Ending,
) -> Result<Decision, AllocError>
    requires apart { AreApart sessions.now }
    requires open { session.now.transaction ≡ Some transaction.now }
    requires formed { IsWellFormed ending }
    ensures works { IfOk result (λ decision. AreAmong (work_left transaction.now.working setting.now.number ending)
        (work_in decision session.now.transaction)) }
    ensures comes { (weight tx : ℕ) (v : RuleView) (statements : List Statement) (ended : engines.Ending) → Shows tx transaction.now.working ended ending
        → IfOk result (MatchesOutcome v (machine_of setting.now.machine.now) (session_of setting.now.machine.now session.now)
        (requests.inside (machine_of setting.now.machine.now) (table_of setting.now.machine.now sessions.now weight) session.now.conn
        (session_of setting.now.machine.now session.now)
        (transaction_of setting.now.machine.now transaction.now) statements rows ended)) }
{
    match ending {
        Ending::Stopped(fault) => Ok(Decision::Refused(Cause::of_engine(fault))),
        Ending::TooLarge(answer) => {
            too_large(setting, sessions, session.conn, transaction, rows, answer)
        }
        Ending::Ended(ran) => {
            if is_unchanged(&ran) {
                return idle(setting.alloc, rows, ran.answer);
            }
            work(setting, sessions, session.conn, transaction, rows, ran)
        }
    }
}
