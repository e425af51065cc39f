//! Statements that ran outside a transaction.

ghost use Rattle.std.specs.Prelude.{◌≡◌, ℕ, List, false, suc, IfOk};
ghost use Rattle.dq_base.specs.declared.images.Image.{Image};
ghost use Rattle.sql_engine.specs.Replies.{IsTable, Statement};
ghost use Rattle.session_spec.specs.Causes.{LogFull, DatabaseFull};
ghost use Rattle.session_spec.specs.Engines as engines;
ghost use Rattle.session_spec.specs.Entries.{tx_of};
ghost use Rattle.session_spec.specs.Limits as limits;
ghost use Rattle.session_spec.specs.Machine.{machine_of};
ghost use Rattle.session_spec.specs.Requests as requests;
ghost use Rattle.session_spec.specs.Requests.{unless, row_cause};
ghost use Rattle.session_spec.specs.Sessions as rules;
ghost use Rattle.session_spec.specs.Sessions.{Session as RuleSession, Note};
ghost use Rattle.session_statements.specs.Running.{Shows, change_in};
ghost use Rattle.session_table.specs.Table.{session_of, table_of, AreApart, database_of};
ghost use Rattle.session_outcomes.specs.Turning.{MatchesOutcome};
ghost use Rattle.session_outcomes.specs.Hindered.{LeadsTo};
ghost use Rattle.session_outcomes.specs.Runs.{IsWellFormed, write_of};

use crate::decision::Decision;
use crate::decision_context::DecisionContext;
use crate::ends::{idle, proposed, refused};
use crate::ran_changes::{entries_of, is_unchanged, oversize_refusal, refused_change};
use dq_base::Name;
use session_requests::log_full;
use session_statements::{AllRan, Ending};
use session_table::{Cause, Session, newest_of};
use sql_engine::StatementResult;
use std::alloc::{AllocError, Global};

/// The pages of a statement can't be applied.
fn too_large(
    setting: &DecisionContext,
    sessions: &[Session],
    conn: u64,
    name: &Name,
    rows: bool,
    answer: StatementResult,
) -> Result<Decision, AllocError>
    requires apart { AreApart sessions.now }
    requires table { IsTable answer.columns answer.rows }
    requires large { engines.takes answer.after.pages ≡ false }
    ensures { (weight : ℕ) (s : RuleSession) (to : Image) → IfOk result
        (MatchesOutcome setting.now.view.now (machine_of setting.now.machine.now) s (unless (limits.first_cause (limits.log_full setting.now.view.now) LogFull
        (row_cause rows answer (limits.change_refusal (machine_of setting.now.machine.now) (table_of setting.now.machine.now sessions.now weight) conn name.now
        ((machine_of setting.now.machine.now).base name.now).newest answer.after.pages to))) (rules.Refused DatabaseFull))) }
{
    let DecisionContext {
        alloc,
        view,
        machine,
        ..
    } = *setting;
    if log_full(view) {
        return Ok(Decision::Refused(Cause::LogFull));
    }
    let mark = newest_of(machine, name);
    let cause = oversize_refusal(alloc, machine, sessions, conn, name, mark, &answer)?;
    refused(alloc, rows, answer, cause)
}

/// Statements changed pages: a write is proposed, if nothing hinders it.
fn write(
    setting: &DecisionContext,
    sessions: &[Session],
    conn: u64,
    name: &Name,
    rows: bool,
    ran: AllRan,
) -> Result<Decision, AllocError>
    requires apart { AreApart sessions.now }
    requires table { IsTable ran.answer.columns ran.answer.rows }
    requires some { engines.no_pages (change_in ran).pages ≡ false }
    ensures { (weight : ℕ) (s : RuleSession) (note : Note) (to : Image) → LeadsTo (change_in ran).pages to
        → (limits.log_full setting.now.view.now ≡ false → (change_in ran).tx ≡ tx_of setting.now.view.now.term (suc setting.now.view.now.last))
        → IfOk result (MatchesOutcome setting.now.view.now (machine_of setting.now.machine.now) s
        (write_of setting.now.view.now (machine_of setting.now.machine.now) (table_of setting.now.machine.now sessions.now weight) conn s name.now rows
        (change_in ran).pages to ran.answer note)) }
{
    let DecisionContext {
        alloc,
        view,
        machine,
        ..
    } = *setting;
    if log_full(view) {
        return Ok(Decision::Refused(Cause::LogFull));
    }
    let mark = newest_of(machine, name);
    let hindered = refused_change(alloc, machine, sessions, conn, name, mark, &ran)?;
    match hindered {
        Err(cause) => refused(alloc, rows, ran.answer, cause),
        Ok(count) => {
            let entries = entries_of(alloc, view.term, name, &ran)?;
            proposed(alloc, view, name, rows, ran.answer, entries, count)
        }
    }
}

/// The outcome of statements that ran outside a transaction, over the newest image of their session's database, whose name this
/// is: they are answered, if they changed no page; else a write is proposed, if nothing hinders it.
pub(crate) fn decision_outside(
    setting: &DecisionContext,
    sessions: &[Session],
    session: &Session,
    name: &Name,
    rows: bool,
    ending: Ending,
) -> Result<Decision, AllocError>
    requires apart { AreApart sessions.now }
    requires name { database_of session.now.database ≡ name.now }
    requires formed { IsWellFormed ending }
    ensures { (weight tx : ℕ) (statements : List Statement) (ended : engines.Ending)
        → (limits.log_full setting.now.view.now ≡ false → tx ≡ tx_of setting.now.view.now.term (suc setting.now.view.now.last))
        → Shows tx ((machine_of setting.now.machine.now).base name.now).image ended ending
        → IfOk result (MatchesOutcome setting.now.view.now (machine_of setting.now.machine.now) (session_of setting.now.machine.now session.now)
        (requests.outside setting.now.view.now (machine_of setting.now.machine.now) (table_of setting.now.machine.now sessions.now weight) session.now.conn
        (session_of setting.now.machine.now session.now) statements rows ended)) }
{
    match ending {
        Ending::Stopped(fault) => Ok(Decision::Refused(Cause::of_engine(fault))),
        Ending::TooLarge(answer) => {
            too_large(setting, sessions, session.conn, name, rows, answer)
        }
        Ending::Ended(ran) => {
            if is_unchanged(&ran) {
                return idle(setting.alloc, rows, ran.answer);
            }
            write(setting, sessions, session.conn, name, rows, ran)
        }
    }
}
