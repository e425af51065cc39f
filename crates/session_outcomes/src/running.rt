//! Statements of a request, run by an engine at a session.

ghost use Rattle.std.specs.Prelude.{◌≡◌, ◌<◌, ◌≤◌, ◌+◌, ◌++◌, ℕ, List, [], ◌∷◌, true, false, suc, length, map, get_or, All, Contains, IsSome, IfOk, OnErr};
ghost use Rattle.std.specs.List.{AllByRecursion};
ghost use Rattle.sql_engine.specs.Known.{Known, MayRun};
ghost use Rattle.sql_engine.specs.Meanings.{Stays};
ghost use Rattle.database_state.specs.ImageNumbers.{numbered};
ghost use Rattle.session_statements.specs.Agreeing.{Agree};
ghost use Rattle.session_statements.specs.Learning.{IsLearnt, left_by};
ghost use Rattle.sql_engine.specs.Replies.{Statement};
ghost use Rattle.session_spec.specs.Engines as engines;
ghost use Rattle.session_spec.specs.Entries.{tx_of};
ghost use Rattle.session_spec.specs.Limits as limits;
ghost use Rattle.session_spec.specs.Machine.{machine_of};
ghost use Rattle.session_spec.specs.Requests.{ground};
ghost use Rattle.session_requests.specs.declared.wanted.RequestPlan.TheVariants as wanted;
ghost use Rattle.session_requests.specs.Meant.{CanRun};
ghost use Rattle.session_spec.specs.Allowed.{IsServed};
ghost use Rattle.session_statements.specs.Texts.{assigned};
ghost use Rattle.session_statements.specs.Running.{RanTo, Shows, ends_unopened};
ghost use Rattle.session_table.specs.declared.cause.Cause.TheVariants as causes;
ghost use Rattle.session_table.specs.declared.session.Session.{Session as SessionValue};
ghost use Rattle.session_table.specs.Table.{session_of, table_of, AreApart};
ghost use Rattle.session_outcomes.specs.declared.decision.Decision.TheVariants as decisions;
ghost use Rattle.session_table.specs.Working.{with_number, work_of, works_of, AreAmong};
ghost use Rattle.session_outcomes.specs.Numbers.{work_in, works_in, work_left, MayRunOver};
ghost use Rattle.session_outcomes.specs.Turning.{MatchesOutcome};
ghost use Rattle.session_outcomes.specs.Runs.{IsWellFormed, RunsTo, ran_in};
ghost use Rattle.session_statements.specs.Calls.{call_on};
ghost use Rattle.session_outcomes.specs.Scenes.{scene};

use crate::decision::Decision;
use crate::decision_context::DecisionContext;
use crate::inside::decision_inside;
use crate::outside::decision_outside;
use crate::writing::transaction_number;
use dq_base::{Image, ImageNumber};
use session_requests::{Script, View};
use session_statements::{Ending, RunOptions, run_all, run_one, run_unnumbered};
use session_table::{Session, name_of, newest_image, newest_shared, opened_name};
use sql_engine::{Engine, ImageNumbers};
use std::alloc::AllocError;
use wire_words::Value;

/// How statements run with a limit of steps: for the transaction whose entries come next in the node's log, if that has room.
pub(crate) fn next_run(view: &View, limit: Option<u64>) -> RunOptions
    ensures { view.now.term ≤ 4294967295 → limits.log_full view.now ≡ false → result.tx ≡ tx_of view.now.term (suc view.now.last) }
{
    RunOptions {
        tx: transaction_number(view.term, view.last),
        limit,
    }
}

/// Runs a statement over an image under its number, if it has one, and the number that was drawn for the image after; an engine
/// is told to forget all numbers where it has none.
fn run_on<E: Engine>(
    engine: &mut E,
    image: &Image,
    before: Option<ImageNumber>,
    number: u64,
    text: &str,
    params: &[Value],
    options: RunOptions,
) -> Ending
    requires { AllByRecursion (λ (work : Known). MayRun (E.known engine.old) work.image (record { before = work.number; after = number }))
        (with_number before image.now) }
    ensures stays { Stays (E.kind engine.old) (E.kind engine.new) (E.refused_openings engine.old) (E.refused_openings engine.new) }
    ensures unopened { ends_unopened result ≡ true → E.refused_openings engine.old < E.refused_openings engine.new }
    ensures learnt { All (IsLearnt (E.known engine.old) before image.now number (left_by image.now result)) (E.known engine.new) }
    ensures ran { RanTo (call_on E.meaning E.kind E.told engine.old engine.new) options.tx image.now (record { text = text.now; params = params.now } ∷ [])
        result }
{
    match before {
        Some(before) => {
            let numbers = ImageNumbers {
                before,
                after: number,
            };
            run_one(engine, image, numbers, text, params, options)
        }
        None => run_unnumbered(engine, image, text, params, options),
    }
}

/// Runs a statement over the newest image of the database of a name, which the state machine lends: if it keeps that image whole
/// nothing is copied.
fn run_lent<E: Engine>(
    setting: &DecisionContext,
    name: &str,
    text: &str,
    params: &[Value],
    options: RunOptions,
    engine: &mut E,
) -> Result<Ending, AllocError>
    requires may { MayRunOver (E.known engine.old) [] (map numbered setting.now.machine.now) setting.now.number }
    ensures stays { Stays (E.kind engine.old) (E.kind engine.new) (E.refused_openings engine.old) (E.refused_openings engine.new) }
    ensures unopened { IfOk result (λ ending. ends_unopened ending ≡ true → E.refused_openings engine.old < E.refused_openings engine.new) }
    ensures ran { IfOk result (RanTo (call_on E.meaning E.kind E.told engine.old engine.new) options.tx
        ((machine_of setting.now.machine.now).base name.now).image (record { text = text.now; params = params.now } ∷ [])) }
    ensures agree { IfOk result (λ ending. (works : List Known) → Agree (E.known engine.old) works setting.now.number (map numbered setting.now.machine.now)
        → Agree (E.known engine.new) (work_left ((machine_of setting.now.machine.now).base name.now).image setting.now.number ending ++ works)
        (setting.now.number + 1)
        (map numbered setting.now.machine.now)) }
    ensures failed { OnErr result (E.known engine.new ≡ E.known engine.old) }
{
    let DecisionContext {
        alloc,
        machine,
        number,
        ..
    } = *setting;
    let image = newest_shared(alloc, machine, name)?;
    let before = machine.number(name);
    Ok(run_on(engine, &image, before, number, text, params, options))
}

/// Runs a statement over the image of a session: that of its transaction, or the newest of its database, which is lent.
pub(crate) fn run_statement<E: Engine>(
    setting: &DecisionContext,
    session: &Session,
    text: &str,
    params: &[Value],
    options: RunOptions,
    engine: &mut E,
) -> Result<Ending, AllocError>
    requires may { MayRunOver (E.known engine.old) (work_of session.now.transaction) (map numbered setting.now.machine.now) setting.now.number }
    ensures stays { Stays (E.kind engine.old) (E.kind engine.new) (E.refused_openings engine.old) (E.refused_openings engine.new) }
    ensures unopened { IfOk result (λ ending. ends_unopened ending ≡ true → E.refused_openings engine.old < E.refused_openings engine.new) }
    ensures ran { IfOk result (RanTo (call_on E.meaning E.kind E.told engine.old engine.new) options.tx
        (ground (machine_of setting.now.machine.now) (session_of setting.now.machine.now session.now) (session_of setting.now.machine.now session.now).tx)
        (record { text = text.now; params = params.now } ∷ [])) }
    ensures agree { IfOk result (λ ending. (works : List Known) → AreAmong works (work_of session.now.transaction)
        → Agree (E.known engine.old) works setting.now.number (map numbered setting.now.machine.now)
        → Agree (E.known engine.new) (work_left (ground (machine_of setting.now.machine.now) (session_of setting.now.machine.now session.now)
        (session_of setting.now.machine.now session.now).tx) setting.now.number ending ++ works) (setting.now.number + 1)
        (map numbered setting.now.machine.now)) }
    ensures failed { OnErr result (E.known engine.new ≡ E.known engine.old) }
{
    match &session.transaction {
        Some(transaction) => {
            let image = &transaction.working;
            let before = transaction.number;
            let number = setting.number;
            Ok(run_on(engine, image, before, number, text, params, options))
        }
        None => {
            let name = name_of(&session.database);
            let ending = run_lent(setting, name, text, params, options, engine)?;
            Ok(ending)
        }
    }
}

/// Runs the statements of a text one after another over a copy of the newest image of the database of a name.
fn run_newest<E: Engine>(
    setting: &DecisionContext,
    name: &str,
    script: &Script,
    params: &[Value],
    options: RunOptions,
    engine: &mut E,
) -> Result<Ending, AllocError>
    requires { CanRun params.now (wanted.RunsAll script.now) }
    ensures stays { Stays (E.kind engine.old) (E.kind engine.new) (E.refused_openings engine.old) (E.refused_openings engine.new) }
    ensures unopened { IfOk result (λ ending. ends_unopened ending ≡ true → E.refused_openings engine.old < E.refused_openings engine.new) }
    ensures known { All (Contains (E.known engine.old)) (E.known engine.new) }
    ensures ran { IfOk result (RanTo (call_on E.meaning E.kind E.told engine.old engine.new) options.tx
        ((machine_of setting.now.machine.now).base name.now).image (assigned script.now.text script.now.pieces params.now)) }
{
    let DecisionContext { alloc, machine, .. } = *setting;
    let text = script.text.as_str();
    let pieces = script.pieces.as_slice();
    let mut image = newest_image(alloc, machine, name)?;
    let ending = run_all(alloc, engine, &mut image, text, pieces, params, options)?;
    Ok(ending)
}

/// Runs the statements of a text one after another over the image of a session, which is put back.
fn run_statements<E: Engine>(
    setting: &DecisionContext,
    session: &mut Session,
    script: &Script,
    params: &[Value],
    options: RunOptions,
    engine: &mut E,
) -> Result<Ending, AllocError>
    requires { CanRun params.now (wanted.RunsAll script.now) }
    ensures kept { session.new ≡ session.old }
    ensures stays { Stays (E.kind engine.old) (E.kind engine.new) (E.refused_openings engine.old) (E.refused_openings engine.new) }
    ensures unopened { IfOk result (λ ending. ends_unopened ending ≡ true → E.refused_openings engine.old < E.refused_openings engine.new) }
    ensures known { All (Contains (E.known engine.old)) (E.known engine.new) }
    ensures ran { IfOk result (RanTo (call_on E.meaning E.kind E.told engine.old engine.new) options.tx
        (ground (machine_of setting.now.machine.now) (session_of setting.now.machine.now session.old) (session_of setting.now.machine.now session.old).tx)
        (assigned script.now.text script.now.pieces params.now)) }
{
    match &mut session.transaction {
        Some(transaction) => {
            let text = script.text.as_str();
            let pieces = script.pieces.as_slice();
            let working = &mut transaction.working;
            let alloc = setting.alloc;
            let ending = run_all(alloc, engine, working, text, pieces, params, options)?;
            Ok(ending)
        }
        None => {
            let name = name_of(&session.database);
            let ending = run_newest(setting, name, script, params, options, engine)?;
            Ok(ending)
        }
    }
}

/// Runs statements at the session at a place.
fn run_at<E: Engine>(
    setting: &DecisionContext,
    sessions: &mut [Session],
    place: usize,
    script: &Script,
    params: &[Value],
    options: RunOptions,
    engine: &mut E,
) -> Result<Ending, AllocError>
    requires within { place < length sessions.old }
    requires fits { CanRun params.now (wanted.RunsAll script.now) }
    ensures kept { sessions.new ≡ sessions.old }
    ensures stays { Stays (E.kind engine.old) (E.kind engine.new) (E.refused_openings engine.old) (E.refused_openings engine.new) }
    ensures unopened { IfOk result (λ ending. ends_unopened ending ≡ true → E.refused_openings engine.old < E.refused_openings engine.new) }
    ensures known { All (Contains (E.known engine.old)) (E.known engine.new) }
    ensures ran { (own : SessionValue) → IfOk result (RanTo (call_on E.meaning E.kind E.told engine.old engine.new) options.tx
        (ground (machine_of setting.now.machine.now) (session_of setting.now.machine.now (get_or sessions.old place own))
        (session_of setting.now.machine.now (get_or sessions.old place own)).tx) (assigned script.now.text script.now.pieces params.now)) }
{
    let session = &mut sessions[place];
    run_statements(setting, session, script, params, options, engine)
}

/// The outcome of statements that ran at their session: in its transaction, or outside of one.
pub(crate) fn decision_of(
    setting: &DecisionContext,
    sessions: &[Session],
    session: &Session,
    rows: bool,
    ending: Ending,
) -> Result<Decision, AllocError>
    requires apart { AreApart sessions.now }
    requires open { IsSome session.now.database }
    requires formed { IsWellFormed ending }
    ensures works { IfOk result (λ decision. AreAmong (work_left (ground (machine_of setting.now.machine.now) (session_of setting.now.machine.now session.now)
        (session_of setting.now.machine.now session.now).tx) setting.now.number ending) (work_in decision session.now.transaction)) }
    ensures comes { (weight tx : ℕ) (statements : List Statement) (ended : engines.Ending)
        → (limits.log_full setting.now.view.now ≡ false → tx ≡ tx_of setting.now.view.now.term (suc setting.now.view.now.last))
        → Shows tx (ground (machine_of setting.now.machine.now) (session_of setting.now.machine.now session.now)
        (session_of setting.now.machine.now session.now).tx) ended ending
        → IfOk result (MatchesOutcome setting.now.view.now (machine_of setting.now.machine.now) (session_of setting.now.machine.now session.now)
        (ran_in setting.now.view.now (machine_of setting.now.machine.now) (table_of setting.now.machine.now sessions.now weight) session.now.conn
        (session_of setting.now.machine.now session.now)
        (session_of setting.now.machine.now session.now).tx statements rows ended)) }
{
    match &session.transaction {
        Some(transaction) => {
            decision_inside(setting, sessions, session, transaction, rows, ending)
        }
        None => {
            let name = opened_name(session);
            decision_outside(setting, sessions, session, name, rows, ending)
        }
    }
}

/// The outcome of a statement that runs with these parameters, and whose rows are reported or not, at a session of a node that serves.
/// Nothing has changed yet. The number was drawn for the image that the statement leaves. No image is copied: outside a transaction
/// the state machine lends the newest one of the database, if it keeps that whole, and inside one the statement runs over its own.
pub fn run_single<E: Engine>(
    setting: &DecisionContext,
    sessions: &[Session],
    session: &Session,
    rows: bool,
    text: &str,
    params: &[Value],
    engine: &mut E,
) -> Result<Decision, AllocError>
    requires apart { AreApart sessions.now }
    requires term { setting.now.view.now.serving ≡ true → setting.now.view.now.term ≤ 4294967295 }
    requires served { IsServed setting.now.view.now (session_of setting.now.machine.now session.now) }
    requires own { AreAmong (works_of sessions.now) (work_of session.now.transaction) }
    requires agree { Agree (E.known engine.old) (works_of sessions.now) setting.now.number (map numbered setting.now.machine.now) }
    // No setting.now.number represents two images then either, with the working image that the decision makes.
    ensures agree { Agree (E.known engine.new) (works_in result session.now.transaction ++ works_of sessions.now) (setting.now.number + 1)
        (map numbered setting.now.machine.now) }
    ensures stays { Stays (E.kind engine.old) (E.kind engine.new) (E.refused_openings engine.old) (E.refused_openings engine.new) }
    ensures unopened { IfOk result (λ decision. decision ≡ decisions.Refused causes.NotADatabase
        → E.refused_openings engine.old < E.refused_openings engine.new) }
    ensures ran { (weight : ℕ) → IfOk result (RunsTo (call_on E.meaning E.kind E.told engine.old engine.new)
        (scene setting.now.view.now (machine_of setting.now.machine.now) (table_of setting.now.machine.now sessions.now weight) session.now.conn)
        (session_of setting.now.machine.now session.now) (record { text = text.now; params = params.now } ∷ []) rows) }
{
    let view = setting.view;
    let options = next_run(view, view.steps.statement);
    let ending = run_statement(setting, session, text, params, options, engine)?;
    decision_of(setting, sessions, session, rows, ending)
}

/// The outcome of the statements of a text, which run one after another with as many parameters as each counts, and whose rows are
/// dropped, at the session at a place, of a node that serves. The number was drawn for the image that they leave. Nothing has
/// changed yet: the statements work on the transaction's image in place, and it is put back; outside a transaction they work so on
/// a copy of the newest image of the database. Besides that copy, only pages are copied that they change.
pub fn run_script<E: Engine>(
    setting: &DecisionContext,
    sessions: &mut [Session],
    place: usize,
    script: &Script,
    params: &[Value],
    engine: &mut E,
) -> Result<Decision, AllocError>
    requires apart { AreApart sessions.old }
    requires within { place < length sessions.old }
    requires term { setting.now.view.now.serving ≡ true → setting.now.view.now.term ≤ 4294967295 }
    requires served { (own : SessionValue) → IsServed setting.now.view.now (session_of setting.now.machine.now (get_or sessions.old place own)) }
    requires fits { CanRun params.now (wanted.RunsAll script.now) }
    requires agree { Agree (E.known engine.old) (works_of sessions.old) setting.now.number (map numbered setting.now.machine.now) }
    // No setting.now.number represents two images then either, with the working image that the decision makes.
    ensures agree { (own : SessionValue) → Agree (E.known engine.new) (works_in result (get_or sessions.old place own).transaction ++ works_of sessions.old)
        (setting.now.number + 1) (map numbered setting.now.machine.now) }
    ensures kept { sessions.new ≡ sessions.old }
    ensures stays { Stays (E.kind engine.old) (E.kind engine.new) (E.refused_openings engine.old) (E.refused_openings engine.new) }
    ensures unopened { IfOk result (λ decision. decision ≡ decisions.Refused causes.NotADatabase
        → E.refused_openings engine.old < E.refused_openings engine.new) }
    ensures ran { (own : SessionValue) (weight : ℕ) → IfOk result
        (RunsTo (call_on E.meaning E.kind E.told engine.old engine.new) (scene setting.now.view.now (machine_of setting.now.machine.now)
        (table_of setting.now.machine.now sessions.old weight) (get_or sessions.old place own).conn)
        (session_of setting.now.machine.now (get_or sessions.old place own)) (assigned script.now.text script.now.pieces params.now) false) }
{
    let view = setting.view;
    let options = next_run(view, view.steps.statement);
    let ending = run_at(setting, sessions, place, script, params, options, engine)?;
    let known = &*sessions;
    let session = &known[place];
    decision_of(setting, known, session, false, ending)
}
