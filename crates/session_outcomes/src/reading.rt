//! Queries: statements whose rows are reported. One waits for a barrier, if its connection asked for that; one that the engine
//! cuts off is lent to a reader, if there are readers.

ghost use Rattle.std.specs.Prelude.{◌≡◌, ◌<◌, ◌≤◌, ◌+◌, ◌++◌, ◌∷◌, ◌&&◌, [], ℕ, List, true, false, suc, is_none, map, Some, IsSome, IfOk};
ghost use Rattle.sql_engine.specs.Meanings.{Stays};
ghost use Rattle.database_state.specs.declared.database.Database.{Database};
ghost use Rattle.database_state.specs.ImageNumbers.{numbered};
ghost use Rattle.session_statements.specs.Agreeing.{Agree};
ghost use Rattle.session_statements.specs.Running.{Shows};
ghost use Rattle.session_spec.specs.Allowed.{IsServed};
ghost use Rattle.session_spec.specs.Asking as asking;
ghost use Rattle.session_spec.specs.Engines as engines;
ghost use Rattle.session_spec.specs.Entries.{tx_of};
ghost use Rattle.session_spec.specs.Limits as limits;
ghost use Rattle.session_spec.specs.Machine.{machine_of};
ghost use Rattle.session_spec.specs.Requests as requests;
ghost use Rattle.session_spec.specs.Requests.{ground, handed_over, job_of, with_later};
ghost use Rattle.session_spec.specs.Sessions as rules;
ghost use Rattle.session_spec.specs.Sessions.{View as RuleView};
ghost use Rattle.session_table.specs.declared.cause.Cause.TheVariants as causes;
ghost use Rattle.session_table.specs.Table.{session_of, table_of, AreApart};
ghost use Rattle.session_table.specs.Working.{work_of, works_of, AreAmong};
ghost use Rattle.session_outcomes.specs.declared.decision.Decision.TheVariants as decisions;
ghost use Rattle.session_outcomes.specs.Numbers.{work_in, works_in, work_left};
ghost use Rattle.session_outcomes.specs.Reading.{cut_off, query_in};
ghost use Rattle.session_outcomes.specs.Runs.{IsWellFormed};
ghost use Rattle.session_outcomes.specs.Turning.{MatchesOutcomeByAnswers, MatchesOutcome, TurnsTo};
ghost use Rattle.session_statements.specs.Calls.{call_on};
ghost use Rattle.session_outcomes.specs.Scenes.{scene};

use crate::decision::Decision;
use crate::decision_context::DecisionContext;
use crate::job::ReadJob;
use crate::running::{decision_of, next_run, run_statement};
use crate::sole::waiting;
use dq_base::Items;
use session_requests::View;
use session_statements::Ending;
use session_table::{Query, Session, newest_shared, opened_name};
use sql_engine::{Engine, EngineFault};
use std::alloc::AllocError;
use wire_words::{Value, WireText};

/// Whether a session has no open transaction.
fn is_outside(session: &Session) -> bool
    ensures { result ≡ is_none session.now.transaction }
{
    match &session.transaction {
        Some(_transaction) => false,
        None => true,
    }
}

/// Whether a session's queries wait for a barrier.
#[tactic(auto, using(crate::proofs::Queries::none_mapped))]
fn waits_first(session: &Session) -> bool
    ensures { (databases : List Database) → result ≡ requests.waits_first (session_of databases session.now) }
{
    if !session.barriers {
        return false;
    }
    is_outside(session)
}

/// Whether this fault is that a statement took too many steps.
fn is_cut(fault: EngineFault) -> bool
    ensures { result ≡ engines.is_cut fault }
{
    match fault {
        EngineFault::Cut => true,
        EngineFault::Constraint
        | EngineFault::Sql
        | EngineFault::Float(_, _)
        | EngineFault::NotText(_, _)
        | EngineFault::Unopened
        | EngineFault::NoMemory => false,
    }
}

/// Whether the engine cut a statement off.
fn was_cut(ending: &Ending) -> bool
    ensures { result ≡ cut_off ending.now }
{
    match ending {
        Ending::Stopped(fault) => is_cut(*fault),
        Ending::Ended(_ran) => false,
        Ending::TooLarge(_answer) => false,
    }
}

/// Whether a query that ended so is lent to a reader: outside a transaction, if there are readers.
fn is_lent(view: &View, session: &Session, ending: &Ending) -> bool
    ensures { result ≡ (is_none session.now.transaction && (view.now.readers && cut_off ending.now)) }
{
    if !is_outside(session) {
        return false;
    }
    if !view.readers {
        return false;
    }
    was_cut(ending)
}

/// A query as a reader's job, over the newest image of the session's database, which the state machine shares where it keeps it whole;
/// else it is copied.
fn job(setting: &DecisionContext, session: &Session, query: &Query) -> Result<ReadJob, AllocError>
    requires { IsSome session.now.database }
    ensures { IfOk result (λ job. job ≡ job_of (machine_of setting.now.machine.now) (session_of setting.now.machine.now session.now) query.now) }
{
    let DecisionContext {
        alloc,
        view,
        machine,
        ..
    } = *setting;
    let opened = opened_name(session);
    let name = opened.try_clone(alloc)?;
    let image = newest_shared(alloc, machine, opened.as_str())?;
    let query = query.share()?;
    let limit = view.steps.reader;
    Ok(ReadJob {
        name,
        image,
        query,
        limit,
    })
}

/// A query is lent to a reader.
fn lent(
    setting: &DecisionContext,
    session: &Session,
    text: WireText,
    params: Items<Value>,
) -> Result<Decision, AllocError>
    requires { IsSome session.now.database }
    ensures works { IfOk result (λ decision. work_in decision session.now.transaction ≡ []) }
    ensures comes { (v : RuleView) → IfOk result (MatchesOutcome v (machine_of setting.now.machine.now) (session_of setting.now.machine.now session.now)
        (rules.Lends (with_later (session_of setting.now.machine.now session.now) (Some (rules.Lent (record { text = text; params = params }))))
        (job_of (machine_of setting.now.machine.now) (session_of setting.now.machine.now session.now) (record { text = text; params = params })))) }
{
    let query = Query::new(setting.alloc, text, params)?;
    let job = job(setting, session, &query)?;
    Ok(Decision::Lends(query, job))
}

/// The outcome of a query that ran: if the engine interrupted it, and it may be lent, a reader runs it.
fn decision_of_query(
    setting: &DecisionContext,
    sessions: &[Session],
    session: &Session,
    text: WireText,
    params: Items<Value>,
    ending: Ending,
) -> Result<Decision, AllocError>
    requires apart { AreApart sessions.now }
    requires open { IsSome session.now.database }
    requires formed { IsWellFormed ending }
    ensures works { IfOk result (λ decision. AreAmong (work_left (ground (machine_of setting.now.machine.now) (session_of setting.now.machine.now session.now)
        (session_of setting.now.machine.now session.now).tx) setting.now.number ending) (work_in decision session.now.transaction)) }
    ensures comes { (weight tx : ℕ) (ended : engines.Ending) → (limits.log_full setting.now.view.now ≡ false → tx ≡ tx_of setting.now.view.now.term
        (suc setting.now.view.now.last))
        → Shows tx (ground (machine_of setting.now.machine.now) (session_of setting.now.machine.now session.now)
        (session_of setting.now.machine.now session.now).tx) ended ending
        → IfOk result (MatchesOutcome setting.now.view.now (machine_of setting.now.machine.now) (session_of setting.now.machine.now session.now)
        (query_in setting.now.view.now (machine_of setting.now.machine.now) (table_of setting.now.machine.now sessions.now weight) session.now.conn
        (session_of setting.now.machine.now session.now)
        (session_of setting.now.machine.now session.now).tx (record { text = text; params = params }) ended)) }
{
    if is_lent(setting.view, session, &ending) {
        return lent(setting, session, text, params);
    }
    decision_of(setting, sessions, session, true, ending)
}

/// How many steps a query may take at the node: fewer where a reader can take it over.
fn query_limit(view: &View, session: &Session) -> Option<u64> {
    if view.readers && is_outside(session) {
        return view.steps.query;
    }
    view.steps.statement
}

/// The outcome of a query that the node runs now.
fn read_now<E: Engine>(
    setting: &DecisionContext,
    sessions: &[Session],
    session: &Session,
    text: WireText,
    params: Items<Value>,
    engine: &mut E,
) -> Result<Decision, AllocError>
    requires apart { AreApart sessions.now }
    requires term { setting.now.view.now.serving ≡ true → setting.now.view.now.term ≤ 4294967295 }
    requires served { IsServed setting.now.view.now (session_of setting.now.machine.now session.now) }
    requires own { AreAmong (works_of sessions.now) (work_of session.now.transaction) }
    requires agree { Agree (E.known engine.old) (works_of sessions.now) setting.now.number (map numbered setting.now.machine.now) }
    ensures agree { Agree (E.known engine.new) (works_in result session.now.transaction ++ works_of sessions.now) (setting.now.number + 1)
        (map numbered setting.now.machine.now) }
    ensures stays { Stays (E.kind engine.old) (E.kind engine.new) (E.refused_openings engine.old) (E.refused_openings engine.new) }
    ensures unopened { IfOk result (λ decision. decision ≡ decisions.Refused causes.NotADatabase
        → E.refused_openings engine.old < E.refused_openings engine.new) }
    ensures ran { (weight : ℕ) → IfOk result (MatchesOutcomeByAnswers (call_on E.meaning E.kind E.told engine.old engine.new) setting.now.view.now
        (machine_of setting.now.machine.now) (session_of setting.now.machine.now session.now) (handed_over (ground (machine_of setting.now.machine.now)
        (session_of setting.now.machine.now session.now)
        (session_of setting.now.machine.now session.now).tx) (record { text = text; params = params } ∷ []))
        (λ answers. requests.read_in setting.now.view.now (machine_of setting.now.machine.now)
        (table_of setting.now.machine.now sessions.now weight) session.now.conn
        (session_of setting.now.machine.now session.now) (session_of setting.now.machine.now session.now).tx
        (record { text = text; params = params }) answers)) }
{
    let view = setting.view;
    let options = next_run(view, query_limit(view, session));
    let ending = run_statement(
        setting,
        session,
        text.as_str(),
        params.as_slice(),
        options,
        engine,
    )?;
    decision_of_query(setting, sessions, session, text, params, ending)
}

/// The outcome of a query at a session of a node that serves. Outside a transaction, if its connection asked for barrier reads, it
/// waits for a barrier, and nothing is run now. Else it runs, as `run_single` runs a statement; if the engine interrupts it outside
/// a transaction, and the node has readers, it is lent to one of them, with the newest image of the database. Nothing has changed
/// yet. Text and parameters are moved.
#[tactic(auto, unfolding(session_spec::specs::Requests::does))]
pub fn read_statement<E: Engine>(
    setting: &DecisionContext,
    sessions: &[Session],
    session: &Session,
    text: WireText,
    params: Items<Value>,
    engine: &mut E,
) -> Result<Decision, AllocError>
    requires apart { AreApart sessions.now }
    requires term { setting.now.view.now.serving ≡ true → setting.now.view.now.term ≤ 4294967295 }
    requires served { IsServed setting.now.view.now (session_of setting.now.machine.now session.now) }
    requires own { AreAmong (works_of sessions.now) (work_of session.now.transaction) }
    requires agree { Agree (E.known engine.old) (works_of sessions.now) setting.now.number (map numbered setting.now.machine.now) }
    // No setting.now.number represents two images then either, with the working image that the decision makes.
    ensures agree { Agree (E.known engine.new) (works_in result session.now.transaction ++ works_of sessions.now) (setting.now.number + 1)
        (map numbered setting.now.machine.now) }
    ensures stays { Stays (E.kind engine.old) (E.kind engine.new) (E.refused_openings engine.old) (E.refused_openings engine.new) }
    ensures unopened { IfOk result (λ decision. decision ≡ decisions.Refused causes.NotADatabase
        → E.refused_openings engine.old < E.refused_openings engine.new) }
    ensures ran { (weight : ℕ) → IfOk result (TurnsTo (call_on E.meaning E.kind E.told engine.old engine.new)
        (scene setting.now.view.now (machine_of setting.now.machine.now) (table_of setting.now.machine.now sessions.now weight) session.now.conn)
        (session_of setting.now.machine.now session.now) (asking.Reads (record { text = text; params = params }))) }
{
    if waits_first(session) {
        let query = Query::new(setting.alloc, text, params)?;
        return waiting(setting.alloc, setting.view, query);
    }
    read_now(setting, sessions, session, text, params, engine)
}
