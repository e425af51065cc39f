//! Queries that are answered later than they were asked: run after their barriers, or if a reader gave them back; and what
//! readers answer.

ghost use Rattle.std.specs.Prelude.{◌≡◌, ◌<◌, ◌+◌, ◌++◌, ◌∷◌, [], ℕ, List, None, Some, true, false, not, is_none, map, IsSome, IfOk, OnErr, MatchOption};
ghost use Rattle.std.specs.Option.{option_map};
ghost use Rattle.sql_engine.specs.Meanings.{Stays};
ghost use Rattle.database_state.specs.declared.database.Database.{Database};
ghost use Rattle.database_state.specs.ImageNumbers.{numbered};
ghost use Rattle.session_spec.specs.Asking.{has_database};
ghost use Rattle.session_spec.specs.Causes.{NotADatabase, failure};
ghost use Rattle.session_spec.specs.Machine.{machine_of};
ghost use Rattle.session_spec.specs.Requests.{handed_later, on_later, with_session, with_later, without_later};
ghost use Rattle.session_spec.specs.Sessions.{Reply as RuleReply, is_due, later_query, lent_query, responses_of};
ghost use Rattle.session_table.specs.declared.cause.Cause.TheVariants as causes;
ghost use Rattle.session_table.specs.Changing.{StandsAt};
ghost use Rattle.session_table.specs.Marks.{AreMarks};
ghost use Rattle.session_table.specs.Named.{later_named};
ghost use Rattle.session_table.specs.Table.{AreApart, IsTable, pins_of, session_of, table_of};
ghost use Rattle.session_table.specs.Working.{work_of, works_of, AreAmong};
ghost use Rattle.session_outcomes.specs.declared.decision.Decision.TheVariants as decisions;
ghost use Rattle.session_outcomes.specs.Numbers.{works_in};
ghost use Rattle.session_outcomes.specs.Reading.{read_named};
ghost use Rattle.session_outcomes.specs.Turning.{MatchesOutcomeByAnswers};
ghost use Rattle.session_statements.specs.Agreeing.{Agree};
ghost use Rattle.session_statements.specs.Calls.{call_on};
ghost use Rattle.session_outcomes.specs.Scenes.{scene};
ghost use Rattle.session_gateway.specs.declared.act.Act.TheVariants as acts;
ghost use Rattle.session_gateway.specs.Calls.{HasShortTerm};
ghost use Rattle.session_gateway.specs.Later.{RunsWaitingByAnswers, ReadDone, Resumed, first_due};

use crate::act::Act;
use crate::call::{Call, SessionPlace};
use crate::carrying::{answered, carry_out, refused};
use database_state::Machine;
use session_outcomes::{Decision, DecisionContext, Read, run_single};
use session_table::{Cause, Query, Reply, Session, WaitingQuery, find, take_later};
use sql_engine::Engine;
use std::alloc::{AllocError, Global};

/// The query itself, wherever it is run.
fn query_of(later: &WaitingQuery) -> &Query
    ensures { later_query (Some (later_named later.now)) ≡ Some result.now }
{
    match later {
        WaitingQuery::Due(query) => query,
        WaitingQuery::Lent(query) => query,
    }
}

/// Takes what a session has yet to answer.
fn take(session: &mut Session) -> Option<WaitingQuery>
    ensures later { result ≡ session.old.later }
    ensures left { session.new ≡ record session.old { later = None } }
{
    session.later.take()
}

/// Gives a session what it has yet to answer.
fn give(session: &mut Session, later: WaitingQuery)
    ensures { session.new ≡ record session.old { later = Some later } }
{
    session.later = Some(later);
}

/// Takes what the session at a place has yet to answer.
fn set_aside(sessions: &mut Vec<Session>, place: usize, conn: u64) -> Option<WaitingQuery>
    requires apart { AreApart sessions.old.items }
    requires place { StandsAt conn sessions.old.items place }
    ensures later { (databases : List Database) (weight : ℕ) →
        option_map later_named result ≡ ((table_of databases sessions.old.items weight).session conn).later }
    ensures table { (databases : List Database) (weight : ℕ) →
        table_of databases sessions.new.items weight ≡ without_later (table_of databases sessions.old.items weight) conn }
    ensures place { StandsAt conn sessions.new.items place }
    ensures pins { pins_of sessions.new.items ≡ pins_of sessions.old.items }
    ensures works { works_of sessions.new.items ≡ works_of sessions.old.items }
    ensures fit { IsTable sessions.old.items → IsTable sessions.new.items }
{
    take(&mut sessions[place])
}

/// Gives the session at a place, which is that of a connection, back what it has yet to answer.
fn put_at(sessions: &mut Vec<Session>, place: usize, conn: u64, later: WaitingQuery)
    requires apart { AreApart sessions.old.items }
    requires place { StandsAt conn sessions.old.items place }
    ensures table { (databases : List Database) (weight : ℕ) →
        table_of databases sessions.new.items weight ≡ with_session (table_of databases sessions.old.items weight) conn
        (with_later ((table_of databases sessions.old.items weight).session conn) (Some (later_named later))) }
    ensures pins { pins_of sessions.new.items ≡ pins_of sessions.old.items }
    ensures works { works_of sessions.new.items ≡ works_of sessions.old.items }
    ensures fit { IsTable sessions.old.items → IsTable sessions.new.items }
{
    give(&mut sessions[place], later);
}

/// Gives a connection's session, if it has one, back what it has yet to answer.
fn put_back(sessions: &mut Vec<Session>, conn: u64, later: WaitingQuery)
    requires fit { IsTable sessions.old.items }
    ensures table { (databases : List Database) (weight : ℕ) → ((table_of databases sessions.old.items weight).session conn).there ≡ true →
        table_of databases sessions.new.items weight ≡ with_session (table_of databases sessions.old.items weight) conn
        (with_later ((table_of databases sessions.old.items weight).session conn) (Some (later_named later))) }
    ensures pins { pins_of sessions.new.items ≡ pins_of sessions.old.items }
    ensures works { works_of sessions.new.items ≡ works_of sessions.old.items }
    ensures fit { IsTable sessions.new.items }
{
    if let Some(place) = find(sessions.as_slice(), conn) {
        put_at(sessions, place, conn, later);
    }
}

/// What comes of a query that was yet to be answered, at its session without it. The number was drawn for the image that it leaves.
/// `Err` means out of memory; nothing has changed but what the engine answered.
fn decide<E: Engine>(
    call: &Call,
    sessions: &[Session],
    session: &Session,
    query: &Query,
    machine: &Machine,
    engine: &mut E,
) -> Result<Decision, AllocError>
    requires apart { AreApart sessions.now }
    requires own { AreAmong (works_of sessions.now) (work_of session.now.transaction) }
    requires opened { has_database (session_of machine.now session.now) ≡ true }
    requires term { HasShortTerm call.now.view.now }
    requires agree { Agree (E.known engine.old) (works_of sessions.now) call.now.number (map numbered machine.now) }
    ensures agree { Agree (E.known engine.new) (works_in result session.now.transaction ++ works_of sessions.now)
        (call.now.number + 1) (map numbered machine.now) }
    ensures stays { Stays (E.kind engine.old) (E.kind engine.new) (E.refused_openings engine.old) (E.refused_openings engine.new) }
    ensures unopened { IfOk result (λ decision. decision ≡ decisions.Refused causes.NotADatabase
        → E.refused_openings engine.old < E.refused_openings engine.new) }
    ensures ran { (weight : ℕ) → (table_of machine.now sessions.now weight).session session.now.conn ≡ session_of machine.now session.now
        → IfOk result (MatchesOutcomeByAnswers (call_on E.meaning E.kind E.told engine.old engine.new) call.now.view.now (machine_of machine.now)
        (session_of machine.now session.now) (handed_later call.now.view.now (machine_of machine.now) (table_of machine.now sessions.now weight)
        session.now.conn query.now) (on_later call.now.view.now (machine_of machine.now) (table_of machine.now sessions.now weight) session.now.conn
        query.now)) }
{
    let view = call.view;
    if !view.serving {
        return Ok(Decision::Refused(Cause::NotLeader));
    }
    let setting = DecisionContext {
        alloc: call.alloc,
        view,
        machine,
        number: call.number,
    };
    run_single(
        &setting,
        sessions,
        session,
        true,
        query.text(),
        query.params(),
        engine,
    )
}

/// Runs a query that was yet to be answered, at the session at a place, which is that of a connection and is without it. The number
/// was drawn for the image that it leaves. `Err` means out of memory; nothing has changed then but what the engine answered.
fn run<E: Engine>(
    call: &Call,
    sessions: &mut Vec<Session>,
    weight: &mut u64,
    seat: SessionPlace,
    query: &Query,
    machine: &mut Machine,
    engine: &mut E,
) -> Result<Act, AllocError>
    requires table { IsTable sessions.old.items }
    requires place { StandsAt seat.conn sessions.old.items seat.place }
    requires marks { AreMarks (pins_of sessions.old.items) machine.old }
    requires opened { has_database ((table_of machine.old sessions.old.items weight.old).session seat.conn) ≡ true }
    requires term { HasShortTerm call.now.view.now }
    requires agree { Agree (E.known engine.old) (works_of sessions.old.items) call.now.number (map numbered machine.old) }
    ensures agree { Agree (E.known engine.new) (works_of sessions.new.items) (call.now.number + 1) (map numbered machine.new) }
    ensures ran { IfOk result (RunsWaitingByAnswers (call_on E.meaning E.kind E.told engine.old engine.new)
        (scene call.now.view.now (machine_of machine.old) (table_of machine.old sessions.old.items weight.old) seat.conn) query.now
        (table_of machine.new sessions.new.items weight.new)) }
    ensures failed { OnErr result (table_of machine.new sessions.new.items weight.new ≡ table_of machine.old sessions.old.items weight.old) }
    ensures files { machine_of machine.new ≡ machine_of machine.old }
    ensures marks_after { AreMarks (pins_of sessions.new.items) machine.new }
    ensures fit { IsTable sessions.new.items }
    ensures stays { Stays (E.kind engine.old) (E.kind engine.new) (E.refused_openings engine.old) (E.refused_openings engine.new) }
    ensures unopened { IfOk result (λ act. act ≡ Act.Reply (failure NotADatabase ∷ []) → E.refused_openings engine.old < E.refused_openings engine.new) }
{
    let known = sessions.as_slice();
    let session = &known[seat.place];
    let decision = decide(call, known, session, query, machine, engine)?;
    carry_out(
        call.alloc, sessions, weight, seat.place, seat.conn, machine, decision,
    )
}

/// Runs the query that a connection's session has yet to answer, if there is one. The number was drawn for the image that it leaves.
/// `Err` means out of memory; nothing has changed then but what the engine answered.
pub(crate) fn resume<E: Engine>(
    call: &Call,
    sessions: &mut Vec<Session>,
    weight: &mut u64,
    conn: u64,
    machine: &mut Machine,
    engine: &mut E,
) -> Result<Option<Act>, AllocError>
    requires table { IsTable sessions.old.items }
    requires marks { AreMarks (pins_of sessions.old.items) machine.old }
    requires opened { IsSome ((table_of machine.old sessions.old.items weight.old).session conn).later
        → has_database ((table_of machine.old sessions.old.items weight.old).session conn) ≡ true }
    requires term { HasShortTerm call.now.view.now }
    requires agree { Agree (E.known engine.old) (works_of sessions.old.items) call.now.number (map numbered machine.old) }
    ensures agree { Agree (E.known engine.new) (works_of sessions.new.items) (call.now.number + 1) (map numbered machine.new) }
    ensures resumed { IfOk result (Resumed (call_on E.meaning E.kind E.told engine.old engine.new)
        (scene call.now.view.now (machine_of machine.old) (table_of machine.old sessions.old.items weight.old) conn)
        (later_query ((table_of machine.old sessions.old.items weight.old).session conn).later) (table_of machine.new sessions.new.items weight.new)) }
    ensures failed { OnErr result (table_of machine.new sessions.new.items weight.new ≡ table_of machine.old sessions.old.items weight.old) }
    ensures files { machine_of machine.new ≡ machine_of machine.old }
    ensures marks_after { AreMarks (pins_of sessions.new.items) machine.new }
    ensures fit { IsTable sessions.new.items }
    ensures stays { Stays (E.kind engine.old) (E.kind engine.new) (E.refused_openings engine.old) (E.refused_openings engine.new) }
    ensures unopened { IfOk result (λ act. act ≡ Some (Act.Reply (failure NotADatabase ∷ [])) →
        E.refused_openings engine.old < E.refused_openings engine.new) }
{
    let Some(place) = find(sessions.as_slice(), conn) else {
        return Ok(None);
    };
    let Some(later) = set_aside(sessions, place, conn) else {
        return Ok(None);
    };
    let query = query_of(&later);
    let seat = SessionPlace { conn, place };
    match run(call, sessions, weight, seat, query, machine, engine) {
        Ok(act) => Ok(Some(act)),
        Err(fault) => {
            put_back(sessions, conn, later);
            Err(fault)
        }
    }
}

/// What a reader answers as what a node has to do; none if the query goes back to the node.
fn told(alloc: Global, read: Read) -> Result<Option<Act>, AllocError>
    ensures { IfOk result (λ act. act ≡ option_map (λ (reply : RuleReply). acts.Reply (responses_of reply)) (read_named read)) }
{
    match read {
        Read::Answers(rows) => Ok(Some(answered(alloc, Reply::Rows(rows))?)),
        Read::Refused(cause) => Ok(Some(refused(alloc, cause)?)),
        Read::GivenBack => Ok(None),
    }
}

/// Whether a reader runs the query of the session at a place.
fn is_lent(session: &Session) -> bool
    ensures { result ≡ not (is_none (lent_query (option_map later_named session.now.later))) }
{
    match &session.later {
        Some(WaitingQuery::Lent(_)) => true,
        Some(WaitingQuery::Due(_)) => false,
        None => false,
    }
}

/// A reader is done with the query of a connection, and tells this. `Err` means out of memory; nothing has changed
/// then.
pub(crate) fn read_done(
    alloc: Global,
    sessions: &mut Vec<Session>,
    conn: u64,
    read: Read,
) -> Result<Option<Act>, AllocError>
    requires table { IsTable sessions.old.items }
    ensures done { IfOk result (λ act. (databases : List Database) (weight : ℕ) → ReadDone (table_of databases sessions.old.items weight) conn
        (lent_query ((table_of databases sessions.old.items weight).session conn).later) (read_named read)
        (table_of databases sessions.new.items weight) act) }
    ensures failed { OnErr result ((databases : List Database) (weight : ℕ) →
        table_of databases sessions.new.items weight ≡ table_of databases sessions.old.items weight) }
    ensures pins { pins_of sessions.new.items ≡ pins_of sessions.old.items }
    ensures works { works_of sessions.new.items ≡ works_of sessions.old.items }
    ensures fit { IsTable sessions.new.items }
{
    let Some(place) = find(sessions.as_slice(), conn) else {
        return Ok(None);
    };
    if !is_lent(&sessions[place]) {
        return Ok(None);
    }
    let Some(act) = told(alloc, read)? else {
        return Ok(None);
    };
    let _query = take_later(sessions, place, conn);
    Ok(Some(act))
}

/// Whether the query of a session is run next.
fn is_next(session: &Session) -> bool
    ensures { result ≡ is_due (option_map later_named session.now.later) }
{
    match &session.later {
        Some(WaitingQuery::Due(_)) => true,
        Some(WaitingQuery::Lent(_)) => false,
        None => false,
    }
}

/// The first connection whose query is run next, if there is one.
pub(crate) fn next_due(sessions: &[Session]) -> Option<u64>
    requires { AreApart sessions.now }
    ensures { (databases : List Database) (weight : ℕ) → MatchOption result
        ((conn : ℕ) → is_due ((table_of databases sessions.now weight).session conn).later ≡ false)
        (λ conn. first_due (table_of databases sessions.now weight) ≡ Some conn) }
{
    for session in sessions {
        if is_next(session) {
            return Some(session.conn);
        }
    }
    None
}
