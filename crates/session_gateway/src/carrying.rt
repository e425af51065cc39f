//! Carrying out what comes of a request.

ghost use Rattle.std.specs.Prelude.{◌≡◌, ◌++◌, ◌∷◌, [], ℕ, List, map, get_or, None, Some, IfOk, OnOk, OnErr, IsSome};
ghost use Rattle.database_state.specs.declared.database.Database.{Database};
ghost use Rattle.wire_msgs.specs.declared.response.Response.{Response as RuleResponse};
ghost use Rattle.session_spec.specs.Causes as causes;
ghost use Rattle.session_spec.specs.Machine.{machine_of};
ghost use Rattle.session_spec.specs.Requests.{with_session, with_tx, begun, affected_by};
ghost use Rattle.session_spec.specs.Sessions as rules;
ghost use Rattle.session_table.specs.declared.session.Session.{Session as SessionValue};
ghost use Rattle.session_table.specs.Changing.{StandsAt, CanChange, changed_by};
ghost use Rattle.session_table.specs.Marks.{AreMarks};
ghost use Rattle.session_table.specs.Named.{cause_named, reply_named};
ghost use Rattle.session_table.specs.Table.{table_of, pins_of, IsTable};
ghost use Rattle.session_table.specs.Working.{work_made};
ghost use Rattle.session_requests.specs.Meant.{effect_named};
ghost use Rattle.session_outcomes.specs.Numbers.{work_in};
ghost use Rattle.session_gateway.specs.declared.act.Act.TheVariants as acts;
ghost use Rattle.session_gateway.specs.Calls.{act_for};
ghost use Rattle.session_gateway.specs.Carrying.{Carries, CanCarry, AgreesOn};

use crate::act::Act;
use database_state::Machine;
use dq_base::Items;
use session_outcomes::Decision;
use session_requests::ClusterEffect;
use session_table::{Cause, Change, Reply, Session, begin, ended, make_change};
use std::alloc::{AllocError, Global};
use std::collections::VecDeque;
use wire_msgs::Response;

/// A response as what a node has to do.
fn told(alloc: Global, response: Response) -> Result<Act, AllocError>
    ensures { IfOk result (λ act. act ≡ acts.Reply (response ∷ [])) }
{
    Ok(Act::Reply(Items::new(vec![in alloc; response]?)))
}

/// A refusal as what a node has to do.
pub(crate) fn refused(alloc: Global, cause: Cause) -> Result<Act, AllocError>
    ensures { IfOk result (λ act. act ≡ acts.Reply (causes.failure (cause_named cause) ∷ [])) }
{
    let response = cause.failure(alloc)?;
    told(alloc, response)
}

/// The responses of those that are told to connections.
fn responses_in(
    alloc: Global,
    mut said: VecDeque<(u64, Response)>,
) -> Result<Vec<Response>, AllocError>
    ensures { IfOk result (λ responses. responses.items ≡ map (λ (one : ℕ × RuleResponse). one.1) said.items) }
{
    let mut responses = Vec::new(alloc);
    while let Some((_conn, response)) = said.pop_front() {
        responses.push(response)?;
    }
    Ok(responses)
}

/// A reply as what a node has to do.
pub(crate) fn answered(alloc: Global, reply: Reply) -> Result<Act, AllocError>
    ensures { IfOk result (λ act. act ≡ acts.Reply (rules.responses_of (reply_named reply))) }
{
    let mut said = Vec::with_capacity(alloc, reply.response_count())?;
    reply.tell(0, &mut said);
    let responses = responses_in(alloc, VecDeque::from_vec(said))?;
    Ok(Act::Reply(Items::new(responses)))
}

/// The reply to a request that affected no rows.
fn nothing_affected() -> Reply
    ensures { reply_named result ≡ rules.result 0 }
{
    Reply::Single(Response::Result {
        last_insert_id: 0,
        rows_affected: 0,
    })
}

/// Something outside the sessions. `Err` means out of memory; nothing has changed
/// then.
fn affect(alloc: Global, weight: &mut u64, effect: ClusterEffect) -> Result<Act, AllocError>
    ensures act { IfOk result (λ act. act ≡ act_for (effect_named effect)) }
    ensures weight { OnOk result ((databases : List Database) (sessions : List SessionValue) →
        table_of databases sessions weight.new ≡ affected_by (table_of databases sessions weight.old) (effect_named effect)) }
    ensures kept { OnErr result (weight.new ≡ weight.old) }
{
    match effect {
        ClusterEffect::HandsOver(id) => Ok(Act::Transfer(id)),
        ClusterEffect::JoinsPeer(id) => Ok(Act::Peer(id)),
        ClusterEffect::Weighs(new) => {
            let act = told(alloc, Response::Empty)?;
            *weight = new;
            Ok(act)
        }
    }
}

/// A transaction of the session at a place begins. `Err` means out of memory; nothing has changed
/// then.
fn begin_told(
    alloc: Global,
    sessions: &mut Vec<Session>,
    place: usize,
    conn: u64,
    machine: &mut Machine,
    at_once: bool,
) -> Result<Act, AllocError>
    requires table { IsTable sessions.old.items }
    requires place { StandsAt conn sessions.old.items place }
    requires marks { AreMarks (pins_of sessions.old.items) machine.old }
    requires can { (session : SessionValue) → CanCarry (get_or sessions.old.items place session) (Decision.Begins at_once) }
    ensures done { (weight : ℕ) → IfOk result (Carries (machine_of machine.old) (table_of machine.old sessions.old.items weight) conn (Decision.Begins at_once)
        (table_of machine.new sessions.new.items weight)) }
    ensures kept { OnErr result ((weight : ℕ) → table_of machine.new sessions.new.items weight ≡ table_of machine.old sessions.old.items weight) }
    ensures files { machine_of machine.new ≡ machine_of machine.old }
    ensures agree { AgreesOn [] sessions.old.items machine.old sessions.new.items machine.new }
    ensures marks_after { AreMarks (pins_of sessions.new.items) machine.new }
    ensures fit { IsTable sessions.new.items }
{
    let act = answered(alloc, nothing_affected())?;
    begin(alloc, sessions, place, conn, machine, at_once)?;
    Ok(act)
}

/// The transaction of a connection's session ends without its changes. `Err` means out of memory; nothing has changed
/// then.
fn end_told(
    alloc: Global,
    sessions: &mut Vec<Session>,
    conn: u64,
    machine: &mut Machine,
) -> Result<Act, AllocError>
    requires table { IsTable sessions.old.items }
    requires marks { AreMarks (pins_of sessions.old.items) machine.old }
    ensures done { (weight : ℕ) → IfOk result (Carries (machine_of machine.old) (table_of machine.old sessions.old.items weight) conn Decision.Ends
        (table_of machine.new sessions.new.items weight)) }
    ensures kept { OnErr result ((weight : ℕ) → table_of machine.new sessions.new.items weight ≡ table_of machine.old sessions.old.items weight) }
    ensures files { machine_of machine.new ≡ machine_of machine.old }
    ensures agree { AgreesOn [] sessions.old.items machine.old sessions.new.items machine.new }
    ensures marks_after { AreMarks (pins_of sessions.new.items) machine.new }
    ensures fit { IsTable sessions.new.items }
{
    let act = answered(alloc, nothing_affected())?;
    ended(alloc, sessions, conn, machine);
    Ok(act)
}

/// The session at a place changes so, and this is to be done. `Err` means out of memory; nothing has changed
/// then.
fn change_told(
    sessions: &mut Vec<Session>,
    place: usize,
    conn: u64,
    change: Change,
    act: Act,
) -> Result<Act, AllocError>
    requires table { IsTable sessions.old.items }
    requires place { StandsAt conn sessions.old.items place }
    requires can { (session : SessionValue) → CanChange (get_or sessions.old.items place session).statements.items change }
    ensures act { IfOk result (λ done. done ≡ act) }
    ensures done { OnOk result ((databases : List Database) (weight : ℕ) →
        table_of databases sessions.new.items weight ≡ with_session (table_of databases sessions.old.items weight) conn
        (changed_by ((table_of databases sessions.old.items weight).session conn) change)) }
    ensures kept { OnErr result ((databases : List Database) (weight : ℕ) →
        table_of databases sessions.new.items weight ≡ table_of databases sessions.old.items weight) }
    ensures pins { pins_of sessions.new.items ≡ pins_of sessions.old.items }
    ensures agree { (own : SessionValue) (databases : List Database) → AgreesOn
        (work_made change (get_or sessions.old.items place own).transaction) sessions.old.items databases sessions.new.items databases }
    ensures fit { IsTable sessions.new.items }
{
    make_change(sessions, place, conn, change)?;
    Ok(act)
}

/// Carries out what comes of a request, at the session at a place, which is that of a connection: the sessions and the weight
/// change so, and the answer is what the node has to do. `Err` means out of memory; nothing has changed then.
pub(crate) fn carry_out(
    alloc: Global,
    sessions: &mut Vec<Session>,
    weight: &mut u64,
    place: usize,
    conn: u64,
    machine: &mut Machine,
    decision: Decision,
) -> Result<Act, AllocError>
    requires table { IsTable sessions.old.items }
    requires place { StandsAt conn sessions.old.items place }
    requires marks { AreMarks (pins_of sessions.old.items) machine.old }
    requires can { (session : SessionValue) → CanCarry (get_or sessions.old.items place session) decision }
    ensures done { IfOk result (Carries (machine_of machine.old) (table_of machine.old sessions.old.items weight.old) conn decision
        (table_of machine.new sessions.new.items weight.new)) }
    ensures kept { OnErr result (table_of machine.new sessions.new.items weight.new ≡ table_of machine.old sessions.old.items weight.old) }
    ensures files { machine_of machine.new ≡ machine_of machine.old }
    // No number represents two images, if none did with the working image that the decision makes.
    ensures agree { (own : SessionValue) → AgreesOn (work_in decision (get_or sessions.old.items place own).transaction) sessions.old.items machine.old
        sessions.new.items machine.new }
    ensures marks_after { AreMarks (pins_of sessions.new.items) machine.new }
    ensures fit { IsTable sessions.new.items }
{
    match decision {
        Decision::Refused(cause) => refused(alloc, cause),
        Decision::Answers(change, reply) => {
            let act = answered(alloc, reply)?;
            change_told(sessions, place, conn, change, act)
        }
        Decision::Begins(at_once) => begin_told(alloc, sessions, place, conn, machine, at_once),
        Decision::Ends => end_told(alloc, sessions, conn, machine),
        Decision::Proposes(flight, entries) => {
            let act = Act::Propose(entries);
            change_told(sessions, place, conn, Change::Flies(flight), act)
        }
        Decision::Creates(flight, entries, barriers) => change_told(
            sessions,
            place,
            conn,
            Change::Creates(flight, barriers),
            Act::Propose(entries),
        ),
        Decision::Lends(query, job) => {
            let act = Act::Lend(job);
            change_told(sessions, place, conn, Change::Lends(query), act)
        }
        Decision::Affects(effect) => affect(alloc, weight, effect),
    }
}
