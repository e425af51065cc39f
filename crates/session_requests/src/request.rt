//! What any request wants.

ghost use Rattle.std.specs.Prelude.{◌≡◌, ℕ, List, [], false, IfOk};
ghost use Rattle.dq_base.specs.Names.{has_nul};
ghost use Rattle.database_state.specs.declared.database.Database.{Database};
ghost use Rattle.session_spec.specs.Asking as rules;
ghost use Rattle.session_spec.specs.Machine.{machine_of};
ghost use Rattle.session_table.specs.Table.{AreApart, session_of, table_of};
ghost use Rattle.session_requests.specs.Meant.{meant, params_of, NameHasNoNul, FitsStatements, CanBeDone};

use crate::changes::{change_hindrance, wanted_by_add, wanted_by_assign, wanted_by_remove};
use crate::cluster::{
    wanted_by_cluster, wanted_by_connect, wanted_by_describe, wanted_by_leader, wanted_by_transfer,
};
use crate::databases::{wanted_by_dump, wanted_by_open};
use crate::lost_requests::wanted_if_lost;
use crate::statement_requests::{
    executes, executes_text, finalizes, interrupts, prepares, queries, queries_text,
};
use crate::view::View;
use crate::wanted::{ClusterEffect, RequestPlan};
use crate::write_hindrance::write_hindrance;
use database_state::Machine;
use session_table::{Cause, HEARTBEAT_TIMEOUT, Session};
use std::alloc::{AllocError, Global};
use wire_msgs::{Request, Response};
use wire_words::{Value, WireText};

/// The flag of OPEN that asks for barrier reads.
const BARRIERS: u64 = 4_294_967_296;

/// The parameters of a request; none if it has no place for them.
pub fn params_of(request: &Request) -> &[Value]
    ensures { result.now ≡ params_of request.now }
{
    match request {
        Request::Exec { params, .. } => params.as_slice(),
        Request::Query { params, .. } => params.as_slice(),
        Request::ExecSql { params, .. } => params.as_slice(),
        Request::QuerySql { params, .. } => params.as_slice(),
        _ => &[],
    }
}

/// Whether the flags of an OPEN ask for barrier reads.
fn barriers_asked(flags: u64) -> bool
    ensures { result ≡ rules.barriers_asked flags }
{
    flags / BARRIERS % 2 == 1
}

/// What OPEN wants by a name that holds no NUL.
fn opens(
    alloc: Global,
    view: &View,
    machine: &Machine,
    sessions: &[Session],
    session: &Session,
    name: &str,
    flags: u64,
) -> Result<RequestPlan, AllocError>
    requires apart { AreApart sessions.now }
    requires text { has_nul name.now ≡ false }
    ensures { (weight : ℕ) → IfOk result (λ wanted. meant [] wanted ≡ rules.at_leader view.now
        (rules.asks_open view.now (machine_of machine.now) (table_of machine.now sessions.now weight) (session_of machine.now session.now) name.now
        (rules.barriers_asked flags))) }
{
    if !view.serving {
        return Ok(RequestPlan::Never(Cause::NotLeader));
    }
    wanted_by_open(
        alloc,
        view,
        machine,
        sessions,
        session,
        name,
        barriers_asked(flags),
    )
}

/// What ADD wants.
fn adds(
    alloc: Global,
    view: &View,
    sessions: &[Session],
    id: u64,
    address: &WireText,
) -> Result<RequestPlan, AllocError>
    requires { AreApart sessions.now }
    ensures { (databases : List Database) (weight : ℕ) → IfOk result (λ wanted. meant [] wanted ≡
        rules.at_leader view.now (rules.if_settled (table_of databases sessions.now weight) (rules.asks_add view.now.servers id address.now))) }
{
    match change_hindrance(view, sessions) {
        Some(cause) => Ok(RequestPlan::Never(cause)),
        None => wanted_by_add(alloc, view, id, address),
    }
}

/// What ASSIGN wants.
fn assigns(
    alloc: Global,
    view: &View,
    sessions: &[Session],
    id: u64,
    role: u64,
) -> Result<RequestPlan, AllocError>
    requires { AreApart sessions.now }
    ensures { (databases : List Database) (weight : ℕ) → IfOk result (λ wanted. meant [] wanted ≡
        rules.at_leader view.now (rules.if_settled (table_of databases sessions.now weight) (rules.asks_assign view.now id role))) }
{
    match change_hindrance(view, sessions) {
        Some(cause) => Ok(RequestPlan::Never(cause)),
        None => wanted_by_assign(alloc, view, id, role),
    }
}

/// What REMOVE wants.
fn removes(
    alloc: Global,
    view: &View,
    sessions: &[Session],
    id: u64,
) -> Result<RequestPlan, AllocError>
    requires { AreApart sessions.now }
    ensures { (databases : List Database) (weight : ℕ) → IfOk result (λ wanted. meant [] wanted ≡
        rules.at_leader view.now (rules.if_settled (table_of databases sessions.now weight) (rules.asks_remove view.now id))) }
{
    match change_hindrance(view, sessions) {
        Some(cause) => Ok(RequestPlan::Never(cause)),
        None => wanted_by_remove(alloc, view, id),
    }
}

/// What TRANSFER wants.
fn transfers(view: &View, id: u64) -> RequestPlan
    ensures { meant [] result ≡ rules.at_leader view.now (rules.asks_transfer view.now id) }
{
    if !view.serving {
        return RequestPlan::Never(Cause::NotLeader);
    }
    wanted_by_transfer(view, id)
}

/// What `wanted_by` answers of a session without a lost transaction, by the type of the request.
#[tactic(auto, unfolding(session_spec::specs::Asking::asked_unless_lost))]
fn ask(
    alloc: Global,
    view: &View,
    machine: &Machine,
    sessions: &[Session],
    weight: u64,
    session: &Session,
    request: &Request,
) -> Result<RequestPlan, AllocError>
    requires apart { AreApart sessions.now }
    requires name { NameHasNoNul request.now }
    ensures wants { IfOk result (λ wanted. meant (params_of request.now) wanted ≡
        rules.asked_unless_lost view.now (machine_of machine.now) (table_of machine.now sessions.now weight) session.now.conn
        (session_of machine.now session.now) request.now) }
    ensures fits { IfOk result (FitsStatements session.now.statements.items (params_of request.now)) }
{
    match request {
        Request::Leader => wanted_by_leader(alloc, view),
        Request::Client { .. } => Ok(RequestPlan::Tells(Response::Welcome {
            heartbeat_timeout: HEARTBEAT_TIMEOUT,
        })),
        Request::Open { name, flags, .. } => {
            opens(
                alloc,
                view,
                machine,
                sessions,
                session,
                name.as_str(),
                *flags,
            )
        }
        Request::Prepare { db, sql, wide } => {
            prepares(alloc, view, session, *db, sql.as_str(), *wide)
        }
        Request::Exec {
            db,
            statement,
            params,
            ..
        } => {
            let db = *db as u64;
            let hinders = write_hindrance(machine, sessions, session);
            let params = params.as_slice();
            executes(alloc, view, session, hinders, db, *statement, params)
        }
        Request::Query {
            db,
            statement,
            params,
            ..
        } => {
            let db = *db as u64;
            let hinders = write_hindrance(machine, sessions, session);
            let params = params.as_slice();
            queries(alloc, view, session, hinders, db, *statement, params)
        }
        Request::Finalize { db, statement } => { Ok(finalizes(session, *db as u64, *statement)) }
        Request::ExecSql {
            db,
            sql,
            params,
            ..
        } => {
            let hinders = write_hindrance(machine, sessions, session);
            let params = params.as_slice();
            executes_text(alloc, view, session, hinders, *db, sql.as_str(), params)
        }
        Request::QuerySql {
            db,
            sql,
            params,
            ..
        } => {
            let hinders = write_hindrance(machine, sessions, session);
            let params = params.as_slice();
            queries_text(alloc, view, session, hinders, *db, sql.as_str(), params)
        }
        Request::Interrupt { db } => Ok(interrupts(session, *db)),
        Request::Connect { id, .. } => Ok(wanted_by_connect(view, *id)),
        Request::Add { id, address } => adds(alloc, view, sessions, *id, address),
        Request::Assign { id, role } => assigns(alloc, view, sessions, *id, *role),
        Request::Remove { id } => removes(alloc, view, sessions, *id),
        Request::Dump { name } => wanted_by_dump(alloc, machine, name.as_str()),
        Request::Cluster { format } => wanted_by_cluster(alloc, view, *format),
        Request::Transfer { id } => Ok(transfers(view, *id)),
        Request::Describe { format } => Ok(wanted_by_describe(weight, *format)),
        Request::Weight { weight } => Ok(RequestPlan::Sets(ClusterEffect::Weighs(*weight))),
    }
}

/// What a request wants of a session, at a node with this view, these databases, these sessions and this weight: its refusal,
/// if one of those that need no engine comes, the first of them; or what is to be done. The name of a database that it
/// opens holds no NUL.
///
/// Costs in the order of the request's bytes and of the sessions; for a prepared statement also in that of its text, which is
/// copied, and for the files of a database in that of the files.
pub fn wanted_by(
    alloc: Global,
    view: &View,
    machine: &Machine,
    sessions: &[Session],
    weight: u64,
    session: &Session,
    request: &Request,
) -> Result<RequestPlan, AllocError>
    requires apart { AreApart sessions.now }
    requires name { NameHasNoNul request.now }
    ensures wants { IfOk result (λ wanted. meant (params_of request.now) wanted ≡
        rules.asked_by view.now (machine_of machine.now) (table_of machine.now sessions.now weight) session.now.conn
        (session_of machine.now session.now) request.now) }
    ensures can { IfOk result (CanBeDone view.now (session_of machine.now session.now) (params_of request.now)) }
{
    let lost = wanted_if_lost(alloc, session, request)?;
    match lost {
        Some(wanted) => Ok(wanted),
        None => ask(alloc, view, machine, sessions, weight, session, request),
    }
}
