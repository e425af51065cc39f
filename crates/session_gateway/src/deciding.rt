//! What comes of a request, before anything has changed.

ghost use Rattle.std.specs.Prelude.{◌≡◌, ◌<◌, ◌+◌, ◌++◌, ℕ, List, length, get_or, map, IfOk};
ghost use Rattle.sql_engine.specs.Meanings.{Stays};
ghost use Rattle.std.specs.List.{AllByRecursion};
ghost use Rattle.database_state.specs.ImageNumbers.{numbered};
ghost use Rattle.database_state.specs.Pins.{IsPinned};
ghost use Rattle.session_spec.specs.Machine.{machine_of};
ghost use Rattle.session_spec.specs.Requests.{handed, on_request};
ghost use Rattle.session_spec.specs.Touched.{IsListed};
ghost use Rattle.session_statements.specs.Agreeing.{Agree};
ghost use Rattle.session_table.specs.declared.cause.Cause.TheVariants.{NotADatabase};
ghost use Rattle.session_table.specs.declared.session.Session.{Session as SessionValue};
ghost use Rattle.session_table.specs.Changing.{StandsAt};
ghost use Rattle.session_table.specs.Marks.{AreMarks};
ghost use Rattle.session_table.specs.Table.{AreApart, pin_of, pins_of, session_of, table_of};
ghost use Rattle.session_table.specs.Working.{works_of};
ghost use Rattle.session_requests.specs.Meant.{meant, CanBeDone, NameHasNoNul};
ghost use Rattle.session_outcomes.specs.declared.decision.Decision.TheVariants as decisions;
ghost use Rattle.session_outcomes.specs.Numbers.{works_in};
ghost use Rattle.session_outcomes.specs.Turning.{MatchesOutcomeByAnswers, TurnsTo};
ghost use Rattle.session_statements.specs.Calls.{call_on};
ghost use Rattle.session_outcomes.specs.Scenes.{scene};
ghost use Rattle.session_gateway.specs.Calls.{AddressHasNoNul, HasShortTerm, IsConfigured, MayConfigure};

use crate::call::{Call, SessionPlace};
use crate::params::into_params;
use database_state::Machine;
use dq_base::Items;
use session_outcomes::{
    Decision, DecisionContext, beginning, changing, committing, creating, finalizing, forgetting,
    opened, preparing, read_statement, run_script, run_single, telling,
};
use session_requests::{RequestPlan, wanted_by};
use session_table::{Cause, Session};
use sql_engine::Engine;
use std::alloc::AllocError;
use wire_msgs::Request;
use wire_words::Value;

/// What comes of what is wanted of the session at a place. The number was drawn for the image that its statements leave. `Err`
/// means out of memory; nothing has changed but what the engine answered.
fn decision_of<E: Engine>(
    call: &Call,
    sessions: &mut [Session],
    place: usize,
    wanted: RequestPlan,
    params: Items<Value>,
    machine: &Machine,
    engine: &mut E,
) -> Result<Decision, AllocError>
    requires apart { AreApart sessions.old }
    requires within { place < length sessions.old }
    requires term { HasShortTerm call.now.view.now }
    requires live { (own : SessionValue) → AllByRecursion (IsPinned machine.now) (pin_of (get_or sessions.old place own).transaction) }
    requires listed { (own : SessionValue) → IsListed (session_of machine.now (get_or sessions.old place own)).tx }
    requires configures { MayConfigure wanted }
    requires can { (own : SessionValue) → CanBeDone call.now.view.now (session_of machine.now (get_or sessions.old place own)) params wanted }
    requires agree { Agree (E.known engine.old) (works_of sessions.old) call.now.number (map numbered machine.now) }
    // No number represents two images then either, with the working image that the decision makes.
    ensures agree { (own : SessionValue) → Agree (E.known engine.new)
        (works_in result (get_or sessions.old place own).transaction ++ works_of sessions.old) (call.now.number + 1) (map numbered machine.now) }
    ensures kept { sessions.new ≡ sessions.old }
    ensures stays { Stays (E.kind engine.old) (E.kind engine.new) (E.refused_openings engine.old) (E.refused_openings engine.new) }
    ensures unopened { IfOk result (λ decision. decision ≡ decisions.Refused NotADatabase → E.refused_openings engine.old < E.refused_openings engine.new) }
    ensures ran { (own : SessionValue) (weight : ℕ) → IfOk result (TurnsTo (call_on E.meaning E.kind E.told engine.old engine.new)
        (scene call.now.view.now (machine_of machine.now) (table_of machine.now sessions.old weight) (get_or sessions.old place own).conn)
        (session_of machine.now (get_or sessions.old place own)) (meant params wanted)) }
{
    let Call {
        alloc,
        view,
        number,
    } = *call;
    let setting = DecisionContext {
        alloc,
        view,
        machine,
        number,
    };
    let known = &*sessions;
    let session = &known[place];
    match wanted {
        RequestPlan::Never(cause) => Ok(Decision::Refused(cause)),
        RequestPlan::Tells(response) => Ok(telling(response)),
        RequestPlan::Sets(effect) => Ok(Decision::Affects(effect)),
        RequestPlan::Opens(name, barriers) => Ok(opened(name, barriers)),
        RequestPlan::Creates(name, barriers) => {
            creating(alloc, view, machine, known, session, name, barriers)
        }
        RequestPlan::Changes(servers, reply) => changing(alloc, view, &servers, reply),
        RequestPlan::Prepares(prepared, tail) => Ok(preparing(session, prepared, tail)),
        RequestPlan::Drops(id) => Ok(finalizing(session, id)),
        RequestPlan::Forgets(response) => Ok(forgetting(response)),
        RequestPlan::Begins(at_once) => Ok(beginning(known, session.conn, session, at_once)),
        RequestPlan::Commits => committing(alloc, view, machine, known, session),
        RequestPlan::RollsBack => Ok(Decision::Ends),
        RequestPlan::RunsOne(prepared) => {
            let text = prepared.text.as_str();
            let params = params.as_slice();
            run_single(&setting, known, session, false, text, params, engine)
        }
        RequestPlan::RunsAll(script) => {
            let params = params.as_slice();
            run_script(&setting, sessions, place, &script, params, engine)
        }
        RequestPlan::Reads(prepared) => {
            let text = prepared.text;
            read_statement(&setting, known, session, text, params, engine)
        }
    }
}

/// What comes of a request at the session at a place, which is that of a connection. The number was drawn for the image that its
/// statements leave. `Err` means out of memory; nothing has changed but what the engine answered.
pub(crate) fn decide<E: Engine>(
    call: &Call,
    sessions: &mut [Session],
    weight: u64,
    seat: SessionPlace,
    request: Request,
    machine: &Machine,
    engine: &mut E,
) -> Result<Decision, AllocError>
    requires apart { AreApart sessions.old }
    requires place { StandsAt seat.conn sessions.old seat.place }
    requires marks { AllByRecursion (IsPinned machine.now) (pins_of sessions.old) }
    requires listed { IsListed ((table_of machine.now sessions.old weight).session seat.conn).tx }
    requires name { NameHasNoNul request }
    requires term { HasShortTerm call.now.view.now }
    requires configured { IsConfigured call.now.view.now }
    requires address { AddressHasNoNul request }
    requires agree { Agree (E.known engine.old) (works_of sessions.old) call.now.number (map numbered machine.now) }
    // No number represents two images then either, with the working image that the decision makes.
    ensures agree { (own : SessionValue) → Agree (E.known engine.new)
        (works_in result (get_or sessions.old seat.place own).transaction ++ works_of sessions.old) (call.now.number + 1) (map numbered machine.now) }
    ensures kept { sessions.new ≡ sessions.old }
    ensures stays { Stays (E.kind engine.old) (E.kind engine.new) (E.refused_openings engine.old) (E.refused_openings engine.new) }
    ensures unopened { IfOk result (λ decision. decision ≡ decisions.Refused NotADatabase → E.refused_openings engine.old < E.refused_openings engine.new) }
    ensures ran { IfOk result (MatchesOutcomeByAnswers (call_on E.meaning E.kind E.told engine.old engine.new) call.now.view.now (machine_of machine.now)
        ((table_of machine.now sessions.old weight).session seat.conn) (handed call.now.view.now (machine_of machine.now)
        (table_of machine.now sessions.old weight) seat.conn request) (on_request call.now.view.now (machine_of machine.now)
        (table_of machine.now sessions.old weight) seat.conn request)) }
{
    let known = &*sessions;
    let session = &known[seat.place];
    let wanted = wanted_by(
        call.alloc, call.view, machine, known, weight, session, &request,
    )?;
    let params = into_params(call.alloc, request);
    decision_of(call, sessions, seat.place, wanted, params, machine, engine)
}
