//! Handling a request: what comes of it, and carrying that out.

ghost use Rattle.std.specs.Prelude.{◌≡◌, ◌<◌, ◌+◌, ◌∷◌, [], true, map, OnErr, IfOk};
ghost use Rattle.sql_engine.specs.Meanings.{Stays};
ghost use Rattle.database_state.specs.ImageNumbers.{numbered};
ghost use Rattle.session_spec.specs.Causes.{NotADatabase, failure};
ghost use Rattle.session_spec.specs.Machine.{machine_of};
ghost use Rattle.session_spec.specs.Touched.{IsListed};
ghost use Rattle.session_table.specs.Marks.{AreMarks};
ghost use Rattle.session_statements.specs.Agreeing.{Agree};
ghost use Rattle.session_statements.specs.Calls.{call_on};
ghost use Rattle.session_outcomes.specs.Scenes.{scene};
ghost use Rattle.session_table.specs.Table.{table_of, pins_of, IsTable};
ghost use Rattle.session_table.specs.Working.{works_of};
ghost use Rattle.session_requests.specs.Meant.{NameHasNoNul};
ghost use Rattle.session_gateway.specs.Calls.{AddressHasNoNul, HasShortTerm, IsConfigured, TurnsByAnswers};

use crate::act::Act;
use crate::call::{Call, SessionPlace};
use crate::carrying::carry_out;
use crate::deciding::decide;
use database_state::Machine;
use session_table::{Session, find};
use sql_engine::Engine;
use std::alloc::AllocError;
use wire_msgs::Request;

/// Handles a request of a connection that has a session. The number was drawn for the image that its statements leave. `Err`
/// means out of memory; nothing has changed then but what the engine answered.
pub(crate) fn handle<E: Engine>(
    call: &Call,
    sessions: &mut Vec<Session>,
    weight: &mut u64,
    conn: u64,
    request: Request,
    machine: &mut Machine,
    engine: &mut E,
) -> Result<Act, AllocError>
    requires table { IsTable sessions.old.items }
    requires marks { AreMarks (pins_of sessions.old.items) machine.old }
    requires listed { IsListed ((table_of machine.old sessions.old.items weight.old).session conn).tx }
    requires there { ((table_of machine.old sessions.old.items weight.old).session conn).there ≡ true }
    requires name { NameHasNoNul request }
    requires term { HasShortTerm call.now.view.now }
    requires configured { IsConfigured call.now.view.now }
    requires address { AddressHasNoNul request }
    requires agree { Agree (E.known engine.old) (works_of sessions.old.items) call.now.number (map numbered machine.old) }
    ensures agree { Agree (E.known engine.new) (works_of sessions.new.items) (call.now.number + 1) (map numbered machine.new) }
    ensures turned { IfOk result (TurnsByAnswers (call_on E.meaning E.kind E.told engine.old engine.new)
        (scene call.now.view.now (machine_of machine.old) (table_of machine.old sessions.old.items weight.old) conn) request
        (table_of machine.new sessions.new.items weight.new)) }
    ensures failed { OnErr result (table_of machine.new sessions.new.items weight.new ≡ table_of machine.old sessions.old.items weight.old) }
    ensures files { machine_of machine.new ≡ machine_of machine.old }
    ensures marks_after { AreMarks (pins_of sessions.new.items) machine.new }
    ensures fit { IsTable sessions.new.items }
    ensures stays { Stays (E.kind engine.old) (E.kind engine.new) (E.refused_openings engine.old) (E.refused_openings engine.new) }
    ensures unopened { IfOk result (λ act. act ≡ Act.Reply (failure NotADatabase ∷ []) → E.refused_openings engine.old < E.refused_openings engine.new) }
{
    let place = find(sessions.as_slice(), conn).unwrap();
    let known = sessions.as_mut_slice();
    let seat = SessionPlace { conn, place };
    let decision = decide(call, known, *weight, seat, request, machine, engine)?;
    carry_out(call.alloc, sessions, weight, place, conn, machine, decision)
}
