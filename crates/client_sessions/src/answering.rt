//! What comes of a message at the sessions, and of a query that was yet to be answered.

ghost use Rattle.std.specs.Prelude.{◌≡◌, ◌≢◌, true, false, IsErr, IsTrue, IfOk, OnOk, List};
ghost use Rattle.sql_engine.specs.Known.{Known};
ghost use Rattle.sql_engine.specs.Meanings.{Stays};
ghost use Rattle.database_state.specs.declared.database.Database.{Database};
ghost use Rattle.wire_msgs.specs.declared.fault.MsgFault.TheVariants.{NoMemory};
ghost use Rattle.wire_msgs.specs.Kinds.{request_kind};
ghost use Rattle.wire_msgs.specs.Reading.{request_of, may_take_memory};
ghost use Rattle.session_spec.specs.Sessions.{may_ask, later_query, lent_query};
ghost use Rattle.session_spec.specs.Machine.{machine_of};
ghost use Rattle.session_spec.specs.Touched.{IsListed};
ghost use Rattle.session_outcomes.specs.Reading.{read_named};
ghost use Rattle.session_statements.specs.Calls.{call_on};
ghost use Rattle.session_outcomes.specs.Scenes.{scene};
ghost use Rattle.session_gateway.specs.Calls.{HasNoNul, HasShortTerm, IsConfigured};
ghost use Rattle.session_gateway.specs.Seen.{seen, pins_of, Agrees, PinsOf};
ghost use Rattle.client_sessions.specs.Sending.{ActCanSend};
ghost use Rattle.client_sessions.specs.Clients.{Clients, with_sessions, Awaits, NoneIsOpen, Sound};
ghost use Rattle.client_sessions.specs.Calls.{act_on, Asked, Comes};
ghost use Rattle.client_sessions.specs.Later.{Resumes, Finishes};

use crate::act::Act;
use crate::sending::{empty, messages, refused};
use database_state::Machine;
use session_gateway::{Act as GatewayAct, Gateway, Read, View};
use sql_engine::Engine;
use std::alloc::{AllocError, Global};
use wire_msgs::{MsgFault, Request, read_request};
use wire_words::Message;

// What a node has to do for a connection, with responses as messages.
fn act_of(alloc: Global, conn: u64, act: GatewayAct) -> Result<Act, AllocError>
    requires { ActCanSend act }
    ensures { IfOk result (λ done. done ≡ act_on conn act) }
{
    match act {
        GatewayAct::Reply(responses) => {
            let messages = messages(alloc, responses.as_slice())?;
            Ok(Act::Reply { conn, messages })
        }
        GatewayAct::Propose(entries) => Ok(Act::Propose { conn, entries }),
        GatewayAct::Lend(job) => Ok(Act::Lend { conn, job }),
        GatewayAct::Transfer(to) => {
            let reply = empty(alloc)?;
            Ok(Act::Transfer { conn, to, reply })
        }
        GatewayAct::Peer(id) => {
            let reply = empty(alloc)?;
            Ok(Act::Peer { conn, id, reply })
        }
    }
}

// Only out of memory is a reason to give up; for any other fault the message is refused.
fn give_up_for_memory(fault: MsgFault) -> Result<(), AllocError>
    ensures only { IsErr result → fault ≡ NoMemory }
    ensures goes_on { OnOk result (fault ≢ NoMemory) }
{
    match fault {
        MsgFault::NoMemory => Err(AllocError),
        _ => Ok(()),
    }
}

/// The request that a message represents, or the fault in it. `Err` means out of memory, which comes only if the message
/// may have a text or a value to be kept.
pub fn read_message(
    alloc: Global,
    message: &Message,
) -> Result<Result<Request, MsgFault>, AllocError>
    ensures read { IfOk result (λ read. read ≡ request_of message.now) }
    ensures plain { IfOk result (λ read. IfOk read HasNoNul) }
    ensures memory { IsErr result → IsTrue (may_take_memory (request_kind message.now.kind) message.now) }
{
    match read_request(alloc, message) {
        Ok(request) => Ok(Ok(request)),
        Err(fault) => {
            give_up_for_memory(fault)?;
            Ok(Err(fault))
        }
    }
}

// What a node has to do for a request.
fn answer<E: Engine>(
    alloc: Global,
    gateway: &mut Gateway,
    conn: u64,
    request: Request,
    view: &View,
    machine: &mut Machine,
    engine: &mut E,
) -> Result<Act, AllocError>
    requires ready { may_ask ((seen gateway.old machine.old).session conn) ≡ true }
    requires listed { IsListed ((seen gateway.old machine.old).session conn).tx }
    requires pins { PinsOf gateway.old machine.old }
    requires text { HasNoNul request }
    requires term { HasShortTerm view.now }
    requires configured { IsConfigured view.now }
    requires agrees { Agrees (E.known engine.old) gateway.old machine.old }
    ensures agrees { Agrees (E.known engine.new) gateway.new machine.new }
    ensures asked { IfOk result (Asked (call_on E.meaning E.kind E.told engine.old engine.new)
        (scene view.now (machine_of machine.old) (seen gateway.old machine.old) conn) request (E.refused_openings engine.old)
        (E.refused_openings engine.new) (seen gateway.new machine.new)) }
    ensures sound { (k : Clients) → k.sessions ≡ seen gateway.old machine.old → Sound k → Sound (with_sessions k (seen gateway.new machine.new)) }
    ensures idle { view.now.serving ≡ false → NoneIsOpen (seen gateway.old machine.old) → NoneIsOpen (seen gateway.new machine.new) }
    ensures files { machine_of machine.new ≡ machine_of machine.old }
    ensures pins_after { PinsOf gateway.new machine.new }
    ensures stays { Stays (E.kind engine.old) (E.kind engine.new) (E.refused_openings engine.old) (E.refused_openings engine.new) }
{
    let act = gateway.on_request(conn, request, view, machine, engine)?;
    act_of(alloc, conn, act)
}

/// What a node has to do for a message of a connection whose session is there, is not hung up and has answered its last request, by
/// what the message reads as. Clients that were sound are so after it, at an `Err` too, which means out of memory.
pub(crate) fn come<E: Engine>(
    alloc: Global,
    gateway: &mut Gateway,
    conn: u64,
    asked: Result<Request, MsgFault>,
    view: &View,
    machine: &mut Machine,
    engine: &mut E,
) -> Result<Act, AllocError>
    requires ready { may_ask ((seen gateway.old machine.old).session conn) ≡ true }
    requires listed { IsListed ((seen gateway.old machine.old).session conn).tx }
    requires pins { PinsOf gateway.old machine.old }
    requires text { IfOk asked HasNoNul }
    requires term { HasShortTerm view.now }
    requires configured { IsConfigured view.now }
    requires agrees { Agrees (E.known engine.old) gateway.old machine.old }
    ensures agrees { Agrees (E.known engine.new) gateway.new machine.new }
    ensures came { IfOk result (Comes (call_on E.meaning E.kind E.told engine.old engine.new)
        (scene view.now (machine_of machine.old) (seen gateway.old machine.old) conn) asked (E.refused_openings engine.old) (E.refused_openings engine.new)
        (seen gateway.new machine.new)) }
    ensures sound { (k : Clients) → k.sessions ≡ seen gateway.old machine.old → Sound k → Sound (with_sessions k (seen gateway.new machine.new)) }
    ensures idle { view.now.serving ≡ false → NoneIsOpen (seen gateway.old machine.old) → NoneIsOpen (seen gateway.new machine.new) }
    ensures files { machine_of machine.new ≡ machine_of machine.old }
    ensures pins_after { PinsOf gateway.new machine.new }
    ensures stays { Stays (E.kind engine.old) (E.kind engine.new) (E.refused_openings engine.old) (E.refused_openings engine.new) }
{
    match asked {
        Ok(request) => answer(alloc, gateway, conn, request, view, machine, engine),
        Err(fault) => {
            let messages = refused(alloc, fault)?;
            Ok(Act::Reply { conn, messages })
        }
    }
}

/// Runs the query that a connection has yet to answer, if there is one. Clients that were sound are so after it, at an `Err` too,
/// which means out of memory.
pub(crate) fn resume<E: Engine>(
    alloc: Global,
    gateway: &mut Gateway,
    conn: u64,
    view: &View,
    machine: &mut Machine,
    engine: &mut E,
) -> Result<Option<Act>, AllocError>
    requires awaits { Awaits ((seen gateway.old machine.old).session conn).database
        ((seen gateway.old machine.old).session conn).flight ((seen gateway.old machine.old).session conn).later }
    requires pins { PinsOf gateway.old machine.old }
    requires term { HasShortTerm view.now }
    requires agrees { Agrees (E.known engine.old) gateway.old machine.old }
    ensures agrees { Agrees (E.known engine.new) gateway.new machine.new }
    ensures resumed { IfOk result (Resumes (call_on E.meaning E.kind E.told engine.old engine.new)
        (scene view.now (machine_of machine.old) (seen gateway.old machine.old) conn) (later_query ((seen gateway.old machine.old).session conn).later)
        (E.refused_openings engine.old) (E.refused_openings engine.new) (seen gateway.new machine.new)) }
    ensures sound { (k : Clients) → k.sessions ≡ seen gateway.old machine.old → Sound k → Sound (with_sessions k (seen gateway.new machine.new)) }
    ensures idle { view.now.serving ≡ false → NoneIsOpen (seen gateway.old machine.old) → NoneIsOpen (seen gateway.new machine.new) }
    ensures files { machine_of machine.new ≡ machine_of machine.old }
    ensures pins_after { PinsOf gateway.new machine.new }
    ensures stays { Stays (E.kind engine.old) (E.kind engine.new) (E.refused_openings engine.old) (E.refused_openings engine.new) }
{
    match gateway.on_later(conn, view, machine, engine)? {
        Some(act) => Ok(Some(act_of(alloc, conn, act)?)),
        None => Ok(None),
    }
}

/// Tells a connection what a reader says of its query. Clients that were sound are so after it, at an `Err` too, which means out
/// of memory.
pub(crate) fn finish(
    alloc: Global,
    gateway: &mut Gateway,
    conn: u64,
    read: Read,
) -> Result<Option<Act>, AllocError>
    ensures finished { IfOk result (λ act. (databases : List Database) → Finishes (seen gateway.old databases) conn
        (lent_query ((seen gateway.old databases).session conn).later) (read_named read) (seen gateway.new databases) act) }
    ensures sound { (databases : List Database) (k : Clients) → k.sessions ≡ seen gateway.old databases → Sound k →
        Sound (with_sessions k (seen gateway.new databases)) }
    ensures idle { (databases : List Database) → NoneIsOpen (seen gateway.old databases) → NoneIsOpen (seen gateway.new databases) }
    ensures pins { pins_of gateway.new ≡ pins_of gateway.old }
    ensures agrees { (known : List Known) (databases : List Database) → Agrees known gateway.old databases → Agrees known gateway.new databases }
{
    match gateway.on_read_done(conn, read)? {
        Some(act) => Ok(Some(act_of(alloc, conn, act)?)),
        None => Ok(None),
    }
}
