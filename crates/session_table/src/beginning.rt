//! Transactions that begin.

ghost use Rattle.std.specs.Prelude.{◌⊎◌, ◌≡◌, ◌<◌, ℕ, List, vec_len, None, Some, get_or, set, IsSome, OnOk, OnErr, IfOk};
ghost use Rattle.std.specs.List.{AllByRecursion, Contains};
ghost use Rattle.session_spec.specs.Machine.{machine_of};
ghost use Rattle.session_spec.specs.Requests.{with_session, begun_over, begun};
ghost use Rattle.session_table.specs.declared.session.Session.{Session};
ghost use Rattle.session_table.specs.Table.{image_pinned, transaction_of, mark_of, pin_of, table_of, pins_of, IsTable};
ghost use Rattle.session_table.specs.Marks.{AreMarks, Gained, HasRoom};
ghost use Rattle.session_table.specs.Changing.{StandsAt, with_transaction};
ghost use Rattle.session_table.specs.Working.{work_of, works_of, IsNewest};
ghost use Rattle.database_state.specs.ImageNumbers.{NumbersStay};

use crate::bases::{newest_image_of, newest_of};
use crate::session::{Session, Transaction};
use database_state::{Machine, Pin};
use dq_base::Name;
use std::alloc::{AllocError, Global};

/// A read mark of the newest image of a database; none if the state machine doesn't have the database.
fn pin_of_name(machine: &mut Machine, name: &Name) -> Option<Pin>
    requires { HasRoom machine.old }
    ensures shows { image_pinned machine.new result ≡ ((machine_of machine.old).base name.now).image }
    ensures gained { Gained (mark_of result) machine.old machine.new }
{
    let _ = machine.databases();
    match machine.pin(name.as_str()) {
        Ok(pin) => Some(pin),
        Err(_) => None,
    }
}

/// A transaction over the newest image of a database. `Err` leaves the state machine as it is.
fn transaction_over(
    alloc: Global,
    machine: &mut Machine,
    name: &Name,
    turn: bool,
) -> Result<Transaction, AllocError>
    requires { HasRoom machine.old }
    ensures begun { IfOk result (λ x. transaction_of machine.new x ≡ begun_over name.now ((machine_of machine.old).base name.now) turn) }
    ensures gained { IfOk result (λ x. Gained (pin_of (Some x)) machine.old machine.new) }
    ensures work { IfOk result (λ x. AllByRecursion (IsNewest machine.old) (work_of (Some x))) }
    ensures kept { OnErr result (machine.new ≡ machine.old) }
{
    let own_name = name.try_clone(alloc)?;
    let working = newest_image_of(alloc, machine, name)?;
    let mark = newest_of(machine, name);
    let number = machine.number(name.as_str());
    let pin = pin_of_name(machine, name);
    Ok(Transaction {
        name: own_name,
        mark,
        pin,
        working,
        number,
        turn,
        touched: Vec::new(alloc),
    })
}

/// A transaction of a session's database.
fn transaction_of_session(
    alloc: Global,
    machine: &mut Machine,
    session: &Session,
    turn: bool,
) -> Result<Transaction, AllocError>
    requires open { IsSome session.now.database }
    requires room { HasRoom machine.old }
    ensures begun { IfOk result (λ x. (name : List ℕ) → session.now.database ≡ Some name → transaction_of machine.new x ≡ begun_over name
        ((machine_of machine.old).base name) turn) }
    ensures gained { IfOk result (λ x. Gained (pin_of (Some x)) machine.old machine.new) }
    ensures work { IfOk result (λ x. AllByRecursion (IsNewest machine.old) (work_of (Some x))) }
    ensures kept { OnErr result (machine.new ≡ machine.old) }
{
    match &session.database {
        Some(name) => transaction_over(alloc, machine, name, turn),
        None => Err(AllocError),
    }
}

/// Puts a transaction into the session at a place.
fn put(sessions: &mut Vec<Session>, place: usize, transaction: Transaction)
    requires { place < vec_len sessions.old }
    ensures { (session : Session) → sessions.new.items ≡ set sessions.old.items place (with_transaction (get_or sessions.old.items place session) transaction) }
{
    sessions[place].transaction = Some(transaction);
}

/// The session at a place, which is that of a connection, has opened a database and is in no transaction, begins one over the
/// newest image of its database, which is pinned; at once with the write lock, or without it. The image is copied once.
/// `Err` means out of memory; nothing has changed then.
pub fn begin(
    alloc: Global,
    sessions: &mut Vec<Session>,
    place: usize,
    conn: u64,
    machine: &mut Machine,
    at_once: bool,
) -> Result<(), AllocError>
    requires table { IsTable sessions.old.items }
    requires place { StandsAt conn sessions.old.items place }
    requires marks { AreMarks (pins_of sessions.old.items) machine.old }
    requires idle { (session : Session) → (get_or sessions.old.items place session).transaction ≡ None }
    requires open { (session : Session) → IsSome (get_or sessions.old.items place session).database }
    ensures ok { OnOk result ((weight : ℕ) → table_of machine.new sessions.new.items weight ≡ with_session
        (table_of machine.old sessions.old.items weight) conn (begun (machine_of machine.old)
        ((table_of machine.old sessions.old.items weight).session conn) at_once)) }
    ensures kept { OnErr result ((weight : ℕ) → table_of machine.new sessions.new.items weight ≡ table_of machine.old sessions.old.items weight) }
    ensures files { machine_of machine.new ≡ machine_of machine.old }
    ensures numbers { NumbersStay machine.old machine.new }
    // A working image is one of before by its number, or the newest one of a database by its.
    ensures works { AllByRecursion (λ work. Contains (works_of sessions.old.items) work ⊎ IsNewest machine.old work) (works_of sessions.new.items) }
    ensures marks_after { AreMarks (pins_of sessions.new.items) machine.new }
    ensures fit { IsTable sessions.new.items }
{
    let transaction = transaction_of_session(alloc, machine, &sessions[place], at_once)?;
    put(sessions, place, transaction);
    Ok(())
}
