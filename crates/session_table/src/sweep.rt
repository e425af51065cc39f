//! What happens to all sessions at once.

ghost use Rattle.std.specs.Prelude.{◌≡◌, ◌<◌, ◌≤◌, ◌+◌, ◌++◌, ℕ, true, false, [], ◌∷◌};
ghost use Rattle.std.specs.Prelude.{List, length, take, drop, vec_len, vec_capacity, OnOk, OnErr, IfOk, Some, MatchOption};
ghost use Rattle.std.specs.List.{AllByRecursion};
ghost use Rattle.database_state.specs.Pins.{IsPinned};
ghost use Rattle.session_spec.specs.Sessions.{responses_of};
ghost use Rattle.session_spec.specs.Machine.{machine_of};
ghost use Rattle.session_spec.specs.Events as events;
ghost use Rattle.session_spec.specs.Events.{landed_reply};
ghost use Rattle.session_table.specs.declared.sweep.Event.TheVariants.{Applied, Lost, Left, Ended};
ghost use Rattle.session_table.specs.Named.{kind_named};
ghost use Rattle.session_table.specs.Table.{mark_of, pin_of, pins_of, table_of, AreApart, IsTable};
ghost use Rattle.session_table.specs.Marks.{AreMarks, AreDifferent, Released};
ghost use Rattle.session_table.specs.Working.{works_of, AreAmong};
ghost use Rattle.database_state.specs.ImageNumbers.{NumbersStay};
ghost use Rattle.session_table.specs.Sweeping.{ends_at, done, freed_done, still_lent, loses, landed_responses, told_landed, all_kept};
ghost use Rattle.session_table.specs.Sweeping.{all_freed, said, all_said, told_in, all_told, SweptOne, after};

use crate::reply::Reply;
use crate::session::{PendingProposal, ProposalKind, Session, Transaction, WaitingQuery};
use crate::told::{responses_at, told_lost};
use database_state::{Machine, Pin};
use std::alloc::{AllocError, Global};
use wire_msgs::Response;

/// What happens to all sessions.
#[derive(Clone, Copy, PartialEq, Eq)]
pub enum Event {
    /// The entry of this index is applied.
    Applied(u64),
    /// The node no longer leads.
    Lost,
    /// The client of this connection goes.
    Left(u64),
    /// The transaction of this connection's session ends.
    Ended(u64),
}

/// Releases a mark, if there is one.
fn release_pin(pin: Option<Pin>, machine: &mut Machine)
    requires { AllByRecursion (IsPinned machine.old) (mark_of pin) }
    ensures { Released (mark_of pin) machine.old machine.new }
{
    if let Some(pin) = pin {
        machine.release(pin);
    }
}

/// Releases the mark of a transaction, if it has one.
fn release(transaction: Option<Transaction>, machine: &mut Machine)
    requires { AllByRecursion (IsPinned machine.old) (pin_of transaction) }
    ensures { Released (pin_of transaction) machine.old machine.new }
{
    if let Some(transaction) = transaction {
        release_pin(transaction.pin, machine);
    }
}

/// Takes the proposal that ends at an index.
fn take_ended(flight: &mut Option<PendingProposal>, index: u64) -> Option<PendingProposal>
    ensures { MatchOption result ((flight.new ≡ flight.old) × (ends_at index flight.old ≡ false))
        (λ ended. (flight.old ≡ Some ended) × (ends_at index flight.old ≡ true)) }
{
    match flight {
        Some(ended) => {
            if ended.last == index {
                flight.take()
            } else {
                None
            }
        }
        None => None,
    }
}

impl Session {
    /// Its proposal is done: what that changes, and what its client is sent.
    fn land(
        &mut self,
        ended: PendingProposal,
        machine: &mut Machine,
        told: &mut Vec<(u64, Response)>,
    )
        requires marks { AllByRecursion (IsPinned machine.old) (pin_of self.old.transaction) }
        requires room { vec_len told.old + length (landed_responses (landed_reply ended.kind)) ≤ vec_capacity told.old }
        ensures done { self.new ≡ done self.old ended.name ended.kind }
        ensures freed { Released (freed_done self.old ended.kind) machine.old machine.new }
        ensures told { told.new.items ≡ told.old.items ++ told_landed self.old.conn (landed_reply ended.kind) }
        ensures len { vec_len told.new ≡ vec_len told.old + length (landed_responses (landed_reply ended.kind)) }
        ensures capacity { vec_capacity told.old ≤ vec_capacity told.new }
    {
        self.flight = None;
        match ended.kind {
            ProposalKind::Opening { name } => {
                self.database = Some(name);
                Reply::Single(Response::Db { id: 0 }).tell(self.conn, told);
            }
            ProposalKind::Configuring { reply } => reply.tell(self.conn, told),
            ProposalKind::Writing { reply, .. } => reply.tell(self.conn, told),
            ProposalKind::Querying { query } => self.later = Some(WaitingQuery::Due(query)),
            ProposalKind::Committing { .. } => {
                release(self.transaction.take(), machine);
                Reply::Single(Response::Result {
                    last_insert_id: 0,
                    rows_affected: 0,
                })
                .tell(self.conn, told);
            }
        }
    }
}

/// What the entry of an index, which is applied, makes of a session; false if nothing is left of it.
fn apply_to(
    session: &mut Session,
    index: u64,
    machine: &mut Machine,
    told: &mut Vec<(u64, Response)>,
) -> bool
    requires marks { AllByRecursion (IsPinned machine.old) (pin_of session.old.transaction) }
    requires room { vec_len told.old + length (said (Applied index) session.old) ≤ vec_capacity told.old }
    ensures swept { SweptOne (Applied index) session.old session.new result machine.old machine.new told.old.items told.new.items }
    ensures len { vec_len told.new ≡ vec_len told.old + length (said (Applied index) session.old) }
    ensures capacity { vec_capacity told.old ≤ vec_capacity told.new }
{
    let Some(ended) = take_ended(&mut session.flight, index) else {
        return true;
    };
    if session.hung {
        release(session.transaction.take(), machine);
        return false;
    }
    session.land(ended, machine, told);
    true
}

impl ProposalKind {
    /// Whether it is the commit of a transaction.
    fn commits(&self) -> bool
        ensures { result ≡ events.commits (kind_named self.now) }
    {
        match self {
            ProposalKind::Committing { .. } => true,
            ProposalKind::Opening { .. }
            | ProposalKind::Configuring { .. }
            | ProposalKind::Writing { .. }
            | ProposalKind::Querying { .. } => false,
        }
    }
}

/// Whether the COMMIT of the open transaction is proposed.
fn is_committing(flight: &Option<PendingProposal>) -> bool
    ensures { result ≡ events.is_committing flight.now }
{
    match flight {
        Some(flight) => flight.kind.commits(),
        None => false,
    }
}

impl Session {
    /// A query after a barrier ends; a reader continues.
    fn keep_lent(&mut self)
        ensures { self.new ≡ record self.old { later = still_lent self.old.later } }
    {
        if let Some(WaitingQuery::Due(_)) = &self.later {
            self.later = None;
        }
    }

    /// Whether it has a lost transaction where leadership is lost.
    fn loses(&self) -> bool
        ensures { result ≡ loses self.now }
    {
        if self.lost {
            return true;
        }
        self.transaction.is_some() && !is_committing(&self.flight)
    }

    /// Its transaction is lost, if one is open whose COMMIT isn't proposed.
    fn mark_lost(&mut self)
        ensures { self.new ≡ record self.old { lost = loses self.old } }
    {
        let lost = self.loses();
        self.lost = lost;
    }
}

/// What the loss of leadership makes of a session; false if nothing is left of it.
fn end(session: &mut Session, machine: &mut Machine) -> bool
    requires { AllByRecursion (IsPinned machine.old) (pin_of session.old.transaction) }
    ensures { SweptOne Lost session.old session.new result machine.old machine.new [] [] }
{
    session.mark_lost();
    session.flight = None;
    session.keep_lent();
    release(session.transaction.take(), machine);
    !session.hung
}

/// What it makes of a session that the client of a connection goes; false if nothing is left of it.
fn leave(session: &mut Session, conn: u64, machine: &mut Machine) -> bool
    requires { AllByRecursion (IsPinned machine.old) (pin_of session.old.transaction) }
    ensures { SweptOne (Left conn) session.old session.new result machine.old machine.new [] [] }
{
    if session.conn != conn {
        return true;
    }
    if session.flight.is_some() {
        session.hung = true;
        return true;
    }
    release(session.transaction.take(), machine);
    false
}

/// What it makes of a session that the transaction of a connection's session ends; something is always left of it.
fn stop(session: &mut Session, conn: u64, machine: &mut Machine) -> bool
    requires { AllByRecursion (IsPinned machine.old) (pin_of session.old.transaction) }
    ensures { SweptOne (Ended conn) session.old session.new result machine.old machine.new [] [] }
{
    if session.conn == conn {
        release(session.transaction.take(), machine);
    }
    true
}

/// What happens to a session; false if nothing is left of it.
fn happen(
    session: &mut Session,
    event: Event,
    machine: &mut Machine,
    told: &mut Vec<(u64, Response)>,
) -> bool
    requires marks { AllByRecursion (IsPinned machine.old) (pin_of session.old.transaction) }
    requires room { vec_len told.old + length (said event session.old) ≤ vec_capacity told.old }
    ensures swept { SweptOne event session.old session.new result machine.old machine.new told.old.items told.new.items }
    ensures len { vec_len told.new ≡ vec_len told.old + length (said event session.old) }
    ensures capacity { vec_capacity told.old ≤ vec_capacity told.new }
{
    match event {
        Event::Applied(index) => apply_to(session, index, machine, told),
        Event::Lost => end(session, machine),
        Event::Left(conn) => leave(session, conn, machine),
        Event::Ended(conn) => stop(session, conn, machine),
    }
}

/// Takes away the session at a place.
fn remove(sessions: &mut Vec<Session>, place: usize)
    requires { place < vec_len sessions.old }
    ensures items { sessions.new.items ≡ take place sessions.old.items ++ drop (place + 1) sessions.old.items }
    ensures len { vec_len sessions.new + 1 ≡ vec_len sessions.old }
{
    let _ = sessions.remove(place);
}

/// What happens to all sessions, one after the other; those of which nothing is left go.
fn walk(
    sessions: &mut Vec<Session>,
    event: Event,
    machine: &mut Machine,
    told: &mut Vec<(u64, Response)>,
)
    requires marks { AllByRecursion (IsPinned machine.old) (pins_of sessions.old.items) }
    requires apart { AreDifferent (pins_of sessions.old.items) }
    requires room { vec_len told.old + length (all_said event sessions.old.items) ≤ vec_capacity told.old }
    ensures kept { sessions.new.items ≡ all_kept event sessions.old.items }
    ensures freed { Released (all_freed event sessions.old.items) machine.old machine.new }
    ensures said { told.new.items ≡ told.old.items ++ all_said event sessions.old.items }
{
    let mut place = 0;
    while place < sessions.len() {
        if happen(&mut sessions[place], event, machine, told) {
            place += 1;
        } else {
            remove(sessions, place);
        }
    }
}

/// What happens to all sessions, and what it makes of the table.
#[tactic(auto, using(crate::proofs::Following::follows, crate::proofs::Parting::marks_left, crate::proofs::Kept::kept_table))]
fn sweep(
    sessions: &mut Vec<Session>,
    event: Event,
    machine: &mut Machine,
    told: &mut Vec<(u64, Response)>,
)
    requires apart { AreApart sessions.old.items }
    requires marks { AreMarks (pins_of sessions.old.items) machine.old }
    requires room { vec_len told.old + length (all_said event sessions.old.items) ≤ vec_capacity told.old }
    ensures table { (weight : ℕ) → table_of machine.new sessions.new.items weight ≡ after event (table_of machine.old sessions.old.items weight) }
    ensures said { told.new.items ≡ told.old.items ++ all_said event sessions.old.items }
    ensures kept { sessions.new.items ≡ all_kept event sessions.old.items }
    ensures files { machine_of machine.new ≡ machine_of machine.old }
    ensures numbers { NumbersStay machine.old machine.new }
    ensures works { AreAmong (works_of sessions.old.items) (works_of sessions.new.items) }
    ensures marks_after { AreMarks (pins_of sessions.new.items) machine.new }
    ensures fit { IsTable sessions.old.items → IsTable sessions.new.items }
{
    walk(sessions, event, machine, told);
}

/// The entry of an index is applied, and the state machine has it applied: each proposal that ends with it is done, and its client
/// is answered; a session that has hung up goes. `Err` means out of memory; nothing has changed then.
#[tactic(auto, using(crate::proofs::Waits::said_so))]
pub fn applied(
    alloc: Global,
    sessions: &mut Vec<Session>,
    index: u64,
    machine: &mut Machine,
) -> Result<Vec<(u64, Response)>, AllocError>
    requires apart { AreApart sessions.old.items }
    requires marks { AreMarks (pins_of sessions.old.items) machine.old }
    ensures table { OnOk result ((weight : ℕ) → table_of machine.new sessions.new.items weight ≡ events.on_applied index
        (table_of machine.old sessions.old.items weight)) }
    ensures told { IfOk result (λ told. (weight : ℕ) → told.items ≡ all_told (events.told_applied index (table_of machine.old sessions.old.items weight))) }
    ensures kept { OnErr result (sessions.new.items ≡ sessions.old.items) }
    ensures machine_kept { OnErr result (machine.new ≡ machine.old) }
    ensures files { machine_of machine.new ≡ machine_of machine.old }
    ensures numbers { NumbersStay machine.old machine.new }
    ensures works { AreAmong (works_of sessions.old.items) (works_of sessions.new.items) }
    ensures marks_after { AreMarks (pins_of sessions.new.items) machine.new }
    ensures fit { IsTable sessions.old.items → IsTable sessions.new.items }
{
    let Some(count) = responses_at(sessions.as_slice(), index) else {
        return Err(AllocError);
    };
    let mut told = Vec::with_capacity(alloc, count)?;
    sweep(sessions, Event::Applied(index), machine, &mut told);
    Ok(told)
}

/// Leadership is lost: all proposals and transactions end, and each client that waits is informed, ascending by the last index
/// of its proposal; a session that has hung up goes. No mark of the state machine is live then. `Err` means out of memory; nothing
/// has changed then.
#[tactic(auto, using(crate::proofs::Waits::told_so, crate::proofs::Kept::lost_says_nothing, crate::proofs::Kept::lost_unmarked))]
pub fn lost(
    alloc: Global,
    sessions: &mut Vec<Session>,
    machine: &mut Machine,
) -> Result<Vec<(u64, Response)>, AllocError>
    requires apart { AreApart sessions.old.items }
    requires marks { AreMarks (pins_of sessions.old.items) machine.old }
    ensures table { OnOk result ((weight : ℕ) → table_of machine.new sessions.new.items weight ≡ events.on_lost
        (table_of machine.old sessions.old.items weight)) }
    ensures told { IfOk result (λ told. (weight : ℕ) → told.items ≡ all_told (events.told_lost (table_of machine.old sessions.old.items weight))) }
    ensures unmarked { OnOk result (pins_of sessions.new.items ≡ []) }
    ensures kept { OnErr result (sessions.new.items ≡ sessions.old.items) }
    ensures machine_kept { OnErr result (machine.new ≡ machine.old) }
    ensures files { machine_of machine.new ≡ machine_of machine.old }
    ensures numbers { NumbersStay machine.old machine.new }
    ensures works { AreAmong (works_of sessions.old.items) (works_of sessions.new.items) }
    ensures marks_after { AreMarks (pins_of sessions.new.items) machine.new }
    ensures fit { IsTable sessions.old.items → IsTable sessions.new.items }
{
    let told = told_lost(alloc, sessions.as_slice())?;
    let mut nothing = Vec::new(alloc);
    sweep(sessions, Event::Lost, machine, &mut nothing);
    Ok(told)
}

/// The client of a connection goes: its session goes too, with its transaction; if a proposal of it is pending, that
/// stays, and the session with it.
#[tactic(auto, using(crate::proofs::Kept::left_says_nothing))]
pub fn left(alloc: Global, sessions: &mut Vec<Session>, conn: u64, machine: &mut Machine)
    requires apart { AreApart sessions.old.items }
    requires marks { AreMarks (pins_of sessions.old.items) machine.old }
    ensures table { (weight : ℕ) → table_of machine.new sessions.new.items weight ≡ events.on_hangup (table_of machine.old sessions.old.items weight) conn }
    ensures files { machine_of machine.new ≡ machine_of machine.old }
    ensures numbers { NumbersStay machine.old machine.new }
    ensures works { AreAmong (works_of sessions.old.items) (works_of sessions.new.items) }
    ensures marks_after { AreMarks (pins_of sessions.new.items) machine.new }
    ensures fit { IsTable sessions.old.items → IsTable sessions.new.items }
{
    let mut nothing = Vec::new(alloc);
    sweep(sessions, Event::Left(conn), machine, &mut nothing);
}

/// The transaction of a connection's session ends, and its changes with it.
#[tactic(auto, using(crate::proofs::Kept::ended_says_nothing))]
pub fn ended(alloc: Global, sessions: &mut Vec<Session>, conn: u64, machine: &mut Machine)
    requires apart { AreApart sessions.old.items }
    requires marks { AreMarks (pins_of sessions.old.items) machine.old }
    ensures table { (weight : ℕ) → table_of machine.new sessions.new.items weight ≡ after (Ended conn) (table_of machine.old sessions.old.items weight) }
    ensures files { machine_of machine.new ≡ machine_of machine.old }
    ensures numbers { NumbersStay machine.old machine.new }
    ensures works { AreAmong (works_of sessions.old.items) (works_of sessions.new.items) }
    ensures marks_after { AreMarks (pins_of sessions.new.items) machine.new }
    ensures fit { IsTable sessions.old.items → IsTable sessions.new.items }
{
    let mut nothing = Vec::new(alloc);
    sweep(sessions, Event::Ended(conn), machine, &mut nothing);
}
