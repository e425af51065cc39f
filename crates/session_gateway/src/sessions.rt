//! The gateway and its calls.

ghost use Rattle.std.specs.Prelude.{◌≡◌, ◌<◌, ◌≤◌, ◌+◌, true, false, [], ◌∷◌, ℕ, Some, IsSome, OnOk, OnErr, IfOk, MatchOption, length, if◌then◌else◌};
ghost use Rattle.sql_engine.specs.Meanings.{Stays};
ghost use Rattle.std.specs.Prelude.{List};
ghost use Rattle.sql_engine.specs.Known.{Known};
ghost use Rattle.database_state.specs.declared.database.Database.{Database};
ghost use Rattle.database_state.specs.Machines.{IsMachine};
ghost use Rattle.session_spec.specs.Causes.{NotADatabase, failure};
ghost use Rattle.session_spec.specs.Sessions.{no_sessions, is_busy, may_ask};
ghost use Rattle.session_spec.specs.Machine.{machine_of};
ghost use Rattle.session_spec.specs.Touched.{IsListed};
ghost use Rattle.session_spec.specs.Events as events;
ghost use Rattle.session_table.specs.Sweeping.{all_told};
ghost use Rattle.session_table.specs.Table.{session_of, IsTable};
ghost use Rattle.session_table.specs.SessionSizes.{kept_size, kept_size_at};
ghost use Rattle.session_spec.specs.Asking.{has_database};
ghost use Rattle.session_spec.specs.Sessions.{is_due, later_query, lent_query};
ghost use Rattle.session_outcomes.specs.Reading.{read_named};
ghost use Rattle.session_statements.specs.Calls.{call_on};
ghost use Rattle.session_outcomes.specs.Scenes.{scene};
ghost use Rattle.session_gateway.specs.Calls.{TurnsByAnswers, HasNoNul, HasShortTerm, IsConfigured};
ghost use Rattle.session_gateway.specs.Later.{ReadDone, Resumed, first_due};
ghost use Rattle.session_gateway.specs.Seen.{seen, pins_of, Agrees, ListsAsBefore, PinsOf};

use crate::act::Act;
use crate::call::Call;
use crate::handling::handle;
use crate::later::{next_due, read_done, resume};
use database_state::Machine;
use session_outcomes::Read;
use session_requests::View;
use session_table::{Session, applied, find, join, kept_size, kept_size_at, left, lost};
use sql_engine::Engine;
use std::alloc::{AllocError, Global};
use std::marker::Model;
use wire_msgs::{Request, Response};

/// All sessions of a node. A connection has one session at most, and a session one request at a time.
///
/// Clauses see its sessions by `seen`, with the images that their open transactions have pinned in the state machine, so the calls
/// that take the state machine want its live marks to be those of the sessions, and leave it so.
#[derive(Drop)]
pub struct Gateway {
    alloc: Global,
    sessions: Vec<Session>,
    weight: u64,
    next: u64,
}

impl Model for Gateway {
    ghost use Rattle.session_table.specs.Table.{IsTable};
    ghost use Rattle.session_gateway.specs.Seen.{Held};

    ghost Value = { Held };

    ghost view = { λ g. record { sessions = g.sessions.items; weight = g.weight; next = g.next } };

    ghost invariant = { λ g. IsTable g.sessions.items };
}

/// Draws the number of a working image. No number is drawn twice: if none is left there means out of memory, and nothing
/// has changed then.
fn draw(next: &mut u64) -> Result<u64, AllocError>
    ensures drawn { IfOk result (λ number. number ≡ next.old) }
    ensures later { OnOk result (next.new ≡ next.old + 1) }
    ensures kept { OnErr result (next.new ≡ next.old) }
{
    let number = *next;
    match number.checked_add(1) {
        Some(later) => {
            *next = later;
            Ok(number)
        }
        None => Err(AllocError),
    }
}

/// Whether a session has yet to answer its last request.
fn is_busy(session: &Session) -> bool
    ensures { (databases : List Database) → result ≡ is_busy (session_of databases session.now) }
{
    if session.flight.is_some() {
        return true;
    }
    session.later.is_some()
}

impl Gateway {
    /// A gateway without sessions.
    #[tactic(auto, using(crate::proofs::Holding::none_seen, crate::proofs::Holding::none_pinned))]
    pub fn new(alloc: Global) -> Gateway
        ensures sessions { (databases : List Database) → seen result databases ≡ no_sessions }
        ensures pins { pins_of result ≡ [] }
        ensures agrees { (databases : List Database) → IsMachine databases → Agrees [] result databases }
    {
        Gateway {
            alloc,
            sessions: Vec::new(alloc),
            weight: 0,
            next: 0,
        }
    }

    /// Gives a connection a session; false exactly if it has one, or where 64 are there, hung-up ones counted. Nothing has
    /// changed at false. `Err` means out of memory; nothing has changed then either.
    pub fn connect(&mut self, conn: u64) -> Result<bool, AllocError>
        ensures connected { OnOk result ((databases : List Database) → seen self.new databases
            ≡ (if events.connects (seen self.old databases) conn then events.connected (seen self.old databases) conn else seen self.old databases)) }
        ensures told { IfOk result (λ new. (databases : List Database) → new ≡ events.connects (seen self.old databases) conn) }
        ensures pins { pins_of self.new ≡ pins_of self.old }
        ensures agrees { (known : List Known) (databases : List Database) → Agrees known self.old databases → Agrees known self.new databases }
        ensures failed { OnErr result ((databases : List Database) → seen self.new databases ≡ seen self.old databases) }
    {
        join(self.alloc, &mut self.sessions, conn)
    }

    /// What comes of a request of a connection: a refusal or another answer at once, entries to be appended, a query for a reader,
    /// or something for the node to do. The connection's session is there, is not hung up and has answered the last request; `busy`
    /// tells. The request is moved. The state machine is that of the earlier calls with the commands applied since.
    ///
    /// A refused request has changed nothing. `Err` means out of memory, which also comes if no number is left, after
    /// 18,446,744,073,709,551,615 requests; then nothing has changed either but what the engine answered.
    ///
    /// For each request a number is drawn, which that working image of a transaction gets that the request's statements leave.
    /// So the engine finds what it has open by the number of an image, and compares no bytes.
    ///
    /// Costs, besides the engine's, in the order of the request's bytes and of the pages that it changes, except if an image is
    /// copied: outside a transaction a statement runs over the newest image as the state machine lends it, which copies nothing where
    /// the state machine keeps that image whole; several of one text have it copied once, and BEGIN copies it. In a transaction
    /// statements work on its image in place: each copies the pages that it changes and no others, and of several these are
    /// compared at the end. COMMIT compares the pages that the statements of its transaction changed, and no others.
    pub fn on_request<E: Engine>(
        &mut self,
        conn: u64,
        request: Request,
        view: &View,
        machine: &mut Machine,
        engine: &mut E,
    ) -> Result<Act, AllocError>
        requires ready { may_ask ((seen self.old machine.old).session conn) ≡ true }
        requires pins { PinsOf self.old machine.old }
        // Its open transaction has the numbers of all pages that it changed, as each request leaves it.
        requires listed { IsListed ((seen self.old machine.old).session conn).tx }
        requires text { HasNoNul request }
        requires term { HasShortTerm view.now }
        // The servers of the cluster are ones that may stand together, and each change leaves them so.
        requires configured { IsConfigured view.now }
        // No number represents two images, for the engine, the transactions and the databases; and this holds afterwards.
        requires agrees { Agrees (E.known engine.old) self.old machine.old }
        ensures agrees { Agrees (E.known engine.new) self.new machine.new }
        // The definition's outcome, by answers that the engine may give and gave.
        ensures turned { IfOk result (TurnsByAnswers (call_on E.meaning E.kind E.told engine.old engine.new)
            (scene view.now (machine_of machine.old) (seen self.old machine.old) conn) request (seen self.new machine.new)) }
        ensures failed { OnErr result (seen self.new machine.new ≡ seen self.old machine.old) }
        // The databases stay; their live marks are those of the sessions.
        ensures files { machine_of machine.new ≡ machine_of machine.old }
        ensures pins_after { PinsOf self.new machine.new }
        // Open transactions have the numbers of all pages that they changed, as they had before.
        ensures lists { ListsAsBefore (seen self.old machine.old) (seen self.new machine.new) }
        // The engine stays of its kind, and its files were not opened only if it counted so.
        ensures stays { Stays (E.kind engine.old) (E.kind engine.new) (E.refused_openings engine.old) (E.refused_openings engine.new) }
        ensures unopened { IfOk result (λ act. act ≡ Act.Reply (failure NotADatabase ∷ []) →
            E.refused_openings engine.old < E.refused_openings engine.new) }
    {
        let number = draw(&mut self.next)?;
        let sessions = &mut self.sessions;
        let weight = &mut self.weight;
        let call = Call {
            alloc: self.alloc,
            view,
            number,
        };
        handle(&call, sessions, weight, conn, request, machine, engine)
    }

    /// The entry of an index is applied: the proposal that ends with it is done, and its client, if it is there, is answered; but
    /// if it was the barrier before a query, nothing is reported, and the query is to be run next: `next_due` tells it. The state machine
    /// has the entry applied. (A pending proposal is of the node's term, so its index tells it alone.) `Err` means out of
    /// memory; nothing has changed then.
    pub fn on_applied(
        &mut self,
        index: u64,
        machine: &mut Machine,
    ) -> Result<Vec<(u64, Response)>, AllocError>
        requires pins { PinsOf self.old machine.old }
        ensures landed { OnOk result (seen self.new machine.new ≡ events.on_applied index (seen self.old machine.old)) }
        ensures told { IfOk result (λ told. told.items ≡ all_told (events.told_applied index (seen self.old machine.old))) }
        ensures failed { OnErr result (seen self.new machine.new ≡ seen self.old machine.old) }
        ensures files { machine_of machine.new ≡ machine_of machine.old }
        ensures pins_after { PinsOf self.new machine.new }
        ensures agrees { (known : List Known) → Agrees known self.old machine.old → Agrees known self.new machine.new }
    {
        applied(self.alloc, &mut self.sessions, index, machine)
    }

    /// The first connection whose query is to be run next, since its barrier is applied; none without one. Looks at each
    /// session.
    pub fn next_due(&self) -> Option<u64>
        ensures { (databases : List Database) → MatchOption result
            ((conn : ℕ) → is_due ((seen self.now databases).session conn).later ≡ false)
            (λ conn. first_due (seen self.now databases) ≡ Some conn) }
    {
        next_due(self.sessions.as_slice())
    }

    /// Runs the query that a connection has yet to answer: its barrier is applied, or its reader gave it back, since it would change
    /// pages. It is run as if it was asked now, but with no barrier and no reader any more; if the node doesn't serve any more it
    /// is refused. None where the connection has no query; then nothing is done. `Err` means out of memory; nothing has changed
    /// then but what the engine answered, and the query waits on.
    ///
    /// For each call a number is drawn, as for a request; it costs as one.
    pub fn on_later<E: Engine>(
        &mut self,
        conn: u64,
        view: &View,
        machine: &mut Machine,
        engine: &mut E,
    ) -> Result<Option<Act>, AllocError>
        requires pins { PinsOf self.old machine.old }
        // Its session has opened a database, as it had when the query was asked.
        requires opened { IsSome ((seen self.old machine.old).session conn).later → has_database ((seen self.old machine.old).session conn) ≡ true }
        requires term { HasShortTerm view.now }
        // No number represents two images, for the engine, the transactions and the databases; and this holds afterwards.
        requires agrees { Agrees (E.known engine.old) self.old machine.old }
        ensures agrees { Agrees (E.known engine.new) self.new machine.new }
        // The definition's outcome, by answers that the engine may give and gave.
        ensures resumed { IfOk result (Resumed (call_on E.meaning E.kind E.told engine.old engine.new)
            (scene view.now (machine_of machine.old) (seen self.old machine.old) conn) (later_query ((seen self.old machine.old).session conn).later)
            (seen self.new machine.new)) }
        ensures failed { OnErr result (seen self.new machine.new ≡ seen self.old machine.old) }
        // The databases stay; their live marks are those of the sessions.
        ensures files { machine_of machine.new ≡ machine_of machine.old }
        ensures pins_after { PinsOf self.new machine.new }
        // Open transactions have the numbers of all pages that they changed, as they had before.
        ensures lists { ListsAsBefore (seen self.old machine.old) (seen self.new machine.new) }
        // The engine stays of its kind, and its files were not opened only if it counted so.
        ensures stays { Stays (E.kind engine.old) (E.kind engine.new) (E.refused_openings engine.old) (E.refused_openings engine.new) }
        ensures unopened { IfOk result (λ act. act ≡ Some (Act.Reply (failure NotADatabase ∷ [])) →
            E.refused_openings engine.old < E.refused_openings engine.new) }
    {
        let number = draw(&mut self.next)?;
        let sessions = &mut self.sessions;
        let weight = &mut self.weight;
        let call = Call {
            alloc: self.alloc,
            view,
            number,
        };
        resume(&call, sessions, weight, conn, machine, engine)
    }

    /// A reader is done with the query of a connection, and tells this of it: what the node has to tell the connection. None where
    /// no reader has a query of the connection any more, since its client has gone; and if the reader gives the query back, which
    /// `on_later` then runs. Nothing has changed at none. `Err` means out of memory; nothing has changed then either.
    pub fn on_read_done(&mut self, conn: u64, read: Read) -> Result<Option<Act>, AllocError>
        ensures done { IfOk result (λ act. (databases : List Database) → ReadDone (seen self.old databases) conn
            (lent_query ((seen self.old databases).session conn).later) (read_named read) (seen self.new databases) act) }
        ensures pins { pins_of self.new ≡ pins_of self.old }
        ensures agrees { (known : List Known) (databases : List Database) → Agrees known self.old databases → Agrees known self.new databases }
        ensures failed { OnErr result ((databases : List Database) → seen self.new databases ≡ seen self.old databases) }
    {
        read_done(self.alloc, &mut self.sessions, conn, read)
    }

    /// The node no longer leads the term of the pending proposals: they and all transactions end, and each client that waits
    /// is informed, in the order of the proposals' last entries, those whose queries were to be run next before all others.
    /// Databases and statements stay, and readers continue. No mark of the state machine is live then. `Err` means out of memory; nothing
    /// has changed then.
    pub fn on_lost(&mut self, machine: &mut Machine) -> Result<Vec<(u64, Response)>, AllocError>
        requires pins { PinsOf self.old machine.old }
        ensures lost { OnOk result (seen self.new machine.new ≡ events.on_lost (seen self.old machine.old)) }
        ensures told { IfOk result (λ told. told.items ≡ all_told (events.told_lost (seen self.old machine.old))) }
        ensures unmarked { OnOk result (pins_of self.new ≡ []) }
        ensures failed { OnErr result (seen self.new machine.new ≡ seen self.old machine.old) }
        ensures files { machine_of machine.new ≡ machine_of machine.old }
        ensures pins_after { PinsOf self.new machine.new }
        ensures agrees { (known : List Known) → Agrees known self.old machine.old → Agrees known self.new machine.new }
    {
        lost(self.alloc, &mut self.sessions, machine)
    }

    /// The client of a connection has gone. Its session goes too, with its transaction; if a proposal is pending, that,
    /// and the write lock with it, stays until it is applied or lost.
    pub fn on_hangup(&mut self, conn: u64, machine: &mut Machine)
        requires there { ((seen self.old machine.old).session conn).there ≡ true }
        requires open { ((seen self.old machine.old).session conn).hung ≡ false }
        requires pins { PinsOf self.old machine.old }
        ensures left { seen self.new machine.new ≡ events.on_hangup (seen self.old machine.old) conn }
        ensures files { machine_of machine.new ≡ machine_of machine.old }
        ensures pins_after { PinsOf self.new machine.new }
        ensures agrees { (known : List Known) → Agrees known self.old machine.old → Agrees known self.new machine.new }
    {
        left(self.alloc, &mut self.sessions, conn, machine);
    }

    /// A law: no two sessions are of one connection, and there are 64 at most.
    pub fn is_table(&self)
        ensures { IsTable self.now.sessions }
    {
        let _ = &self.sessions;
    }

    /// Whether the connection's last request waits for its answer: its proposal is pending, its query is to be run next, or a
    /// reader has it.
    pub fn busy(&self, conn: u64) -> bool
        ensures { (databases : List Database) → result ≡ is_busy ((seen self.now databases).session conn) }
    {
        match find(self.sessions.as_slice(), conn) {
            Some(place) => is_busy(&self.sessions[place]),
            None => false,
        }
    }

    /// The number of sessions, with those of clients that have gone while a proposal of theirs is pending.
    #[tactic(auto, using(crate::proofs::Holding::sessions_counted))]
    pub fn session_count(&self) -> u64
        ensures { (databases : List Database) → result ≡ length (seen self.now databases).conns }
    {
        self.sessions.len() as u64
    }

    /// How many bytes the sessions keep of what their clients have said, and of what they are to be sent, as `kept_size` of
    /// `session_table` counts them. Looks at each number of a statement.
    pub fn held(&self) -> u64
        ensures { result ≡ kept_size self.now.sessions }
    {
        kept_size(self.sessions.as_slice())
    }

    /// How many bytes the session of one connection keeps; 0 without one.
    pub fn held_bytes_of(&self, conn: u64) -> u64
        ensures { result ≡ kept_size_at conn self.now.sessions }
    {
        kept_size_at(self.sessions.as_slice(), conn)
    }
}
