//! The clients of a node, and their calls.

ghost use Rattle.std.specs.Prelude.{◌≡◌, ◌+◌, ◌<◌, ◌^◌, [], true, false, not, is_none, None, List, ℕ, ◌++◌, IfOk, IfSome, OnOk, OnErr, MatchOption, length, if◌then◌else◌};
ghost use Rattle.sql_engine.specs.Meanings.{Stays};
ghost use Rattle.std.specs.Ordering.{nat_cmp};
ghost use Rattle.std.specs.BTreeMap.{get, values};
ghost use Rattle.sql_engine.specs.Known.{Known};
ghost use Rattle.database_state.specs.declared.database.Database.{Database};
ghost use Rattle.database_state.specs.Machines.{IsMachine};
ghost use Rattle.session_spec.specs.Machine.{machine_of};
ghost use Rattle.session_spec.specs.Sessions.{is_due, later_query, lent_query, may_ask};
ghost use Rattle.session_spec.specs.Events as events;
ghost use Rattle.session_outcomes.specs.Reading.{read_named};
ghost use Rattle.session_statements.specs.Calls.{call_on};
ghost use Rattle.wire_rows.specs.Answering.{held};
ghost use Rattle.session_outcomes.specs.Scenes.{scene};
ghost use Rattle.session_gateway.specs.Calls.{HasNoNul, HasShortTerm, IsConfigured};
ghost use Rattle.session_gateway.specs.Later.{first_due};
ghost use Rattle.session_gateway.specs.Seen.{pins_of};
ghost use Rattle.client_sessions.specs.Clients.{no_clients, joining, joined, joined_as, hung_up, closing, closed, heard, freed, with_sessions};
ghost use Rattle.client_sessions.specs.Clients.{HasNoTransactions};
ghost use Rattle.client_sessions.specs.Calls.{Comes, TookFrom, TookNext, TookTurn, told_conns, landed_at, told_at, lost_all, told_all_lost};
ghost use Rattle.client_sessions.specs.Later.{Resumes, Finishes, turn_for};
ghost use Rattle.client_sessions.specs.Sizes.{all_held, held_for, stream_size, streams_size};
ghost use Rattle.client_sessions.specs.Seen.{clients_of, Agrees, AreValidOver, HasNoMarks};

use crate::act::Act;
use crate::answering::{come, finish, read_message, resume};
use crate::connect_result::ConnectResult;
use crate::sending::messages_to;
use client_connection::{CloseReason, Connection, PeerStream};
use database_state::Machine;
use session_gateway::{Gateway, Read, View};
use sql_engine::Engine;
use std::alloc::{AllocError, Global};
use std::collections::{BTreeMap, VecDeque};
use wire_msgs::{MsgFault, Request, Response};
use wire_words::{Message, WireBytes};

/// All clients of a node: their sessions, and the streams of their open connections.
///
/// Clauses see them by `clients_of`, over the state machine in which open transactions have pinned images. The calls that take the
/// state machine want the clients to stand over it, and leave it so: its live marks are those of their transactions, and a
/// connection is open exactly if its session is there and hasn't hung up.
#[derive(Drop)]
pub struct Clients {
    alloc: Global,
    gateway: Gateway,
    connections: BTreeMap<u64, Connection>,
    turns: VecDeque<u64>,
}

// Gives the connections that are told something a turn after the others.
fn give_turns(turns: &mut VecDeque<u64>, told: &[(u64, Response)]) -> Result<(), AllocError>
    ensures { OnOk result (turns.new.items ≡ turns.old.items ++ told_conns told.now) }
{
    for item in told {
        turns.push_back(item.0)?;
    }
    Ok(())
}

// How many bytes the streams of connections hold, after this many others. The sum stops at the last number of 64 bits.
fn with_streams(size: u64, connections: &BTreeMap<u64, Connection>) -> u64
    ensures { result ≡ held (size + streams_size (values connections.now)) }
{
    let mut size = size;
    for stream in connections.values() {
        size = size.saturating_add(stream.footprint());
    }
    size
}

impl Clients {
    /// No clients.
    pub fn new(alloc: Global) -> Clients
        ensures none { (databases : List Database) → clients_of result databases ≡ no_clients }
        ensures stand { (databases : List Database) → HasNoMarks databases → AreValidOver result databases }
        ensures agrees { (databases : List Database) → IsMachine databases → Agrees [] result databases }
    {
        Clients {
            alloc,
            gateway: Gateway::new(alloc),
            connections: BTreeMap::new(alloc),
            turns: VecDeque::new(alloc),
        }
    }

    /// Whether a connection is open.
    pub fn is_open(&self, conn: u64) -> bool
        ensures { (databases : List Database) → result ≡ not (is_none ((clients_of self.now databases).streams conn)) }
    {
        self.connections.contains_key(&conn)
    }

    /// How many bytes are held of what clients have said, and of what they are to be sent: of each connection what is unread and the
    /// messages that wait (`Connection::footprint`); and what the sessions keep (`Gateway::held`), those of clients that have gone
    /// included: prepared statements, queries that wait or that a reader has, and rows that wait for the entry of their write. The sum
    /// stops at the last number of 64 bits.
    ///
    /// Not counted is what the rules of sessions bound or what the databases' size does, as the working image of an open transaction;
    /// nor a query that a reader has still, if its client has gone.
    ///
    /// Looks at each connection and at each number of a statement.
    pub fn held(&self) -> u64
        ensures { result ≡ all_held self.now }
    {
        with_streams(self.gateway.held(), &self.connections)
    }

    /// How many bytes it holds for one connection; 0 if there is no session of it.
    pub fn held_bytes_of(&self, conn: u64) -> u64
        ensures { result ≡ held_for conn self.now }
    {
        self.gateway
            .held_bytes_of(conn)
            .saturating_add(self.stream_size(conn))
    }

    // How many bytes the stream of a connection holds; 0 where it isn't open.
    fn stream_size(&self, conn: u64) -> u64
        ensures { result ≡ stream_size (get nat_cmp self.now.connections conn) }
    {
        match self.connections.get(&conn) {
            Some(stream) => stream.footprint(),
            None => 0,
        }
    }

    /// The number of sessions, with those of clients that have gone while a proposal of theirs is pending.
    #[tactic(auto, unfolding(crate::specs::Seen::clients_of))]
    pub fn session_count(&self) -> u64
        ensures { (databases : List Database) → result ≡ length (clients_of self.now databases).sessions.conns }
    {
        self.gateway.session_count()
    }

    /// A client connects: it gets a session, unless its number is taken or 64 sessions are there, hung-up ones counted. `Err`
    /// means out of memory; nothing has changed then.
    pub fn connect(&mut self, conn: u64) -> Result<ConnectResult, AllocError>
        ensures joined { OnOk result ((databases : List Database) → AreValidOver self.old databases →
            clients_of self.new databases ≡ joined (clients_of self.old databases) conn) }
        ensures told { IfOk result (λ how. (databases : List Database) → AreValidOver self.old databases →
            how ≡ joining (clients_of self.old databases).sessions conn) }
        ensures stand { (databases : List Database) → AreValidOver self.old databases → AreValidOver self.new databases }
        ensures agrees { (known : List Known) (databases : List Database) → Agrees known self.old databases → Agrees known self.new databases }
        ensures failed { OnErr result ((databases : List Database) → clients_of self.new databases ≡ clients_of self.old databases) }
    {
        if self.is_taken(conn) {
            return Ok(ConnectResult::Taken);
        }
        if self.join(conn)? {
            Ok(ConnectResult::Joined)
        } else {
            Ok(ConnectResult::Full)
        }
    }

    /// Bytes come on a connection: they are split into messages, which wait after those that wait already, and the connection
    /// gets a turn after the others. On one that isn't open nothing happens. `Err` means out of memory; nothing has changed
    /// then, so the bytes may be given again.
    pub fn receive(&mut self, conn: u64, bytes: &[u8]) -> Result<(), AllocError>
        ensures heard { OnOk result ((databases : List Database) → clients_of self.new databases ≡ heard (clients_of self.old databases) conn bytes.now) }
        ensures stand { (databases : List Database) → AreValidOver self.old databases → AreValidOver self.new databases }
        ensures agrees { (known : List Known) (databases : List Database) → Agrees known self.old databases → Agrees known self.new databases }
        ensures failed { OnErr result ((databases : List Database) → clients_of self.new databases ≡ clients_of self.old databases) }
    {
        let Some(stream) = self.connections.get_mut(&conn) else {
            return Ok(());
        };
        self.turns.reserve(1)?;
        stream.receive(bytes)?;
        self.turns.push_back(conn)?;
        Ok(())
    }

    /// Takes the message whose turn it is, with its connection; `None` where no message's turn is left. It is the first that waits on
    /// the first connection in turn that has one and whose session has answered its last request. Its session may be asked.
    pub fn take(&mut self) -> Option<(u64, Message)>
        ensures took { (databases : List Database) → TookNext (clients_of self.old databases) (clients_of self.new databases) result }
        ensures ready { (databases : List Database) → AreValidOver self.old databases →
            IfSome result (λ took. may_ask ((clients_of self.new databases).sessions.session took.0) ≡ true) }
        ensures stand { (databases : List Database) → AreValidOver self.old databases → AreValidOver self.new databases }
        ensures agrees { (known : List Known) (databases : List Database) → Agrees known self.old databases → Agrees known self.new databases }
    {
        self.take_next()
    }

    /// What the node has to do for a message of a connection, by what the message reads as; one that doesn't read as a request is
    /// refused. The connection's session may be asked, as that of a message is which `take` gives.
    ///
    /// The request may have been handled then and its reply be lost, so the node can't continue as if nothing had been; but the
    /// clients stand over the state machine as ever.
    pub fn answer<E: Engine>(
        &mut self,
        conn: u64,
        asked: Result<Request, MsgFault>,
        view: &View,
        machine: &mut Machine,
        engine: &mut E,
    ) -> Result<Act, AllocError>
        requires stand { AreValidOver self.old machine.old }
        requires ready { may_ask ((clients_of self.old machine.old).sessions.session conn) ≡ true }
        requires text { IfOk asked HasNoNul }
        requires term { HasShortTerm view.now }
        requires configured { IsConfigured view.now }
        // No number represents two images, for the engine, the transactions and the databases; and this holds afterwards.
        requires agrees { Agrees (E.known engine.old) self.old machine.old }
        ensures agrees { Agrees (E.known engine.new) self.new machine.new }
        // The definition's outcome, by answers that the engine may give and gave.
        ensures came { IfOk result (Comes (call_on E.meaning E.kind E.told engine.old engine.new)
            (scene view.now (machine_of machine.old) (clients_of self.old machine.old).sessions conn) asked (E.refused_openings engine.old)
            (E.refused_openings engine.new) (clients_of self.new machine.new).sessions) }
        ensures rest { clients_of self.new machine.new ≡ with_sessions (clients_of self.old machine.old) (clients_of self.new machine.new).sessions }
        ensures stands { AreValidOver self.new machine.new }
        // If the node doesn't serve, no transaction begins.
        ensures idle { view.now.serving ≡ false → HasNoTransactions (clients_of self.old machine.old) →
            HasNoTransactions (clients_of self.new machine.new) }
        // The databases stay except for their marks.
        ensures files { machine_of machine.new ≡ machine_of machine.old }
        // The engine stays of its kind.
        ensures stays { Stays (E.kind engine.old) (E.kind engine.new) (E.refused_openings engine.old) (E.refused_openings engine.new) }
    {
        come(
            self.alloc,
            &mut self.gateway,
            conn,
            asked,
            view,
            machine,
            engine,
        )
    }

    /// Takes the message whose turn it is, and answers what the node has to do for it; `None` where no message's turn is left.
    /// That message is the first that waits on the first connection in turn that has one and whose session has answered its last
    /// request. One that doesn't read as a request is refused.
    ///
    /// To be called again until it answers `None`; what it answers is to be done before.
    ///
    /// The message may have been handled then and its reply be lost, so the node can't continue as if nothing had been; but the
    /// clients stand over the state machine as ever.
    pub fn next<E: Engine>(
        &mut self,
        view: &View,
        machine: &mut Machine,
        engine: &mut E,
    ) -> Result<Option<Act>, AllocError>
        requires stand { AreValidOver self.old machine.old }
        requires term { HasShortTerm view.now }
        requires configured { IsConfigured view.now }
        // No number represents two images, for the engine, the transactions and the databases; and this holds afterwards.
        requires agrees { Agrees (E.known engine.old) self.old machine.old }
        ensures agrees { Agrees (E.known engine.new) self.new machine.new }
        // The definition's outcome, by answers that the engine may give and gave.
        ensures turn { IfOk result (TookTurn (call_on E.meaning E.kind E.told engine.old engine.new) view.now (machine_of machine.old)
            (clients_of self.old machine.old) (E.refused_openings engine.old) (E.refused_openings engine.new) (clients_of self.new machine.new)) }
        ensures stands { AreValidOver self.new machine.new }
        // If the node doesn't serve, no transaction begins.
        ensures idle { view.now.serving ≡ false → HasNoTransactions (clients_of self.old machine.old) →
            HasNoTransactions (clients_of self.new machine.new) }
        // The databases stay except for their marks.
        ensures files { machine_of machine.new ≡ machine_of machine.old }
        // The engine stays of its kind.
        ensures stays { Stays (E.kind engine.old) (E.kind engine.new) (E.refused_openings engine.old) (E.refused_openings engine.new) }
    {
        let Some((conn, message)) = self.take() else {
            return Ok(None);
        };
        let asked = read_message(self.alloc, &message)?;
        let act = self.answer(conn, asked, view, machine, engine)?;
        Ok(Some(act))
    }

    /// The first connection whose query is to be run next, since its barrier is applied; none without one. Looks at each
    /// session.
    pub fn next_due(&self) -> Option<u64>
        ensures { (databases : List Database) → MatchOption result
            ((conn : ℕ) → is_due ((clients_of self.now databases).sessions.session conn).later ≡ false)
            (λ conn. first_due (clients_of self.now databases).sessions ≡ Some conn) }
    {
        self.gateway.next_due()
    }

    /// Runs the query that a connection has yet to answer: its barrier is applied, or its reader gave it back. It is run as if it was
    /// asked now, but with no barrier and no reader any more; if the node doesn't serve any more it is refused. The connection
    /// then gets a turn after the others. `None` where it has no query; then nothing is done.
    ///
    /// The query may have been run then and its reply be lost; the clients stand over the state machine as ever.
    pub fn on_later<E: Engine>(
        &mut self,
        conn: u64,
        view: &View,
        machine: &mut Machine,
        engine: &mut E,
    ) -> Result<Option<Act>, AllocError>
        requires stand { AreValidOver self.old machine.old }
        requires term { HasShortTerm view.now }
        // No number represents two images, for the engine, the transactions and the databases; and this holds afterwards.
        requires agrees { Agrees (E.known engine.old) self.old machine.old }
        ensures agrees { Agrees (E.known engine.new) self.new machine.new }
        // The definition's outcome, by answers that the engine may give and gave.
        ensures resumed { IfOk result (Resumes (call_on E.meaning E.kind E.told engine.old engine.new)
            (scene view.now (machine_of machine.old) (clients_of self.old machine.old).sessions conn)
            (later_query ((clients_of self.old machine.old).sessions.session conn).later) (E.refused_openings engine.old) (E.refused_openings engine.new)
            (clients_of self.new machine.new).sessions) }
        ensures rest { IfOk result (λ act. clients_of self.new machine.new ≡
            freed (clients_of self.old machine.old) (clients_of self.new machine.new).sessions (turn_for conn act)) }
        ensures stands { AreValidOver self.new machine.new }
        // If the node doesn't serve, no transaction begins.
        ensures idle { view.now.serving ≡ false → HasNoTransactions (clients_of self.old machine.old) →
            HasNoTransactions (clients_of self.new machine.new) }
        // The databases stay except for their marks.
        ensures files { machine_of machine.new ≡ machine_of machine.old }
        // The engine stays of its kind.
        ensures stays { Stays (E.kind engine.old) (E.kind engine.new) (E.refused_openings engine.old) (E.refused_openings engine.new) }
    {
        let gateway = &mut self.gateway;
        let Some(act) = resume(self.alloc, gateway, conn, view, machine, engine)? else {
            return Ok(None);
        };
        self.turns.push_back(conn)?;
        Ok(Some(act))
    }

    /// A reader is done with the query of a connection, and tells this of it: what the node has to do for the connection, which gets
    /// a turn after the others. `None` where no reader has a query of the connection any more, since its client has gone; and where
    /// the reader gives the query back, which `on_later` then runs. Nothing has changed at `None`.
    ///
    /// The query may be done then and its reply be lost; the clients stand over the state machine as ever.
    pub fn on_read_done(&mut self, conn: u64, read: Read) -> Result<Option<Act>, AllocError>
        ensures finished { IfOk result (λ act. (databases : List Database) → Finishes (clients_of self.old databases).sessions conn
            (lent_query ((clients_of self.old databases).sessions.session conn).later) (read_named read) (clients_of self.new databases).sessions act) }
        ensures rest { IfOk result (λ act. (databases : List Database) → clients_of self.new databases ≡
            freed (clients_of self.old databases) (clients_of self.new databases).sessions (turn_for conn act)) }
        ensures stand { (databases : List Database) → AreValidOver self.old databases → AreValidOver self.new databases }
        ensures idle { (databases : List Database) → HasNoTransactions (clients_of self.old databases) →
            HasNoTransactions (clients_of self.new databases) }
        ensures agrees { (known : List Known) (databases : List Database) → Agrees known self.old databases → Agrees known self.new databases }
    {
        let Some(act) = finish(self.alloc, &mut self.gateway, conn, read)? else {
            return Ok(None);
        };
        self.turns.push_back(conn)?;
        Ok(Some(act))
    }

    /// The entry of an index is applied: the proposal that ends with it is done. Answers the messages that tell its client so, if
    /// it is there, with the number of its connection, which gets a turn after the others; but if it was the barrier before a
    /// query, nothing is reported, and the query is to be run next: `next_due` tells it. The state machine has the entry applied.
    ///
    /// The proposal may be done then and its reply be lost; the clients stand over the state machine as ever.
    pub fn on_applied(
        &mut self,
        index: u64,
        machine: &mut Machine,
    ) -> Result<Vec<(u64, WireBytes)>, AllocError>
        requires stand { AreValidOver self.old machine.old }
        ensures landed { OnOk result (clients_of self.new machine.new ≡ landed_at index (clients_of self.old machine.old)) }
        ensures told { IfOk result (λ told. told.items ≡ told_at index (clients_of self.old machine.old)) }
        ensures stands { AreValidOver self.new machine.new }
        ensures agrees { (known : List Known) → Agrees known self.old machine.old → Agrees known self.new machine.new }
        ensures files { machine_of machine.new ≡ machine_of machine.old }
    {
        let told = self.gateway.on_applied(index, machine)?;
        give_turns(&mut self.turns, told.as_slice())?;
        messages_to(self.alloc, told.as_slice())
    }

    /// The node no longer leads the term of the pending proposals: they and all transactions end. Answers the messages that
    /// tell each client that waits so, in the order of the proposals' last entries, with the numbers of their connections,
    /// which get a turn after the others. Databases and statements stay, and readers continue.
    ///
    /// Proposals and transactions may have ended then and replies be lost; the clients stand over the state machine as ever.
    pub fn on_lost(&mut self, machine: &mut Machine) -> Result<Vec<(u64, WireBytes)>, AllocError>
        requires stand { AreValidOver self.old machine.old }
        ensures lost { OnOk result (clients_of self.new machine.new ≡ lost_all (clients_of self.old machine.old)) }
        ensures told { IfOk result (λ told. told.items ≡ told_all_lost (clients_of self.old machine.old)) }
        ensures ended { OnOk result (HasNoTransactions (clients_of self.new machine.new)) }
        ensures unmarked { OnOk result (HasNoMarks machine.new) }
        ensures stands { AreValidOver self.new machine.new }
        ensures agrees { (known : List Known) → Agrees known self.old machine.old → Agrees known self.new machine.new }
        ensures files { machine_of machine.new ≡ machine_of machine.old }
    {
        let told = self.gateway.on_lost(machine)?;
        give_turns(&mut self.turns, told.as_slice())?;
        messages_to(self.alloc, told.as_slice())
    }

    /// A law: clients without an open transaction have pinned no image; and over any databases no number represents two images,
    /// if no engine knows one. So a node whose transactions have ended may take over the databases of a snapshot, with an
    /// engine that has forgotten all numbers; `clients_change_databases` has the rest.
    pub fn have_ended(&self)
        ensures unmarked { (databases : List Database) → HasNoTransactions (clients_of self.now databases) →
            AreValidOver self.now databases → HasNoMarks databases }
        ensures agree { (old new : List Database) → HasNoTransactions (clients_of self.now old) → IsMachine new → Agrees [] self.now new }
    {
        self.gateway.is_table();
    }

    /// The client of a connection hangs up: its session goes with its transaction, with the messages that wait and with a query that
    /// waits for its answer. A pending proposal, and the write lock with it, stays until it is applied or lost. Of a
    /// connection that isn't open nothing changes.
    pub fn hang_up(&mut self, conn: u64, machine: &mut Machine)
        requires stand { AreValidOver self.old machine.old }
        ensures left { clients_of self.new machine.new ≡ hung_up (clients_of self.old machine.old) conn }
        ensures stands { AreValidOver self.new machine.new }
        ensures agrees { (known : List Known) → Agrees known self.old machine.old → Agrees known self.new machine.new }
        ensures files { machine_of machine.new ≡ machine_of machine.old }
    {
        let _stream = self.remove(conn, machine);
    }

    /// Hands over the stream of a connection that carries a peer's messages from now on: the messages that wait after those that were
    /// taken, what is unread, and why it closes. The connection goes as one that hangs up. `None` where it isn't open; then nothing
    /// changes. To be called where `Act::Peer` is answered, before anything else is.
    pub fn hand_over(&mut self, conn: u64, machine: &mut Machine) -> Option<PeerStream>
        requires stand { AreValidOver self.old machine.old }
        ensures handed { result ≡ (clients_of self.old machine.old).streams conn }
        ensures left { clients_of self.new machine.new ≡ hung_up (clients_of self.old machine.old) conn }
        ensures stands { AreValidOver self.new machine.new }
        ensures agrees { (known : List Known) → Agrees known self.old machine.old → Agrees known self.new machine.new }
        ensures files { machine_of machine.new ≡ machine_of machine.old }
    {
        match self.remove(conn, machine) {
            Some(stream) => Some(stream.into_peer()),
            None => None,
        }
    }

    /// Closes a connection whose stream is at its end or has no room for a byte, and answers why; it goes as one that hangs
    /// up. To be called once its messages have had their turn. Any other connection stays.
    pub fn close(&mut self, conn: u64, machine: &mut Machine) -> Option<CloseReason>
        requires stand { AreValidOver self.old machine.old }
        ensures closed { clients_of self.new machine.new ≡ closed (clients_of self.old machine.old) conn }
        ensures told { result ≡ closing ((clients_of self.old machine.old).streams conn) }
        ensures stands { AreValidOver self.new machine.new }
        ensures agrees { (known : List Known) → Agrees known self.old machine.old → Agrees known self.new machine.new }
        ensures files { machine_of machine.new ≡ machine_of machine.old }
    {
        let Some(reason) = self.reason(conn) else {
            return None;
        };
        self.hang_up(conn, machine);
        Some(reason)
    }

    // Takes out a connection, if it is open, with its session.
    fn remove(&mut self, conn: u64, machine: &mut Machine) -> Option<Connection>
        requires stand { AreValidOver self.old machine.old }
        ensures found { result ≡ (clients_of self.old machine.old).streams conn }
        ensures left { clients_of self.new machine.new ≡ hung_up (clients_of self.old machine.old) conn }
        ensures stands { AreValidOver self.new machine.new }
        ensures agrees { (known : List Known) → Agrees known self.old machine.old → Agrees known self.new machine.new }
        ensures files { machine_of machine.new ≡ machine_of machine.old }
    {
        let stream = self.connections.remove(&conn);
        if stream.is_some() {
            self.gateway.on_hangup(conn, machine);
        }
        stream
    }

    // Whether a number is that of a connection that is open, or of one that hung up while its proposal is pending.
    fn is_taken(&self, conn: u64) -> bool
        ensures there { (databases : List Database) → AreValidOver self.now databases → result ≡ ((clients_of self.now databases).sessions.session conn).there }
        ensures closed { result ≡ false → get nat_cmp self.now.connections conn ≡ None }
    {
        self.connections.contains_key(&conn) || self.gateway.busy(conn)
    }

    // Gives a connection that isn't open a session and a stream; false if it gets no session. Then, and at an `Err`,
    // nothing has changed.
    fn join(&mut self, conn: u64) -> Result<bool, AllocError>
        requires { get nat_cmp self.old.connections conn ≡ None }
        ensures told { IfOk result (λ new. (databases : List Database) → new ≡ events.connects (clients_of self.old databases).sessions conn) }
        ensures joined { IfOk result (λ new. (databases : List Database) → clients_of self.new databases ≡
            (if new then joined_as (clients_of self.old databases) conn ConnectResult.Joined else clients_of self.old databases)) }
        ensures pins { pins_of self.new.gateway ≡ pins_of self.old.gateway }
        ensures agrees { (known : List Known) (databases : List Database) → Agrees known self.old databases → Agrees known self.new databases }
        ensures failed { OnErr result ((databases : List Database) → clients_of self.new databases ≡ clients_of self.old databases) }
    {
        self.connections.insert(conn, Connection::new(self.alloc))?;
        match self.gateway.connect(conn) {
            Ok(true) => Ok(true),
            Ok(false) => {
                self.connections.remove(&conn);
                Ok(false)
            }
            Err(error) => {
                self.connections.remove(&conn);
                Err(error)
            }
        }
    }

    // Why a connection is to be closed, if it is open and is to be.
    fn reason(&self, conn: u64) -> Option<CloseReason>
        ensures { (databases : List Database) → result ≡ closing ((clients_of self.now databases).streams conn) }
    {
        match self.connections.get(&conn) {
            Some(stream) => stream.close_reason(),
            None => None,
        }
    }

    // Takes the first message that waits on a connection, if it is open and its session isn't busy.
    fn take_from(&mut self, conn: u64) -> Option<Message>
        ensures took { (databases : List Database) (turns : List ℕ) →
            TookFrom (clients_of self.old databases) (clients_of self.new databases) conn turns result }
        ensures gateway { self.new.gateway ≡ self.old.gateway }
        ensures turns { self.new.turns.items ≡ self.old.turns.items }
    {
        if self.gateway.busy(conn) {
            return None;
        }
        self.connections.get_mut(&conn)?.next()
    }

    // Takes the message whose turn it is, with its connection.
    fn take_next(&mut self) -> Option<(u64, Message)>
        ensures took { (databases : List Database) → TookNext (clients_of self.old databases) (clients_of self.new databases) result }
        ensures gateway { self.new.gateway ≡ self.old.gateway }
    {
        while let Some(&conn) = self.turns.front() {
            if let Some(message) = self.take_from(conn) {
                return Some((conn, message));
            }
            self.turns.pop_front();
        }
        None
    }
}
