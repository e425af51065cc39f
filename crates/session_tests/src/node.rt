//! A node over cells, alone in its cluster, that is told when its entries are applied and when it loses its leadership.

ghost use Rattle.std.specs.Prelude.{[]};
ghost use Rattle.session_gateway.specs.Calls.{HasShortTerm, IsConfigured};
ghost use Rattle.client_sessions.specs.Seen.{Agrees, AreValidOver};

use crate::engine::LifeEngine;
use crate::messages::{VERSION, bulk, dumps, executes, opens, queries};
use client_sessions::{Act, Clients, ConnectResult};
use database_state::Machine;
use dq_base::Items;
use log_commands::{Command, read_command};
use raft_messages::Entry;
use session_gateway::{StepLimits, View};
use sql_engine::CellEngine;
use std::alloc::{AllocError, Global};
use std::collections::VecDeque;
use wire_words::WireBytes;

/// Something that happens at the node.
#[derive(Clone, Copy)]
pub(crate) enum Step {
    /// A client connects with a number, and tells its version.
    Connect(u64),
    /// This many clients do so, with the numbers from 101 on.
    Crowd(u64),
    /// A client opens a database, and all that waits has its turn.
    Open(u64, &'static str),
    /// A client opens a database with barrier reads, and all that waits has its turn.
    OpenFresh(u64, &'static str),
    /// A client asks for the files of a database, and all that waits has its turn.
    Dump(u64, &'static str),
    /// A client sends two messages of 16 MiB, of no type, and no message has its turn.
    Flood(u64),
    /// A connection is closed that is to be, and its client is told the number of the reason.
    Close(u64),
    /// A client has a text run, and all that waits has its turn.
    Exec(u64, &'static str),
    /// A client asks for the rows of a text, and all that waits has its turn.
    Query(u64, &'static str),
    /// A client hangs up.
    HangUp(u64),
    /// What was proposed is applied, and all that waits has its turn.
    Apply,
    /// Leadership is lost, what was proposed is gone, and all that waits has its turn.
    Lose,
    /// It leads the next term, with its first entry applied.
    Lead,
    /// This is the index of the last entry that is applied.
    Reach(u64),
    /// From now on the engine opens no files.
    Spoil,
}

/// The node: what it is, what was proposed and isn't applied, and what it said to which connection. A client that gets no
/// session is told `full` or `taken` here.
#[derive(Drop)]
pub(crate) struct Node {
    alloc: Global,
    clients: Clients,
    machine: Machine,
    engine: LifeEngine,
    serving: bool,
    term: u32,
    applied: u64,
    proposed: VecDeque<Entry>,
    said: Vec<(u64, WireBytes)>,
}

/// Adds messages to a connection.
fn say_all(
    said: &mut Vec<(u64, WireBytes)>,
    conn: u64,
    messages: Items<WireBytes>,
) -> Result<(), AllocError> {
    for message in messages.into_vec() {
        said.push((conn, message))?;
    }
    Ok(())
}

/// Adds what an act tells, and the entries that it proposes. Nothing is lent, as there are no readers.
fn follow(
    act: Act,
    proposed: &mut VecDeque<Entry>,
    said: &mut Vec<(u64, WireBytes)>,
) -> Result<(), AllocError> {
    match act {
        Act::Reply { conn, messages } => say_all(said, conn, messages),
        Act::Propose { entries, .. } => {
            for entry in entries.into_vec() {
                proposed.push_back(entry)?;
            }
            Ok(())
        }
        Act::Lend { .. } => Ok(()),
        Act::Transfer { conn, reply, .. } | Act::Peer { conn, reply, .. } => {
            said.push((conn, reply))?;
            Ok(())
        }
    }
}

/// What a client that gets no session is told here.
fn refusal(joining: ConnectResult) -> Option<&'static [u8]> {
    match joining {
        ConnectResult::Joined => None,
        ConnectResult::Full => Some(b"full"),
        ConnectResult::Taken => Some(b"taken"),
    }
}

/// Does what the entry of a command says.
#[tactic(auto, using(log_commands::proofs::InOtherWords::fit_low))]
fn act(clients: &Clients, machine: &mut Machine, command: &Command) -> Result<(), AllocError>
    requires stand { AreValidOver clients.now machine.old }
    requires agrees { Agrees [] clients.now machine.old }
    ensures stand { AreValidOver clients.now machine.new }
    ensures agrees { Agrees [] clients.now machine.new }
{
    if !command.numbers_fit() {
        return Ok(());
    }
    let _databases = machine.databases();
    machine.act(command)?;
    let _databases = machine.databases();
    Ok(())
}

impl Node {
    /// A node that serves as the leader of term 1, and has applied its first entry of it.
    pub(crate) fn new(alloc: Global) -> Node
        ensures stand { AreValidOver result.clients result.machine }
        ensures agrees { Agrees [] result.clients result.machine }
    {
        Node {
            alloc,
            clients: Clients::new(alloc),
            machine: Machine::new(alloc),
            engine: LifeEngine::new(CellEngine::new(alloc)),
            serving: true,
            term: 1,
            applied: 1,
            proposed: VecDeque::new(alloc),
            said: Vec::new(alloc),
        }
    }

    /// What it is for its sessions. It names no servers, not even itself.
    fn view(&self) -> View
        ensures term { HasShortTerm result }
        ensures configured { IsConfigured result }
    {
        let leader = if self.serving { Some(1) } else { None };
        View {
            id: 1,
            leader,
            serving: self.serving,
            term: u64::from(self.term),
            last: self.applied.saturating_add(self.proposed.len() as u64),
            servers: Items::new(Vec::new(self.alloc)),
            links: false,
            readers: false,
            even: Items::new(Vec::new(self.alloc)),
            near: Items::new(Vec::new(self.alloc)),
            steps: StepLimits::none(),
        }
    }

    /// The message whose turn it is has it; false if none is left.
    fn serve_one(&mut self) -> Result<bool, AllocError>
        requires stand { AreValidOver self.old.clients self.old.machine }
        requires agrees { Agrees [] self.old.clients self.old.machine }
        ensures stand { AreValidOver self.new.clients self.new.machine }
        ensures agrees { Agrees [] self.new.clients self.new.machine }
    {
        let view = self.view();
        match self
            .clients
            .next(&view, &mut self.machine, &mut self.engine)?
        {
            Some(act) => {
                follow(act, &mut self.proposed, &mut self.said)?;
                Ok(true)
            }
            None => Ok(false),
        }
    }

    /// All that waits has its turn, a hundred messages at most.
    fn serve(&mut self) -> Result<(), AllocError>
        requires stand { AreValidOver self.old.clients self.old.machine }
        requires agrees { Agrees [] self.old.clients self.old.machine }
        ensures stand { AreValidOver self.new.clients self.new.machine }
        ensures agrees { Agrees [] self.new.clients self.new.machine }
    {
        for _ in 0..100 {
            if !self.serve_one()? {
                return Ok(());
            }
        }
        Ok(())
    }

    /// Bytes come on a connection.
    fn hear(&mut self, conn: u64, bytes: &[u8]) -> Result<(), AllocError>
        requires stand { AreValidOver self.old.clients self.old.machine }
        requires agrees { Agrees [] self.old.clients self.old.machine }
        ensures stand { AreValidOver self.new.clients self.new.machine }
        ensures agrees { Agrees [] self.new.clients self.new.machine }
    {
        self.clients.receive(conn, bytes)?;
        self.serve()
    }

    /// A client connects.
    fn connect(&mut self, conn: u64) -> Result<(), AllocError>
        requires stand { AreValidOver self.old.clients self.old.machine }
        requires agrees { Agrees [] self.old.clients self.old.machine }
        ensures stand { AreValidOver self.new.clients self.new.machine }
        ensures agrees { Agrees [] self.new.clients self.new.machine }
    {
        let joining = self.clients.connect(conn)?;
        match refusal(joining) {
            None => self.hear(conn, VERSION),
            Some(text) => {
                let mut bytes = Vec::new(self.alloc);
                bytes.extend_from_slice(text)?;
                self.said.push((conn, WireBytes::new(bytes)))?;
                Ok(())
            }
        }
    }

    /// This many clients connect, with the numbers from 101 on.
    fn crowd(&mut self, count: u64) -> Result<(), AllocError>
        requires stand { AreValidOver self.old.clients self.old.machine }
        requires agrees { Agrees [] self.old.clients self.old.machine }
        ensures stand { AreValidOver self.new.clients self.new.machine }
        ensures agrees { Agrees [] self.new.clients self.new.machine }
    {
        for number in 0..count {
            self.connect(number.saturating_add(101))?;
        }
        Ok(())
    }

    /// A client sends a message, if there was memory for it.
    fn ask(&mut self, conn: u64, message: Result<Vec<u8>, AllocError>) -> Result<(), AllocError>
        requires stand { AreValidOver self.old.clients self.old.machine }
        requires agrees { Agrees [] self.old.clients self.old.machine }
        ensures stand { AreValidOver self.new.clients self.new.machine }
        ensures agrees { Agrees [] self.new.clients self.new.machine }
    {
        let bytes = message?;
        self.hear(conn, bytes.as_slice())
    }

    /// A client sends two messages of 16 MiB, and no message has its turn.
    fn flood(&mut self, conn: u64) -> Result<(), AllocError>
        requires stand { AreValidOver self.old.clients self.old.machine }
        requires agrees { Agrees [] self.old.clients self.old.machine }
        ensures stand { AreValidOver self.new.clients self.new.machine }
        ensures agrees { Agrees [] self.new.clients self.new.machine }
    {
        let message = bulk(self.alloc)?;
        self.clients.receive(conn, message.as_slice())?;
        self.clients.receive(conn, message.as_slice())
    }

    /// A connection is closed that is to be.
    fn close(&mut self, conn: u64) -> Result<(), AllocError>
        requires stand { AreValidOver self.old.clients self.old.machine }
        requires agrees { Agrees [] self.old.clients self.old.machine }
        ensures stand { AreValidOver self.new.clients self.new.machine }
        ensures agrees { Agrees [] self.new.clients self.new.machine }
    {
        let Some(reason) = self.clients.close(conn, &mut self.machine) else {
            return Ok(());
        };
        let number = (reason.number() % 256) as u8;
        let bytes = vec![in self.alloc; number]?;
        self.said.push((conn, WireBytes::new(bytes)))?;
        Ok(())
    }

    /// The query whose barrier is applied is run, if there is one.
    fn run_due(&mut self) -> Result<(), AllocError>
        requires stand { AreValidOver self.old.clients self.old.machine }
        requires agrees { Agrees [] self.old.clients self.old.machine }
        ensures stand { AreValidOver self.new.clients self.new.machine }
        ensures agrees { Agrees [] self.new.clients self.new.machine }
    {
        let Some(conn) = self.clients.next_due() else {
            return Ok(());
        };
        let view = self.view();
        match self
            .clients
            .on_later(conn, &view, &mut self.machine, &mut self.engine)?
        {
            Some(act) => follow(act, &mut self.proposed, &mut self.said),
            None => Ok(()),
        }
    }

    /// The next entry is applied.
    fn apply_one(&mut self, entry: &Entry) -> Result<(), AllocError>
        requires stand { AreValidOver self.old.clients self.old.machine }
        requires agrees { Agrees [] self.old.clients self.old.machine }
        ensures stand { AreValidOver self.new.clients self.new.machine }
        ensures agrees { Agrees [] self.new.clients self.new.machine }
    {
        if let Ok(command) = read_command(self.alloc, entry.bytes.as_slice()) {
            act(&self.clients, &mut self.machine, &command)?;
        }
        self.applied = self.applied.saturating_add(1);
        let mut told = self.clients.on_applied(self.applied, &mut self.machine)?;
        self.said.append(&mut told)?;
        self.run_due()
    }

    /// What was proposed is applied.
    fn apply(&mut self) -> Result<(), AllocError>
        requires stand { AreValidOver self.old.clients self.old.machine }
        requires agrees { Agrees [] self.old.clients self.old.machine }
        ensures stand { AreValidOver self.new.clients self.new.machine }
        ensures agrees { Agrees [] self.new.clients self.new.machine }
    {
        for _ in 0..self.proposed.len() {
            if let Some(entry) = self.proposed.pop_front() {
                self.apply_one(&entry)?;
            }
        }
        self.serve()
    }

    /// Leadership is lost, and what was proposed is gone.
    fn lose(&mut self) -> Result<(), AllocError>
        requires stand { AreValidOver self.old.clients self.old.machine }
        requires agrees { Agrees [] self.old.clients self.old.machine }
        ensures stand { AreValidOver self.new.clients self.new.machine }
        ensures agrees { Agrees [] self.new.clients self.new.machine }
    {
        self.serving = false;
        self.proposed.clear();
        let mut told = self.clients.on_lost(&mut self.machine)?;
        self.said.append(&mut told)?;
        self.serve()
    }

    /// It leads the next term, with its first entry applied.
    fn lead(&mut self)
        requires stand { AreValidOver self.old.clients self.old.machine }
        requires agrees { Agrees [] self.old.clients self.old.machine }
        ensures stand { AreValidOver self.new.clients self.new.machine }
        ensures agrees { Agrees [] self.new.clients self.new.machine }
    {
        self.serving = true;
        self.term = self.term.saturating_add(1);
        self.applied = self.applied.saturating_add(1);
    }

    /// Something happens.
    pub(crate) fn take(&mut self, step: Step) -> Result<(), AllocError>
        requires stand { AreValidOver self.old.clients self.old.machine }
        requires agrees { Agrees [] self.old.clients self.old.machine }
        ensures stand { AreValidOver self.new.clients self.new.machine }
        ensures agrees { Agrees [] self.new.clients self.new.machine }
    {
        match step {
            Step::Connect(conn) => self.connect(conn),
            Step::Crowd(count) => self.crowd(count),
            Step::Open(conn, name) => self.ask(conn, opens(self.alloc, name, false)),
            Step::OpenFresh(conn, name) => self.ask(conn, opens(self.alloc, name, true)),
            Step::Dump(conn, name) => self.ask(conn, dumps(self.alloc, name)),
            Step::Flood(conn) => self.flood(conn),
            Step::Close(conn) => self.close(conn),
            Step::Exec(conn, sql) => self.ask(conn, executes(self.alloc, sql)),
            Step::Query(conn, sql) => self.ask(conn, queries(self.alloc, sql)),
            Step::HangUp(conn) => {
                self.clients.hang_up(conn, &mut self.machine);
                Ok(())
            }
            Step::Apply => self.apply(),
            Step::Lose => self.lose(),
            Step::Lead => {
                self.lead();
                Ok(())
            }
            Step::Reach(index) => {
                self.applied = index;
                Ok(())
            }
            Step::Spoil => {
                self.engine.close();
                Ok(())
            }
        }
    }

    /// Some things happen, one after another.
    pub(crate) fn take_all(&mut self, steps: &[Step]) -> Result<(), AllocError>
        requires stand { AreValidOver self.old.clients self.old.machine }
        requires agrees { Agrees [] self.old.clients self.old.machine }
        ensures stand { AreValidOver self.new.clients self.new.machine }
        ensures agrees { Agrees [] self.new.clients self.new.machine }
    {
        for step in steps {
            self.take(*step)?;
        }
        Ok(())
    }

    /// Forgets what it said.
    pub(crate) fn forget(&mut self)
        requires stand { AreValidOver self.old.clients self.old.machine }
        requires agrees { Agrees [] self.old.clients self.old.machine }
        ensures stand { AreValidOver self.new.clients self.new.machine }
        ensures agrees { Agrees [] self.new.clients self.new.machine }
    {
        self.said.clear();
    }

    /// Whether it said just this.
    pub(crate) fn has_said(&self, wanted: &[(u64, &[u8])]) -> bool {
        if self.said.len() != wanted.len() {
            return false;
        }
        self.said.iter().zip(wanted).all(|(said, wanted)| said.0 == wanted.0
            && said.1.as_slice() == wanted.1)
    }

    /// How many images of the database `d` are pinned: as many as no more can be, of 64.
    pub(crate) fn pinned(&mut self) -> u64 {
        let mut pinned: u64 = 64;
        for _ in 0..64 {
            if self.machine.pin("d").is_ok() {
                pinned = pinned.saturating_sub(1);
            }
        }
        pinned
    }
}
