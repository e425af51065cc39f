//! A node's turn in which the message of a client or of a peer is handled, and connections that come and go.

ghost use Rattle.std.specs.Prelude.{◌≡◌, ◌≢◌, ◌++◌, ◌∷◌, ℕ, List, Option, [], map, is_some, false, None, Err, OnOk, IfOk, IfErr, true};
ghost use Rattle.database_state.specs.Machines.{IsMachine};
ghost use Rattle.session_spec.specs.Machine.{machine_of};
ghost use Rattle.raft_membership.specs.Members.{read_setup};
ghost use Rattle.raft_spec.specs.Node.{Server as ServerValue};
ghost use Rattle.raft_safety.specs.Members.{Setup};
ghost use Rattle.client_sessions.specs.Clients.{hung_up, joining, next_offer};
ghost use Rattle.node_core.specs.declared.event.Event.TheVariants as happens;
ghost use Rattle.node_core.specs.Account.{moment_of};
ghost use Rattle.node_core.specs.Conns.{ClosesConn, ConnsBegin, StreamsAfterMessage, StreamsClose, KeepsConns, link_for};
ghost use Rattle.node_core.specs.Core.{clients_at, core_of, giving, hanging_up, hearing, joined_by};
ghost use Rattle.node_core.specs.Exact.{OnHeard};
ghost use Rattle.node_core.specs.ExactParts.{Answered, ExactClose, ExactOffer, ExactPerform};
ghost use Rattle.node_core.specs.Carrying.{MovesLines, first_waiting};
ghost use Rattle.node_core.specs.Performing.{ClosesIfEnded, MayConnect, MayClose, ReceivesBytes, Performed, SaysNothing};
ghost use Rattle.sql_engine.specs.Meanings.{Stays};
ghost use Rattle.client_sessions.specs.Seen.{Agrees};
ghost use Rattle.node_core.specs.declared.fault.NodeFault.TheVariants as fault;
ghost use Rattle.node_core.specs.Faults.{StepCause};
ghost use Rattle.node_core.specs.Stepping.{StaysAgreed, StaysStored};
ghost use Rattle.node_core.specs.Finding.{LeavesBy, StopsLetter};
ghost use Rattle.node_core.specs.Taking.{TookLetter, TurnsInTerm};
ghost use Rattle.node_core.specs.Values.{clients_in};
ghost use Rattle.node_core.specs.Whole.{IsGoing, IsLed, IsOwnDue};

use crate::fault::NodeFault;
use crate::links::Letter;
use crate::running::Running;
use client_connection::CloseReason;
use client_sessions::{Act, ConnectResult};
use disk_model::Disk;
use dq_base::Items;
use node_spec::{clients_turn, stretches_join};
use raft_core::RaftEvent;
use sql_engine::Engine;
use wire_words::WireBytes;

impl Running {
    /// Gives Raft an event, after those that are due.
    pub(crate) fn give(&mut self, event: RaftEvent) -> Result<(), NodeFault>
        requires due { IsOwnDue event }
        requires going { IsGoing self.old }
        ensures going { OnOk result (IsGoing self.new) }
        ensures applied { self.new.applied ≡ self.old.applied }
        ensures replica { self.new.replica ≡ self.old.replica }
        ensures wants { IfErr result (λ f. f ≡ fault.NoMemory) }
        ensures agrees { StaysAgreed self.old self.new }
        ensures due { OnOk result (self.new.due.items ≡ self.old.due.items ++ event ∷ []) }
        ensures is { self.new ≡ record self.old { due = self.new.due } }
        ensures exact { OnOk result (core_of self.new ≡ giving event (core_of self.old)) }
    {
        self.due.push_back(event)?;
        Ok(())
    }

    /// A client connects; it is closed again where no session is left for it. If the number is taken nothing happens.
    #[tactic(auto, using(crate::proofs::Waiting::came_turns))]
    pub(crate) fn connect(&mut self, conn: u64) -> Result<(), NodeFault>
        requires going { IsGoing self.old }
        ensures conns { OnOk result (ConnsBegin (happens.Connect conn) self.old self.new) }
        ensures going { OnOk result (IsGoing self.new) }
        ensures office { self.new.office ≡ self.old.office }
        ensures replica { self.new.replica ≡ self.old.replica }
        ensures index { self.new.applied.index ≡ self.old.applied.index }
        ensures wants { IfErr result (λ f. f ≡ fault.NoMemory) }
        ensures agrees { StaysAgreed self.old self.new }
        ensures goes { OnOk result (MayConnect self.old self.new conn) }
        ensures quiet { OnOk result (SaysNothing self.old self.new) }
        ensures exact { OnOk result ((core_of self.old).links ≡ [] →
            core_of self.new ≡ joined_by (joining (core_of self.old).sessions conn) conn (core_of self.old)) }
    {
        self.databases_stand();
        if self.links.has(conn) {
            return Ok(());
        }
        match self.clients.connect(conn)? {
            ConnectResult::Joined | ConnectResult::Taken => {}
            ConnectResult::Full => self.outs.closed.push((conn, CloseReason::Limit))?,
        }
        Ok(())
    }

    /// Bytes come on a connection of a client or of a peer.
    #[tactic(auto, using(crate::proofs::Waiting::heard_turns))]
    pub(crate) fn receive(&mut self, conn: u64, bytes: &[u8]) -> Result<(), NodeFault>
        requires going { IsGoing self.old }
        ensures conns { OnOk result (ConnsBegin (happens.Bytes conn bytes.now) self.old self.new) }
        ensures going { OnOk result (IsGoing self.new) }
        ensures office { self.new.office ≡ self.old.office }
        ensures replica { self.new.replica ≡ self.old.replica }
        ensures index { self.new.applied.index ≡ self.old.applied.index }
        ensures wants { IfErr result (λ f. f ≡ fault.NoMemory) }
        ensures agrees { StaysAgreed self.old self.new }
        ensures goes { OnOk result (ReceivesBytes self.old self.new conn bytes.now) }
        ensures quiet { SaysNothing self.old self.new }
        ensures exact { OnOk result ((core_of self.old).links ≡ [] → core_of self.new ≡ hearing conn bytes.now (core_of self.old)) }
    {
        self.heard = Some(conn);
        self.databases_stand();
        if self.clients.is_open(conn) {
            self.clients.receive(conn, bytes)?;
            return Ok(());
        }
        self.links.receive(conn, bytes)?;
        Ok(())
    }

    /// A connection is gone.
    pub(crate) fn hang_up(&mut self, conn: u64)
        requires going { IsGoing self.old }
        ensures conns { ConnsBegin (happens.Hangup conn) self.old self.new }
        ensures going { IsGoing self.new }
        ensures office { self.new.office ≡ self.old.office }
        ensures replica { self.new.replica ≡ self.old.replica }
        ensures index { self.new.applied.index ≡ self.old.applied.index }
        ensures agrees { StaysAgreed self.old self.new }
        ensures goes { MayClose self.old self.new conn }
        ensures quiet { SaysNothing self.old self.new }
        ensures exact { (core_of self.old).links ≡ [] → core_of self.new ≡ hanging_up conn (core_of self.old) }
    {
        self.links.leave(conn);
        self.clients.hang_up(conn, &mut self.applied.machine);
        self.databases_stand();
    }

    /// Takes the next message of a peer, if the node has peer connections: it happens at Raft, or its connection is closed. False where
    /// none waits.
    pub(crate) fn take_letter<D: Disk, E: Engine>(
        &mut self,
        disk: &mut D,
        engine: &mut E,
    ) -> Result<bool, NodeFault>
        requires going { IsGoing self.old }
        requires led { IsLed self.old }
        requires idle { self.old.due.items ≡ [] }
        requires agrees { Agrees (E.known engine.old) self.old.clients self.old.applied.machine }
        ensures conns { OnOk result (StreamsClose self.old self.new) }
        ensures going { OnOk result (IsGoing self.new) }
        ensures led { OnOk result (IsLed self.new) }
        ensures stored { StaysStored D.tells (D.states disk.old) (D.states disk.new) self.old.replica self.new.replica result }
        ensures cause { StepCause (D.faults disk.old) (D.faults disk.new) result }
        ensures agrees { OnOk result (Agrees (E.known engine.new) self.new.clients self.new.applied.machine) }
        ensures engine { Stays (E.kind engine.old) (E.kind engine.new) (E.refused_openings engine.old) (E.refused_openings engine.new) }
        ensures none { IfOk result (λ more. more ≡ false → self.new ≡ record self.old { links = self.new.links }) }
        ensures waits { IfOk result (λ more. more ≡ false → self.new.has_links ≡ true → first_waiting self.new.links.all.items ≡ None) }
        ensures letter { (opening : List ServerValue) →
            OnOk result (TookLetter (E.meaning (E.kind engine.old)) (E.kind engine.old) (read_setup opening) self.old self.new
            (E.told engine.old) (E.told engine.new)) }
        ensures stops { (opening : List ServerValue) → LeavesBy D.tells (D.states disk.old) (D.states disk.new) self.old.replica result
            (StopsLetter (E.meaning (E.kind engine.old)) (E.kind engine.old) (read_setup opening) self.old) }
        ensures runs { result ≢ Err fault.Down }
        ensures unlinked { self.old.links.all.items ≡ [] → IfOk result (λ more. (more ≡ false) × (self.new.links.all.items ≡ [])) }
        ensures untold { IfOk result (λ more. more ≡ false → E.told engine.new ≡ E.told engine.old) }
    {
        if !self.has_links {
            return Ok(false);
        }
        let me = self.id();
        match self.links.next(me)? {
            Some(Letter::Message(message)) => {
                self.take_raft(RaftEvent::Message(message), disk, engine)?;
                Ok(true)
            }
            Some(Letter::Wrong(conn)) => {
                self.links.leave(conn);
                self.outs.closed.push((conn, CloseReason::Peer))?;
                Ok(true)
            }
            None => Ok(false),
        }
    }

    /// Takes the message of a client whose turn it is. False where none is left.
    #[tactic(auto, using(crate::proofs::Waiting::took_turns, crate::proofs::Waiting::none_turn))]
    pub(crate) fn take_message<E: Engine>(&mut self, engine: &mut E) -> Result<bool, NodeFault>
        requires going { IsGoing self.old }
        requires led { IsLed self.old }
        requires idle { self.old.due.items ≡ [] }
        requires agrees { Agrees (E.known engine.old) self.old.clients self.old.applied.machine }
        ensures conns { OnOk result (StreamsClose self.old self.new) }
        ensures going { OnOk result (IsGoing self.new) }
        ensures led { OnOk result (IsLed self.new) }
        ensures replica { self.new.replica ≡ self.old.replica }
        ensures index { self.new.applied.index ≡ self.old.applied.index }
        ensures wants { IfErr result (λ f. f ≡ fault.NoMemory) }
        ensures agrees { OnOk result (Agrees (E.known engine.new) self.new.clients self.new.applied.machine) }
        ensures engine { Stays (E.kind engine.old) (E.kind engine.new) (E.refused_openings engine.old) (E.refused_openings engine.new) }
        ensures none { IfOk result (λ more. more ≡ false → self.new.due.items ≡ self.old.due.items) }
        ensures turns { IfOk result (λ more. more ≡ false → (clients_in self.new).turns ≡ []) }
        ensures goes { (setup : Setup) (bytes : List ℕ) (joins : Option ℕ) →
            OnOk result (TurnsInTerm (E.meaning (E.kind engine.old)) (E.kind engine.old) setup bytes joins self.old self.new
            (E.told engine.old) (E.told engine.new)) }
        ensures sessions { IfOk result (λ more. more ≡ false → (clients_in self.new).sessions ≡ (clients_in self.old).sessions) }
        ensures offers { IfOk result (λ more. more ≡ is_some (next_offer (clients_at (core_of self.old)))) }
        // Whose turn it is, and what came of the message is described by the answers of the engine.
        ensures exact { OnOk result (Answered (E.told engine.old) (E.told engine.new)
            (ExactOffer (E.meaning (E.kind engine.old)) (E.kind engine.old) (next_offer (clients_at (core_of self.old))) (core_of self.old) (core_of self.new))) }
        ensures moves { OnOk result (MovesLines self.old self.new []) }
    {
        clients_turn::<E>();
        stretches_join::<E>();
        let machine = &mut self.applied.machine;
        let act = self.clients.next(&self.view, machine, engine)?;
        self.databases_stand();
        match act {
            Some(act) => {
                self.perform(act)?;
                Ok(true)
            }
            None => Ok(false),
        }
    }

    /// The node's id.
    fn id(&self) -> u64
        ensures { result ≡ self.now.view.id }
    {
        self.view.id
    }

    /// A law: the databases are those of a state machine.
    pub(crate) fn databases_stand(&self)
        ensures { IsMachine self.now.applied.machine }
    {
        let _databases = self.applied.machine.databases();
    }

    /// Does what came of a message; what it gives Raft is due then.
    pub(crate) fn perform(&mut self, act: Act) -> Result<(), NodeFault>
        requires going { IsGoing self.old }
        ensures conns { OnOk result (StreamsAfterMessage act self.old self.new) }
        ensures going { OnOk result (IsGoing self.new) }
        ensures replica { self.new.replica ≡ self.old.replica }
        ensures index { self.new.applied.index ≡ self.old.applied.index }
        ensures wants { IfErr result (λ f. f ≡ fault.NoMemory) }
        ensures agrees { StaysAgreed self.old self.new }
        ensures performed { OnOk result (Performed self.old self.new act) }
        ensures exact { OnOk result (ExactPerform act (core_of self.old) (core_of self.new)) }
    {
        self.databases_stand();
        match act {
            Act::Reply { conn, messages } => self.reply(conn, messages)?,
            Act::Propose { entries, .. } => self.give(RaftEvent::Propose(entries))?,
            Act::Lend { conn, job } => self.lend(conn, job)?,
            Act::Transfer { conn, to, reply } => {
                self.outs.replies.push((conn, reply))?;
                self.give(RaftEvent::Transfer(to))?;
            }
            Act::Peer { conn, id, reply } => {
                self.outs.replies.push((conn, reply))?;
                self.hand_over(conn, id)?;
            }
        }
        Ok(())
    }

    fn reply(&mut self, conn: u64, messages: Items<WireBytes>) -> Result<(), NodeFault>
        requires going { IsGoing self.old }
        ensures conns { OnOk result (KeepsConns self.old self.new) }
        ensures going { OnOk result (IsGoing self.new) }
        ensures replica { self.new.replica ≡ self.old.replica }
        ensures index { self.new.applied.index ≡ self.old.applied.index }
        ensures wants { IfErr result (λ f. f ≡ fault.NoMemory) }
        ensures agrees { StaysAgreed self.old self.new }
        ensures said { OnOk result (self.new.outs.replies.items ≡ self.old.outs.replies.items ++ map (λ (m : List ℕ). (conn, m)) messages) }
        ensures unread { self.new.outs.reads.items ≡ self.old.outs.reads.items }
        ensures is { self.new ≡ record self.old { outs = self.new.outs } }
        ensures exact { OnOk result (core_of self.new ≡ record (core_of self.old) {
          replies = (core_of self.old).replies ++ map (λ (m : List ℕ). (conn, m)) messages;
        }) }
    {
        self.outs.reply(conn, messages)?;
        Ok(())
    }

    /// A connection carries the messages of a peer from now on: it is no client's any more.
    #[tactic(auto, using(crate::proofs::Waiting::left_turns))]
    fn hand_over(&mut self, conn: u64, peer: u64) -> Result<(), NodeFault>
        requires going { IsGoing self.old }
        ensures going { OnOk result (IsGoing self.new) }
        ensures replica { self.new.replica ≡ self.old.replica }
        ensures index { self.new.applied.index ≡ self.old.applied.index }
        ensures wants { IfErr result (λ f. f ≡ fault.NoMemory) }
        ensures agrees { StaysAgreed self.old self.new }
        ensures gone { OnOk result (clients_in self.new ≡ hung_up (clients_in self.old) conn) }
        ensures files { machine_of self.new.applied.machine ≡ machine_of self.old.applied.machine }
        ensures machine { OnOk result (IsMachine self.new.applied.machine) }
        ensures joined { OnOk result (self.new.links.all.items ≡ self.old.links.all.items ++ link_for conn peer ((clients_in self.old).streams conn)) }
        ensures is { self.new ≡ record self.old {
          clients = self.new.clients;
          applied = record self.old.applied { machine = self.new.applied.machine };
          links = self.new.links;
        } }
    {
        if let Some(stream) = self.clients.hand_over(conn, &mut self.applied.machine) {
            self.links.join(conn, peer, stream)?;
        }
        self.databases_stand();
        Ok(())
    }

    /// Closes the connection whose bytes came, where its stream has ended. False where that was looked at before.
    pub(crate) fn close_heard(&mut self) -> Result<bool, NodeFault>
        requires going { IsGoing self.old }
        ensures conns { OnOk result (StreamsClose self.old self.new) }
        ensures going { OnOk result (IsGoing self.new) }
        ensures office { self.new.office ≡ self.old.office }
        ensures replica { self.new.replica ≡ self.old.replica }
        ensures index { self.new.applied.index ≡ self.old.applied.index }
        ensures wants { IfErr result (λ f. f ≡ fault.NoMemory) }
        ensures agrees { StaysAgreed self.old self.new }
        ensures none { IfOk result (λ more. more ≡ false → (self.new ≡ self.old) × (self.new.heard ≡ None)) }
        ensures moves { OnOk result (MovesLines self.old self.new []) }
        ensures goes { OnOk result (ClosesIfEnded self.old self.new) }
        ensures quiet { SaysNothing self.old self.new }
        ensures exact { IfOk result (λ more. (core_of self.old).links ≡ [] → OnHeard (core_of self.old).heard (core_of self.old) (core_of self.new) more) }
    {
        self.databases_stand();
        let Some(conn) = self.heard else {
            return Ok(false);
        };
        self.heard = None;
        let reason = self.closing(conn);
        self.outs.close(conn, reason)?;
        Ok(true)
    }

    /// Takes a connection away whose stream has ended, and answers why.
    #[tactic(auto, using(crate::proofs::Waiting::closed_turns))]
    fn closing(&mut self, conn: u64) -> Option<CloseReason>
        requires going { IsGoing self.old }
        ensures conns { ClosesConn self.old self.new conn result }
        ensures going { IsGoing self.new }
        ensures office { self.new.office ≡ self.old.office }
        ensures replica { self.new.replica ≡ self.old.replica }
        ensures index { self.new.applied.index ≡ self.old.applied.index }
        ensures heard { self.new.heard ≡ self.old.heard }
        ensures agrees { StaysAgreed self.old self.new }
        ensures goes { MayClose self.old self.new conn }
        ensures quiet { SaysNothing self.old self.new }
        ensures exact { (core_of self.old).links ≡ [] → ExactClose conn result (core_of self.old) (core_of self.new) }
    {
        self.databases_stand();
        if !self.links.has(conn) {
            let reason = self.clients.close(conn, &mut self.applied.machine);
            self.databases_stand();
            return reason;
        }
        let Some(reason) = self.links.reason(conn) else {
            return None;
        };
        self.links.leave(conn);
        Some(reason)
    }
}
