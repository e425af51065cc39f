//! One step of a node.

ghost use Rattle.raft_membership.specs.Members.{read_setup};
ghost use Rattle.raft_spec.specs.Node.{Server as ServerValue};
ghost use Rattle.node_spec.specs.Accounts.{MayEnd};
ghost use Rattle.node_core.specs.declared.event.Event.{Event as EventValue};
ghost use Rattle.node_core.specs.declared.running.Running.{Running as RunningValue};
ghost use Rattle.node_core.specs.Account.{AtRest, SoFar, Stopped, Happens, AccountsForStep, AccountsForStop, Underway, moment_of};
ghost use Rattle.node_core.specs.Carrying.{first_waiting};
ghost use Rattle.node_core.specs.Conns.{ConnsBegin, StreamsOfStep, StreamsClose, KeepsConns};
ghost use Rattle.node_core.specs.Core.{core_of};
ghost use Rattle.node_core.specs.Exact.{ExactAttends, ExactBegin, ExactTurns, StepsExactly, UnlinkedTurn};
ghost use Rattle.node_core.specs.ExactParts.{Answered, ExactCompactionIfDue};
ghost use Rattle.node_core.specs.Taking.{KeepsSnapshot};
ghost use Rattle.std.specs.Prelude.{◌≡◌, ◌≢◌, ℕ, List, Option, [], true, false, Err, IfOk, OnOk, IfErr};
ghost use Rattle.sql_engine.specs.Meanings.{Stays, Told};
ghost use Rattle.client_sessions.specs.Seen.{Agrees};
ghost use Rattle.raft_on_disk.specs.Mails.{sent};
ghost use Rattle.node_core.specs.declared.fault.NodeFault.TheVariants as fault;
ghost use Rattle.node_core.specs.Faults.{StepCause};
ghost use Rattle.node_core.specs.Finding.{LeavesBy, StopsCompacting};
ghost use Rattle.node_core.specs.Stepping.{StaysAgreed, StaysStored};
ghost use Rattle.node_core.specs.Values.{clients_in};
ghost use Rattle.node_core.specs.Whole.{IsGoing, IsIdle, IsLed, IsQuiet, Rests};

use crate::comparing::are_same;
use crate::event::Event;
use crate::fault::NodeFault;
use crate::outs::StepOutputs;
use crate::running::Running;
use disk_model::Disk;
use node_spec::{raft_steps_are_kept, raft_turns};
use raft_core::RaftEvent;
use raft_messages::SharedBytes;
use raft_on_disk::Outgoing;
use sql_engine::Engine;
use std::mem;

impl Running {
    /// One step of a node that rests.
    pub(crate) fn step<D: Disk, E: Engine>(
        &mut self,
        event: Event,
        disk: &mut D,
        engine: &mut E,
    ) -> Result<StepOutputs, NodeFault>
        requires rests { Rests self.old }
        requires agrees { Agrees (E.known engine.old) self.old.clients self.old.applied.machine }
        // What of connections' bytes is read and taken, and which are closed.
        ensures conns { IfOk result (λ outs. StreamsOfStep event self.old self.new outs) }
        ensures rests { OnOk result (Rests self.new) }
        ensures agrees { OnOk result (Agrees (E.known engine.new) self.new.clients self.new.applied.machine) }
        ensures stored { StaysStored D.tells (D.states disk.old) (D.states disk.new) self.old.replica self.new.replica result }
        ensures cause { StepCause (D.faults disk.old) (D.faults disk.new) result }
        ensures runs { result ≢ Err fault.Down }
        ensures engine { Stays (E.kind engine.old) (E.kind engine.new) (E.refused_openings engine.old) (E.refused_openings engine.new) }
        // If it fails, a load finds what the acts of the rules left, if the disk kept what Raft was.
        ensures stops { (opening : List ServerValue) →
            LeavesBy D.tells (D.states disk.old) (D.states disk.new) self.old.replica result
            (AccountsForStop (E.meaning (E.kind engine.old)) (E.kind engine.old) (read_setup opening) self.old event) }
        // It makes the acts of the rules, and says what they say.
        ensures acts { (opening : List ServerValue) →
            IfOk result (λ outs. AccountsForStep (E.meaning (E.kind engine.old)) (E.kind engine.old) (read_setup opening) self.old self.new event outs
            (E.told engine.old) (E.told engine.new)) }
        // What was before it decides what it leaves and says, except for the answers that the engine
        // told.
        ensures exact { IfOk result (λ outs. Answered (E.told engine.old) (E.told engine.new)
            (StepsExactly (E.meaning (E.kind engine.old)) (E.kind engine.old) event (core_of self.old) (core_of self.new) outs)) }
    {
        raft_steps_are_kept();
        self.replica.count_keeps();
        self.begin(event, disk, engine)?;
        self.run(disk, engine)?;
        self.take_outs()
    }

    /// The event is given to clients, or happens at Raft.
    fn begin<D: Disk, E: Engine>(
        &mut self,
        event: Event,
        disk: &mut D,
        engine: &mut E,
    ) -> Result<(), NodeFault>
        requires going { IsGoing self.old }
        requires led { IsLed self.old }
        requires idle { self.old.due.items ≡ [] }
        requires agrees { Agrees (E.known engine.old) self.old.clients self.old.applied.machine }
        ensures conns { OnOk result (ConnsBegin event self.old self.new) }
        ensures going { OnOk result (IsGoing self.new) }
        ensures led { OnOk result (IsLed self.new) }
        ensures stored { StaysStored D.tells (D.states disk.old) (D.states disk.new) self.old.replica self.new.replica result }
        ensures cause { StepCause (D.faults disk.old) (D.faults disk.new) result }
        ensures agrees { OnOk result (Agrees (E.known engine.new) self.new.clients self.new.applied.machine) }
        ensures engine { Stays (E.kind engine.old) (E.kind engine.new) (E.refused_openings engine.old) (E.refused_openings engine.new) }
        ensures begun { (opening : List ServerValue) →
            OnOk result (SoFar (E.meaning (E.kind engine.old)) (E.kind engine.old) (read_setup opening) self.old self.new (Happens event)
            (E.told engine.old) (E.told engine.new)) }
        ensures stops { (opening : List ServerValue) → AtRest self.old →
            LeavesBy D.tells (D.states disk.old) (D.states disk.new) self.old.replica result
            (Stopped (E.meaning (E.kind engine.old)) (E.kind engine.old) (read_setup opening) self.old (Happens event)) }
        ensures runs { result ≢ Err fault.Down }
        ensures exact { OnOk result (Answered (E.told engine.old) (E.told engine.new) (ExactBegin event (core_of self.old) (core_of self.new))) }
    {
        self.databases_stand();
        raft_steps_are_kept();
        match event {
            Event::Timeout => self.take_raft(RaftEvent::Timeout, disk, engine)?,
            Event::Beat => self.take_raft(RaftEvent::Beat, disk, engine)?,
            Event::Yield => self.take_raft(RaftEvent::Yield, disk, engine)?,
            Event::Peer(message) => self.take_raft(RaftEvent::Message(message), disk, engine)?,
            Event::Connect(conn) => self.connect(conn)?,
            Event::Hangup(conn) => self.hang_up(conn),
            Event::Bytes(conn, bytes) => self.receive(conn, bytes.as_slice())?,
            Event::ReadDone(conn, read) => self.read_done(conn, read, engine)?,
        }
        Ok(())
    }

    /// Turns, until nothing is left to do.
    fn run<D: Disk, E: Engine>(&mut self, disk: &mut D, engine: &mut E) -> Result<(), NodeFault>
        requires going { IsGoing self.old }
        requires led { IsLed self.old }
        requires agrees { Agrees (E.known engine.old) self.old.clients self.old.applied.machine }
        ensures conns { OnOk result (StreamsClose self.old self.new) }
        ensures going { OnOk result (IsGoing self.new) }
        ensures stored { StaysStored D.tells (D.states disk.old) (D.states disk.new) self.old.replica self.new.replica result }
        ensures cause { StepCause (D.faults disk.old) (D.faults disk.new) result }
        ensures agrees { OnOk result (Agrees (E.known engine.new) self.new.clients self.new.applied.machine) }
        ensures engine { Stays (E.kind engine.old) (E.kind engine.new) (E.refused_openings engine.old) (E.refused_openings engine.new) }
        ensures applied { OnOk result (self.new.applied.index ≡ self.new.replica.raft.commit) }
        ensures idle { OnOk result (self.new.due.items ≡ []) }
        ensures letters { OnOk result (self.new.has_links ≡ true → first_waiting self.new.links.all.items ≡ None) }
        ensures turns { OnOk result ((clients_in self.new).turns ≡ []) }
        ensures heard { OnOk result (self.new.heard ≡ None) }
        ensures led { OnOk result (IsLed self.new) }
        // A step that is under way is so after it.
        ensures on { (opening : List ServerValue) (start : RunningValue) (event : EventValue) (told : Option Told) →
            Underway (E.meaning (E.kind engine.old)) (E.kind engine.old) (read_setup opening) start self.old event told (E.told engine.old) →
            OnOk result (Underway (E.meaning (E.kind engine.old)) (E.kind engine.old) (read_setup opening) start self.new event told (E.told engine.new)) }
        ensures ends { OnOk result (MayEnd (moment_of self.new)) }
        // If it fails, a load finds what the acts of the rules left, if the disk kept what Raft was.
        ensures stops { (opening : List ServerValue) (start : RunningValue) (event : EventValue) (told : Option Told) →
            Underway (E.meaning (E.kind engine.old)) (E.kind engine.old) (read_setup opening) start self.old event told (E.told engine.old) →
            LeavesBy D.tells (D.states disk.old) (D.states disk.new) self.old.replica result
            (AccountsForStop (E.meaning (E.kind engine.old)) (E.kind engine.old) (read_setup opening) start event) }
        ensures runs { result ≢ Err fault.Down }
        ensures exact { OnOk result (Answered (E.told engine.old) (E.told engine.new)
            (ExactTurns (E.meaning (E.kind engine.old)) (E.kind engine.old) (core_of self.old) (core_of self.new))) }
    {
        raft_steps_are_kept();
        for _ in 0..u64::MAX {
            if !self.turn(disk, engine)? {
                return Ok(());
            }
        }
        Err(NodeFault::NoMemory)
    }

    /// Does the first of what there is: an event of Raft that is due, an entry to apply, a query whose barrier is applied, a
    /// client's message, a snapshot to take, a peer's message, a connection to close. So nothing is decided for a client while an
    /// event of Raft is due or an entry may be applied; and a peer's message is taken where the one before it has ended,
    /// as if it had come alone. False where there is nothing.
    fn turn<D: Disk, E: Engine>(&mut self, disk: &mut D, engine: &mut E) -> Result<bool, NodeFault>
        requires going { IsGoing self.old }
        requires led { IsLed self.old }
        requires agrees { Agrees (E.known engine.old) self.old.clients self.old.applied.machine }
        ensures conns { OnOk result (StreamsClose self.old self.new) }
        ensures going { OnOk result (IsGoing self.new) }
        ensures stored { StaysStored D.tells (D.states disk.old) (D.states disk.new) self.old.replica self.new.replica result }
        ensures cause { StepCause (D.faults disk.old) (D.faults disk.new) result }
        ensures agrees { OnOk result (Agrees (E.known engine.new) self.new.clients self.new.applied.machine) }
        ensures engine { Stays (E.kind engine.old) (E.kind engine.new) (E.refused_openings engine.old) (E.refused_openings engine.new) }
        ensures led { OnOk result (IsLed self.new) }
        // If nothing is left, nothing is due, and all that is committed is applied.
        ensures idle { IfOk result (λ more. more ≡ false → IsIdle self.new) }
        // A step that is under way is so after it.
        ensures on { (opening : List ServerValue) (start : RunningValue) (event : EventValue) (told : Option Told) →
            Underway (E.meaning (E.kind engine.old)) (E.kind engine.old) (read_setup opening) start self.old event told (E.told engine.old) →
            OnOk result (Underway (E.meaning (E.kind engine.old)) (E.kind engine.old) (read_setup opening) start self.new event told (E.told engine.new)) }
        ensures ends { IfOk result (λ more. more ≡ false → MayEnd (moment_of self.new)) }
        // If it fails, a load finds what the acts of the rules left, if the disk kept what Raft was.
        ensures stops { (opening : List ServerValue) (start : RunningValue) (event : EventValue) (told : Option Told) →
            Underway (E.meaning (E.kind engine.old)) (E.kind engine.old) (read_setup opening) start self.old event told (E.told engine.old) →
            LeavesBy D.tells (D.states disk.old) (D.states disk.new) self.old.replica result
            (AccountsForStop (E.meaning (E.kind engine.old)) (E.kind engine.old) (read_setup opening) start event) }
        ensures runs { result ≢ Err fault.Down }
        ensures exact { IfOk result (λ more. Answered (E.told engine.old) (E.told engine.new)
            (UnlinkedTurn (E.meaning (E.kind engine.old)) (E.kind engine.old) (core_of self.old) (core_of self.new) more)) }
    {
        raft_steps_are_kept();
        if self.take_due(disk)? {
            return Ok(true);
        }
        if self.applied.index < self.replica.view().commit {
            self.apply_next(engine)?;
            return Ok(true);
        }
        self.attend(disk, engine)
    }

    /// Does the first of what there is where nothing is due at Raft and all that is committed is applied.
    fn attend<D: Disk, E: Engine>(
        &mut self,
        disk: &mut D,
        engine: &mut E,
    ) -> Result<bool, NodeFault>
        requires going { IsGoing self.old }
        requires agrees { Agrees (E.known engine.old) self.old.clients self.old.applied.machine }
        requires led { IsLed self.old }
        requires due { self.old.due.items ≡ [] }
        requires applied { self.old.applied.index ≡ self.old.replica.raft.commit }
        ensures conns { OnOk result (StreamsClose self.old self.new) }
        ensures going { OnOk result (IsGoing self.new) }
        ensures stored { StaysStored D.tells (D.states disk.old) (D.states disk.new) self.old.replica self.new.replica result }
        ensures cause { StepCause (D.faults disk.old) (D.faults disk.new) result }
        ensures agrees { OnOk result (Agrees (E.known engine.new) self.new.clients self.new.applied.machine) }
        ensures engine { Stays (E.kind engine.old) (E.kind engine.new) (E.refused_openings engine.old) (E.refused_openings engine.new) }
        ensures led { OnOk result (IsLed self.new) }
        ensures idle { IfOk result (λ more. more ≡ false → IsIdle self.new) }
        // A step that is under way is so after it.
        ensures on { (opening : List ServerValue) (start : RunningValue) (event : EventValue) (told : Option Told) →
            Underway (E.meaning (E.kind engine.old)) (E.kind engine.old) (read_setup opening) start self.old event told (E.told engine.old) →
            OnOk result (Underway (E.meaning (E.kind engine.old)) (E.kind engine.old) (read_setup opening) start self.new event told (E.told engine.new)) }
        ensures ends { IfOk result (λ more. more ≡ false → MayEnd (moment_of self.new)) }
        // If it fails, a load finds what the acts of the rules left, if the disk kept what Raft was.
        ensures stops { (opening : List ServerValue) (start : RunningValue) (event : EventValue) (told : Option Told) →
            Underway (E.meaning (E.kind engine.old)) (E.kind engine.old) (read_setup opening) start self.old event told (E.told engine.old) →
            LeavesBy D.tells (D.states disk.old) (D.states disk.new) self.old.replica result
            (AccountsForStop (E.meaning (E.kind engine.old)) (E.kind engine.old) (read_setup opening) start event) }
        ensures runs { result ≢ Err fault.Down }
        ensures exact { IfOk result (λ more. Answered (E.told engine.old) (E.told engine.new)
            (ExactAttends (E.meaning (E.kind engine.old)) (E.kind engine.old) (core_of self.old) (core_of self.new) more)) }
    {
        raft_turns::<E>();
        raft_steps_are_kept();
        if self.run_due(engine)? {
            return Ok(true);
        }
        if self.take_message(engine)? {
            return Ok(true);
        }
        if self.compact(disk)? {
            return Ok(true);
        }
        if self.take_letter(disk, engine)? {
            return Ok(true);
        }
        self.close_heard()
    }

    /// Takes a snapshot where one is due. False where none is.
    fn compact<D: Disk>(&mut self, disk: &mut D) -> Result<bool, NodeFault>
        requires going { IsGoing self.old }
        requires led { IsLed self.old }
        requires idle { self.old.due.items ≡ [] }
        requires applied { self.old.applied.index ≡ self.old.replica.raft.commit }
        ensures conns { OnOk result (KeepsConns self.old self.new) }
        ensures going { OnOk result (IsGoing self.new) }
        ensures stored { StaysStored D.tells (D.states disk.old) (D.states disk.new) self.old.replica self.new.replica result }
        ensures stops { (opening : List ServerValue) (came : List ℕ) → LeavesBy D.tells (D.states disk.old) (D.states disk.new) self.old.replica result
            (StopsCompacting (read_setup opening) came self.old) }
        ensures cause { StepCause (D.faults disk.old) (D.faults disk.new) result }
        ensures led { OnOk result (IsLed self.new) }
        ensures none { IfOk result (λ more. more ≡ false → self.new ≡ self.old) }
        ensures takes { (opening : List ServerValue) → IfOk result (λ more. more ≡ true → KeepsSnapshot (read_setup opening) self.old self.new) }
        ensures agrees { StaysAgreed self.old self.new }
        ensures runs { result ≢ Err fault.Down }
        // One is taken where one may be, and only there.
        ensures exact { IfOk result (λ more. ExactCompactionIfDue (core_of self.old) (core_of self.new) more) }
    {
        let index = self.applied.index;
        if !self.replica.is_due(index) {
            return Ok(false);
        }
        // Its bytes have the servers that are applied, which the node's configurations have too.
        if !are_same(self.members.applied(), self.applied.servers.as_slice()) {
            return Ok(false);
        }
        self.holds_machine();
        let bytes = SharedBytes::new(self.alloc, self.applied.snapshot(self.alloc)?)?;
        let messages = self.replica.snapshot(index, bytes, disk)?;
        self.mail.post_all(messages)?;
        self.look()?;
        Ok(true)
    }

    /// What the step says, taken from it.
    fn take_outs(&mut self) -> Result<StepOutputs, NodeFault>
        ensures said { IfOk result (λ outs. (outs.replies.items ≡ self.old.outs.replies.items) × (outs.closed.items ≡ self.old.outs.closed.items)) }
        ensures messages { IfOk result (λ outs. outs.messages.items ≡ sent self.old.mail) }
        ensures reads { IfOk result (λ outs. outs.reads.items ≡ self.old.outs.reads.items) }
        ensures rest { self.new ≡ record self.old { outs = self.new.outs; mail = self.new.mail } }
        ensures quiet { IsQuiet self.new }
        ensures wants { IfErr result (λ f. f ≡ fault.NoMemory) }
    {
        let mut outs = mem::replace(&mut self.outs, StepOutputs::new(self.alloc));
        let mail = mem::replace(&mut self.mail, Outgoing::new(self.alloc));
        outs.messages = mail.into_messages()?;
        Ok(outs)
    }
}
