//! A node's turn in which an event of Raft happens: what it leaves is kept and posted, and then sessions, databases,
//! configurations and leadership follow.

ghost use Rattle.std.specs.Prelude.{◌≡◌, ◌≢◌, ◌<◌, ◌==◌, ◌&&◌, suc, true, false, ℕ, List, [], drop, Some, None, Err, OnOk, IfOk, MatchOption, IfErr};
ghost use Rattle.sql_engine.specs.Meanings.{Stays};
ghost use Rattle.database_state.specs.declared.database.Database.{Database};
ghost use Rattle.database_state.specs.Machines.{IsMachine};
ghost use Rattle.client_sessions.specs.Seen.{Agrees, HasNoMarks, AreValidOver};
ghost use Rattle.raft_spec.specs.Laws.{HasShortTerm};
ghost use Rattle.raft_spec.specs.Node.{Candidate, Server as ServerValue, Local, UseServers, is_leader};
ghost use Rattle.raft_spec.specs.NodeValues.{node_of};
ghost use Rattle.raft_messages.specs.Servers.{IsConfiguration};
ghost use Rattle.raft_membership.specs.Members.{AllStand, all_changed, first_of, read_setup};
ghost use Rattle.raft_core.specs.Events.{EventFits, input_of};
ghost use Rattle.raft_on_disk.specs.Replicas.{IsIntake, IsWhole};
ghost use Rattle.node_spec.specs.Voting.{FromSnapshot};
ghost use Rattle.applied_state.specs.Snapshot.{NodeSnapshot};
ghost use Rattle.node_core.specs.declared.fault.NodeFault.TheVariants as fault;
ghost use Rattle.node_core.specs.Account.{moment_of};
ghost use Rattle.node_core.specs.Conns.{KeepsConns};
ghost use Rattle.node_core.specs.Core.{are_others, core_of, ended, followed, losing, won};
ghost use Rattle.node_core.specs.Exact as exactly;
ghost use Rattle.node_core.specs.Exact.{ExactInstall, ExactRaft, ExactStep, ExactTold, told_behind};
ghost use Rattle.node_core.specs.ExactRaft.{ExactLeadershipEnd, ExactMembersFollow, IsFrom, ExactOffers};
ghost use Rattle.node_core.specs.Faults.{StepCause};
ghost use Rattle.node_core.specs.Finding.{BeganStops, LeavesBy, StopsBehind, StopsFollowing, StopsIn, StopsInstalling, StopsTelling};
ghost use Rattle.node_core.specs.Posting.{TurnsWithoutSnapshot, TurnsWithSnapshot, KeepsAllButLog, LosesLeadership, FollowsLeadership, Posts, TellsCurrentServers, ToldServersAfter, ends_office};
ghost use Rattle.node_core.specs.Stepping.{Brings, HasFollowed, HasMade, HasStepped, HasTold, IsOffer, KeepsRest, PutsNone, StaysAgreed, StaysStored};
ghost use Rattle.node_core.specs.Taking.{BeganStep, bytes_with};
ghost use Rattle.node_core.specs.Values.{clients_in};
ghost use Rattle.node_core.specs.Voters.{FollowsBy};
ghost use Rattle.node_core.specs.Waiting.{HasTurns};
ghost use Rattle.node_core.specs.Whole.{InOffice, IsFree, IsGoing, IsLed, IsOutside, LeadsInOffice, ServesLast};

use crate::fault::NodeFault;
use crate::running::Running;
use crate::view::copied;
use applied_state::{Applied, Leadership};
use client_sessions::clients_change_databases;
use disk_model::Disk;
use raft_core::RaftEvent;
use raft_messages::{MessageBody, Servers};
use raft_on_disk::{RaftStep, twins_keep_alike};
use sql_engine::Engine;
use std::alloc::AllocError;

/// What comes together with an event of Raft.
#[derive(Drop)]
pub(crate) enum Offer {
    /// Nothing.
    Nothing,
    /// What a snapshot brings that will be in the place of entries.
    Snapshot(Applied),
    /// A snapshot whose bytes are none, or that lacks a database of the node: the message counts as lost.
    Lost,
}

impl Running {
    /// What comes with an event of Raft. The bytes of a snapshot are read only if a step of the event would put it in the
    /// place of entries.
    fn offered(&self, event: &RaftEvent) -> Result<Offer, AllocError>
        requires going { IsGoing self.now }
        ensures offer { IfOk result (IsOffer self.now event.now) }
        ensures exact { IfOk result (ExactOffers event.now (core_of self.now)) }
    {
        let RaftEvent::Message(message) = event else {
            return Ok(Offer::Nothing);
        };
        if !self.replica.takes_snapshot(message) {
            return Ok(Offer::Nothing);
        }
        let MessageBody::Install { snapshot } = &message.what else {
            return Ok(Offer::Lost);
        };
        let bytes = snapshot.bytes.as_slice();
        match self.applied.offered(self.alloc, snapshot.index, bytes)? {
            Some(applied) => Ok(Offer::Snapshot(applied)),
            None => Ok(Offer::Lost),
        }
    }

    /// What comes from outside happens at Raft, if nothing is due. A message whose snapshot can't be taken changes nothing,
    /// not even the term.
    pub(crate) fn take_raft<D: Disk, E: Engine>(
        &mut self,
        event: RaftEvent,
        disk: &mut D,
        engine: &mut E,
    ) -> Result<(), NodeFault>
        requires comes { IsOutside event }
        requires going { IsGoing self.old }
        requires led { IsLed self.old }
        requires idle { self.old.due.items ≡ [] }
        requires agrees { Agrees (E.known engine.old) self.old.clients self.old.applied.machine }
        ensures exact { OnOk result (ExactRaft event (core_of self.old) (core_of self.new)) }
        ensures untold { OnOk result (E.told engine.new ≡ E.told engine.old) }
        ensures conns { OnOk result (KeepsConns self.old self.new) }
        ensures going { OnOk result (IsGoing self.new) }
        ensures led { OnOk result (IsLed self.new) }
        // An act of the rules has begun by it.
        ensures began { (opening : List ServerValue) →
            OnOk result (BeganStep (E.meaning (E.kind engine.old)) (E.kind engine.old) (read_setup opening) self.old self.new event
            (E.told engine.old) (E.told engine.new)) }
        ensures stored { StaysStored D.tells (D.states disk.old) (D.states disk.new) self.old.replica self.new.replica result }
        ensures stops { (opening : List ServerValue) → LeavesBy D.tells (D.states disk.old) (D.states disk.new) self.old.replica result
            (BeganStops (E.meaning (E.kind engine.old)) (E.kind engine.old) (read_setup opening) self.old event) }
        ensures cause { StepCause (D.faults disk.old) (D.faults disk.new) result }
        ensures agrees { OnOk result (Agrees (E.known engine.new) self.new.clients self.new.applied.machine) }
        ensures engine { Stays (E.kind engine.old) (E.kind engine.new) (E.refused_openings engine.old) (E.refused_openings engine.new) }
        ensures runs { result ≢ Err fault.Down }
    {
        match self.offered(&event)? {
            Offer::Nothing => self.step_raft(event, disk),
            Offer::Snapshot(applied) => {
                self.step_install(event, applied, disk)?;
                // The images of other databases are there under numbers that those of the old ones had.
                engine.forget();
                Ok(())
            }
            Offer::Lost => Ok(()),
        }
    }

    /// A law: the databases are a state machine.
    pub(crate) fn holds_machine(&self)
        ensures { IsMachine self.now.applied.machine }
    {
        let _databases = self.applied.machine.databases();
    }

    /// One step of Raft, kept and posted. Answers from which index on the log is another one now, if it is.
    pub(crate) fn make_step<D: Disk>(
        &mut self,
        event: RaftEvent,
        disk: &mut D,
    ) -> Result<Option<u64>, NodeFault>
        requires whole { IsWhole self.old.replica }
        requires fits { EventFits self.old.replica.raft event }
        requires intake { IsIntake event }
        ensures exact { IfOk result (λ batch. ExactStep event batch (core_of self.old) (core_of self.new)) }
        ensures made { IfOk result (λ batch. HasMade self.old self.new event batch) }
        ensures posts { OnOk result (Posts self.old self.new (input_of event)) }
        ensures stored { StaysStored D.tells (D.states disk.old) (D.states disk.new) self.old.replica self.new.replica result }
        // If it fails, a load finds what a stop in the step leaves.
        ensures stops { (opening : List ServerValue) → LeavesBy D.tells (D.states disk.old) (D.states disk.new) self.old.replica result
            (StopsIn (read_setup opening) (bytes_with event) self.old (input_of event)) }
        ensures cause { StepCause (D.faults disk.old) (D.faults disk.new) result }
        ensures agrees { StaysAgreed self.old self.new }
        ensures runs { result ≢ Err fault.Down }
        ensures fit { result ≢ Err fault.Unfit }
    {
        let RaftStep {
            batch,
            messages,
            ..
        } = self.replica.step(event, disk)?;
        self.mail.post_all(messages)?;
        Ok(batch)
    }

    /// One step of Raft, kept and posted; and sessions hear of a leadership that was lost, before anything else follows. Answers
    /// from which index on the log is another one now, if it is.
    fn keep_step<D: Disk>(
        &mut self,
        event: RaftEvent,
        disk: &mut D,
    ) -> Result<Option<u64>, NodeFault>
        requires whole { IsWhole self.old.replica }
        requires short { HasShortTerm (node_of self.old.replica.raft) }
        requires stand { AreValidOver self.old.clients self.old.applied.machine }
        requires turns { HasTurns (clients_in self.old) }
        requires office { InOffice self.old.office self.old.view.serving self.old.replica.raft }
        requires led { IsLed self.old }
        requires idle { self.old.due.items ≡ [] }
        requires fits { EventFits self.old.replica.raft event }
        requires intake { IsIntake event }
        ensures exact { IfOk result (λ batch. ExactLeadershipEnd event batch (core_of self.old) (core_of self.new)) }
        ensures conns { OnOk result (KeepsConns self.old self.new) }
        ensures stepped { IfOk result (λ batch. HasStepped self.old self.new event batch) }
        ensures posts { OnOk result (Posts self.old self.new (input_of event)) }
        ensures offices { OnOk result (FollowsLeadership self.old self.new) }
        ensures serves { OnOk result (ServesLast self.new.office self.new.view.serving) }
        ensures free { OnOk result (IsFree self.new.office (moment_of self.new)) }
        ensures stored { StaysStored D.tells (D.states disk.old) (D.states disk.new) self.old.replica self.new.replica result }
        ensures stops { (opening : List ServerValue) → LeavesBy D.tells (D.states disk.old) (D.states disk.new) self.old.replica result
            (StopsIn (read_setup opening) (bytes_with event) self.old (input_of event)) }
        ensures cause { StepCause (D.faults disk.old) (D.faults disk.new) result }
        ensures agrees { StaysAgreed self.old self.new }
        ensures runs { result ≢ Err fault.Down }
    {
        self.holds_machine();
        let batch = self.make_step(event, disk)?;
        self.note_loss()?;
        Ok(batch)
    }

    /// A step of Raft for what comes from outside, in which no snapshot comes.
    fn step_raft<D: Disk>(&mut self, event: RaftEvent, disk: &mut D) -> Result<(), NodeFault>
        requires comes { IsOutside event }
        requires none { PutsNone self.old.replica event }
        requires going { IsGoing self.old }
        requires led { IsLed self.old }
        requires idle { self.old.due.items ≡ [] }
        ensures exact { OnOk result (exactly.ExactFollow event (core_of self.old) (core_of self.new)) }
        ensures conns { OnOk result (KeepsConns self.old self.new) }
        ensures going { OnOk result (IsGoing self.new) }
        ensures led { OnOk result (IsLed self.new) }
        ensures began { OnOk result (TurnsWithoutSnapshot self.old self.new event) }
        ensures stored { StaysStored D.tells (D.states disk.old) (D.states disk.new) self.old.replica self.new.replica result }
        ensures stops { (opening : List ServerValue) → LeavesBy D.tells (D.states disk.old) (D.states disk.new) self.old.replica result
            (StopsFollowing (read_setup opening) self.old event) }
        ensures cause { StepCause (D.faults disk.old) (D.faults disk.new) result }
        ensures agrees { OnOk result (StaysAgreed self.old self.new) }
        ensures runs { result ≢ Err fault.Down }
    {
        twins_keep_alike();
        let batch = self.keep_step(event, disk)?;
        self.follow_log(batch, disk)?;
        self.note_win();
        self.look()?;
        Ok(())
    }

    /// The configurations follow the log, which is another one from this index on. False only if they are those that they
    /// were.
    pub(crate) fn follow_members(&mut self, batch: Option<u64>) -> Result<bool, NodeFault>
        requires stand { AllStand self.old.members }
        requires past { MatchOption batch (Unit {0}) (λ first. (self.old.replica.raft.base < first) × (self.old.members.at < first)) }
        ensures is { self.new ≡ record self.old { members = self.new.members } }
        ensures exact { OnOk result (core_of self.new ≡ followed batch (core_of self.old)) }
        ensures others { IfOk result (λ others. others ≡ are_others batch (core_of self.old)) }
        ensures stand { OnOk result (AllStand self.new.members) }
        ensures at { OnOk result (self.new.members.at ≡ self.old.members.at) }
        ensures stays { IfOk result (λ others. others ≡ false → self.new ≡ self.old) }
        ensures follows { OnOk result (FollowsBy self.old.members self.new.members (node_of self.old.replica.raft).log batch) }
        ensures wants { IfErr result (λ f. f ≡ fault.NoMemory) }
    {
        let Some(first) = batch else {
            return Ok(false);
        };
        Ok(self.replica.follow(&mut self.members, first)?)
    }

    /// The configurations follow the log, which is another one from this index on; and if others are current now, a node that
    /// follows tells its Raft so.
    fn follow_log<D: Disk>(&mut self, batch: Option<u64>, disk: &mut D) -> Result<(), NodeFault>
        requires whole { IsWhole self.old.replica }
        requires short { HasShortTerm (node_of self.old.replica.raft) }
        requires stand { AllStand self.old.members }
        requires office { InOffice self.old.office self.old.view.serving self.old.replica.raft }
        requires past { MatchOption batch (Unit {0}) (λ first. (self.old.replica.raft.base < first) × (self.old.members.at < first)) }
        requires machine { IsMachine self.old.applied.machine }
        ensures exact { OnOk result (ExactMembersFollow batch (core_of self.old) (core_of self.new)) }
        ensures followed { OnOk result (HasFollowed self.old self.new) }
        ensures tells { OnOk result (ToldServersAfter self.old self.new) }
        ensures follows { OnOk result (FollowsBy self.old.members self.new.members (node_of self.old.replica.raft).log batch) }
        ensures stored { StaysStored D.tells (D.states disk.old) (D.states disk.new) self.old.replica self.new.replica result }
        ensures stops { (opening : List ServerValue) (came : List ℕ) → LeavesBy D.tells (D.states disk.old) (D.states disk.new) self.old.replica result
            (StopsBehind (read_setup opening) came self.old) }
        ensures cause { StepCause (D.faults disk.old) (D.faults disk.new) result }
        ensures runs { result ≢ Err fault.Down }
    {
        if !self.follow_members(batch)? {
            return Ok(());
        }
        self.tell_servers(disk)
    }

    /// A step of Raft that puts a snapshot in the place of entries: databases, servers and index become the snapshot's, and the
    /// configurations those of the log after it. Transactions have ended before, since the images that they read are in the
    /// old databases.
    fn step_install<D: Disk>(
        &mut self,
        event: RaftEvent,
        applied: Applied,
        disk: &mut D,
    ) -> Result<(), NodeFault>
        requires brings { Brings self.old.replica event applied }
        requires going { IsGoing self.old }
        requires led { IsLed self.old }
        requires idle { self.old.due.items ≡ [] }
        ensures exact { (s : NodeSnapshot) → IsFrom s applied → OnOk result (ExactInstall event applied.index s (core_of self.old) (core_of self.new)) }
        ensures conns { OnOk result (KeepsConns self.old self.new) }
        ensures going { OnOk result (IsGoing self.new) }
        ensures led { OnOk result (IsLed self.new) }
        ensures began { (opening : List ServerValue) → OnOk result (TurnsWithSnapshot (read_setup opening) self.old self.new event) }
        ensures stored { StaysStored D.tells (D.states disk.old) (D.states disk.new) self.old.replica self.new.replica result }
        ensures stops { (opening : List ServerValue) → LeavesBy D.tells (D.states disk.old) (D.states disk.new) self.old.replica result
            (StopsInstalling (read_setup opening) self.old event) }
        ensures cause { StepCause (D.faults disk.old) (D.faults disk.new) result }
        ensures runs { result ≢ Err fault.Down }
        ensures anew { OnOk result (Agrees [] self.new.clients self.new.applied.machine) }
    {
        self.keep_step(event, disk)?;
        self.lose()?;
        clients_change_databases();
        self.replace(applied)?;
        self.tell_servers(disk)?;
        self.look_at_servers()?;
        Ok(())
    }

    /// Databases, servers and index become those of a snapshot that has come, and the configurations those of the log after it.
    fn replace(&mut self, applied: Applied) -> Result<(), NodeFault>
        requires whole { IsWhole self.old.replica }
        requires servers { IsConfiguration applied.servers }
        ensures members { OnOk result (self.new.members ≡
            all_changed (first_of applied.servers self.old.replica.snap.index) (suc self.old.replica.snap.index)
            (drop self.old.replica.snap.index (node_of self.old.replica.raft).log)) }
        ensures applied { OnOk result (self.new.applied ≡ applied) }
        ensures at { OnOk result (self.new.members.at ≡ self.old.replica.snap.index) }
        ensures from { OnOk result (FromSnapshot applied.servers self.old.replica.snap.index (node_of self.old.replica.raft).log self.new.members) }
        ensures stand { OnOk result (AllStand self.new.members) }
        ensures machine { OnOk result (IsMachine self.new.applied.machine) }
        ensures is { OnOk result (self.new ≡ record self.old { members = self.new.members; applied = self.new.applied }) }
        ensures wants { IfErr result (λ f. f ≡ fault.NoMemory) }
    {
        let servers = copied(self.alloc, applied.servers.as_slice())?;
        self.members = self.replica.members(servers)?;
        self.applied = applied;
        self.applied.keep_whole()?;
        let _databases = self.applied.machine.databases();
        Ok(())
    }

    /// Raft is given servers.
    pub(crate) fn tell<D: Disk>(&mut self, servers: Servers, disk: &mut D) -> Result<(), NodeFault>
        requires whole { IsWhole self.old.replica }
        requires short { HasShortTerm (node_of self.old.replica.raft) }
        requires stands { IsConfiguration servers }
        requires settled { self.old.replica.raft.role ≢ Candidate }
        requires machine { IsMachine self.old.applied.machine }
        ensures exact { OnOk result (ExactTold (Some servers) (core_of self.old) (core_of self.new)) }
        ensures told { OnOk result (HasTold self.old self.new) }
        ensures tells { OnOk result (KeepsAllButLog self.old self.new (Local (UseServers servers))) }
        ensures stored { StaysStored D.tells (D.states disk.old) (D.states disk.new) self.old.replica self.new.replica result }
        ensures stops { (opening : List ServerValue) (came : List ℕ) → LeavesBy D.tells (D.states disk.old) (D.states disk.new) self.old.replica result
            (StopsIn (read_setup opening) came self.old (Local (UseServers servers))) }
        ensures cause { StepCause (D.faults disk.old) (D.faults disk.new) result }
        ensures runs { result ≢ Err fault.Down }
        ensures fit { result ≢ Err fault.Unfit }
    {
        self.make_step(RaftEvent::Servers(servers), disk)?;
        Ok(())
    }

    /// A node that follows gives its Raft the current configuration. A leader told it before it proposed the change, and the log of
    /// a candidate doesn't change.
    fn tell_servers<D: Disk>(&mut self, disk: &mut D) -> Result<(), NodeFault>
        requires whole { IsWhole self.old.replica }
        requires short { HasShortTerm (node_of self.old.replica.raft) }
        requires stand { AllStand self.old.members }
        requires office { InOffice self.old.office self.old.view.serving self.old.replica.raft }
        requires machine { IsMachine self.old.applied.machine }
        ensures exact { OnOk result (ExactTold (told_behind true (core_of self.old)) (core_of self.old) (core_of self.new)) }
        ensures told { OnOk result (HasTold self.old self.new) }
        ensures tells { OnOk result (TellsCurrentServers self.old self.new) }
        ensures office { OnOk result (InOffice self.new.office self.new.view.serving self.new.replica.raft) }
        ensures stored { StaysStored D.tells (D.states disk.old) (D.states disk.new) self.old.replica self.new.replica result }
        ensures stops { (opening : List ServerValue) (came : List ℕ) → LeavesBy D.tells (D.states disk.old) (D.states disk.new) self.old.replica result
            (StopsTelling (read_setup opening) came self.old) }
        ensures cause { StepCause (D.faults disk.old) (D.faults disk.new) result }
        ensures runs { result ≢ Err fault.Down }
    {
        if !self.follows() {
            return Ok(());
        }
        let servers = copied(self.alloc, self.members.current())?;
        self.tell(servers, disk)
    }

    /// Leadership that was lost: transactions and proposals end, and their clients are informed.
    fn note_loss(&mut self) -> Result<(), NodeFault>
        requires unserved { self.old.office ≡ None → self.old.view.serving ≡ false }
        requires stand { AreValidOver self.old.clients self.old.applied.machine }
        requires turns { HasTurns (clients_in self.old) }
        ensures exact { OnOk result (core_of self.new ≡ ended (core_of self.old)) }
        ensures conns { OnOk result (KeepsConns self.old self.new) }
        ensures stand { OnOk result (AreValidOver self.new.clients self.new.applied.machine) }
        ensures turns { OnOk result (HasTurns (clients_in self.new)) }
        ensures office { OnOk result (InOffice self.new.office self.new.view.serving self.new.replica.raft) }
        ensures stays { ends_office self.old.office self.old.replica.raft ≡ false → self.new ≡ self.old }
        ensures loses { ends_office self.old.office self.old.replica.raft ≡ true → OnOk result (LosesLeadership self.old self.new) }
        ensures leaves { ends_office self.old.office self.old.replica.raft ≡ true → (self.new.office ≡ None) × (self.new.view.serving ≡ false) }
        ensures replica { self.new.replica ≡ self.old.replica }
        ensures mail { self.new.mail ≡ self.old.mail }
        ensures rest { KeepsRest self.old self.new }
        ensures wants { IfErr result (λ f. f ≡ fault.NoMemory) }
        ensures agrees { StaysAgreed self.old self.new }
    {
        if !self.has_lost() {
            return Ok(());
        }
        self.leave_office();
        self.lose()
    }

    /// Whether this leadership is lost.
    fn has_lost(&self) -> bool
        ensures is { result ≡ ends_office self.now.office self.now.replica.raft }
        ensures stays { result ≡ false → (self.now.office ≡ None → self.now.view.serving ≡ false) →
            InOffice self.now.office self.now.view.serving self.now.replica.raft }
    {
        match self.office {
            Some(office) => !self.is_in(office),
            None => false,
        }
    }

    /// It is in no leadership, and serves no more.
    fn leave_office(&mut self)
        ensures { self.new ≡ record self.old { office = None; view = record self.old.view { serving = false } } }
    {
        self.office = None;
        self.view.serving = false;
    }

    /// Whether a leadership is the one of its term, in which it leads.
    fn is_in(&self, office: Leadership) -> bool
        ensures { result ≡ (is_leader self.now.replica.raft.role && (office.term == self.now.replica.raft.term)) }
    {
        let raft = self.replica.view();
        raft.role.leads() && office.term == raft.term
    }

    /// Transactions and proposals end, if there are any, and no image of a database is read any more.
    fn lose(&mut self) -> Result<(), NodeFault>
        requires stand { AreValidOver self.old.clients self.old.applied.machine }
        requires turns { HasTurns (clients_in self.old) }
        ensures exact { OnOk result (core_of self.new ≡ losing (core_of self.old)) }
        ensures conns { OnOk result (KeepsConns self.old self.new) }
        ensures stand { OnOk result (AreValidOver self.new.clients self.new.applied.machine) }
        ensures turns { OnOk result (HasTurns (clients_in self.new)) }
        ensures unmarked { OnOk result (HasNoMarks self.new.applied.machine) }
        // No number represents two images over any databases then, if no engine knows one.
        ensures anew { OnOk result ((databases : List Database) → IsMachine databases → Agrees [] self.new.clients databases) }
        ensures office { (self.new.office ≡ self.old.office) × (self.new.view.serving ≡ self.old.view.serving) }
        ensures replica { self.new.replica ≡ self.old.replica }
        ensures mail { self.new.mail ≡ self.old.mail }
        ensures loses { OnOk result (LosesLeadership self.old self.new) }
        ensures rest { KeepsRest self.old self.new }
        ensures wants { IfErr result (λ f. f ≡ fault.NoMemory) }
        ensures agrees { StaysAgreed self.old self.new }
    {
        let told = self.clients.on_lost(&mut self.applied.machine)?;
        self.clients.have_ended();
        self.holds_machine();
        self.outs.tell_all(told)?;
        Ok(())
    }

    /// Leadership that was won: the log ends with the node's barrier.
    fn note_win(&mut self)
        requires office { InOffice self.old.office self.old.view.serving self.old.replica.raft }
        ensures office { InOffice self.new.office self.new.view.serving self.new.replica.raft }
        ensures leads { LeadsInOffice self.new.office self.new.replica.raft }
        ensures serves { ServesLast self.old.office self.old.view.serving → ServesLast self.new.office self.new.view.serving }
        ensures stays { self.new.office ≡ None → self.old.office ≡ None }
        ensures is { self.new ≡ record self.old { office = self.new.office } }
        ensures exact { core_of self.new ≡ won (core_of self.old) }
    {
        if self.office.is_some() {
            return;
        }
        let raft = self.replica.view();
        if raft.role.leads() {
            self.office = Some(Leadership::won(raft.term, raft.last.index));
        }
    }
}
