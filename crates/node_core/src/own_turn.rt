//! A node's turn for what it gives Raft itself: proposals, and a leadership that is handed over. Term and leadership stay.

ghost use Rattle.std.specs.Prelude.{◌≡◌, ◌≢◌, ◌<◌, true, false, ℕ, List, None, Err, OnOk, IfOk};
ghost use Rattle.database_state.specs.Machines.{IsMachine};
ghost use Rattle.raft_spec.specs.Laws.{HasShortTerm};
ghost use Rattle.raft_spec.specs.Node.{Server as ServerValue};
ghost use Rattle.raft_spec.specs.NodeValues.{node_of};
ghost use Rattle.raft_membership.specs.Members.{read_setup};
ghost use Rattle.raft_on_disk.specs.Replicas.{IsWhole};
ghost use Rattle.node_core.specs.declared.fault.NodeFault.TheVariants as fault;
ghost use Rattle.node_core.specs.Conns.{KeepsConns};
ghost use Rattle.node_core.specs.Core.{core_of};
ghost use Rattle.node_core.specs.Exact.{ExactDue, ExactOwnStep};
ghost use Rattle.node_core.specs.Faults.{StepCause};
ghost use Rattle.node_core.specs.Finding.{LeavesBy, StopsOwn, StopsTelling};
ghost use Rattle.node_core.specs.Posting.{HadNoneDue, MayTake, TakesOwnStep, MaybeToldServers, TookFirstDue};
ghost use Rattle.node_core.specs.Stepping.{HasTold, StaysAgreed, StaysStored};
ghost use Rattle.node_core.specs.Whole.{IsGoing, IsLed, IsOwnDue};
ghost use Rattle.node_core.specs.declared.running.Running.{Running as RunningValue};

use crate::fault::NodeFault;
use crate::running::Running;
use disk_model::Disk;
use raft_core::RaftEvent;
use raft_on_disk::twins_keep_alike;

impl Running {
    /// The first of what the node has given Raft itself happens: a proposal, or a leadership that is handed over. False where
    /// nothing is due.
    pub(crate) fn take_due<D: Disk>(&mut self, disk: &mut D) -> Result<bool, NodeFault>
        requires going { IsGoing self.old }
        requires led { IsLed self.old }
        ensures exact { IfOk result (λ more. ExactDue self.old.due.items (core_of self.old) (core_of self.new) more) }
        ensures conns { OnOk result (KeepsConns self.old self.new) }
        ensures going { OnOk result (IsGoing self.new) }
        ensures led { OnOk result (IsLed self.new) }
        ensures none { IfOk result (λ more. more ≡ false → HadNoneDue self.old self.new) }
        ensures goes { IfOk result (λ more. more ≡ true → TakesOwnStep self.old self.new) }
        ensures stored { StaysStored D.tells (D.states disk.old) (D.states disk.new) self.old.replica self.new.replica result }
        ensures stops { (opening : List ServerValue) (came : List ℕ) → LeavesBy D.tells (D.states disk.old) (D.states disk.new) self.old.replica result
            (StopsOwn (read_setup opening) came self.old) }
        ensures cause { StepCause (D.faults disk.old) (D.faults disk.new) result }
        ensures agrees { OnOk result (StaysAgreed self.old self.new) }
        ensures runs { result ≢ Err fault.Down }
    {
        let Some(event) = self.due.pop_front() else {
            return Ok(false);
        };
        self.step_own(event, disk)?;
        Ok(true)
    }

    /// A step of Raft for what the node gives it itself. Term and leadership stay.
    fn step_own<D: Disk>(&mut self, event: RaftEvent, disk: &mut D) -> Result<(), NodeFault>
        requires own { IsOwnDue event }
        requires takes { MayTake event self.old.replica.raft }
        requires going { IsGoing self.old }
        requires led { IsLed self.old }
        ensures exact { OnOk result (ExactOwnStep event (core_of self.old) (core_of self.new)) }
        ensures conns { OnOk result (KeepsConns self.old self.new) }
        ensures going { OnOk result (IsGoing self.new) }
        ensures led { OnOk result (IsLed self.new) }
        ensures goes { (before : RunningValue) → TookFirstDue event before self.old → OnOk result (TakesOwnStep before self.new) }
        ensures stored { StaysStored D.tells (D.states disk.old) (D.states disk.new) self.old.replica self.new.replica result }
        ensures stops { (before : RunningValue) (opening : List ServerValue) (came : List ℕ) → TookFirstDue event before self.old →
            LeavesBy D.tells (D.states disk.old) (D.states disk.new) self.old.replica result (StopsOwn (read_setup opening) came before) }
        ensures cause { StepCause (D.faults disk.old) (D.faults disk.new) result }
        ensures agrees { OnOk result (StaysAgreed self.old self.new) }
        ensures runs { result ≢ Err fault.Down }
    {
        self.holds_machine();
        twins_keep_alike();
        self.tell_change(&event, disk)?;
        let batch = self.make_step(event, disk)?;
        self.follow_members(batch)?;
        self.look()?;
        Ok(())
    }
}
