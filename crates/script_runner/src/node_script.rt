//! Where a script is, and what its lines do there.

ghost use Rattle.std.specs.Prelude.{◌≡◌, ℕ, IfOk};
ghost use Rattle.script_cluster.specs.Run.{Stage as Shown};
ghost use Rattle.script_cluster.specs.Voters.{IsVoterCount};
ghost use Rattle.script_runner.specs.Stages.{MayOpen};

use script_cluster::{Cluster, ClusterJournal, ClusterLine, NodePlace, VoterCount};
use script_grammar::{Event, EventFault, FaultTarget, ScriptLine};
use std::alloc::{AllocError, Global};

/// Where a script is.
#[derive(Drop)]
pub(crate) enum NodeScript<P: NodePlace> {
    /// Before its mode line. Nodes are at places like this one.
    Opening { place: P },
    /// Among its nodes.
    Within(Cluster<P>),
}

impl<P: NodePlace> NodeScript<P> {
    ghost use Rattle.script_cluster.specs.Run.{line_step};
    ghost use Rattle.script_runner.specs.Stages.{DoesLine, is_opening, closing_of, journal_of, stands};

    /// Whether no mode line has come yet.
    pub(crate) fn is_opening(&self) -> bool
        ensures { result ≡ is_opening (stands P.shows self.now) }
    {
        match self {
            NodeScript::Opening { .. } => true,
            NodeScript::Within(_) => false,
        }
    }

    /// Opens a cluster of this many voters and further nodes, all of which start.
    fn open_nodes(
        &mut self,
        alloc: Global,
        voters: u32,
        spare: u32,
        said: &mut Vec<ClusterLine>,
    ) -> Result<(), EventFault>
        requires { IsVoterCount voters }
        ensures { (number : ℕ) → DoesLine P.knows number (λ (s : Shown). line_step s number (ScriptLine.Nodes voters spare))
            result (stands P.shows self.old) (stands P.shows self.new) said.old.items said.new.items }
    {
        let NodeScript::Opening { place } = self else {
            return Err(EventFault::NotThere);
        };
        let mut cluster = Cluster::new(alloc, &*place, VoterCount::new(voters), spare)?;
        let started = cluster.start_all(said);
        *self = NodeScript::Within(cluster);
        started
    }

    /// Has an event happen.
    fn happen(
        &mut self,
        event: Event,
        aim: FaultTarget,
        said: &mut Vec<ClusterLine>,
    ) -> Result<(), EventFault>
        ensures { (number : ℕ) → DoesLine P.knows number (λ (s : Shown). line_step s number (ScriptLine.Event event aim))
            result (stands P.shows self.old) (stands P.shows self.new) said.old.items said.new.items }
    {
        match self {
            NodeScript::Opening { .. } => Err(EventFault::NotThere),
            NodeScript::Within(cluster) => cluster.take(event, aim, said),
        }
    }

    /// Shows a node.
    fn show(&self, node: u32, said: &mut Vec<ClusterLine>) -> Result<(), EventFault>
        ensures { (number : ℕ) → DoesLine P.knows number (λ (s : Shown). line_step s number (ScriptLine.Show node))
            result (stands P.shows self.now) (stands P.shows self.now) said.old.items said.new.items }
    {
        let NodeScript::Within(cluster) = self else {
            return Err(EventFault::NotThere);
        };
        match cluster.standing(u64::from(node)) {
            Some(say) => {
                said.push(say)?;
                Ok(())
            }
            None => Err(EventFault::NotThere),
        }
    }

    /// Does what a line says, and puts what is said after the rest. A fault ends the script.
    pub(crate) fn take_line(
        &mut self,
        alloc: Global,
        line: ScriptLine,
        said: &mut Vec<ClusterLine>,
    ) -> Result<(), EventFault>
        requires { MayOpen line }
        ensures { (number : ℕ) → DoesLine P.knows number (λ (s : Shown). line_step s number (line))
            result (stands P.shows self.old) (stands P.shows self.new) said.old.items said.new.items }
    {
        match line {
            ScriptLine::Blank => Ok(()),
            ScriptLine::Nodes { voters, spare } => self.open_nodes(alloc, voters, spare, said),
            ScriptLine::Pages { .. } => Err(EventFault::NotThere),
            ScriptLine::Show { number } => self.show(number, said),
            ScriptLine::Event { event, aim } => self.happen(event, aim, said),
        }
    }

    /// How all nodes stand, as it is shown at the end of a script.
    pub(crate) fn closing(&self, alloc: Global) -> Result<Vec<ClusterLine>, AllocError>
        ensures { IfOk result (λ said. said.items ≡ closing_of (stands P.shows self.now)) }
    {
        match self {
            NodeScript::Opening { .. } => Ok(Vec::new(alloc)),
            NodeScript::Within(cluster) => cluster.standings(alloc),
        }
    }

    /// The journal of the run, which is empty if no node was opened.
    pub(crate) fn into_journal(self, alloc: Global) -> ClusterJournal
        ensures { result ≡ journal_of (stands P.shows self) }
    {
        match self {
            NodeScript::Opening { .. } => ClusterJournal::new(alloc),
            NodeScript::Within(cluster) => cluster.into_journal(),
        }
    }
}
