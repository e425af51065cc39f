//! Where a script of either mode is, and what its lines do there.

ghost use Rattle.std.specs.Prelude.{◌≡◌, ◌≤◌, ℕ, [], IfOk};
ghost use Rattle.script_grammar.specs.ScriptSize.{line_count_limit};
ghost use Rattle.script_machines.specs.Machines.{fleet_of};
ghost use Rattle.script_runner.specs.Run.{Stage as Shown, line_step};
ghost use Rattle.script_runner.specs.Scenes.{DoesLine, Nodes, Machines as AmongMachines, machines_in, said_in};
ghost use Rattle.script_runner.specs.Stages.{MayOpen, stands};

use crate::node_script::NodeScript;
use crate::said::LineSaid;
use script_cluster::{ClusterJournal, NodePlace};
use script_grammar::{Event, EventFault, FaultTarget, ScriptLine, Usage, line_in};
use script_machines::Machines;
use std::alloc::{AllocError, Global};

/// Where a script is.
#[derive(Drop)]
pub(crate) enum ScriptMode<P: NodePlace> {
    /// Before its mode line, or among nodes.
    Nodes(NodeScript<P>),
    /// Among state machines, with how much of what it may have it used.
    Machines { machines: Machines, usage: Usage },
}

/// How many state machines a line opens, if it is the mode line of state machines.
fn machines_in(line: &ScriptLine) -> Option<u32>
    ensures { result ≡ machines_in line.now }
{
    match line {
        ScriptLine::Pages { machines } => Some(*machines),
        ScriptLine::Blank
        | ScriptLine::Nodes { .. }
        | ScriptLine::Show { .. }
        | ScriptLine::Event { .. } => None,
    }
}

/// Does what a line says among nodes that opens no state machines, and returns what is said.
fn take_at_nodes<P: NodePlace>(
    stage: &mut NodeScript<P>,
    alloc: Global,
    line: ScriptLine,
    said: &mut LineSaid,
) -> Result<(), EventFault>
    requires nodes { machines_in line ≡ None }
    requires may { MayOpen line }
    ensures { (number : ℕ) → DoesLine P.knows number (λ (s : Shown). line_step s number (line)) result (Nodes (stands P.shows stage.old))
        (Nodes (stands P.shows stage.new)) (said_in said.new) }
{
    let mut told = Vec::new(alloc);
    let done = stage.take_line(alloc, line, &mut told);
    *said = LineSaid::Nodes(told);
    done
}

/// Shows how a state machine stands.
fn show_machine<P: NodePlace>(
    alloc: Global,
    machines: &Machines,
    usage: Usage,
    number: u32,
    said: &mut LineSaid,
) -> Result<(), EventFault>
    requires { said_in said.old ≡ [] }
    ensures { (line : ℕ) → DoesLine P.knows line (λ (s : Shown). line_step s line (ScriptLine.Show number)) result
        (AmongMachines usage (fleet_of machines.now)) (AmongMachines usage (fleet_of machines.now)) (said_in said.new) }
{
    match machines.standing(number) {
        Some(say) => {
            let mut told = Vec::new(alloc);
            told.push(say)?;
            *said = LineSaid::Machines(told);
            Ok(())
        }
        None => Err(EventFault::NotThere),
    }
}

/// Has an event happen at state machines, which is counted.
fn happen_at_machines<P: NodePlace>(
    alloc: Global,
    machines: &mut Machines,
    usage: &mut Usage,
    event: Event,
    said: &mut LineSaid,
) -> Result<(), EventFault>
    requires { said_in said.old ≡ [] }
    ensures { (line : ℕ) (aim : FaultTarget) → DoesLine P.knows line (λ (s : Shown). line_step s line (ScriptLine.Event event aim)) result
        (AmongMachines usage.old (fleet_of machines.old)) (AmongMachines usage.new (fleet_of machines.new)) (said_in said.new) }
{
    match machines.take(alloc, event) {
        Ok(told) => match usage.with_event() {
            Some(more) => {
                *usage = more;
                *said = LineSaid::Machines(told);
                Ok(())
            }
            None => Err(EventFault::TooMany),
        },
        Err(fault) => Err(fault),
    }
}

/// Does what a line says among state machines, and returns what is said.
fn take_at_machines<P: NodePlace>(
    alloc: Global,
    machines: &mut Machines,
    usage: &mut Usage,
    line: ScriptLine,
    said: &mut LineSaid,
) -> Result<(), EventFault>
    requires { said_in said.old ≡ [] }
    ensures { (number : ℕ) → DoesLine P.knows number (λ (s : Shown). line_step s number (line)) result
        (AmongMachines usage.old (fleet_of machines.old)) (AmongMachines usage.new (fleet_of machines.new)) (said_in said.new) }
{
    match line {
        ScriptLine::Blank => Ok(()),
        ScriptLine::Nodes { .. } => Err(EventFault::NotThere),
        ScriptLine::Pages { .. } => Err(EventFault::NotThere),
        ScriptLine::Show { number } => { show_machine::<P>(alloc, machines, *usage, number, said) }
        ScriptLine::Event { event, .. } => {
            happen_at_machines::<P>(alloc, machines, usage, event, said)
        }
    }
}

impl<P: NodePlace> ScriptMode<P> {
    ghost use Rattle.script_runner.specs.Run.{step};
    ghost use Rattle.script_runner.specs.Scenes.{closing_of, holds, journal_of};

    /// Opens this many state machines, which have applied nothing of an empty list.
    fn open_machines(&mut self, alloc: Global, count: u32) -> Result<(), EventFault>
        ensures { (number : ℕ) → DoesLine P.knows number (λ (s : Shown). line_step s number (ScriptLine.Pages count)) result
            (holds P.shows self.old) (holds P.shows self.new) [] }
    {
        match self {
            ScriptMode::Nodes(stage) => {
                if !stage.is_opening() {
                    return Err(EventFault::NotThere);
                }
                let machines = Machines::new(alloc, count)?;
                *self = ScriptMode::Machines {
                    machines,
                    usage: Usage::none(),
                };
                Ok(())
            }
            ScriptMode::Machines { .. } => Err(EventFault::NotThere),
        }
    }

    /// Does what a line says, and returns what is said. A fault ends the script.
    fn take_line(
        &mut self,
        alloc: Global,
        line: ScriptLine,
        said: &mut LineSaid,
    ) -> Result<(), EventFault>
        requires silent { said_in said.old ≡ [] }
        requires may { MayOpen line }
        ensures { (number : ℕ) → DoesLine P.knows number (λ (s : Shown). line_step s number (line)) result (holds P.shows self.old) (holds P.shows self.new)
            (said_in said.new) }
    {
        match machines_in(&line) {
            Some(count) => self.open_machines(alloc, count),
            None => match self {
                ScriptMode::Nodes(stage) => take_at_nodes(stage, alloc, line, said),
                ScriptMode::Machines { machines, usage } => {
                    take_at_machines::<P>(alloc, machines, usage, line, said)
                }
            },
        }
    }

    /// Does what the bytes of a line say, and returns what is said. A fault ends the script.
    pub(crate) fn take(
        &mut self,
        alloc: Global,
        line: &[u8],
        said: &mut LineSaid,
    ) -> Result<(), EventFault>
        requires { said_in said.old ≡ [] }
        ensures { (number : ℕ) → number ≤ line_count_limit → DoesLine P.knows number (λ (s : Shown). step s number line.now) result
            (holds P.shows self.old) (holds P.shows self.new) (said_in said.new) }
    {
        match line_in(alloc, line)? {
            Some(line) => self.take_line(alloc, line, said),
            None => Err(EventFault::NotThere),
        }
    }

    /// How all stand, as it is shown at the end of a script.
    pub(crate) fn closing(&self, alloc: Global) -> Result<LineSaid, AllocError>
        ensures { IfOk result (λ said. said_in said ≡ closing_of (holds P.shows self.now)) }
    {
        match self {
            ScriptMode::Nodes(stage) => Ok(LineSaid::Nodes(stage.closing(alloc)?)),
            ScriptMode::Machines { machines, .. } => Ok(LineSaid::Machines(machines.standings(
                alloc,
            )?)),
        }
    }

    /// The journal of the run, which is empty if no node was opened.
    pub(crate) fn into_journal(self, alloc: Global) -> ClusterJournal
        ensures { result ≡ journal_of (holds P.shows self) }
    {
        match self {
            ScriptMode::Nodes(stage) => stage.into_journal(alloc),
            ScriptMode::Machines { .. } => ClusterJournal::new(alloc),
        }
    }
}
