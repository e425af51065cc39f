//! State machines that apply one list of commands, each at its own pace.

ghost use Rattle.std.specs.Prelude.{◌≡◌, ◌<◌, [], ◌∷◌, Some, None, length, IfOk, IfSome, OnOk, OnErr, IsErrOf};
ghost use Rattle.std.specs.Option.{option_map};
ghost use Rattle.log_commands.specs.Reading.{command_of};
ghost use Rattle.script_machines.specs.Machines.{place_named, refusal};

use crate::list::CommandList;
use crate::machine_line::MachineLine;
use database_state::Machine;
use file_digest::digest;
use log_commands::{CommandFault, read_command};
use script_grammar::{Event, EventFault};
use std::alloc::{AllocError, Global};
use std::marker::Model;

/// One state machine, and how many commands of the list it has applied.
#[derive(Drop)]
pub(crate) struct Replica {
    machine: Machine,
    applied: usize,
}

impl Model for Replica {
    ghost use Rattle.database_state.specs.Databases.{contents_of};
    ghost use Rattle.script_machines.specs.Holding.{Holding};

    ghost Value = { Holding };

    ghost view = { λ r. record { databases = contents_of r.machine; applied = r.applied } };
}

impl Replica {
    ghost use Rattle.script_machines.specs.Machines.{idle, after_next, standing};

    /// A state machine that has applied nothing.
    fn new(alloc: Global) -> Replica
        ensures { result ≡ idle }
    {
        Replica {
            machine: Machine::new(alloc),
            applied: 0,
        }
    }

    /// Applies the next command of a list, if it has not applied all of them.
    fn take_next(&mut self, commands: &CommandList) -> Result<(), AllocError>
        ensures { OnOk result (self.new ≡ after_next commands.now self.old) }
    {
        let Some(command) = commands.get(self.applied) else {
            return Ok(());
        };
        self.machine.act(command)?;
        self.applied += 1;
        Ok(())
    }

    /// How the state machine of this number stands. Costs in the order of its files.
    fn standing(&self, number: u64) -> MachineLine
        ensures { result ≡ standing number self.now }
    {
        let digest = digest(self.machine.databases());
        MachineLine::Machine {
            number,
            applied: self.applied as u64,
            digest,
        }
    }
}

/// The list of commands, and the state machines by their numbers from 1.
pub struct Machines {
    commands: CommandList,
    machines: Vec<Replica>,
}

// It is written out, so that a caller does not prove again how each part is dropped.
impl Drop for Machines {
    fn drop(self) {
        let Machines {
            commands: _,
            machines: _,
        } = self;
    }
}

/// The place of a state machine's number among this many.
fn place_of(number: u32, count: usize) -> Option<usize>
    ensures place { result ≡ place_named number count }
    ensures within { IfSome result (λ place. place < count) }
{
    if number >= 1 && number as usize <= count {
        Some(number as usize - 1)
    } else {
        None
    }
}

/// What is said of a command that may, or may not, join the list.
fn refusal(alloc: Global, joined: bool) -> Result<Vec<MachineLine>, AllocError>
    ensures { IfOk result (λ said. said.items ≡ refusal joined) }
{
    let mut said = Vec::new(alloc);
    if !joined {
        said.push(MachineLine::Refused)?;
    }
    Ok(said)
}

impl Machines {
    ghost use Rattle.script_machines.specs.Machines.{idle_fleet, joins, with_command, take_at, applies, standing_of, standings, fleet_of};

    /// This many state machines that have applied nothing of an empty list.
    pub fn new(alloc: Global, count: u32) -> Result<Machines, AllocError>
        ensures { IfOk result (λ machines. fleet_of machines ≡ idle_fleet count) }
    {
        let mut machines = Vec::new(alloc);
        for _made in 0..count {
            machines.push(Replica::new(alloc))?;
        }
        Ok(Machines {
            commands: CommandList::new(alloc),
            machines,
        })
    }

    /// Adds the command that bytes represent, if it is one and the list may take it. Answers whether it did.
    fn put(&mut self, alloc: Global, bytes: &[u8]) -> Result<bool, AllocError>
        ensures joined { IfOk result (λ joined. joined ≡ joins (fleet_of self.old) (command_of bytes.now)) }
        ensures list { OnOk result (fleet_of self.new ≡ with_command (fleet_of self.old) (command_of bytes.now)) }
    {
        match read_command(alloc, bytes) {
            Ok(command) => self.commands.try_push(alloc, command),
            Err(CommandFault::NoMemory) => Err(AllocError),
            Err(_) => Ok(false),
        }
    }

    /// A state machine applies the next command of the list.
    #[tactic(auto, unfolding(crate::specs::Machines::applies))]
    fn take_next(&mut self, number: u32) -> Result<(), EventFault>
        ensures ok { OnOk result (applies (fleet_of self.old) (Event.Take number) ≡ Some (fleet_of self.new, [])) }
        ensures fault { IsErrOf result EventFault.NotThere → applies (fleet_of self.old) (Event.Take number) ≡ None }
        ensures kept { IsErrOf result EventFault.NotThere → fleet_of self.new ≡ fleet_of self.old }
        ensures few { IsErrOf result EventFault.TooMany → ⊥ }
    {
        let Some(place) = place_of(number, self.machines.len()) else {
            return Err(EventFault::NotThere);
        };
        let machine = &mut self.machines[place];
        machine.take_next(&self.commands)?;
        Ok(())
    }

    /// Has an event happen, and answers what was said. `NotThere` is an event that names what isn't there, and nothing has
    /// happened then; out of memory may come after it has. No event is one too many here.
    #[tactic(auto, unfolding(crate::specs::Machines::applies))]
    pub fn take(&mut self, alloc: Global, event: Event) -> Result<Vec<MachineLine>, EventFault>
        ensures ok { IfOk result (λ said. applies (fleet_of self.old) event ≡ Some (fleet_of self.new, said.items)) }
        ensures fault { IsErrOf result EventFault.NotThere → applies (fleet_of self.old) event ≡ None }
        ensures kept { IsErrOf result EventFault.NotThere → fleet_of self.new ≡ fleet_of self.old }
        ensures few { IsErrOf result EventFault.TooMany → ⊥ }
    {
        match event {
            Event::Put { bytes } => {
                let joined = self.put(alloc, bytes.as_slice())?;
                Ok(refusal(alloc, joined)?)
            }
            Event::Take { machine } => {
                self.take_next(machine)?;
                Ok(Vec::new(alloc))
            }
            Event::Timeout { .. }
            | Event::Beat { .. }
            | Event::Connect { .. }
            | Event::Bytes { .. }
            | Event::Hangup { .. }
            | Event::Deliver { .. }
            | Event::Settle { .. }
            | Event::Crash { .. }
            | Event::Start { .. } => Err(EventFault::NotThere),
        }
    }

    /// How the state machine of a number stands, if it is there.
    pub fn standing(&self, number: u32) -> Option<MachineLine>
        ensures { result ≡ standing_of (fleet_of self.now) number }
    {
        let place = place_of(number, self.machines.len())?;
        Some(self.machines[place].standing(u64::from(number)))
    }

    /// How all state machines stand, by their numbers.
    pub fn standings(&self, alloc: Global) -> Result<Vec<MachineLine>, AllocError>
        ensures { IfOk result (λ said. said.items ≡ standings 1 (fleet_of self.now).machines) }
    {
        let mut said = Vec::new(alloc);
        for (place, machine) in self.machines.iter().enumerate() {
            said.push(machine.standing(place as u64 + 1))?;
        }
        Ok(said)
    }
}
