//! What a node has applied: its databases, its servers, and up to which index.

ghost use Rattle.std.specs.Prelude.{◌≡◌, ◌<◌, ◌^◌, suc, ℕ, List, [], ◌∷◌, ◌++◌, IfOk, OnOk, OnErr};
ghost use Rattle.log_commands.specs.Numbers.{HasLowNumbers};
ghost use Rattle.database_state.specs.Databases.{act};
ghost use Rattle.database_state.specs.Machines.{names_of};
ghost use Rattle.database_state.specs.Pins.{Pinning, StillPinned};
ghost use Rattle.raft_spec.specs.Log.{Entry as EntryValue};
ghost use Rattle.raft_spec.specs.Node.{Server as ServerValue};
ghost use Rattle.raft_messages.specs.Servers.{IsConfiguration};
ghost use Rattle.session_spec.specs.Entries.{Does};
ghost use Rattle.session_spec.specs.Machine.{is_named};
ghost use Rattle.session_spec.specs.Seen.{HasSpelling, entry_seen};
ghost use Rattle.applied_state.specs.Applied.{with_content, with_entry, HasApplied, has_names};
ghost use Rattle.applied_state.specs.Content.{meaning, effect_of};

use crate::content::{Content, content_of};
use crate::effect::{AppliedEffect, effect_of};
use database_state::{Database, Machine};
use dq_base::Name;
use log_commands::Command;
use raft_messages::{Entry, Servers};
use std::alloc::{AllocError, Global};

/// What a node has applied. The parts are its owner's to lend: sessions pin and release marks of the databases.
#[derive(Drop)]
pub struct Applied {
    /// The databases.
    pub machine: Machine,
    /// The servers of the cluster.
    pub servers: Servers,
    /// The index of the last entry that was applied, or the snapshot's; 0 without one.
    pub index: u64,
}

/// Has the state machine keep the newest image of the database of a command whole, so that statements are lent it without a copy.
fn keep_whole(machine: &mut Machine, command: &Command)
    ensures { machine.new ≡ machine.old }
{
    match command {
        Command::OpenDb { name } | Command::Frames { name, .. } => {
            machine.keep_newest(name.as_str());
        }
        Command::Undo { .. } | Command::Checkpoint { .. } => {}
    }
}

/// Does what a command says. `Err` means out of memory; the state machine is then
/// unchanged.
fn act(machine: &mut Machine, command: &Command) -> Result<(), AllocError>
    requires { HasLowNumbers command.now }
    ensures done { OnOk result (machine.new ≡ act machine.old command.now) }
    ensures kept { OnErr result (machine.new ≡ machine.old) }
    ensures pins { (pin : Pinning) → StillPinned machine.old machine.new pin }
{
    machine.act(command)?;
    keep_whole(machine, command);
    Ok(())
}

/// Whether a state machine has a database of a name.
fn has_name(machine: &Machine, name: &Name) -> bool
    ensures { result ≡ is_named (names_of machine.now) name.now }
{
    machine.newest(name.as_str()).is_some()
}

/// Whether each of the databases has its name in a state machine.
fn has_each(machine: &Machine, databases: &[Database]) -> bool
    ensures { result ≡ has_names (names_of machine.now) (names_of databases.now) }
{
    for database in databases {
        if !has_name(machine, database.name()) {
            return false;
        }
    }
    true
}

impl Applied {
    /// A node that has applied nothing: it has no database, and these servers.
    pub fn new(alloc: Global, servers: Servers) -> Applied
        ensures value { result ≡ record { machine = []; servers = servers; index = 0 } }
        ensures applied { HasApplied servers (λ name. 0) [] result }
    {
        Applied {
            machine: Machine::new(alloc),
            servers,
            index: 0,
        }
    }

    /// Does what a command says, as the next entry.
    fn does(&mut self, command: Command) -> Result<AppliedEffect, AllocError>
        requires low { HasLowNumbers command }
        requires room { suc self.old.index < 2 ^ 64 }
        ensures applied { OnOk result (self.new ≡ with_content self.old (Does command)) }
        ensures told { IfOk result (λ effect. effect ≡ effect_of (Does command)) }
        ensures kept { OnErr result (self.new ≡ self.old) }
        ensures servers { self.new.servers ≡ self.old.servers }
        ensures pins { (pin : Pinning) → StillPinned self.old.machine self.new.machine pin }
    {
        act(&mut self.machine, &command)?;
        self.index += 1;
        Ok(effect_of(command))
    }

    /// Applies the next entry, which is for this.
    fn apply_content(&mut self, content: Content) -> Result<AppliedEffect, AllocError>
        requires spelled { HasSpelling (meaning content) }
        requires room { suc self.old.index < 2 ^ 64 }
        ensures applied { OnOk result (self.new ≡ with_content self.old (meaning content)) }
        ensures told { IfOk result (λ effect. effect ≡ effect_of (meaning content)) }
        ensures kept { OnErr result (self.new ≡ self.old) }
        ensures pins { (pin : Pinning) → StillPinned self.old.machine self.new.machine pin }
        ensures configured { IsConfiguration self.old.servers → IsConfiguration self.new.servers }
    {
        match content {
            Content::Does(command) => self.does(command),
            Content::Configures(servers) => {
                self.servers = servers;
                self.index += 1;
                Ok(AppliedEffect::Configured)
            }
            Content::Other => {
                self.index += 1;
                Ok(AppliedEffect::Other)
            }
        }
    }

    /// Applies the next entry: does what its command says, or has its servers, or nothing if it is neither or doesn't
    /// read. Tells what it was. After `Err`, out of memory, all is as before.
    ///
    /// Reads the entry once, and costs what `Machine::act` costs. Each database that a command opens or changes is kept
    /// whole from then on (`Machine::keep_newest`), so that statements are lent it without a copy.
    pub fn apply(&mut self, alloc: Global, entry: &Entry) -> Result<AppliedEffect, AllocError>
        requires room { suc self.old.index < 2 ^ 64 }
        ensures applied { OnOk result (self.new ≡ with_entry self.old entry.now) }
        ensures follows { OnOk result ((opening : List ServerValue) (lacks : List ℕ → ℕ) (front : List EntryValue) → HasApplied opening lacks front self.old → HasApplied opening lacks (front ++ entry.now ∷ []) self.new) }
        ensures told { IfOk result (λ effect. effect ≡ effect_of (entry_seen entry.now).content) }
        ensures kept { OnErr result (self.new ≡ self.old) }
        ensures pins { (pin : Pinning) → StillPinned self.old.machine self.new.machine pin }
        ensures configured { IsConfiguration self.old.servers → IsConfiguration self.new.servers }
    {
        let _databases = self.machine.databases();
        let content = content_of(alloc, entry)?;
        self.apply_content(content)
    }

    /// Has the newest image of each database kept whole from then on, as `apply` does for those that it changes: what was read
    /// from a snapshot isn't. Copies each image that isn't whole yet. `Err` means out of memory for the names.
    pub fn keep_whole(&mut self) -> Result<(), AllocError>
        ensures { self.new ≡ self.old }
    {
        for name in self.machine.names()? {
            self.machine.keep_newest(name.as_str());
        }
        Ok(())
    }

    /// Whether it has each database of another by its name, as what a snapshot brings has to have each of the node's.
    /// Allocates nothing; looks at each name once for each of the other's.
    pub fn has_all(&self, other: &Applied) -> bool
        ensures { result ≡ has_names (names_of self.now.machine) (names_of other.now.machine) }
    {
        has_each(&self.machine, other.machine.databases())
    }
}
