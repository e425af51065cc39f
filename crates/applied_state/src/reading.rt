//! What bytes read as, if they do: only out of memory is an error.

ghost use Rattle.std.specs.Prelude.{◌≡◌, ◌≢◌, IsErr, IfOk, OnOk};
ghost use Rattle.std.specs.Option.{option_map};
ghost use Rattle.log_commands.specs.Reading.{command_of};
ghost use Rattle.database_state.specs.Databases.{contents_of};
ghost use Rattle.database_state.specs.Restoring.{snapshot_of};
ghost use Rattle.raft_messages.specs.Servers.{servers_of};
ghost use Rattle.applied_state.specs.Reading.{command_read, servers_read, contents_read, WritesIf, WritesServersIf, IsMachineIf};

use database_state::{Machine, SnapFault};
use log_commands::{Command, CommandFault, read_command};
use raft_messages::{Servers, ServersFault, read_servers};
use std::alloc::{AllocError, Global};

/// Whether a command didn't read because memory ran out: then it isn't known to be
/// none.
fn no_command(fault: CommandFault) -> Result<(), AllocError>
    ensures goes_on { OnOk result (fault ≢ CommandFault.NoMemory) }
    ensures only { IsErr result → fault ≡ CommandFault.NoMemory }
{
    match fault {
        CommandFault::NoMemory => Err(AllocError),
        _ => Ok(()),
    }
}

/// Whether a configuration didn't read because memory ran out.
fn no_servers(fault: ServersFault) -> Result<(), AllocError>
    ensures goes_on { OnOk result (fault ≢ ServersFault.NoMemory) }
    ensures only { IsErr result → fault ≡ ServersFault.NoMemory }
{
    match fault {
        ServersFault::NoMemory => Err(AllocError),
        _ => Ok(()),
    }
}

/// Whether a state machine's snapshot didn't read because memory ran out.
fn no_machine(fault: SnapFault) -> Result<(), AllocError>
    ensures goes_on { OnOk result (fault ≢ SnapFault.NoMemory) }
    ensures only { IsErr result → fault ≡ SnapFault.NoMemory }
{
    match fault {
        SnapFault::NoMemory => Err(AllocError),
        _ => Ok(()),
    }
}

/// The command that the bytes are, if they are one.
pub(crate) fn command_in(alloc: Global, bytes: &[u8]) -> Result<Option<Command>, AllocError>
    ensures exact { IfOk result (λ read. read ≡ command_read (command_of bytes.now)) }
    ensures found { IfOk result (WritesIf bytes.now) }
{
    match read_command(alloc, bytes) {
        Ok(command) => Ok(Some(command)),
        Err(fault) => {
            no_command(fault)?;
            Ok(None)
        }
    }
}

/// The configuration with which the bytes begin, if they begin with one, and the place after it.
pub(crate) fn servers_in(alloc: Global, bytes: &[u8]) -> Result<Option<(Servers, u64)>, AllocError>
    ensures exact { IfOk result (λ read. read ≡ servers_read (servers_of bytes.now)) }
    ensures found { IfOk result (WritesServersIf bytes.now) }
{
    match read_servers(alloc, bytes) {
        Ok(read) => Ok(Some(read)),
        Err(fault) => {
            no_servers(fault)?;
            Ok(None)
        }
    }
}

/// The state machine of the state machine's snapshot that the bytes are, if they are one.
pub(crate) fn machine_in(alloc: Global, bytes: &[u8]) -> Result<Option<Machine>, AllocError>
    ensures exact { IfOk result (λ machine. option_map contents_of machine ≡ contents_read (snapshot_of bytes.now)) }
    ensures found { IfOk result (IsMachineIf bytes.now) }
{
    match Machine::from_snapshot(alloc, bytes) {
        Ok(machine) => Ok(Some(machine)),
        Err(fault) => {
            no_machine(fault)?;
            Ok(None)
        }
    }
}
