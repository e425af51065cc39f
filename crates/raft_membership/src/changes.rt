//! Which configuration an entry of the log changes to.
ghost use Rattle.std.specs.Prelude.{◌≡◌, ◌==◌, Some, None, if◌then◌else◌, ◌≢◌, IsErr, IfOk, OnOk, MatchOption, length};
ghost use Rattle.raft_messages.specs.Servers.{IsConfiguration, configuration_of};
ghost use Rattle.raft_messages.specs.declared.servers_fault.ServersFault.TheVariants.{NoMemory};
ghost use Rattle.raft_membership.specs.Members.{configuration_in};

use raft_messages::{Entry, EntryKind, Servers, ServersFault, read_servers};
use std::alloc::{AllocError, Global};

/// Only out of memory is a reason to give up; any other fault says that the bytes are no configuration.
fn give_up_for_memory(fault: ServersFault) -> Result<(), AllocError>
    ensures only { IsErr result → fault ≡ NoMemory }
    ensures goes_on { OnOk result (fault ≢ NoMemory) }
{
    match fault {
        ServersFault::NoMemory => Err(AllocError),
        _ => Ok(()),
    }
}

/// These servers, if the bytes end with the last of them.
fn ended(servers: Servers, end: u64, size: usize) -> Option<Servers>
    ensures is { result ≡ (if end == size then Some servers else None) }
    ensures those { MatchOption result (Unit {0}) (λ read. read ≡ servers) }
{
    if end == size as u64 {
        Some(servers)
    } else {
        None
    }
}

/// The configuration that all of the bytes are, if any.
fn read_whole(alloc: Global, bytes: &[u8]) -> Result<Option<Servers>, AllocError>
    ensures is { IfOk result (λ read. read ≡ configuration_of bytes.now) }
    ensures stands { IfOk result (λ read. MatchOption read (Unit {0}) IsConfiguration) }
{
    match read_servers(alloc, bytes) {
        Ok((servers, end)) => Ok(ended(servers, end, bytes.len())),
        Err(fault) => {
            give_up_for_memory(fault)?;
            Ok(None)
        }
    }
}

/// What `change_in` gives, and that it may stand.
pub(crate) fn standing_change(alloc: Global, entry: &Entry) -> Result<Option<Servers>, AllocError>
    ensures is { IfOk result (λ read. read ≡ configuration_in entry.now) }
    ensures stands { IfOk result (λ read. MatchOption read (Unit {0}) IsConfiguration) }
{
    match entry.kind {
        EntryKind::Change => read_whole(alloc, entry.bytes.as_slice()),
        EntryKind::Command | EntryKind::Barrier => Ok(None),
    }
}

/// The configuration that an entry changes to, if any: it is a change, and its bytes are a configuration and end with the
/// last server. What reads may stand. Reads the entry once.
pub fn change_in(alloc: Global, entry: &Entry) -> Result<Option<Servers>, AllocError>
    ensures is { IfOk result (λ read. read ≡ configuration_in entry.now) }
    ensures stands { IfOk result (λ read. MatchOption read (Unit {0}) IsConfiguration) }
{
    standing_change(alloc, entry)
}
