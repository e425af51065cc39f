//! What an entry of the log is for.

ghost use Rattle.std.specs.Prelude.{◌≡◌, ◌==◌, length, if◌then◌else◌, Some, None, IfOk};
ghost use Rattle.log_commands.specs.Reading.{command_of};
ghost use Rattle.raft_messages.specs.Servers.{configuration_of};
ghost use Rattle.session_spec.specs.Seen.{HasSpelling, command_seen, servers_seen, entry_seen};
ghost use Rattle.applied_state.specs.Content.{meaning};

use crate::reading::{command_in, servers_in};
use log_commands::Command;
use raft_messages::{Entry, EntryKind, Servers};
use std::alloc::{AllocError, Global};

/// What an entry is for.
#[derive(Drop)]
pub enum Content {
    /// A command to the databases.
    Does(Command),
    /// These are the servers of the cluster from then on.
    Configures(Servers),
    /// Neither: the first entry of a leader, or bytes that don't read.
    Other,
}

/// What the bytes of a command are for.
fn of_command(alloc: Global, bytes: &[u8]) -> Result<Content, AllocError>
    ensures means { IfOk result (λ content. meaning content ≡ command_seen (command_of bytes.now)) }
    ensures spelled { IfOk result (λ content. HasSpelling (meaning content)) }
{
    let read = command_in(alloc, bytes)?;
    match read {
        Some(command) => Ok(Content::Does(command)),
        None => Ok(Content::Other),
    }
}

/// These servers, if the bytes end with the last of them.
fn ended(servers: Servers, end: u64, size: usize) -> Content
    ensures { meaning result ≡ servers_seen (if end == size then Some servers else None) }
{
    if end == size as u64 {
        Content::Configures(servers)
    } else {
        Content::Other
    }
}

/// What the bytes of a change are for.
fn of_change(alloc: Global, bytes: &[u8]) -> Result<Content, AllocError>
    ensures means { IfOk result (λ content. meaning content ≡ servers_seen (configuration_of bytes.now)) }
    ensures spelled { IfOk result (λ content. HasSpelling (meaning content)) }
{
    let read = servers_in(alloc, bytes)?;
    match read {
        Some(read) => Ok(ended(read.0, read.1, bytes.len())),
        None => Ok(Content::Other),
    }
}

/// What an entry is for, as sessions see it: a command; a change of the servers, which reads only where its bytes end with
/// the last server; or nothing, if it is a leader's first one or doesn't read. What it is for could be written again.
/// Takes memory for what is read.
pub fn content_of(alloc: Global, entry: &Entry) -> Result<Content, AllocError>
    ensures means { IfOk result (λ content. meaning content ≡ (entry_seen entry.now).content) }
    ensures spelled { IfOk result (λ content. HasSpelling (meaning content)) }
{
    match entry.kind {
        EntryKind::Command => of_command(alloc, entry.bytes.as_slice()),
        EntryKind::Change => of_change(alloc, entry.bytes.as_slice()),
        EntryKind::Barrier => Ok(Content::Other),
    }
}
