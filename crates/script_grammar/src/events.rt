//! What a script has happen.

ghost use Rattle.std.specs.Prelude.{◌≡◌, IfOk};
ghost use Rattle.std.specs.Option.{option_map};
ghost use Rattle.script_grammar.specs.Events.{hex_bytes, connect_of, bytes_of, other_event, event_of};

use crate::numbers::{number_within, one_or_two};
use dq_base::{Bytes, decimal_u32, halves_of};
use hex::FromHexError;
use std::alloc::{AllocError, Global};

/// Something that a script has happen to the cluster, or to state machines.
#[derive(Debug, Drop)]
pub enum Event {
    /// An election timeout at a node.
    Timeout { node: u32 },
    /// A heartbeat at a node.
    Beat { node: u32 },
    /// A client opens a connection to a node.
    Connect { node: u32, connection: u32 },
    /// A client sends bytes on its connection.
    Bytes { connection: u32, bytes: Bytes },
    /// A client ends its connection.
    Hangup { connection: u32 },
    /// A message arrives.
    Deliver { message: u32 },
    /// The least message that never arrived does, until none is left or this many, from 1 to 10,000, did.
    Settle { count: u32 },
    /// A node stops, and its disk takes the outcome of a pick.
    Crash { node: u32, pick: u32 },
    /// A node starts over its disk.
    Start { node: u32 },
    /// Bytes that may be a command go to the list that state machines apply.
    Put { bytes: Bytes },
    /// A state machine applies the next command of the list.
    Take { machine: u32 },
}

/// The bytes of hex digits of either case, at least two of them.
#[tactic(auto, unfolding(crate::specs::Events::hex_bytes))]
fn hex_in(alloc: Global, word: &[u8]) -> Result<Option<Bytes>, AllocError>
    ensures { IfOk result (λ bytes. bytes ≡ hex_bytes word.now) }
{
    if word.is_empty() {
        return Ok(None);
    }
    match hex::decode(alloc, word) {
        Ok(bytes) => Ok(Some(Bytes::new(bytes))),
        Err(FromHexError::OutOfMemory) => Err(AllocError),
        Err(_) => Ok(None),
    }
}

/// `connect N C`, after its first word.
#[tactic(auto, unfolding(crate::specs::Events::connect_of))]
fn connect_in(text: &[u8]) -> Option<Event>
    ensures { result ≡ connect_of text.now }
{
    let (node, connection) = halves_of(text)?;
    let node = decimal_u32(node)?;
    let connection = decimal_u32(connection)?;
    Some(Event::Connect { node, connection })
}

/// `bytes C HEX`, after its first word.
#[tactic(auto, unfolding(crate::specs::Events::bytes_of))]
fn bytes_in(alloc: Global, text: &[u8]) -> Result<Option<Event>, AllocError>
    ensures { IfOk result (λ event. event ≡ bytes_of text.now) }
{
    let Some((connection, digits)) = halves_of(text) else {
        return Ok(None);
    };
    let Some(connection) = decimal_u32(connection) else {
        return Ok(None);
    };
    let Some(bytes) = hex_in(alloc, digits)? else {
        return Ok(None);
    };
    Ok(Some(Event::Bytes { connection, bytes }))
}

/// `put HEX`, after its first word.
fn put_in(alloc: Global, digits: &[u8]) -> Result<Option<Event>, AllocError>
    ensures { IfOk result (λ event. event ≡ option_map Event.Put (hex_bytes digits.now)) }
{
    let bytes = hex_in(alloc, digits)?;
    Ok(bytes.map(|bytes| Event::Put { bytes }))
}

/// An event that leaves disks alone or is over all of them, or one at state machines.
#[tactic(auto, unfolding(crate::specs::Events::other_event))]
fn other_in(alloc: Global, line: &[u8]) -> Result<Option<Event>, AllocError>
    ensures { IfOk result (λ event. event ≡ other_event line.now) }
{
    if let Some(text) = line.strip_prefix(b"connect ") {
        return Ok(connect_in(text));
    }
    if let Some(text) = line.strip_prefix(b"settle ") {
        return Ok(number_within(1, 10_000, text).map(|count| Event::Settle { count }));
    }
    if let Some(text) = line.strip_prefix(b"crash ") {
        return Ok(one_or_two(text).map(|(node, pick)| Event::Crash { node, pick }));
    }
    if let Some(text) = line.strip_prefix(b"put ") {
        return put_in(alloc, text);
    }
    if let Some(text) = line.strip_prefix(b"take ") {
        return Ok(decimal_u32(text).map(|machine| Event::Take { machine }));
    }
    Ok(None)
}

/// A line that has something happen: words, each after one space.
#[tactic(auto, unfolding(crate::specs::Events::event_of))]
pub(crate) fn event_in(alloc: Global, line: &[u8]) -> Result<Option<Event>, AllocError>
    ensures { IfOk result (λ event. event ≡ event_of line.now) }
{
    if let Some(text) = line.strip_prefix(b"timeout ") {
        return Ok(decimal_u32(text).map(|node| Event::Timeout { node }));
    }
    if let Some(text) = line.strip_prefix(b"beat ") {
        return Ok(decimal_u32(text).map(|node| Event::Beat { node }));
    }
    if let Some(text) = line.strip_prefix(b"bytes ") {
        return bytes_in(alloc, text);
    }
    if let Some(text) = line.strip_prefix(b"hangup ") {
        return Ok(decimal_u32(text).map(|connection| Event::Hangup { connection }));
    }
    if let Some(text) = line.strip_prefix(b"deliver ") {
        return Ok(decimal_u32(text).map(|message| Event::Deliver { message }));
    }
    if let Some(text) = line.strip_prefix(b"start ") {
        return Ok(decimal_u32(text).map(|node| Event::Start { node }));
    }
    other_in(alloc, line)
}

impl Event {
    ghost use Rattle.script_grammar.specs.Events.{may_be_aimed};
    ghost use Rattle.script_grammar.specs.Modes.{is_for_machines};

    /// Whether the event is one node's work over its disk, which may be stopped or fail.
    pub fn may_be_aimed(&self) -> bool
        ensures { result ≡ may_be_aimed self.now }
    {
        match self {
            Event::Timeout { .. }
            | Event::Beat { .. }
            | Event::Bytes { .. }
            | Event::Hangup { .. }
            | Event::Deliver { .. }
            | Event::Start { .. } => true,
            Event::Connect { .. }
            | Event::Settle { .. }
            | Event::Crash { .. }
            | Event::Put { .. }
            | Event::Take { .. } => false,
        }
    }

    /// Whether the event is one of state machines that apply one list of commands.
    pub fn is_for_machines(&self) -> bool
        ensures { result ≡ is_for_machines self.now }
    {
        match self {
            Event::Put { .. } | Event::Take { .. } => true,
            Event::Timeout { .. }
            | Event::Beat { .. }
            | Event::Connect { .. }
            | Event::Bytes { .. }
            | Event::Hangup { .. }
            | Event::Deliver { .. }
            | Event::Settle { .. }
            | Event::Crash { .. }
            | Event::Start { .. } => false,
        }
    }
}
