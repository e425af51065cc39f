//! Writing a message of a peer.
ghost use Rattle.std.specs.Prelude.{◌≡◌, ◌<◌, ◌≤◌, [], ◌∷◌, ◌++◌, ◌/◌, ◌%◌, ◌^◌, true, length, IfOk, OnOk, IsErr};
ghost use Rattle.wire_words.specs.Items.{word, blob};
ghost use Rattle.wire_words.specs.Message.{header};
ghost use Rattle.raft_messages.specs.Messages.{flag, what_number, what_fields, fields_bytes, field_bytes, message_fields, body_bytes, message_bytes, message_schema, what_mark, numbers_fit, AllHold, Writes, Entries as EntriesField};

use crate::entries::{write_entry_contents, write_entry_heads};
use crate::entry::{Entry, LogEnd};
use crate::message::{MAX_RECEIVER, MessageBody, RaftMessage, Snapshot, TRANSFER_MARK};
use std::alloc::{AllocError, Global};
use wire_words::{WireBytes, Writer};

/// 1 for yes, 0 for no.
fn flag(yes: bool) -> u64
    ensures { result ≡ flag yes }
{
    if yes { 1 } else { 0 }
}

fn put_two(out: &mut Writer, first: u64, second: u64) -> Result<(), AllocError>
    ensures { OnOk result (out.new ≡ out.old ++ (word first ++ word second)) }
{
    out.word(first)?;
    out.word(second)
}

fn put_log_end(out: &mut Writer, end: &LogEnd) -> Result<(), AllocError>
    ensures bytes { OnOk result (out.new ≡ out.old ++ (word end.now.index ++ word end.now.term)) }
    ensures holds { (end.now.index < 2 ^ 64) × (end.now.term < 2 ^ 64) }
{
    put_two(out, end.index, end.term)
}

fn put_snapshot(out: &mut Writer, snapshot: &Snapshot) -> Result<(), AllocError>
    ensures bytes { OnOk result (out.new ≡ out.old ++ (word snapshot.now.index ++ (word snapshot.now.term ++ blob snapshot.now.bytes))) }
    ensures holds { OnOk result ((snapshot.now.index < 2 ^ 64) × (snapshot.now.term < 2 ^ 64)) }
    ensures size { OnOk result (length snapshot.now.bytes < 2 ^ 64) }
{
    out.word(snapshot.index)?;
    out.word(snapshot.term)?;
    put_blob(out, snapshot.bytes.as_slice())
}

fn put_blob(out: &mut Writer, bytes: &[u8]) -> Result<(), AllocError>
    ensures bytes { OnOk result (out.new ≡ out.old ++ blob bytes.now) }
    ensures size { length bytes.now < 2 ^ 64 }
{
    out.blob(bytes)
}

/// The number of the entries, their heads, and what they say.
fn put_entries(out: &mut Writer, entries: &[Entry]) -> Result<(), AllocError>
    ensures bytes { OnOk result (out.new ≡ out.old ++ field_bytes (EntriesField entries.now)) }
    ensures holds { OnOk result (AllHold (EntriesField entries.now ∷ [])) }
{
    out.word(entries.len() as u64)?;
    write_entry_heads(out, entries)?;
    write_entry_contents(out, entries)
}

/// The number of a message's type.
fn number(what: &MessageBody) -> u8
    ensures { result ≡ what_number what.now }
{
    match what {
        MessageBody::AskVote { .. } => 1,
        MessageBody::Vote { .. } => 2,
        MessageBody::Append { .. } => 3,
        MessageBody::Ack { .. } => 4,
        MessageBody::Install { .. } => 5,
        MessageBody::TimeoutNow => 6,
    }
}

fn put_append(
    out: &mut Writer,
    prev: &LogEnd,
    commit: u64,
    entries: &[Entry],
) -> Result<(), AllocError>
    ensures bytes { OnOk result (out.new ≡ out.old ++ ((word prev.now.index ++ word prev.now.term) ++ (word commit ++ field_bytes (EntriesField entries.now)))) }
    ensures holds { OnOk result (AllHold (EntriesField entries.now ∷ [])) }
    ensures prev { (prev.now.index < 2 ^ 64) × (prev.now.term < 2 ^ 64) }
{
    put_log_end(out, prev)?;
    out.word(commit)?;
    put_entries(out, entries)
}

fn put_what(out: &mut Writer, what: &MessageBody) -> Result<(), AllocError>
    ensures bytes { OnOk result (out.new ≡ out.old ++ fields_bytes (what_fields what.now)) }
    ensures holds { OnOk result (AllHold (what_fields what.now)) }
{
    match what {
        MessageBody::AskVote { last, .. } => put_log_end(out, last),
        MessageBody::Vote { granted } => out.word(flag(*granted)),
        MessageBody::Append {
            prev,
            commit,
            entries,
        } => put_append(out, prev, *commit, entries.as_slice()),
        MessageBody::Ack { good, index } => put_two(out, flag(*good), *index),
        MessageBody::Install { snapshot } => put_snapshot(out, snapshot),
        MessageBody::TimeoutNow => Ok(()),
    }
}

/// The mark of a transfer, if the message has it.
fn mark(what: &MessageBody) -> u8
    ensures value { result ≡ what_mark what.now }
    ensures fits { result ≤ 128 }
{
    match what {
        MessageBody::AskVote { transfer, .. } => { if *transfer { TRANSFER_MARK } else { 0 } }
        MessageBody::Vote { .. }
        | MessageBody::Append { .. }
        | MessageBody::Ack { .. }
        | MessageBody::Install { .. }
        | MessageBody::TimeoutNow => 0,
    }
}

/// The byte that names the receiver, with the mark; 0, which is no node's id, for an id that it can't hold.
fn schema(message: &RaftMessage) -> u8
    ensures { result ≡ message_schema message.now }
{
    let mark = mark(&message.what);
    if message.to <= MAX_RECEIVER {
        message.to as u8 + mark
    } else {
        0
    }
}

fn put_message(out: &mut Writer, message: &RaftMessage) -> Result<(), AllocError>
    ensures bytes { OnOk result (out.new ≡ out.old ++ (header 0 (what_number message.now.what) (message_schema message.now) ++ body_bytes message.now)) }
    ensures holds { OnOk result (AllHold (message_fields message.now)) }
{
    out.header(number(&message.what), schema(message))?;
    out.word(message.from)?;
    out.word(message.term)?;
    put_what(out, &message.what)
}

/// The bytes of a message except for entries and a snapshot, at most.
const REST: usize = 64;

/// The bytes of an entry's head and of what fills the entry up, at most.
const HEAD: usize = 24;

/// How many bytes the message takes at most; with it the writer's room is made once. Nothing but the number of growths
/// rests on it.
fn room(message: &RaftMessage) -> usize {
    match &message.what {
        MessageBody::Append { entries, .. } => entries_room(entries.as_slice()),
        MessageBody::Install { snapshot } => snapshot.bytes.len().saturating_add(REST),
        _ => REST,
    }
}

fn entries_room(entries: &[Entry]) -> usize {
    let mut room = REST;
    for entry in entries {
        room = room.saturating_add(entry.bytes.len()).saturating_add(HEAD);
    }
    room
}

fn whole_message(alloc: Global, message: &RaftMessage) -> Result<WireBytes, AllocError>
    ensures bytes { IfOk result (λ bytes. bytes ≡ message_bytes message.now) }
    ensures long { 4294967295 < length (body_bytes message.now) / 8 → IsErr result }
    ensures whole { IfOk result (λ bytes. length bytes % 8 ≡ 0) }
    ensures holds { OnOk result (AllHold (message_fields message.now)) }
{
    let mut out = Writer::with_capacity(alloc, room(message))?;
    put_message(&mut out, message)?;
    out.finish_message()
}

/// Writes a whole message of a peer, its header and its body. An entry of more than 4,294,967,295 bytes, and a body of
/// more than 4,294,967,295 words, are answered as if memory had run out; any other `Err` means out of memory. A message
/// with a number out of range (`RaftMessage::numbers_fit`), or to a node whose id is above 127, has no encoding, and
/// `read_message` refuses what is written of it.
pub fn write_message(alloc: Global, message: &RaftMessage) -> Result<WireBytes, AllocError>
    // If no number is out of range, what is written encodes the message.
    ensures writes { numbers_fit message.now ≡ true → message.now.to ≤ 127 → IfOk result (Writes message.now) }
    // Which bytes they are.
    ensures bytes { IfOk result (λ bytes. bytes ≡ message_bytes message.now) }
    // No entry of what is written is too large.
    ensures sizes { OnOk result (AllHold (message_fields message.now)) }
    ensures long { 4294967295 < length (body_bytes message.now) / 8 → IsErr result }
{
    whole_message(alloc, message)
}
