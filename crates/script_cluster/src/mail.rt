//! The messages between nodes.

ghost use Rattle.std.specs.Prelude.{◌≡◌, ◌≤◌, ◌<◌, ◌++◌, List, [], map, take, drop, length, min, slice_index, get_or, IfOk, IfSome, OnOk};
ghost use Rattle.std.specs.List.{AllByRecursion, sum_by};
ghost use Rattle.raft_messages.specs.declared.message.RaftMessage.{RaftMessage};
ghost use Rattle.script_grammar.specs.Usage.{with_messages};
ghost use Rattle.script_cluster.specs.World.{Letter as Seen, bytes_in, letter_of, letters_of, wire_message};
ghost use Rattle.script_cluster.specs.Knowing.{CanHold};
ghost use Rattle.script_cluster.specs.Seen.{Arrives, HaveArrived, IsFirstWaiting, letter_seen};

use dq_base::Items;
use raft_messages::{PeerFault, RaftMessage, read_message, write_message};
use script_grammar::Usage;
use std::alloc::{AllocError, Global};
use std::marker::Model;
use wire_words::{Message, WireBytes};

/// A message that a node made: whom it is for, its bytes, and whether it has ever arrived.
#[derive(Drop)]
pub(crate) struct Letter {
    pub(crate) to: u64,
    pub(crate) bytes: WireBytes,
    pub(crate) has_arrived: bool,
}

/// All messages that were ever made, in the order in which they were made. They are kept as bytes, as each may arrive as often as
/// the script says.
#[derive(Drop)]
pub(crate) struct Mail {
    alloc: Global,
    letters: Vec<Letter>,
    /// All peer messages in front of this place have arrived.
    front: usize,
}

impl Model for Mail {
    ghost use Rattle.std.specs.Prelude.{◌≤◌, List, length, map, take};
    ghost use Rattle.script_cluster.specs.World.{Letter as Seen};
    ghost use Rattle.script_cluster.specs.Seen.{letter_seen, HaveArrived};

    ghost Value = { List Seen };

    ghost view = { λ m. map letter_seen m.letters.items };

    ghost invariant = { λ m. (m.front ≤ length (map letter_seen m.letters.items)) × HaveArrived (take m.front (map letter_seen m.letters.items)) };
}

/// The byte at a place; 0 past the end.
fn byte_at(bytes: &[u8], place: usize) -> u8
    ensures { result ≡ slice_index bytes.now place }
{
    if place < bytes.len() { bytes[place] } else { 0 }
}

/// The bytes from a place on; none past the end.
fn bytes_from(bytes: &[u8], place: usize) -> &[u8]
    ensures { result.now ≡ drop place bytes.now }
{
    if place <= bytes.len() {
        &bytes[place..]
    } else {
        &[]
    }
}

/// The message of these bytes, as the wire has it. Copies the body.
fn message_in(alloc: Global, bytes: &[u8]) -> Result<Message, AllocError>
    ensures { IfOk result (λ message. message ≡ wire_message bytes.now) }
{
    let body = bytes_from(bytes, 8);
    Ok(Message {
        kind: byte_at(bytes, 4),
        schema: byte_at(bytes, 5),
        body: Items::new(Vec::from_slice(alloc, body)?),
    })
}

/// The message that arrives by these bytes at a node; none if a number of it is out of range. Copies the body twice.
fn arriving(alloc: Global, to: u64, bytes: &[u8]) -> Result<Option<RaftMessage>, AllocError>
    ensures { IfOk result (Arrives to bytes.now) }
{
    let message = message_in(alloc, bytes)?;
    match read_message(alloc, &message, to) {
        Ok(message) => Ok(Some(message)),
        Err(PeerFault::NoMemory) => Err(AllocError),
        Err(_) => Ok(None),
    }
}

/// The place of the first peer message from a place on that has never arrived; the number of peer messages without one.
fn next_waiting(letters: &[Letter], from: usize) -> usize
    requires { from ≤ length letters.now }
    ensures within { result ≤ length letters.now }
    ensures arrived { HaveArrived (take from (map letter_seen letters.now)) → HaveArrived (take result (map letter_seen letters.now)) }
    ensures first { IsFirstWaiting (map letter_seen letters.now) from result }
{
    let mut place = from;
    while place < letters.len() {
        if !letters[place].has_arrived {
            return place;
        }
        place += 1;
    }
    place
}

impl Mail {
    ghost use Rattle.script_cluster.specs.World.{arrived_at, first_waiting};

    /// No message.
    pub(crate) fn new(alloc: Global) -> Mail
        ensures { result ≡ [] }
    {
        Mail {
            alloc,
            letters: Vec::new(alloc),
            front: 0,
        }
    }

    /// How many messages were made.
    pub(crate) fn count(&self) -> usize
        ensures { result ≡ length self.now }
    {
        self.letters.len()
    }

    /// The place of the first message that has never arrived.
    pub(crate) fn first_waiting(&mut self) -> Option<usize>
        ensures place { result ≡ first_waiting self.old }
        ensures within { IfSome result (λ place. place < length self.new) }
        ensures same { self.new ≡ self.old }
    {
        let place = next_waiting(self.letters.as_slice(), self.front);
        self.front = place;
        if place < self.letters.len() {
            Some(place)
        } else {
            None
        }
    }

    /// The message at a place arrives: answers it, unless a number of it is out of range. Copies its body twice. `Err` means out
    /// of memory, and changes nothing.
    pub(crate) fn arrive(&mut self, place: usize) -> Result<Option<RaftMessage>, AllocError>
        requires { place < length self.old }
        ensures read { IfOk result (λ message. (d : Seen) → Arrives (get_or self.old place d).to (get_or self.old place d).bytes message) }
        ensures arrived { OnOk result (self.new ≡ arrived_at self.old place) }
    {
        let letter = &self.letters[place];
        let message = arriving(self.alloc, letter.to, letter.bytes.as_slice())?;
        self.letters[place].has_arrived = true;
        Ok(message)
    }

    /// Letters join, after all others.
    pub(crate) fn join(&mut self, letters: Vec<Letter>) -> Result<(), AllocError>
        ensures { OnOk result (self.new ≡ self.old ++ map letter_seen letters.items) }
    {
        let mut letters = letters;
        self.letters.append(&mut letters)?;
        Ok(())
    }
}

/// A new message as a peer message, which has not arrived.
fn letter_for(alloc: Global, message: &RaftMessage) -> Result<Letter, AllocError>
    ensures letter { IfOk result (λ letter. letter_seen letter ≡ letter_of message.now) }
    ensures hold { OnOk result (CanHold message.now) }
{
    Ok(Letter {
        to: message.to,
        bytes: write_message(alloc, message)?,
        has_arrived: false,
    })
}

/// New messages as peer messages, none of which has arrived.
pub(crate) fn written(alloc: Global, messages: &[RaftMessage]) -> Result<Vec<Letter>, AllocError>
    ensures letters { IfOk result (λ letters. map letter_seen letters.items ≡ letters_of messages.now) }
    ensures hold { OnOk result (AllByRecursion CanHold messages.now) }
{
    let mut letters = Vec::with_capacity(alloc, messages.len())?;
    for message in messages {
        letters.push(letter_for(alloc, message)?)?;
    }
    Ok(letters)
}

/// How many bytes peer messages have, with their headers; the last number, if they have more than that.
fn size_of(letters: &[Letter]) -> u64
    ensures { result ≡ min (sum_by (λ (letter : Seen). length letter.bytes) (map letter_seen letters.now)) 18446744073709551615 }
{
    let mut size: u64 = 0;
    for letter in letters {
        size = size.saturating_add(letter.bytes.len() as u64);
    }
    size
}

#[tactic(auto, using(crate::proofs::Posting::sized))]
/// What was used, with the bytes of these peer messages; `None` where a script doesn't make as many.
pub(crate) fn with_letters(usage: Usage, letters: &[Letter]) -> Option<Usage>
    ensures { (messages : List RaftMessage) → map letter_seen letters.now ≡ letters_of messages → result ≡ with_messages usage (bytes_in messages) }
{
    usage.with_messages(size_of(letters))
}
