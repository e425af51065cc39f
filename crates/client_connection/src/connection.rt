ghost use Rattle.std.specs.Prelude.{◌≡◌, ◌||◌, not, nat_lt, ◌+◌, ◌≤◌, ◌<◌, ◌^◌, [], ◌∷◌, ◌++◌, length, take, sum_by, IfOk, OnOk, IsErr, MatchOption, if◌then◌else◌};
ghost use Rattle.wire_words.specs.Stream.{going_on, client_limit, unread_bytes};
ghost use Rattle.std.specs.Option.{option_or};
ghost use Rattle.client_connection.specs.Connection.{IsFed, opened, received, with_more, held, footprint, room, message_size, version_room, stream_reason, limit_reason, reason_of, TakesFirst};

use crate::peer_stream::PeerStream;
use std::alloc::{AllocError, Global};
use std::collections::VecDeque;
use std::marker::Model;
use wire_words::{Message, SplitFault, Splitter};

/// Why a server closes a connection, by what came on it.
#[derive(Clone, Copy, Debug, PartialEq, Eq)]
pub enum CloseReason {
    /// Number 1: the stream begins with another version than 1.
    Version,
    /// Number 2: a header states more words than a message may have.
    TooLong,
    /// Number 3: there is no room for a client or for a byte of it.
    Limit,
    /// Number 5: a message isn't one of the peer whose messages the connection carries.
    Peer,
}

impl CloseReason {
    ghost use Rattle.client_connection.specs.Connection.{reason_number};

    /// The number of the reason.
    pub fn number(self) -> u64
        ensures { result ≡ reason_number self }
    {
        match self {
            CloseReason::Version => 1,
            CloseReason::TooLong => 2,
            CloseReason::Limit => 3,
            CloseReason::Peer => 5,
        }
    }
}

/// How many bytes of a connection may wait to be handled: 32 MiB. Those of a message that isn't there whole count, and header
/// and body of each message that wasn't taken.
pub const MAX_HELD_BYTES: u64 = 33_554_432;

/// A client's connection. Clauses see how its stream ends so far, the messages that wait, and whether a byte came for which
/// there was no room.
///
/// It holds the messages that were not taken and the part of a message that is unread, each byte once. The messages of
/// the last piece are in their own list until the next piece comes: so a piece that finds no memory changes
/// nothing.
#[derive(Drop)]
pub struct Connection {
    alloc: Global,
    splitter: Splitter,
    earlier: VecDeque<Message>,
    latest: VecDeque<Message>,
    // How many bytes the messages have that wait.
    waiting_bytes: u64,
    // The version word is there whole.
    is_begun: bool,
    is_full: bool,
}

impl Model for Connection {
    ghost use Rattle.std.specs.Prelude.{◌++◌};
    ghost use Rattle.client_connection.specs.Connection.{Conn, Counts};

    ghost Value = { Conn };

    ghost view = { λ c. record { end = c.splitter.end; waiting = c.earlier.items ++ c.latest.items; full = c.is_full } };

    ghost invariant = { λ c. Counts c.splitter (c.earlier.items ++ c.latest.items) c.is_begun c.waiting_bytes };
}

// The messages that a piece adds. `Err` means out of memory, and changes
// nothing.
fn feed(alloc: Global, splitter: &mut Splitter, piece: &[u8]) -> Result<Vec<Message>, AllocError>
    requires { IsFed splitter.old }
    ensures fed { IsFed splitter.new }
    ensures added { IfOk result (λ messages. (messages.items ≡ (going_on client_limit splitter.old.end piece.now).messages)
        × (splitter.new.end ≡ (going_on client_limit splitter.old.end piece.now).end)) }
    ensures same { IsErr result → splitter.new ≡ splitter.old }
{
    match splitter.feed(piece) {
        Ok(messages) => Ok(messages),
        Err(SplitFault::NoMemory) => Err(AllocError),
        Err(_) => Ok(Vec::new(alloc)),
    }
}

// Why the stream is at its end, if it is.
pub(crate) fn end_reason(splitter: &Splitter) -> Option<CloseReason>
    ensures { result ≡ stream_reason splitter.now.end }
{
    match splitter.fault() {
        Some(SplitFault::Version(_)) => Some(CloseReason::Version),
        Some(SplitFault::TooLong(_)) => Some(CloseReason::TooLong),
        Some(SplitFault::NoMemory) | None => None,
    }
}

// The reason at the stream's end, and without one that of a byte for which there was no room.
pub(crate) fn closes_for(end: Option<CloseReason>, is_full: bool) -> Option<CloseReason>
    ensures { result ≡ option_or end (limit_reason is_full) }
{
    match end {
        Some(reason) => Some(reason),
        None if is_full => Some(CloseReason::Limit),
        None => None,
    }
}

// The first of the earlier messages, and if there are none the first of the latest.
pub(crate) fn first_of(
    earlier: &mut VecDeque<Message>,
    latest: &mut VecDeque<Message>,
) -> Option<Message>
    ensures { MatchOption result
        ((earlier.old.items ++ latest.old.items ≡ []) × (earlier.new.items ++ latest.new.items ≡ earlier.old.items ++ latest.old.items))
        (λ first. earlier.old.items ++ latest.old.items ≡ first ∷ (earlier.new.items ++ latest.new.items)) }
{
    match earlier.pop_front() {
        Some(first) => Some(first),
        None => latest.pop_front(),
    }
}

fn bytes_of(message: &Message) -> u64
    requires { message_size message.now < 2 ^ 64 }
    ensures { result ≡ message_size message.now }
{
    8 + message.body.len() as u64
}

fn bytes_of_all(messages: &[Message]) -> u64
    requires { sum_by message_size messages.now < 2 ^ 64 }
    ensures { result ≡ sum_by message_size messages.now }
{
    let mut count = 0;
    for message in messages {
        count += bytes_of(message);
    }
    count
}

// The part of a piece for which there is room.
fn front_of(piece: &[u8], room: u64) -> &[u8]
    ensures { result.now ≡ take room piece.now }
{
    if room < piece.len() as u64 {
        &piece[..room as usize]
    } else {
        piece
    }
}

// How many bytes of what is unread are the version word's.
fn version_room(is_begun: bool) -> u64
    ensures { result ≡ (if is_begun then 0 else 8) }
{
    if is_begun { 0 } else { 8 }
}

// Whether the version word is there whole, if this many bytes are unread.
fn begins(is_begun: bool, unread: u64) -> bool
    ensures { result ≡ (is_begun || not (nat_lt unread 8)) }
{
    is_begun || unread >= 8
}

impl Connection {
    /// A connection of which nothing has come.
    pub fn new(alloc: Global) -> Connection
        ensures { result ≡ opened }
    {
        Connection {
            alloc,
            splitter: Splitter::new(alloc),
            earlier: VecDeque::new(alloc),
            latest: VecDeque::new(alloc),
            waiting_bytes: 0,
            is_begun: false,
            is_full: false,
        }
    }

    /// How many bytes are held: those that are unread, and header and body of each message that waits.
    #[tactic(auto, unfolding(crate::specs::Connection::held))]
    pub fn held(&self) -> u64
        ensures held { result ≡ held self.now }
        ensures limit { result ≤ 33554432 + version_room self.now.end }
    {
        self.splitter.held() + self.waiting_bytes
    }

    /// About how many bytes of memory that takes: 128 more for each message that waits. The sum stops at the last number of 64 bits.
    pub fn footprint(&self) -> u64
        ensures { result ≡ footprint self.now }
    {
        let messages = (self.earlier.len() + self.latest.len()) as u64;
        self.held().saturating_add(messages.saturating_mul(128))
    }

    // For how many bytes there is room. Before the version word is there whole, its eight bytes don't count.
    fn room(&self) -> u64
        ensures { result ≡ room self.now }
    {
        MAX_HELD_BYTES + version_room(self.is_begun) - self.held()
    }

    // Reads bytes for which there is room. `Err` means out of memory, and changes
    // nothing.
    fn read(&mut self, bytes: &[u8]) -> Result<(), AllocError>
        requires { length bytes.now ≤ room self.old }
        ensures ok { OnOk result (self.new ≡ with_more self.old (going_on client_limit self.old.end bytes.now) self.old.full) }
        ensures err { IsErr result → self.new ≡ self.old }
    {
        self.earlier.append(&mut self.latest)?;
        let is_begun = begins(self.is_begun, self.splitter.held() + bytes.len() as u64);
        let messages = feed(self.alloc, &mut self.splitter, bytes)?;
        self.waiting_bytes += bytes_of_all(messages.as_slice());
        self.is_begun = is_begun;
        self.latest = VecDeque::from(messages);
        Ok(())
    }

    /// Takes the next piece of the stream, of any length: the messages that are whole with it wait after those that wait
    /// already. After the end of the stream nothing is read any more, nor is a byte for which there is no room, or any byte
    /// after it. `Err` means out of memory, and leaves the connection as it was before the piece, so that the piece may be
    /// given again. Each byte is copied once, into its message; a message that waits is moved once more, without its bytes.
    pub fn receive(&mut self, piece: &[u8]) -> Result<(), AllocError>
        ensures ok { OnOk result (self.new ≡ received self.old piece.now) }
        ensures err { IsErr result → self.new ≡ self.old }
    {
        if self.is_full {
            return Ok(());
        }
        let room = self.room();
        self.read(front_of(piece, room))?;
        self.is_full = room < piece.len() as u64;
        Ok(())
    }

    /// Takes the first message that waits.
    pub fn next(&mut self) -> Option<Message>
        ensures { TakesFirst self.old self.new result }
    {
        let message = first_of(&mut self.earlier, &mut self.latest)?;
        self.waiting_bytes -= bytes_of(&message);
        Some(message)
    }

    /// Why the connection closes after the messages that wait, if its stream is at its end or there was no room for a byte.
    /// If both are so, it is what came first.
    pub fn close_reason(&self) -> Option<CloseReason>
        ensures { result ≡ reason_of self.now }
    {
        closes_for(end_reason(&self.splitter), self.is_full)
    }

    /// How many bytes are unread: those of the message that isn't there whole yet. The messages that wait are not counted.
    pub fn unread(&self) -> u64
        ensures { result ≡ length (unread_bytes self.now.end) }
    {
        self.splitter.held()
    }

    /// The connection where a peer's messages follow, which may have 33,554,432 words: what waits and what is unread stays so, and so
    /// does why it closes; any number of bytes may wait then.
    pub fn into_peer(self) -> PeerStream
        ensures { result ≡ self }
    {
        PeerStream {
            alloc: self.alloc,
            splitter: self.splitter.for_peer(),
            earlier: self.earlier,
            latest: self.latest,
            is_full: self.is_full,
        }
    }
}
