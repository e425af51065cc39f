//! Connections that carry the messages of peers.

ghost use Rattle.std.specs.Prelude.{◌≡◌, ◌≢◌, ◌++◌, ◌∷◌, false, [], None, IfOk, OnOk, MatchOption, is_some, length};
ghost use Rattle.database_state.specs.ByName.{FirstAt};
ghost use Rattle.raft_messages.specs.declared.fault.PeerFault.TheVariants as faults;
ghost use Rattle.node_core.specs.Carrying.{first_waiting, heard_link, is_of, link_on, link_reason, peers_message, without_link, LinkTook, TookFirst};
ghost use Rattle.node_core.specs.declared.links.Link.{Link as LinkValue};

use client_connection::{CloseReason, PeerStream};
use raft_messages::{PeerFault, RaftMessage, read_message};
use std::alloc::{AllocError, Global};
use wire_words::Message;

/// A connection that carries the messages of one peer.
#[derive(Drop)]
pub(crate) struct Link {
    conn: u64,
    peer: u64,
    stream: PeerStream,
}

/// The connections that carry messages of peers.
#[derive(Drop)]
pub(crate) struct Links {
    alloc: Global,
    all: Vec<Link>,
}

/// What comes of the next message of a peer connection.
#[derive(Drop)]
pub(crate) enum Letter {
    /// A message of the peer.
    Message(RaftMessage),
    /// What came is none, or is not of the peer whose messages the connection of this number carries.
    Wrong(u64),
}

/// Only out of memory is a reason to give up; any other fault says that the bytes are no message.
fn give_up_for_memory(fault: PeerFault) -> Result<(), AllocError>
    ensures { OnOk result (fault ≢ faults.NoMemory) }
{
    match fault {
        PeerFault::NoMemory => Err(AllocError),
        _ => Ok(()),
    }
}

/// The message of the peer of this id to the node of another, if it is one.
fn message_of(
    alloc: Global,
    message: &Message,
    peer: u64,
    me: u64,
) -> Result<Option<RaftMessage>, AllocError>
    ensures { IfOk result (λ found. found ≡ peers_message me peer message.now) }
{
    match read_message(alloc, message, me) {
        Ok(read) if read.from == peer => Ok(Some(read)),
        Ok(_) => Ok(None),
        Err(fault) => {
            give_up_for_memory(fault)?;
            Ok(None)
        }
    }
}

/// Whether it is the peer connection of this connection.
fn is_of(link: &Link, conn: u64) -> bool
    ensures { result ≡ is_of conn link.now }
{
    link.conn == conn
}

/// The place of a connection among peer connections.
fn place_of(links: &[Link], conn: u64) -> Option<usize>
    ensures { MatchOption result (link_on conn links.now ≡ None) (FirstAt (is_of conn) links.now) }
{
    for (place, link) in links.iter().enumerate() {
        if is_of(link, conn) {
            return Some(place);
        }
    }
    None
}

impl Link {
    /// Takes the next message that waits, which is for the node of this id.
    fn next(&mut self, alloc: Global, me: u64) -> Result<Option<Letter>, AllocError>
        ensures { IfOk result (λ letter. LinkTook me self.old self.old.stream.waiting self.new letter) }
    {
        let Some(message) = self.stream.next() else {
            return Ok(None);
        };
        match message_of(alloc, &message, self.peer, me)? {
            Some(message) => Ok(Some(Letter::Message(message))),
            None => Ok(Some(Letter::Wrong(self.conn))),
        }
    }
}

/// Takes the next message that waits on one of these.
fn next_of(alloc: Global, links: &mut Vec<Link>, me: u64) -> Result<Option<Letter>, AllocError>
    ensures { IfOk result (λ letter. TookFirst me (first_waiting links.old.items) links.old.items links.new.items letter) }
{
    let count = links.as_slice().len();
    for place in 0..count {
        if let Some(letter) = links[place].next(alloc, me)? {
            return Ok(Some(letter));
        }
    }
    Ok(None)
}

impl Links {
    /// No peer connections.
    pub(crate) fn new(alloc: Global) -> Links
        ensures { result.all.items ≡ [] }
    {
        Links {
            alloc,
            all: Vec::new(alloc),
        }
    }

    /// Whether a connection carries a peer's messages.
    pub(crate) fn has(&self, conn: u64) -> bool
        ensures { result ≡ is_some (link_on conn self.now.all.items) }
    {
        place_of(self.all.as_slice(), conn).is_some()
    }

    /// How many there are.
    pub(crate) fn count(&self) -> u64
        ensures { result ≡ length self.now.all.items }
    {
        self.all.len() as u64
    }

    /// A connection carries the messages of a peer from now on.
    pub(crate) fn join(
        &mut self,
        conn: u64,
        peer: u64,
        stream: PeerStream,
    ) -> Result<(), AllocError>
        ensures { OnOk result (self.new.all.items ≡ self.old.all.items ++ (record { conn = conn; peer = peer; stream = stream }) ∷ []) }
    {
        self.all.push(Link { conn, peer, stream })?;
        Ok(())
    }

    /// A connection is gone, and what waits on it.
    pub(crate) fn leave(&mut self, conn: u64)
        ensures none { self.old.all.items ≡ [] → self.new.all.items ≡ [] }
        ensures left { self.new.all.items ≡ without_link conn self.old.all.items }
    {
        self.all.retain(|link| link.conn != conn);
    }

    /// The next bytes come on a connection. If it isn't one of these nothing happens.
    pub(crate) fn receive(&mut self, conn: u64, bytes: &[u8]) -> Result<(), AllocError>
        ensures none { self.old.all.items ≡ [] → self.new.all.items ≡ [] }
        ensures heard { OnOk result (self.new.all.items ≡ heard_link conn bytes.now self.old.all.items) }
    {
        match place_of(self.all.as_slice(), conn) {
            Some(place) => self.all[place].stream.receive(bytes),
            None => Ok(()),
        }
    }

    /// Takes the next message that waits, which is for the node of this id. None where none waits.
    pub(crate) fn next(&mut self, me: u64) -> Result<Option<Letter>, AllocError>
        ensures none { self.old.all.items ≡ [] → self.new.all.items ≡ [] }
        ensures waits { self.old.all.items ≡ [] → IfOk result (λ letter. letter ≡ None) }
        ensures took { IfOk result (TookFirst me (first_waiting self.old.all.items) self.old.all.items self.new.all.items) }
    {
        if self.all.as_slice().is_empty() {
            return Ok(None);
        }
        next_of(self.alloc, &mut self.all, me)
    }

    /// Why a connection is to be closed, if it carries a peer's messages and is at its end.
    pub(crate) fn reason(&self, conn: u64) -> Option<CloseReason>
        ensures { result ≡ link_reason (link_on conn self.now.all.items) }
    {
        match place_of(self.all.as_slice(), conn) {
            Some(place) => self.all[place].stream.close_reason(),
            None => None,
        }
    }
}
