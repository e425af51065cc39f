ghost use Rattle.std.specs.Prelude.{◌≡◌, IfOk, OnOk, IsErr};
ghost use Rattle.wire_words.specs.Stream.{going_on, peer_limit};
ghost use Rattle.client_connection.specs.Connection.{peer_received, reason_of, TakesFirst};

use crate::connection::{CloseReason, closes_for, end_reason, first_of};
use std::alloc::{AllocError, Global};
use std::collections::VecDeque;
use std::marker::Model;
use wire_words::{Message, SplitFault, Splitter};

/// A connection whose stream carries a peer's messages. Clauses see it as they see a `Connection`.
///
/// It holds the messages that were not taken and the part of a message that is unread, each byte once; how many is not limited.
#[derive(Drop)]
pub struct PeerStream {
    pub(crate) alloc: Global,
    pub(crate) splitter: Splitter,
    pub(crate) earlier: VecDeque<Message>,
    pub(crate) latest: VecDeque<Message>,
    pub(crate) is_full: bool,
}

impl Model for PeerStream {
    ghost use Rattle.std.specs.Prelude.{◌≡◌, ◌++◌};
    ghost use Rattle.wire_words.specs.Stream.{peer_limit};
    ghost use Rattle.client_connection.specs.Connection.{Conn};

    ghost Value = { Conn };

    ghost view = { λ c. record { end = c.splitter.end; waiting = c.earlier.items ++ c.latest.items; full = c.is_full } };

    ghost invariant = { λ c. c.splitter.limit ≡ peer_limit };
}

// The messages that a piece adds. `Err` means out of memory, and changes
// nothing.
fn feed(alloc: Global, splitter: &mut Splitter, piece: &[u8]) -> Result<Vec<Message>, AllocError>
    requires { splitter.old.limit ≡ peer_limit }
    ensures limit { splitter.new.limit ≡ peer_limit }
    ensures added { IfOk result (λ messages. (messages.items ≡ (going_on peer_limit splitter.old.end piece.now).messages)
        × (splitter.new.end ≡ (going_on peer_limit splitter.old.end piece.now).end)) }
    ensures same { IsErr result → splitter.new ≡ splitter.old }
{
    match splitter.feed(piece) {
        Ok(messages) => Ok(messages),
        Err(SplitFault::NoMemory) => Err(AllocError),
        Err(_) => Ok(Vec::new(alloc)),
    }
}

impl PeerStream {
    /// Takes the next piece of the stream, of any length: the messages that are whole with it wait after those that wait already.
    /// After the end of the stream nothing is read any more, nor after a byte for which there was no room before the stream was a
    /// peer's. `Err` means out of memory, and leaves it as it was before the piece, so that the piece may be given again.
    pub fn receive(&mut self, piece: &[u8]) -> Result<(), AllocError>
        ensures ok { OnOk result (self.new ≡ peer_received self.old piece.now) }
        ensures err { IsErr result → self.new ≡ self.old }
    {
        if self.is_full {
            return Ok(());
        }
        self.earlier.append(&mut self.latest)?;
        let messages = feed(self.alloc, &mut self.splitter, piece)?;
        self.latest = VecDeque::from(messages);
        Ok(())
    }

    /// Takes the first message that waits.
    pub fn next(&mut self) -> Option<Message>
        ensures { TakesFirst self.old self.new result }
    {
        first_of(&mut self.earlier, &mut self.latest)
    }

    /// Why it closes after the messages that wait, if its stream is at its end or there was no room for a byte.
    pub fn close_reason(&self) -> Option<CloseReason>
        ensures { result ≡ reason_of self.now }
    {
        closes_for(end_reason(&self.splitter), self.is_full)
    }
}
