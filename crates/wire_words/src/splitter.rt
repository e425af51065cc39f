ghost use Rattle.std.specs.Prelude.{◌≡◌, ◌++◌, [], length, None, IfOk, IfErr, List, ℕ};
ghost use Rattle.wire_words.specs.declared.splitter.SplitFault.TheVariants.{NoMemory};
ghost use Rattle.wire_words.specs.Stream.{Feeds, Answers, Adds, BreaksWith, going_on, fed, client_limit, peer_limit, version_word, unread_bytes, fault_in, stream};

use crate::message::Message;
use crate::unfinished::{Unfinished, go_on};
use std::alloc::{AllocError, AllocFailed, Global};
use std::marker::Model;
use thiserror::Error;

/// Why a stream is at its end. After one of the first two nothing of it is read any more.
#[derive(Clone, Copy, Debug, PartialEq, Eq, Error)]
pub enum SplitFault {
    /// The stream begins with another word than the version 1.
    #[error("the stream begins with version {0}")]
    Version(u64),
    /// A header states this many words, which are more than a message may have.
    #[error("a header claims {0} words")]
    TooLong(u32),
    /// There is not enough memory.
    #[error("out of memory")]
    NoMemory,
}

impl From<AllocError> for SplitFault {
    ghost from_gives = { λ _ fault. fault ≡ NoMemory };

    fn from(_error: AllocError) -> SplitFault {
        SplitFault::NoMemory
    }
}

impl<T: Drop> From<AllocFailed<T>> for SplitFault {
    ghost from_gives = { λ _ fault. fault ≡ NoMemory };

    fn from(_error: AllocFailed<T>) -> SplitFault {
        SplitFault::NoMemory
    }
}

/// How many words a message from a client or to a client may have: 16 MiB.
pub const MAX_CLIENT_WORDS: u32 = 2_097_152;

/// How many words a message between nodes may have: 256 MiB.
pub const MAX_PEER_WORDS: u32 = 33_554_432;

/// Cuts a stream into its messages, however it comes. A stream is the version word 1 and then messages, one after the
/// other. Clauses see how many words a message may have and how the stream ends so far: within its version word, with a
/// part of a message unread, or at a fault.
///
/// It holds what is unread and no more. A byte is copied once into the message that it is part of, which grows with its
/// bytes and not with what its header states; if a message comes in several pieces, growing copies each byte once
/// more on average.
#[derive(Drop)]
pub struct Splitter {
    alloc: Global,
    limit: u32,
    fault: Option<SplitFault>,
    unfinished: Unfinished,
}

impl Model for Splitter {
    ghost use Rattle.std.specs.Prelude.{◌≤◌};
    ghost use Rattle.wire_words.specs.Stream.{Splitting, end_with, peer_limit};
    ghost use Rattle.wire_words.specs.Holding.{Holds, held_bytes};

    ghost Value = { Splitting };

    ghost view = { λ s. record { limit = s.limit; end = end_with s.fault s.unfinished.begun (held_bytes s.unfinished) } };

    ghost invariant = { λ s. Holds s.limit s.unfinished × (s.limit ≤ peer_limit) };
}

/// The messages, or if there are none the fault.
fn answer(messages: Vec<Message>, fault: Option<SplitFault>) -> Result<Vec<Message>, SplitFault>
    ensures { Answers (λ messages. messages.items) messages.items fault result }
{
    match fault {
        Some(fault) if messages.is_empty() => Err(fault),
        _ => Ok(messages),
    }
}

impl Splitter {
    /// A splitter at the start of a stream of a client.
    pub fn new(alloc: Global) -> Splitter
        ensures { result ≡ fed client_limit [] }
    {
        Splitter {
            alloc,
            limit: MAX_CLIENT_WORDS,
            fault: None,
            unfinished: Unfinished::nothing(alloc, false),
        }
    }

    /// A splitter that is as if it had been fed the version word, as a client needs to read its answers.
    pub fn after_version(alloc: Global) -> Splitter
        ensures { result ≡ fed client_limit version_word }
    {
        Splitter {
            alloc,
            limit: MAX_CLIENT_WORDS,
            fault: None,
            unfinished: Unfinished::nothing(alloc, true),
        }
    }

    /// The splitter of the same stream where a peer's messages follow, which may have 33,554,432 words: what is unread stays so,
    /// and so does a fault. If the stream has none, it is as if that had been its limit from the start.
    pub fn for_peer(self) -> Splitter
        ensures value { result ≡ record { limit = peer_limit; end = self.end } }
        ensures joined { (before : List ℕ) → self ≡ fed self.limit before → fault_in self.end ≡ None → result ≡ fed peer_limit before }
        ensures same { (before : List ℕ) → self ≡ fed self.limit before → fault_in self.end ≡ None →
            stream peer_limit before ≡ stream self.limit before }
    {
        Splitter {
            alloc: self.alloc,
            limit: MAX_PEER_WORDS,
            fault: self.fault,
            unfinished: self.unfinished,
        }
    }

    /// The fault at which the stream is at its end, if there is one: `Version` or `TooLong`.
    pub fn fault(&self) -> Option<SplitFault>
        ensures { result ≡ fault_in self.now.end }
    {
        self.fault
    }

    /// How many bytes are unread: those of the message that isn't there whole yet, its header included. After a fault
    /// there are none.
    pub fn held(&self) -> u64
        ensures { result ≡ length (unread_bytes self.now.end) }
    {
        if self.fault.is_some() {
            0
        } else {
            (self.unfinished.head_len + self.unfinished.body.len()) as u64
        }
    }

    /// Takes the next piece of the stream, of any length, and gives the messages that are whole with it. A fault after
    /// messages of this piece is answered by the next feed, also of an empty piece; one without messages before it at
    /// once. All later feeds answer it too. `NoMemory` leaves the splitter as it was before the piece.
    pub fn feed(&mut self, piece: &[u8]) -> Result<Vec<Message>, SplitFault>
        // What the piece adds to the stream.
        ensures exact { Feeds (λ messages. messages.items) self.old self.new (going_on self.old.limit self.old.end piece.now) result }
        // The messages of all pieces are those of the pieces joined.
        ensures joined { (before : List ℕ) → self.old ≡ fed self.old.limit before →
            IfOk result (λ messages. Adds self.old.limit before (before ++ piece.now) messages.items self.new) }
        // A fault is that of the pieces joined, and no message is before it that wasn't given.
        ensures fault { (before : List ℕ) → self.old ≡ fed self.old.limit before → IfErr result (λ fault.
            BreaksWith fault self.old.limit before (before ++ piece.now) self.old self.new) }
    {
        self.add(piece)
    }

    /// Takes a piece, and answers what it adds to the stream.
    fn add(&mut self, piece: &[u8]) -> Result<Vec<Message>, SplitFault>
        ensures { Feeds (λ messages. messages.items) self.old self.new (going_on self.old.limit self.old.end piece.now) result }
    {
        if let Some(fault) = self.fault {
            return Err(fault);
        }
        let mut messages = Vec::new(self.alloc);
        let fault = go_on(
            self.alloc,
            self.limit,
            &mut self.unfinished,
            piece,
            &mut messages,
        )?;
        self.fault = fault;
        answer(messages, fault)
    }
}
