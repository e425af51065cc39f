//! What nodes say to each other.
ghost use Rattle.std.specs.Prelude.{◌≡◌, IfOk};

use crate::entry::{Entries, LogEnd};
use crate::shared::SharedBytes;
use std::alloc::AllocError;

/// A snapshot: the state that the entries up to its end make, as bytes.
#[derive(Debug, Drop)]
pub struct Snapshot {
    /// The index of the last entry that it represents.
    pub index: u64,
    /// The term of that entry.
    pub term: u64,
    /// The state, shared with every copy of the snapshot.
    pub bytes: SharedBytes,
}

impl Snapshot {
    /// The snapshot for one more owner: its bytes are shared, and none is copied. `Err` where their count is full.
    pub fn share(&self) -> Result<Snapshot, AllocError>
        ensures { IfOk result (λ copy. copy ≡ self.now) }
    {
        Ok(Snapshot {
            index: self.index,
            term: self.term,
            bytes: self.bytes.share()?,
        })
    }
}

/// What a message says. In Raft's papers AskVote is RequestVote, Append is AppendEntries and Install is
/// InstallSnapshot; Vote and Ack are their answers.
#[derive(Debug, Drop)]
pub enum MessageBody {
    /// A candidate asks for a vote.
    AskVote {
        /// Where its log ends.
        last: LogEnd,
        /// Whether a leader handed its leadership to it, by TimeoutNow. No grant depends on that.
        transfer: bool,
    },
    /// The answer to AskVote.
    Vote {
        /// Whether the sender gave its vote.
        granted: bool,
    },
    /// A leader sends entries of its log.
    Append {
        /// The place that the entries follow.
        prev: LogEnd,
        /// The leader's commit index.
        commit: u64,
        /// At most 16 of them can be read.
        entries: Entries,
    },
    /// The answer to Append and Install.
    Ack {
        /// Whether the log agrees with the leader's up to the index; else it agrees no further than there.
        good: bool,
        /// The index.
        index: u64,
    },
    /// A leader sends a snapshot in place of entries that it has no more.
    Install {
        /// The snapshot.
        snapshot: Snapshot,
    },
    /// A leader hands its leadership over: the receiver is to stand for election at once.
    TimeoutNow,
}

/// The greatest id of a node that a message can name as its receiver.
pub(crate) const MAX_RECEIVER: u64 = 127;

/// What an AskVote adds to the byte of the receiver if a leader handed its leadership to the sender.
pub(crate) const TRANSFER_MARK: u8 = 128;

/// A message from one node to another.
#[derive(Debug, Drop)]
pub struct RaftMessage {
    /// The sender's id.
    pub from: u64,
    /// The receiver's id. A message to an id above 127 is read by no node.
    pub to: u64,
    /// The term that the sender has.
    pub term: u64,
    /// What it says.
    pub what: MessageBody,
}
