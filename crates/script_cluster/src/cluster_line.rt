//! What a cluster says.

ghost use Rattle.std.specs.Prelude.{◌≡◌};

use raft_core::RaftRole;
use raft_messages::MessageBody;
use wire_words::WireBytes;

/// The kinds of messages between nodes.
#[derive(Clone, Copy, Debug, PartialEq, Eq)]
pub enum MessageKind {
    /// A candidate asks for a vote.
    AskVote,
    /// The answer to it.
    Vote,
    /// Entries of a leader's log.
    Append,
    /// The answer to entries and to a snapshot.
    Ack,
    /// A leader's snapshot.
    Install,
    /// The receiver is to stand for election at once.
    TimeoutNow,
}

impl MessageKind {
    ghost use Rattle.script_cluster.specs.Kinds.{kind_of, kind_name};

    /// The kind of what a message says.
    pub fn of(what: &MessageBody) -> MessageKind
        ensures { result ≡ kind_of what.now }
    {
        match what {
            MessageBody::AskVote { .. } => MessageKind::AskVote,
            MessageBody::Vote { .. } => MessageKind::Vote,
            MessageBody::Append { .. } => MessageKind::Append,
            MessageBody::Ack { .. } => MessageKind::Ack,
            MessageBody::Install { .. } => MessageKind::Install,
            MessageBody::TimeoutNow => MessageKind::TimeoutNow,
        }
    }

    /// Its name, as it is printed.
    pub fn name(self) -> &'static str
        ensures { result.now ≡ kind_name self }
    {
        match self {
            MessageKind::AskVote => "AskVote",
            MessageKind::Vote => "Vote",
            MessageKind::Append => "Append",
            MessageKind::Ack => "Ack",
            MessageKind::Install => "Install",
            MessageKind::TimeoutNow => "TimeoutNow",
        }
    }
}

/// Why a node is down that no line has stopped or crashed.
#[derive(Clone, Copy, Debug, PartialEq, Eq)]
pub enum DownCause {
    /// Number 1: a call of its disk failed.
    DiskFault,
    /// Number 2: what its disk has isn't what a node leaves.
    Unreadable,
}

impl DownCause {
    ghost use Rattle.script_cluster.specs.Kinds.{cause_number};

    /// The number of the cause.
    pub fn number(self) -> u64
        ensures { result ≡ cause_number self }
    {
        match self {
            DownCause::DiskFault => 1,
            DownCause::Unreadable => 2,
        }
    }
}

/// The number of the reason for which a connection closes whose node is down; those of a node that runs are described by
/// `CloseReason`.
pub(crate) const NODE_DOWN: u64 = 4;

/// Something that a cluster says.
#[derive(Drop)]
pub enum ClusterLine {
    /// A whole response went to the client of a connection.
    Reply {
        connection: u64,
        bytes: WireBytes,
    },
    /// A connection closed: by its node, for the reason of this number, or with its node, if the number is 4.
    Closed {
        connection: u64,
        reason: u64,
    },
    /// A node made a message to another one. Messages count from 1 over the whole script.
    Message {
        number: u64,
        from: u64,
        to: u64,
        kind: MessageKind,
    },
    /// The disk of a node stopped at the call that the line aims at, and the node is down.
    Stopped {
        node: u64,
    },
    /// A node is down.
    Down {
        node: u64,
        cause: DownCause,
    },
    /// How a node stands: its term, its role, the index that it has applied, and the SHA-256 of its files.
    Node {
        node: u64,
        term: u64,
        role: RaftRole,
        applied: u64,
        digest: [u8; 32],
    },
    /// A node stands nowhere, as it is down.
    NodeDown {
        node: u64,
    },
}
