//! Nodes, and what they say.

use crate::seat::TestNode;
use disk_model::Stop;
use dq_base::Bytes;
use node_core::{Event, StepOutputs};
use raft_messages::RaftMessage;
use std::alloc::Global;
use std::collections::VecDeque;
use std::test::Fail;
use wire_words::WireBytes;

/// One voter.
pub(crate) const ONE: &[u8] =
    b"\x01\0\0\0\0\0\0\0\x01\0\0\0\0\0\0\0n\0\0\0\0\0\0\0\0\0\0\0\0\0\0\0";

/// Three voters.
pub(crate) const THREE: &[u8] =
    b"\x03\0\0\0\0\0\0\0\x01\0\0\0\0\0\0\0n\0\0\0\0\0\0\0\0\0\0\0\0\0\0\0\
    \x02\0\0\0\0\0\0\0n\0\0\0\0\0\0\0\0\0\0\0\0\0\0\0\x03\0\0\0\0\0\0\0n\0\0\0\0\0\0\0\0\0\0\0\0\0\0\0";

/// The version of the wire, and an OPEN of `d`.
pub(crate) const OPEN: &[u8] =
    b"\x01\0\0\0\0\0\0\0\x04\0\0\0\x03\0\0\0d\0\0\0\0\0\0\0\0\0\0\0\0\0\0\0volatile\0\0\0\0\0\0\0\0";

/// EXEC_SQL of `SET 1 7`.
pub(crate) const SET: &[u8] = b"\x02\0\0\0\x08\0\0\0\0\0\0\0\0\0\0\0SET 1 7\0";

/// QUERY_SQL of `GET 1`.
pub(crate) const GET: &[u8] = b"\x02\0\0\0\x09\0\0\0\0\0\0\0\0\0\0\0GET 1\0\0\0";

/// The numbers of the responses STMT_RESULT and ROWS.
const RESULT: u8 = 6;

const ROWS: u8 = 7;

/// How many messages are delivered at most, until none is under way.
const MESSAGES: u32 = 1_000;

/// A reply: its connection, its number, and the first value of its first row, as a small number, if it has one.
#[derive(Clone, Copy)]
struct Reply {
    conn: u64,
    kind: u8,
    value: Option<u8>,
}

fn reply_of(conn: u64, bytes: &WireBytes) -> Reply {
    let bytes = bytes.as_slice();
    Reply {
        conn,
        kind: bytes.get(4).copied().unwrap_or(0),
        value: bytes.get(32).copied(),
    }
}

/// Nodes with the ids 1, 2, .., the messages that are under way between them, and what was said to clients.
#[derive(Drop)]
pub(crate) struct Cluster {
    alloc: Global,
    seats: Vec<TestNode>,
    mail: VecDeque<RaftMessage>,
    replies: Vec<Reply>,
}

impl Cluster {
    /// This many nodes, which have kept nothing, and of which these are the servers.
    pub(crate) fn fresh(
        alloc: Global,
        nodes: u64,
        servers: &'static [u8],
    ) -> Result<Cluster, Fail> {
        let mut seats = Vec::new(alloc);
        for id in 1..=nodes {
            seats.push(TestNode::fresh(alloc, id, servers)?)?;
        }
        Ok(Cluster {
            alloc,
            seats,
            mail: VecDeque::new(alloc),
            replies: Vec::new(alloc),
        })
    }

    fn seat(&mut self, id: u64) -> Result<&mut TestNode, Fail> {
        match self.seats.get_mut(id.saturating_sub(1) as usize) {
            Some(seat) => Ok(seat),
            None => Err(Fail::from("no such node")),
        }
    }

    /// The disk of a node stops at a call from now on.
    pub(crate) fn aim(&mut self, id: u64, stop: Stop) -> Result<(), Fail> {
        self.seat(id)?.aim(stop);
        Ok(())
    }

    /// Whether a node runs.
    pub(crate) fn runs(&mut self, id: u64) -> Result<bool, Fail> {
        Ok(self.seat(id)?.runs())
    }

    /// The disk of a node crashes with an outcome, and the node starts.
    pub(crate) fn restart(&mut self, id: u64, pick: u64) -> Result<(), Fail> {
        self.seat(id)?.restart(pick)
    }

    /// What a node said goes on its way.
    fn say(&mut self, outs: Option<StepOutputs>) -> Result<(), Fail> {
        let Some(outs) = outs else {
            return Ok(());
        };
        for (conn, bytes) in &outs.replies {
            self.replies.push(reply_of(*conn, bytes))?;
        }
        for message in outs.messages {
            self.mail.push_back(message)?;
        }
        Ok(())
    }

    pub(crate) fn timeout(&mut self, id: u64) -> Result<(), Fail> {
        let outs = self.seat(id)?.happens(Event::Timeout)?;
        self.say(outs)
    }

    pub(crate) fn beat(&mut self, id: u64) -> Result<(), Fail> {
        let outs = self.seat(id)?.happens(Event::Beat)?;
        self.say(outs)
    }

    pub(crate) fn connect(&mut self, id: u64, conn: u64) -> Result<(), Fail> {
        let outs = self.seat(id)?.happens(Event::Connect(conn))?;
        self.say(outs)
    }

    /// A client of a node sends bytes.
    pub(crate) fn send(&mut self, id: u64, conn: u64, bytes: &[u8]) -> Result<(), Fail> {
        let bytes = Bytes::new(Vec::from_slice(self.alloc, bytes)?);
        let outs = self.seat(id)?.happens(Event::Bytes(conn, bytes))?;
        self.say(outs)
    }

    /// The oldest message arrives. False where none is under way.
    fn deliver(&mut self) -> Result<bool, Fail> {
        let Some(message) = self.mail.pop_front() else {
            return Ok(false);
        };
        let outs = self.seat(message.to)?.happens(Event::Peer(message))?;
        self.say(outs)?;
        Ok(true)
    }

    /// Messages arrive in order, until none is under way.
    pub(crate) fn settle(&mut self) -> Result<(), Fail> {
        for _ in 0..MESSAGES {
            if !self.deliver()? {
                return Ok(());
            }
        }
        Err(Fail::from("no end of messages"))
    }

    /// All messages that are under way are lost. Answers how many.
    pub(crate) fn lose_mail(&mut self) -> usize {
        let lost = self.mail.len();
        self.mail.clear();
        lost
    }

    /// Whether a write was answered on a connection.
    pub(crate) fn wrote(&self, conn: u64) -> bool {
        self.replies
            .iter()
            .any(|reply| reply.conn == conn && reply.kind == RESULT)
    }

    /// What was read last on a connection.
    pub(crate) fn read(&self, conn: u64) -> Option<u8> {
        let mut read = None;
        for reply in &self.replies {
            if reply.conn == conn && reply.kind == ROWS {
                read = reply.value;
            }
        }
        read
    }

    /// Whether all nodes have applied as much, with the same databases, and that is more than nothing.
    pub(crate) fn are_alike(&self) -> bool {
        let Some(first) = self.seats.as_slice().first() else {
            return false;
        };
        let wanted = first.standing();
        wanted.is_some() && self.seats.iter().all(|seat| seat.standing() == wanted)
    }
}
