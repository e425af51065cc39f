//! What a step says.

ghost use Rattle.std.specs.Prelude.{◌≡◌, ◌++◌, ℕ, List, [], map, OnOk};
ghost use Rattle.node_core.specs.Carrying.{close_of};

use client_connection::CloseReason;
use dq_base::Items;
use raft_messages::RaftMessage;
use session_gateway::ReadJob;
use std::alloc::{AllocError, Global};
use wire_words::WireBytes;

/// What a step says. All that follows it is kept.
#[derive(Drop)]
pub struct StepOutputs {
    /// Messages to clients, in order, each with the number of its connection.
    pub replies: Vec<(u64, WireBytes)>,
    /// Connections that are closed after these replies, and why.
    pub closed: Vec<(u64, CloseReason)>,
    /// Messages to other nodes: Appends and Installs follow the others, one a peer, ascending by peer.
    pub messages: Vec<RaftMessage>,
    /// Queries for readers, each with the number of its connection. A job has its image: the newest one of its database when
    /// the query was asked. What the reader answers is to come back as `Event::ReadDone`.
    pub reads: Vec<(u64, ReadJob)>,
}

impl StepOutputs {
    /// Nothing is said.
    pub(crate) fn new(alloc: Global) -> StepOutputs
        ensures replies { result.replies.items ≡ [] }
        ensures closed { result.closed.items ≡ [] }
        ensures messages { result.messages.items ≡ [] }
        ensures reads { result.reads.items ≡ [] }
    {
        StepOutputs {
            replies: Vec::new(alloc),
            closed: Vec::new(alloc),
            messages: Vec::new(alloc),
            reads: Vec::new(alloc),
        }
    }

    /// Messages to clients are said, after the others.
    pub(crate) fn tell_all(&mut self, told: Vec<(u64, WireBytes)>) -> Result<(), AllocError>
        ensures said { OnOk result (self.new.replies.items ≡ self.old.replies.items ++ told.items) }
        ensures rest { self.new ≡ record self.old { replies = self.new.replies } }
    {
        let mut told = told;
        self.replies.append(&mut told)?;
        Ok(())
    }

    /// A connection is closed after the others, if there is a reason.
    pub(crate) fn close(&mut self, conn: u64, reason: Option<CloseReason>) -> Result<(), AllocError>
        ensures said { OnOk result (self.new.closed.items ≡ self.old.closed.items ++ close_of conn reason) }
        ensures rest { self.new ≡ record self.old { closed = self.new.closed } }
    {
        match reason {
            Some(reason) => {
                self.closed.push((conn, reason))?;
                Ok(())
            }
            None => Ok(()),
        }
    }

    /// Messages to one client are said, after the others.
    pub(crate) fn reply(&mut self, conn: u64, messages: Items<WireBytes>) -> Result<(), AllocError>
        ensures said { OnOk result (self.new.replies.items ≡ self.old.replies.items ++ map (λ (m : List ℕ). (conn, m)) messages) }
        ensures rest { self.new ≡ record self.old { replies = self.new.replies } }
    {
        for message in messages.into_vec() {
            self.replies.push((conn, message))?;
        }
        Ok(())
    }
}
