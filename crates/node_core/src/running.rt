//! What runs of a node.

ghost use Rattle.std.specs.Prelude.{◌≡◌, suc, IfOk};
ghost use Rattle.raft_on_disk.specs.Replicas.{kept_of};
ghost use Rattle.node_core.specs.Whole.{Rests};

use crate::links::Links;
use crate::outs::StepOutputs;
use applied_state::{Applied, Leadership};
use client_sessions::Clients;
use raft_core::RaftEvent;
use raft_membership::Members;
use raft_on_disk::{Outgoing, Replica};
use segment_store::Kept;
use session_gateway::View;
use std::alloc::{AllocError, Global};
use std::collections::VecDeque;

/// What runs of a node that isn't down: Raft over its store, databases, clients, and what it owes while it leads.
#[derive(Drop)]
pub(crate) struct Running {
    pub(crate) alloc: Global,
    pub(crate) replica: Replica,
    /// The configurations of the whole log.
    pub(crate) members: Members,
    pub(crate) applied: Applied,
    pub(crate) clients: Clients,
    /// Connections that carry the messages of peers, and whether there are any at all: a node without peer connections takes none from them.
    pub(crate) links: Links,
    pub(crate) has_links: bool,
    /// Whether readers answer queries concurrently with it, and the connections whose queries are at readers.
    pub(crate) has_readers: bool,
    pub(crate) lent: Vec<u64>,
    /// What it is for its sessions.
    pub(crate) view: View,
    /// Its leadership while it leads.
    pub(crate) office: Option<Leadership>,
    /// Events of Raft that are due, in order: the event of a step, and what the node itself gives Raft.
    pub(crate) due: VecDeque<RaftEvent>,
    /// The connection on which the bytes of this step came, until it was looked at whether it has to be closed.
    pub(crate) heard: Option<u64>,
    /// What the step that is under way says to clients, and to other nodes.
    pub(crate) outs: StepOutputs,
    pub(crate) mail: Outgoing,
}

/// The index after this one. Memory can't hold as many entries as would leave none.
pub(crate) fn one_more(index: u64) -> Result<u64, AllocError>
    ensures { IfOk result (λ next. next ≡ suc index) }
{
    match index.checked_add(1) {
        Some(next) => Ok(next),
        None => Err(AllocError),
    }
}

impl Running {
    /// What a node that rests keeps.
    pub(crate) fn kept(&self) -> Result<Kept, AllocError>
        requires { Rests self.now }
        ensures { IfOk result (λ kept. kept ≡ kept_of self.now.replica) }
    {
        self.replica.kept()
    }
}
