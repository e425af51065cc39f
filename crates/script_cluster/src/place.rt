//! The places of nodes, as a script has them: what may happen at one, and what comes of it.

use crate::voters::VoterCount;
use client_connection::CloseReason;
use dq_base::Bytes;
use engine_recording::Journal;
use raft_core::RaftRole;
use raft_messages::RaftMessage;
use script_grammar::{EventFault, FaultTarget};
use std::alloc::{AllocError, Global};
use store_format::Kept;
use wire_words::WireBytes;

/// What happens at a node that runs.
#[derive(Drop)]
pub enum NodeEvent {
    /// It has heard of no leader for too long.
    Timeout,
    /// It is time for a leader's heartbeat.
    Beat,
    /// A client connects by this number, which no client had before.
    Connect(u64),
    /// Bytes come on the connection of this number, the next ones of its stream.
    Bytes(u64, Bytes),
    /// The client of this connection hangs up.
    Hangup(u64),
    /// A message of another node comes.
    Peer(RaftMessage),
}

/// What a step of a node says.
#[derive(Drop)]
pub struct Outs {
    /// Messages to clients, in order, each with the number of its connection.
    pub replies: Vec<(u64, WireBytes)>,
    /// Connections that are closed after these replies, and why.
    pub closed: Vec<(u64, CloseReason)>,
    /// Messages to other nodes.
    pub messages: Vec<RaftMessage>,
}

/// How an event at a node ended, or its start.
#[derive(Drop)]
pub enum EventEnd {
    /// A step ended well, and said this.
    Stepped(Outs),
    /// A start ended well. It says what was loaded, if a call of the disk stopped or failed since the last one.
    Started(Option<Kept>),
    /// The disk stopped at the call at which the line aims, when this many things of the event were kept whole.
    Stopped(u64),
    /// A call of the disk failed, when this many things of the event were kept whole.
    Failed(u64),
    /// A start found files that don't load.
    Unreadable,
}

/// What came of an event at a node: what its engine answered, and how the event ended.
#[derive(Drop)]
pub struct EventResult {
    /// The engine's answers, in their order.
    pub answers: Journal,
    /// How the event ended.
    pub ended: EventEnd,
}

/// How a node stands that runs.
#[derive(Clone, Copy)]
pub struct NodeLine {
    /// Its term.
    pub term: u64,
    /// What it is in this term.
    pub role: RaftRole,
    /// The index of the last entry that it has applied.
    pub applied: u64,
    /// The SHA-256 of its files.
    pub digest: [u8; 32],
}

/// Why an event at a node has no result.
#[derive(Clone, Copy, Debug)]
pub enum PlaceFault {
    /// There is not enough memory.
    NoMemory,
    /// The node failed for a cause that is a bug of the program.
    Internal,
}

impl From<AllocError> for PlaceFault {
    ghost use Rattle.std.specs.Prelude.{◌≡◌};
    ghost use Rattle.script_cluster.specs.declared.place.PlaceFault.TheVariants.{NoMemory};

    ghost from_gives = { λ _ fault. fault ≡ NoMemory };

    fn from(_error: AllocError) -> PlaceFault {
        PlaceFault::NoMemory
    }
}

impl From<PlaceFault> for EventFault {
    ghost use Rattle.std.specs.Prelude.{◌≡◌};
    ghost use Rattle.script_cluster.specs.Places.{event_fault};

    ghost from_gives = { λ fault event. event ≡ event_fault fault };

    fn from(fault: PlaceFault) -> EventFault {
        match fault {
            PlaceFault::NoMemory => EventFault::NoMemory,
            PlaceFault::Internal => EventFault::Internal,
        }
    }
}

/// The place of a node: its disk, and the node that runs over it with its engine, if one does.
pub trait NodePlace: Drop {
    ghost use Rattle.std.specs.Prelude.{◌≡◌, ℕ, false, true, is_some, None, List, IfOk, OnOk};
    ghost use Rattle.std.specs.Option.{option_map};
    ghost use Rattle.script_cluster.specs.Outcomes.{Turn, Does, Crashes};
    ghost use Rattle.script_cluster.specs.Knowing.{IsNew, LeadsOn, StartsOn};
    ghost use Rattle.script_cluster.specs.World.{Place, empty_place};
    ghost use Rattle.script_cluster.specs.Places.{line_of, place_after_crash, doing_of, IsStep, IsStart, Comes};

    /// How the place stands.
    ghost shows: { Self → Place };

    /// Which turns have led to the place: of the node of a number, in a cluster that was opened with this many voters.
    ghost knows: { Self → ℕ → ℕ → List Turn → Type 0 };

    /// A disk without files, and no node.
    fn empty(&self) -> Result<Self, AllocError>
        ensures shows { IfOk result (λ place. shows place ≡ empty_place) }
        ensures knows { IfOk result (λ place. IsNew knows place) };

    /// Whether a node runs here.
    fn is_up(&self) -> bool
        ensures { result ≡ is_some (shows self.now).standing };

    /// How the node stands that runs here. Costs in the order of its files.
    fn line(&self) -> Option<NodeLine>
        ensures { result ≡ option_map line_of (shows self.now).standing };

    /// An event happens at the node that runs here, while a line aims at a call of its disk, counted from here on. After an event
    /// that didn't end well no node runs here, and a disk that stopped has taken the outcome of the line's pick.
    fn step(&mut self, event: NodeEvent, aim: FaultTarget) -> Result<EventResult, PlaceFault>
        requires { is_some (shows self.old).standing ≡ true }
        ensures comes { IfOk result (λ came. Comes (shows self.old) (shows self.new) came
            (λ outcome. LeadsOn knows self.old self.new (λ node. Does node (doing_of event) aim outcome))) }
        ensures step { IfOk result (λ came. IsStep came.ended) };

    /// The node of this number starts over the disk of a place where none runs, in a cluster that was opened with this many voters, at
    /// the addresses `n1` and so on; with an engine that knows nothing.
    fn start(
        &mut self,
        node: u64,
        voters: VoterCount,
        aim: FaultTarget,
    ) -> Result<EventResult, PlaceFault>
        requires { is_some (shows self.old).standing ≡ false }
        ensures comes { IfOk result (λ came. Comes (shows self.old) (shows self.new) came (StartsOn knows self.old self.new node voters aim)) }
        ensures start { IfOk result (λ came. IsStart came.ended) };

    /// The node goes that runs here, and its disk takes the outcome of a pick.
    fn crash(&mut self, pick: u32) -> Result<(), AllocError>
        requires { is_some (shows self.old).standing ≡ true }
        ensures stands { OnOk result (shows self.new ≡ place_after_crash (shows self.old)) }
        ensures leads { OnOk result (LeadsOn knows self.old self.new (λ node. Crashes node pick)) };
}
