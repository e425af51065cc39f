//! The nodes of a script, and what its events do to them.

ghost use Rattle.std.specs.Prelude.{◌≡◌, ◌<◌, ◌≤◌, ◌-◌, ◌&&◌, [], nat_le, true, false, length, map, get_or, is_some, IfOk, OnOk, IsTrue};
ghost use Rattle.script_cluster.specs.Outcomes.{Bytes as Hears, Does as Happened, Crashes};
ghost use Rattle.script_cluster.specs.Knowing.{AllKnow, LeadsOn, StartsOn};
ghost use Rattle.script_cluster.specs.Places.{doing_of};
ghost use Rattle.script_cluster.specs.World.{World, at_node, starts, connects, hangs_up, on_link, node_of, crashes, empty_place, is_node, exists, is_known};
ghost use Rattle.script_cluster.specs.Clusters.{held, world_now, empty_held, Counts, TellsIn, ComesAt, CrashesAt};
ghost use Rattle.script_cluster.specs.Holding.{Does};

use crate::cluster_line::{ClusterLine, NODE_DOWN};
use crate::network::Network;
use crate::place::{EventResult, NodeEvent, NodePlace, PlaceFault};
use crate::voters::VoterCount;
use dq_base::Bytes;
use script_grammar::{Event, EventFault, FaultTarget};
use std::alloc::{AllocError, Global};

/// The place of a node's number among the nodes, whose numbers are from 1.
fn index_of(node: u64) -> usize
    ensures { result ≡ node - 1 }
{
    node.saturating_sub(1) as usize
}

#[tactic(auto, using(crate::proofs::Placing::down_zero, crate::proofs::Placing::down_past, crate::proofs::Placing::up_is))]
/// Whether a node of this number runs; past the last place none does.
fn is_up_at<P: NodePlace>(places: &[P], node: u64) -> bool
    ensures up { result ≡ (nat_le 1 node && is_some (get_or (map P.shows places.now) (node - 1) empty_place).standing) }
    ensures within { IsTrue result → (1 ≤ node) × (node - 1 < length places.now) }
{
    let index = index_of(node);
    if node == 0 {
        return false;
    }
    if index >= places.len() {
        return false;
    }
    places[index].is_up()
}

#[tactic(auto, using(crate::proofs::Placing::up_at, crate::proofs::Placing::comes_at))]
/// An event happens at a place at which a node runs.
fn step_at<P: NodePlace>(
    places: &mut Vec<P>,
    index: usize,
    event: NodeEvent,
    aim: FaultTarget,
) -> Result<EventResult, PlaceFault>
    requires within { index < length places.old.items }
    requires up { is_some (get_or (map P.shows places.old.items) index empty_place).standing ≡ true }
    ensures { IfOk result (λ came. ComesAt P.shows
        (λ old new outcome. LeadsOn P.knows old new (λ node. Happened node (doing_of event) aim outcome)) places.old.items places.new.items index came) }
{
    places[index].step(event, aim)
}

#[tactic(auto, using(crate::proofs::Placing::up_at, crate::proofs::Placing::comes_at))]
/// A node starts at a place at which none runs.
fn start_at<P: NodePlace>(
    places: &mut Vec<P>,
    index: usize,
    node: u64,
    voters: VoterCount,
    aim: FaultTarget,
) -> Result<EventResult, PlaceFault>
    requires within { index < length places.old.items }
    requires down { is_some (get_or (map P.shows places.old.items) index empty_place).standing ≡ false }
    ensures comes { IfOk result (λ came. ComesAt P.shows
        (λ old new. StartsOn P.knows old new node voters aim) places.old.items places.new.items index came) }
    ensures count { length places.new.items ≡ length places.old.items }
{
    places[index].start(node, voters, aim)
}

#[tactic(auto, using(crate::proofs::Placing::up_at, crate::proofs::Placing::crashes_at))]
/// The node at a place goes, and its disk takes the outcome of a pick.
fn crash_at<P: NodePlace>(places: &mut Vec<P>, index: usize, pick: u32) -> Result<(), AllocError>
    requires within { index < length places.old.items }
    requires up { is_some (get_or (map P.shows places.old.items) index empty_place).standing ≡ true }
    ensures { OnOk result (CrashesAt P.shows (λ old new. LeadsOn P.knows old new (λ node. Crashes node pick)) places.old.items places.new.items index) }
{
    places[index].crash(pick)
}

/// The nodes of a script by their numbers from 1, each at its place; and what there is besides them.
#[derive(Drop)]
pub struct Cluster<P: NodePlace> {
    pub(crate) voters: VoterCount,
    pub(crate) places: Vec<P>,
    pub(crate) outside: Network,
}

impl<P: NodePlace> Cluster<P> {
    #[tactic(auto, using(crate::proofs::Placing::none_held))]
    /// This many voters and further nodes, none of which runs, each at a place like this one.
    pub fn new(
        alloc: Global,
        place: &P,
        voters: VoterCount,
        spare: u32,
    ) -> Result<Cluster<P>, AllocError>
        ensures holds { IfOk result (λ cluster. held P.shows cluster ≡ empty_held voters spare cluster.places.items) }
        ensures knows { IfOk result (λ cluster. AllKnow P.knows voters cluster.places.items []) }
    {
        let count = u64::from(voters.number()) + u64::from(spare);
        let mut places = Vec::new(alloc);
        for _made in 0..count {
            places.push(place.empty()?)?;
        }
        Ok(Cluster {
            voters,
            places,
            outside: Network::new(alloc),
        })
    }

    /// Whether a node has this number.
    pub(crate) fn is_node(&self, node: u64) -> bool
        ensures { result ≡ is_node (world_now (held P.shows self.now)) node }
    {
        node >= 1 && node <= self.places.len() as u64
    }

    /// Whether what an event names is there.
    pub(crate) fn exists(&self, event: &Event) -> bool
        ensures { result ≡ exists (world_now (held P.shows self.now)) event.now }
    {
        match event {
            Event::Timeout { node } => self.is_node(u64::from(*node)),
            Event::Beat { node } => self.is_node(u64::from(*node)),
            Event::Crash { node, .. } => self.is_node(u64::from(*node)),
            Event::Start { node } => self.is_node(u64::from(*node)),
            Event::Connect { node, connection } => {
                self.is_node(u64::from(*node))
                    && !self.outside.connections.is_known(u64::from(*connection))
            }
            Event::Bytes { connection, .. } => {
                self.outside.connections.is_known(u64::from(*connection))
            }
            Event::Hangup { connection } => {
                self.outside.connections.is_known(u64::from(*connection))
            }
            Event::Deliver { message } => {
                *message >= 1 && u64::from(*message) <= self.outside.mail.count() as u64
            }
            Event::Settle { .. } => true,
            Event::Put { .. } | Event::Take { .. } => false,
        }
    }

    /// One event more is counted. Answers whether there may be one.
    pub(crate) fn count_event(&mut self) -> bool
        ensures { Counts result (held P.shows self.old) (held P.shows self.new) }
    {
        match self.outside.usage.with_event() {
            Some(usage) => {
                self.outside.usage = usage;
                true
            }
            None => false,
        }
    }

    /// What came of an event at a node is noted and said.
    fn tell(
        &mut self,
        node: u64,
        aim: FaultTarget,
        came: EventResult,
        said: &mut Vec<ClusterLine>,
    ) -> Result<(), EventFault>
        ensures told { TellsIn result node aim came self.old.outside self.new.outside said.old.items said.new.items }
        ensures places { self.new.places ≡ self.old.places }
        ensures voters { self.new.voters ≡ self.old.voters }
    {
        if self.outside.tell(node, aim, came, said)? {
            Ok(())
        } else {
            Err(EventFault::TooMany)
        }
    }

    /// An event happens at a node, if it is there and runs.
    pub(crate) fn at_node(
        &mut self,
        node: u64,
        event: NodeEvent,
        aim: FaultTarget,
        said: &mut Vec<ClusterLine>,
    ) -> Result<(), EventFault>
        ensures { Does P.knows (at_node node (doing_of event) aim) result (held P.shows self.old) (held P.shows self.new) said.old.items said.new.items }
    {
        if !is_up_at(self.places.as_slice(), node) {
            return Ok(());
        }
        let came = step_at(&mut self.places, index_of(node), event, aim)?;
        self.tell(node, aim, came, said)
    }

    /// A node of the cluster starts, if it is down.
    pub(crate) fn start(
        &mut self,
        node: u64,
        aim: FaultTarget,
        said: &mut Vec<ClusterLine>,
    ) -> Result<(), EventFault>
        requires { (1 ≤ node) × (node - 1 < length self.old.places.items) }
        ensures does { Does P.knows (starts node aim) result (held P.shows self.old) (held P.shows self.new) said.old.items said.new.items }
        ensures count { length self.new.places.items ≡ length self.old.places.items }
    {
        if is_up_at(self.places.as_slice(), node) {
            return Ok(());
        }
        let came = start_at(&mut self.places, index_of(node), node, self.voters, aim)?;
        self.tell(node, aim, came, said)
    }

    /// A node that runs stops between two events, and its disk takes the outcome of a pick.
    pub(crate) fn crash(
        &mut self,
        node: u64,
        pick: u32,
        said: &mut Vec<ClusterLine>,
    ) -> Result<(), EventFault>
        ensures { Does P.knows (crashes node pick) result (held P.shows self.old) (held P.shows self.new) said.old.items said.new.items }
    {
        if !is_up_at(self.places.as_slice(), node) {
            return Ok(());
        }
        crash_at(&mut self.places, index_of(node), pick)?;
        self.outside.close_at(node, said)?;
        Ok(())
    }

    /// A client opens a connection of a new number to a node. It closes at once where the node is down.
    pub(crate) fn connect(
        &mut self,
        node: u64,
        connection: u64,
        said: &mut Vec<ClusterLine>,
    ) -> Result<(), EventFault>
        requires { is_known self.old.outside.connections connection ≡ false }
        ensures { Does P.knows (connects node connection) result (held P.shows self.old) (held P.shows self.new) said.old.items said.new.items }
    {
        if !is_up_at(self.places.as_slice(), node) {
            self.outside.connections.make(connection, node, false)?;
            said.push(ClusterLine::Closed {
                connection,
                reason: NODE_DOWN,
            })?;
            return Ok(());
        }
        self.outside.connections.make(connection, node, true)?;
        self.at_node(
            node,
            NodeEvent::Connect(connection),
            FaultTarget::Nothing,
            said,
        )
    }

    /// A client sends bytes. On a closed connection nothing happens.
    pub(crate) fn bytes(
        &mut self,
        connection: u64,
        bytes: Bytes,
        aim: FaultTarget,
        said: &mut Vec<ClusterLine>,
    ) -> Result<(), EventFault>
        ensures { Does P.knows (λ (w : World). on_link (Hears connection bytes) aim w (node_of w.links connection))
            result (held P.shows self.old) (held P.shows self.new) said.old.items said.new.items }
    {
        match self.outside.connections.node_of(connection) {
            Some(node) => self.at_node(node, NodeEvent::Bytes(connection, bytes), aim, said),
            None => Ok(()),
        }
    }

    /// A client ends its connection. On a closed one nothing happens.
    pub(crate) fn hang_up(
        &mut self,
        connection: u64,
        aim: FaultTarget,
        said: &mut Vec<ClusterLine>,
    ) -> Result<(), EventFault>
        ensures { Does P.knows (hangs_up connection aim) result (held P.shows self.old) (held P.shows self.new) said.old.items said.new.items }
    {
        let node = self.outside.connections.node_of(connection);
        self.outside.connections.close(connection);
        match node {
            Some(node) => self.at_node(node, NodeEvent::Hangup(connection), aim, said),
            None => Ok(()),
        }
    }
}
