//! Messages arrive, and what the lines of a script say happens.

ghost use Rattle.std.specs.Prelude.{◌≡◌, ◌<◌, true, length};
ghost use Rattle.script_grammar.specs.declared.grammar.FaultTarget.TheVariants.{Nothing};
ghost use Rattle.script_cluster.specs.World.{World, takes, delivers, settles, counted, exists, all_start};
ghost use Rattle.script_cluster.specs.Clusters.{held, world_now, once, settle_count};
ghost use Rattle.script_cluster.specs.Holding.{Does};

use crate::cluster::Cluster;
use crate::cluster_line::ClusterLine;
use crate::place::{NodeEvent, NodePlace};
use script_grammar::{Event, EventFault, FaultTarget};

/// How many messages may arrive by an event, if it settles.
fn settle_count(event: &Event) -> Option<u32>
    ensures { result ≡ settle_count event.now }
{
    match event {
        Event::Settle { count } => Some(*count),
        Event::Timeout { .. }
        | Event::Beat { .. }
        | Event::Connect { .. }
        | Event::Bytes { .. }
        | Event::Hangup { .. }
        | Event::Deliver { .. }
        | Event::Crash { .. }
        | Event::Start { .. }
        | Event::Put { .. }
        | Event::Take { .. } => None,
    }
}

impl<P: NodePlace> Cluster<P> {
    /// The message at a place arrives. At a node that isn't there or is down nothing happens, nor by a message with a number out of
    /// range.
    fn deliver(
        &mut self,
        place: usize,
        aim: FaultTarget,
        said: &mut Vec<ClusterLine>,
    ) -> Result<(), EventFault>
        requires { place < length self.old.outside.mail }
        ensures { Does P.knows (delivers place aim) result (held P.shows self.old) (held P.shows self.new) said.old.items said.new.items }
    {
        match self.outside.mail.arrive(place)? {
            None => Ok(()),
            Some(message) => {
                let node = message.to;
                if !self.is_node(node) {
                    return Ok(());
                }
                self.at_node(node, NodeEvent::Peer(message), aim, said)
            }
        }
    }

    /// The message at a place arrives, which is one event.
    fn deliver_next(&mut self, place: usize, said: &mut Vec<ClusterLine>) -> Result<(), EventFault>
        requires { place < length self.old.outside.mail }
        ensures { Does P.knows (counted (delivers place Nothing)) result (held P.shows self.old) (held P.shows self.new) said.old.items said.new.items }
    {
        if !self.count_event() {
            return Err(EventFault::TooMany);
        }
        self.deliver(place, FaultTarget::Nothing, said)
    }

    /// The first message that has never arrived does, again and again, until none is left or this many did. Each is one event.
    fn settle(&mut self, count: u32, said: &mut Vec<ClusterLine>) -> Result<(), EventFault>
        ensures { Does P.knows (settles count) result (held P.shows self.old) (held P.shows self.new) said.old.items said.new.items }
    {
        for _arrived in 0..count {
            match self.outside.mail.first_waiting() {
                None => return Ok(()),
                Some(place) => match self.deliver_next(place, said) {
                    Ok(()) => {}
                    Err(fault) => return Err(fault),
                },
            }
        }
        Ok(())
    }

    /// Has an event happen that was counted, names what is there and settles nothing.
    fn happen(
        &mut self,
        event: Event,
        aim: FaultTarget,
        said: &mut Vec<ClusterLine>,
    ) -> Result<(), EventFault>
        requires { exists (world_now (held P.shows self.old)) event ≡ true }
        ensures { Does P.knows (once event aim) result (held P.shows self.old) (held P.shows self.new) said.old.items said.new.items }
    {
        match event {
            Event::Timeout { node } => self.at_node(u64::from(node), NodeEvent::Timeout, aim, said),
            Event::Beat { node } => self.at_node(u64::from(node), NodeEvent::Beat, aim, said),
            Event::Connect { node, connection } => {
                self.connect(u64::from(node), u64::from(connection), said)
            }
            Event::Bytes { connection, bytes } => {
                self.bytes(u64::from(connection), bytes, aim, said)
            }
            Event::Hangup { connection } => self.hang_up(u64::from(connection), aim, said),
            Event::Deliver { message } => self.deliver(message as usize - 1, aim, said),
            Event::Crash { node, pick } => self.crash(u64::from(node), pick, said),
            Event::Start { node } => self.start(u64::from(node), aim, said),
            Event::Settle { .. } | Event::Put { .. } | Event::Take { .. } => {
                Err(EventFault::NotThere)
            }
        }
    }

    /// Has a line's event happen, and puts what is said after the rest.
    ///
    /// - `NotThere`: the event names what isn't there. Nothing has happened.
    /// - `TooMany`: the event is one more than a script may have, or its messages have more bytes than those of a script may. Of a
    ///   `settle`, what came of the messages that arrived before is said; of the event itself nothing is said or noted.
    /// - `NoMemory`: nothing is reported of the cluster.
    pub fn take(
        &mut self,
        event: Event,
        aim: FaultTarget,
        said: &mut Vec<ClusterLine>,
    ) -> Result<(), EventFault>
        ensures { Does P.knows (λ (w : World). takes w event aim) result (held P.shows self.old) (held P.shows self.new) said.old.items said.new.items }
    {
        if !self.exists(&event) {
            return Err(EventFault::NotThere);
        }
        match settle_count(&event) {
            Some(count) => self.settle(count, said),
            None => {
                if !self.count_event() {
                    return Err(EventFault::TooMany);
                }
                self.happen(event, aim, said)
            }
        }
    }

    /// All nodes start, one after another, if they are down, which is no event.
    pub fn start_all(&mut self, said: &mut Vec<ClusterLine>) -> Result<(), EventFault>
        ensures { Does P.knows (all_start (length self.old.places.items) 1) result
            (held P.shows self.old) (held P.shows self.new) said.old.items said.new.items }
    {
        for index in 0..self.places.len() {
            match self.start(index as u64 + 1, FaultTarget::Nothing, said) {
                Ok(()) => {}
                Err(fault) => return Err(fault),
            }
        }
        Ok(())
    }
}
