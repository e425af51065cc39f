//! A node with its disk and its engine.

use disk_model::{MemDisk, Stop};
use file_digest::digest;
use node_core::{Event, Node, NodeFault, NodeSpec, StepOutputs};
use raft_messages::read_servers;
use session_gateway::StepLimits;
use sql_engine::CellEngine;
use std::alloc::Global;
use std::marker::Model;
use std::test::Fail;

/// A node over the disk that it has, with an engine of cells. None runs where it was stopped inside a step.
#[derive(Drop)]
pub(crate) struct TestNode {
    alloc: Global,
    id: u64,
    servers: &'static [u8],
    disk: MemDisk,
    engine: CellEngine,
    node: Option<Node>,
}

impl Model for TestNode {
    ghost use Rattle.core_tests.specs.Seats.{RunsWell};

    ghost Value = { Unit {0} };

    ghost view = { λ _. tt };

    ghost invariant = { λ s. RunsWell s.node };
}

impl TestNode {
    /// A node that has kept nothing, in a cluster of these servers.
    pub(crate) fn fresh(alloc: Global, id: u64, servers: &'static [u8]) -> Result<TestNode, Fail> {
        let mut seat = TestNode {
            alloc,
            id,
            servers,
            disk: MemDisk::new(alloc),
            engine: CellEngine::new(alloc),
            node: None,
        };
        seat.start()?;
        Ok(seat)
    }

    /// Its disk stops at a call, of which the next one is the first.
    pub(crate) fn aim(&mut self, stop: Stop) {
        self.disk.arm(Some(stop), None);
    }

    /// Whether a node runs.
    pub(crate) fn runs(&self) -> bool {
        self.node.is_some()
    }

    fn start(&mut self) -> Result<(), Fail> {
        let (servers, _) = read_servers(self.alloc, self.servers)?;
        let spec = NodeSpec {
            id: self.id,
            servers,
            links: false,
            readers: false,
            steps: StepLimits::none(),
        };
        match Node::start(self.alloc, spec, &mut self.disk) {
            Ok(node) => {
                self.node = Some(node);
                Ok(())
            }
            Err(_) => Err(Fail::from("no start")),
        }
    }

    /// The disk crashes with an outcome, and a node starts over what it kept.
    pub(crate) fn restart(&mut self, pick: u64) -> Result<(), Fail> {
        self.node = None;
        self.disk.crash(pick)?;
        self.start()
    }

    /// An event happens, and the node says this; none runs after a step in which the disk stopped.
    pub(crate) fn happens(&mut self, event: Event) -> Result<Option<StepOutputs>, Fail> {
        let Some(node) = &mut self.node else {
            return Ok(None);
        };
        match node.step(event, &mut self.disk, &mut self.engine) {
            Ok(outs) => Ok(Some(outs)),
            Err(NodeFault::DiskFault) => {
                self.node = None;
                Ok(None)
            }
            Err(_) => Err(Fail::from("a step failed")),
        }
    }

    /// The applied index, and the digest of the databases.
    pub(crate) fn standing(&self) -> Option<(u64, [u8; 32])> {
        let node = self.node.as_ref()?;
        Some((node.state().applied, digest(node.machine().databases())))
    }
}
