//! The place of a whole node.

use crate::node_slot::{NodeSlot, crash, empty_seat, line_for, start, step};
use script_cluster::{EventResult, NodeEvent, NodeLine, NodePlace, PlaceFault, VoterCount};
use script_grammar::FaultTarget;
use sql_engine::EngineKind;
use std::alloc::{AllocError, Global};
use std::marker::{Model, PhantomData};

/// Which engine runs the statements of a node's clients. It is a type, so that all nodes of a script have one.
pub trait EngineChoice: Drop {
    ghost use Rattle.std.specs.Prelude.{◌≡◌};
    ghost use Rattle.sql_engine.specs.declared.kind.EngineKind.{EngineKind};

    /// The kind of engine.
    ghost kind: { EngineKind };

    /// The kind of engine.
    fn kind() -> EngineKind
        ensures { result ≡ kind };
}

/// SQLite's engine.
#[derive(Drop)]
pub struct SqliteChoice {}

impl EngineChoice for SqliteChoice {
    ghost use Rattle.sql_engine.specs.declared.kind.EngineKind.TheVariants.{Sqlite};

    ghost kind = { Sqlite };

    fn kind() -> EngineKind {
        EngineKind::Sqlite
    }
}

/// The engine of cells.
#[derive(Drop)]
pub struct CellChoice {}

impl EngineChoice for CellChoice {
    ghost use Rattle.sql_engine.specs.declared.kind.EngineKind.TheVariants.{Cells};

    ghost kind = { Cells };

    fn kind() -> EngineKind {
        EngineKind::Cells
    }
}

/// The place of a whole node: its disk in memory, and the node that runs over it with its engine, if one does. The node isn't
/// down, and no number represents two images at it and its engine.
#[derive(Drop)]
pub struct WholePlace<C: EngineChoice> {
    seat: NodeSlot,
    choice: PhantomData<C>,
}

impl<C: EngineChoice> Model for WholePlace<C> {
    ghost use Rattle.std.specs.Prelude.{◌≡◌};
    ghost use Rattle.script_whole_nodes.specs.declared.node_slot.NodeSlot.{NodeSlot as Parts};
    ghost use Rattle.script_whole_nodes.specs.Seats.{IsSeated};

    ghost Value = { Parts };

    ghost use Rattle.script_whole_nodes.specs.contracts.node_slot.NodeSlot as parts;
    ghost use Rattle.std.specs.Coded.{codes};

    ghost coded = { Prim.hlevel (codes, parts.the_row.coded) };

    ghost view = { λ p. p.seat };

    ghost invariant = { λ p. IsSeated p.seat × (p.seat.kind ≡ C.kind) };
}

impl<C: EngineChoice> WholePlace<C> {
    ghost use Rattle.std.specs.Prelude.{◌≡◌};
    ghost use Rattle.script_cluster.specs.Knowing.{IsNew};
    ghost use Rattle.script_cluster.specs.World.{empty_place};
    ghost use Rattle.script_whole_nodes.specs.Seats.{place_of};
    ghost use Rattle.script_whole_nodes.specs.Turns.{Knows};

    /// A disk without files, and no node.
    pub fn new(alloc: Global) -> WholePlace<C>
        ensures place { place_of result ≡ empty_place }
        ensures new { IsNew (Knows C.kind) result }
    {
        WholePlace {
            seat: empty_seat(alloc, C::kind()),
            choice: PhantomData,
        }
    }
}

impl<C: EngineChoice> NodePlace for WholePlace<C> {
    ghost use Rattle.std.specs.Prelude.{◌≡◌, true, false, is_some, IfOk, OnOk};
    ghost use Rattle.script_cluster.specs.Outcomes.{Does, Crashes};
    ghost use Rattle.script_cluster.specs.Knowing.{LeadsOn, StartsOn};
    ghost use Rattle.script_cluster.specs.Places.{doing_of, place_after_crash, Comes, IsStart, IsStep};
    ghost use Rattle.script_whole_nodes.specs.Seats.{place_of};
    ghost use Rattle.script_whole_nodes.specs.Turns.{Knows};

    ghost shows = { λ p. place_of p };

    ghost knows = { λ p node voters turns. Knows C.kind p node voters turns };

    fn empty(&self) -> Result<WholePlace<C>, AllocError> {
        Ok(WholePlace::new(self.seat.alloc))
    }

    fn is_up(&self) -> bool {
        self.seat.node.is_some()
    }

    fn line(&self) -> Option<NodeLine> {
        match &self.seat.node {
            Some(node) => Some(line_for(node)),
            None => None,
        }
    }

    #[tactic(auto, using(crate::proofs::Seating::up_by))]
    fn step(&mut self, event: NodeEvent, aim: FaultTarget) -> Result<EventResult, PlaceFault> {
        step(&mut self.seat, event, aim)
    }

    #[tactic(auto, using(crate::proofs::Seating::none_by))]
    fn start(
        &mut self,
        node: u64,
        voters: VoterCount,
        aim: FaultTarget,
    ) -> Result<EventResult, PlaceFault> {
        start(&mut self.seat, node, voters, aim)
    }

    #[tactic(auto, using(crate::proofs::Seating::up_by))]
    fn crash(&mut self, pick: u32) -> Result<(), AllocError> {
        crash(&mut self.seat, pick)
    }
}
