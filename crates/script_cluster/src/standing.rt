//! How nodes stand.

ghost use Rattle.std.specs.Prelude.{◌≡◌, Option, IfOk};
ghost use Rattle.std.specs.Option.{option_map};
ghost use Rattle.script_cluster.specs.Places.{line_of};
ghost use Rattle.script_cluster.specs.Outcomes.{Standing};
ghost use Rattle.script_cluster.specs.World.{shown, shown_so, all_shown};
ghost use Rattle.script_cluster.specs.Clusters.{held, world_now};

use crate::cluster::Cluster;
use crate::cluster_line::ClusterLine;
use crate::journal::ClusterJournal;
use crate::place::{NodeLine, NodePlace};
use std::alloc::{AllocError, Global};

/// What is shown of a node: how it stands, if it runs.
fn shown(node: u64, line: Option<NodeLine>) -> ClusterLine
    ensures { (standing : Option Standing) → line ≡ option_map line_of standing → result ≡ shown_so node standing }
{
    match line {
        Some(line) => {
            let digest = line.digest;
            ClusterLine::Node {
                node,
                term: line.term,
                role: line.role,
                applied: line.applied,
                digest,
            }
        }
        None => ClusterLine::NodeDown { node },
    }
}

impl<P: NodePlace> Cluster<P> {
    /// How the node of a number stands, if it is there. Costs in the order of its files.
    pub fn standing(&self, node: u64) -> Option<ClusterLine>
        ensures { result ≡ shown (world_now (held P.shows self.now)) node }
    {
        if !self.is_node(node) {
            return None;
        }
        Some(shown(node, self.places[node as usize - 1].line()))
    }

    #[tactic(auto, using(crate::proofs::Placing::standing_more, crate::proofs::Placing::standing_whole))]
    /// How all nodes stand, by their numbers.
    pub fn standings(&self, alloc: Global) -> Result<Vec<ClusterLine>, AllocError>
        ensures { IfOk result (λ said. said.items ≡ all_shown (world_now (held P.shows self.now))) }
    {
        let mut said = Vec::with_capacity(alloc, self.places.len())?;
        for index in 0..self.places.len() {
            said.push(shown(index as u64 + 1, self.places[index].line()))?;
        }
        Ok(said)
    }

    /// The journal of the run so far.
    pub fn into_journal(self) -> ClusterJournal
        ensures { result ≡ self.outside.journal }
    {
        let Cluster {
            voters: _,
            places: _,
            outside,
        } = self;
        outside.into_journal()
    }
}
