//! What scripts over whole nodes are.

ghost use Rattle.script_whole_nodes.specs.Safe.{PlacesTell, WholeScriptsAreSafe};

use script_safety::scripts_are_safe;
use sqlite_engine::AnyEngine;

#[tactic(auto, using(crate::proofs::Guarding::places_tell, crate::proofs::Guarding::whole_safe))]
/// A law: turns that places of whole nodes know are those of whole nodes, up to any of them until which no checksum matched by chance in
/// what a start found on a node's disk; and so the run of a script over these places is safe up to there, in the terms of `script_safety`
/// for the cluster with which it was opened, whatever came of its events.
pub fn whole_scripts_are_safe()
    ensures tell { (kind : _) → PlacesTell kind }
    ensures safe { (kind : _) → WholeScriptsAreSafe kind }
{
    scripts_are_safe::<AnyEngine>();
}
