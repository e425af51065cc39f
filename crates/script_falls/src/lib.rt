//! Scripts in which no call of a disk stops or fails are safe without a premise. Nothing here runs: each law is the
//! promise of a function that only cites another one.
#![tactic(auto)]

ghost use Rattle.script_falls.specs.Falls.{UnfallenAreFair, UnfallenScriptsAreSafe};

pub mod refusals;

use script_whole_nodes::whole_scripts_are_safe;

/// A script is safe up to the first turn in which a call of a disk stopped or failed, or a start found files that do not
/// load, whatever the disks of its nodes are said to have had. If it has no turn like this, the whole script is safe.
pub fn unfallen_scripts_are_safe()
    ensures fair { (kind : _) → UnfallenAreFair kind }
    ensures safe { (kind : _) → UnfallenScriptsAreSafe kind }
{
    whole_scripts_are_safe();
}
