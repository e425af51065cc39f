//! What the headline says of the files that nodes show, for scripts. Nothing here runs: each law is the promise of an
//! empty function.
#![tactic(auto)]

ghost use Rattle.headline_script_safety.specs.Showing.{ScriptsShowChanges};

pub mod refusals;

use sql_engine::Engine;

/// A script whose turns are a run of whole nodes has one list of entries. Take any changes with the names and the images
/// of those that these entries make. After each turn each node is shown with exactly the images after those of the
/// changes that its applied entries make. Nodes that are shown at one index, also at two moments, have the same files.
pub fn scripts_show_changes<E: Engine>()
    ensures { (kind : _) → ScriptsShowChanges (E.meaning kind) kind }
{}
