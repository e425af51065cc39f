//! The databases of a log as the changes of which the headline speaks. Nothing here runs: each law is the promise of an
//! empty function.
#![tactic(auto)]

ghost use Rattle.change_safety.specs.Changes.{ChangesGrow, FilesAreChanges, ShownAreFiles};

pub mod refusals;

/// The databases after the first entries of a log are the images after the changes that these entries make, and more
/// entries make no fewer changes. What a node shows of its databases is these images.
pub fn files_are_changes()
    ensures grow { ChangesGrow }
    ensures files { FilesAreChanges }
    ensures shown { ShownAreFiles }
{}
