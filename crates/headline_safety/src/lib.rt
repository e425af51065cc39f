//! What of the headline is proved of runs of whole nodes: the files that nodes show, and the order in time of what they
//! propose. Nothing here runs: each law is the promise of an empty function.
#![tactic(auto)]

ghost use Rattle.headline_safety.specs.Order.{ProposalsKeepOrder};
ghost use Rattle.headline_safety.specs.Shown.{FilesAreShown};

pub mod refusals;

use sql_engine::Engine;

/// A run of whole nodes has one list of entries for all its moments. Take any changes with the names and the images of
/// those that these entries make. At each moment, each node that runs shows exactly the images after those of the
/// changes that its applied entries make. So all nodes show prefixes of one list of changes.
pub fn files_are_shown<E: Engine>()
    ensures { (kind : _) → FilesAreShown (E.meaning kind) kind }
{}

/// Take three moments of a run. What was pending at a node at the first moment, or was answered by then, is before each
/// entry that any leader appends after the second one, if both are applied by the third: whoever brings them through,
/// and whatever was said to clients. All three moments are safe by one list and one account.
pub fn proposals_are_ordered<E: Engine>()
    ensures { (kind : _) → ProposalsKeepOrder (E.meaning kind) kind }
{}
