//! Wrong scripts, and that the law refuses them.

ghost use Rattle.headline_script_safety.specs.Wrong.{NoLostDatabase, NoOtherFiles};

use sql_engine::Engine;

/// Refuses two nodes that are shown at one index with other files.
pub fn refuses_other_files<E: Engine>()
    ensures { (kind : _) → NoOtherFiles (E.meaning kind) kind }
{}

/// Refuses a node that is shown without a database that was shown at the same index or an earlier one.
pub fn refuses_a_lost_database<E: Engine>()
    ensures { (kind : _) → NoLostDatabase (E.meaning kind) kind }
{}
