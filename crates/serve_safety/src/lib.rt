//! What was served is a run of the rules: the steps that a served node made are events of a run of nodes, so that what holds of every run
//! holds of what was served. Nothing here runs: each law is the promise of an empty function.
#![tactic(auto)]

ghost use Rattle.serve_safety.specs.Alone.{AloneIsSafe};
ghost use Rattle.serve_safety.specs.Begun.{StartServes};
ghost use Rattle.serve_safety.specs.Beside.{PathsAreRuns};
ghost use Rattle.serve_safety.specs.Paths.{ServesByRules};

use disk_model::Disk;
use sql_engine::Engine;

/// A node that was served made, for each event that was taken, a step by the rules, which says what they say; at the end its disk keeps
/// what it has kept, or what the acts of a step left that failed.
pub fn serving_is_by_the_rules<D: Disk, E: Engine>()
    ensures { ServesByRules D.tells D.states D.faults E.meaning E.kind E.told E.refused_openings }
{}

/// Whatever happens at other nodes before each of these steps, it is events of a run whose clauses hold, where what comes may come there.
pub fn served_steps_are_events<E: Engine>()
    ensures { (kind : _) → PathsAreRuns (E.meaning kind) kind }
{}

/// What a node without peer connections served, from a start over nothing that was kept, is a run, which is safe.
pub fn served_alone_is_safe<E: Engine>()
    ensures { (kind : _) → AloneIsSafe (E.meaning kind) kind }
{}

/// A node that was started over a disk, and served: it has what the files represented, and what it did is by the rules. If there were no
/// files, it has no peer connections and the events were orderly, as those of a node alone are, that is a run, which is safe.
pub fn started_node_serves<D: Disk, E: Engine>()
    ensures { StartServes D.tells D.states D.faults E.meaning E.kind E.told E.refused_openings }
{}
