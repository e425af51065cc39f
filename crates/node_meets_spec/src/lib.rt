//! What whole nodes do makes runs of nodes: each step of a node is events of a run, whose clauses hold. Nothing here runs: each law is
//! the promise of an empty function, and it holds under every engine.
#![tactic(auto)]

ghost use Rattle.node_meets_spec.specs.Starts.{CrashKeeps, CrashLeavesKept, FirstDisk, OpenKeeps, StartFinds, StartLeavesKept};
ghost use Rattle.node_meets_spec.specs.Starts.{CrashesRun, StartStopsRun, StartsKeep, StartsRun};
ghost use Rattle.node_meets_spec.specs.Steps.{StepsRun, StopsRun};

use sql_engine::Engine;

/// A step of a node is events of a run, one for each of its acts: where what came may come in the run, the clauses of these events
/// hold, and the run continues with the node that the step left, its peer messages, its replies and the jobs of its readers. A step that
/// failed or was stopped is events too: its acts that ended well, and then one after which the node is down.
pub fn steps_are_events<E: Engine>()
    ensures steps { (kind : _) → StepsRun (E.meaning kind) kind }
    ensures stops { (kind : _) → StopsRun (E.meaning kind) kind }
{}

/// A start is an event of a run, where it ended well, and if it failed or was stopped, as what was kept then stays; and so is a
/// crash, at any time.
pub fn starts_are_events<E: Engine>()
    ensures starts { (kind : _) → StartsRun (E.meaning kind) kind }
    ensures stops { (kind : _) → StartStopsRun (E.meaning kind) kind }
    ensures keeps { StartsKeep }
    ensures crashes { (kind : _) → CrashesRun (E.meaning kind) kind }
{}

/// What the disk of a node keeps while no node runs over it, by the store's laws over every crash: a disk without files represents
/// nothing; a node that runs leaves what it has kept, after a crash too; and after a call that was stopped a crash and a start that failed
/// leave what the disk might have represented then, and a start finds that. It is a premise that no checksum matches by chance in what the
/// crash leaves, or the start reads.
pub fn disks_keep()
    ensures first { FirstDisk }
    ensures opened { OpenKeeps }
    ensures crash { CrashKeeps }
    ensures crashed { CrashLeavesKept }
    ensures finds { StartFinds }
    ensures fails { StartLeavesKept }
{}
