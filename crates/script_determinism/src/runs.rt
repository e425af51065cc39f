//! Two runs of one script, over nodes whose turns are decided by what they are asked.

ghost use Rattle.script_determinism.specs.Repeats.{BrokenRunsRepeat, FrontsRepeat, RunsCompare, WholeRunsRepeat};

/// Nodes, as a law speaks of them.
pub trait AreNodes {
    ghost use Rattle.script_determinism.specs.Nodes.{Nodes};

    /// What they do.
    ghost nodes: { Nodes };
}

/// A law on two runs of one script, over nodes that do the same if the same is asked. Either the same is said and has happened, except for
/// the numbers of transactions, and they have the same fault; or one of them doesn't learn what came of an event, and has said a front of
/// what the other says. Two runs that learn all print the same; a run that doesn't prints a front of what a run that does prints.
pub fn scripts_repeat<N: AreNodes>()
    ensures compared { RunsCompare N.nodes }
    ensures front { FrontsRepeat N.nodes }
    ensures broken { BrokenRunsRepeat N.nodes }
    ensures same { WholeRunsRepeat N.nodes }
{}
