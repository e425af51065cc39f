//! With engines of cells a script of nodes alone decides what is said.

ghost use Rattle.script_determinism.specs.Decided.{CellBrokenRepeat, CellFrontsRepeat, CellScriptsCompare, CellScriptsRepeat};

/// A law on two runs of one script over whole nodes with engines of cells, in which no call of a disk stopped or failed and no engine ran
/// out of memory. Either the same is said, and they have the same fault; or one of them doesn't learn what came of an event, and has said a
/// front of what the other says. Two runs that learn all print the same; a run that doesn't prints a front of what a run that does prints.
pub fn scripts_are_decided()
    ensures compared { CellScriptsCompare }
    ensures front { CellFrontsRepeat }
    ensures broken { CellBrokenRepeat }
    ensures same { CellScriptsRepeat }
{}
