//! With the engine of cells one event has one outcome at a whole node.

ghost use Rattle.script_determinism.specs.CoreSteps.{KeptIsOfCore, StartsAreDecided, StepsAreDecided};

/// A law on two nodes that have one core, no connections to other nodes and no readers: an event that ended well at both leaves one core
/// and says the same, by any answers of cells of which none is out of memory; and the answers are the same except for the numbers of
/// transactions. Two starts over what was kept leave one core too, and what a node keeps is a part of its core.
pub fn cores_are_decided()
    ensures steps { StepsAreDecided }
    ensures starts { StartsAreDecided }
    ensures kept { KeptIsOfCore }
{}
