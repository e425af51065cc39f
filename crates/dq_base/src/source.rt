use crate::faults::Failed;

/// Where bytes come from.
///
/// A source counts its faults; `read` answers `Failed` only if that count rose in the call. What is left to read is
/// told only by sources that know it, as one over memory; clauses on content hold if it is known.
pub trait Source {
    ghost use Rattle.std.specs.Prelude.{ℕ, List, Option};
    ghost use Rattle.dq_base.specs.Faults.{HasCause};
    ghost use Rattle.dq_base.specs.Source.{ReadMoves};

    /// The bytes that are left, if they are known.
    ghost left: { Self → Option (List ℕ) };

    /// How many times a call failed.
    ghost faults: { Self → ℕ };

    /// Moves the next bytes to the front of `into` and answers their number: 0 for an `into` with room is the end.
    /// After `Failed` no byte was moved, and a later call may succeed.
    fn read(&mut self, into: &mut [u8]) -> Result<usize, Failed>
        ensures bytes { ReadMoves (left self.old) (left self.new) into.new result }
        ensures cause { HasCause (faults self.old) (faults self.new) result };
}
