use crate::faults::Failed;

/// Where bytes go.
///
/// A sink counts its faults; `write_all` answers `Failed` only if that count rose in the call. What it holds is told
/// only by sinks that know it, as one over memory; clauses on content hold if it is known.
pub trait Sink {
    ghost use Rattle.std.specs.Prelude.{ℕ, List, Option};
    ghost use Rattle.dq_base.specs.Faults.{HasCause};
    ghost use Rattle.dq_base.specs.Sink.{WriteAppends};

    /// The bytes that were written, if they are known.
    ghost written: { Self → Option (List ℕ) };

    /// How many times a call failed.
    ghost faults: { Self → ℕ };

    /// Appends all of the bytes. After `Failed` some front of them was appended, and the rest was not.
    fn write_all(&mut self, bytes: &[u8]) -> Result<(), Failed>
        ensures bytes { WriteAppends (written self.old) (written self.new) bytes.now result }
        ensures cause { HasCause (faults self.old) (faults self.new) result };
}
