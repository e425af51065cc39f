use crate::event::Event;
use dq_base::Failed;

/// Where events are put for a node.
///
/// It counts its faults. The events that were put are described by those that know them, as one over memory; clauses on content hold
/// if they are known.
pub trait Post<T> {
    ghost use Rattle.std.specs.Prelude.{ℕ, List, Option};
    ghost use Rattle.dq_base.specs.Faults.{HasCause};
    ghost use Rattle.serve_traits.specs.declared.event.Event.{Event};
    ghost use Rattle.serve_traits.specs.Told.{Puts};

    /// The events that were put, if they are known.
    ghost posted: { Self → Option (List (Event T)) };

    /// How many times a call failed.
    ghost faults: { Self → ℕ };

    /// Puts an event after the others, and may wait until it has its place. After `Failed` it was not put.
    fn put(&mut self, event: Event<T>) -> Result<(), Failed>
        ensures event { Puts (posted self.old) (posted self.new) event result }
        ensures cause { HasCause (faults self.old) (faults self.new) result };
}
