use crate::event::Event;
use dq_base::Failed;

/// What brings a node its events, one after the other.
///
/// It counts its faults and the events that were taken. The events that are left are described by those that know them, as one over
/// memory; clauses on content hold if they are known.
pub trait Inbox<T> {
    ghost use Rattle.std.specs.Prelude.{◌≤◌, ℕ, List, Option};
    ghost use Rattle.dq_base.specs.Faults.{HasCause, last_count};
    ghost use Rattle.serve_traits.specs.declared.event.Event.{Event};
    ghost use Rattle.serve_traits.specs.Told.{Takes, CountsTaken};

    /// The events that are left, if they are known.
    ghost left: { Self → Option (List (Event T)) };

    /// How many events were taken.
    ghost taken: { Self → ℕ };

    /// How many times a call failed.
    ghost faults: { Self → ℕ };

    /// Takes the first event, and may wait for it. It fails where 18,446,744,073,709,551,615 were taken. After `Failed` none was
    /// taken.
    fn take(&mut self) -> Result<Event<T>, Failed>
        ensures event { Takes (left self.old) (left self.new) result }
        ensures count { CountsTaken (taken self.old) (taken self.new) result }
        ensures bound { taken self.new ≤ last_count }
        ensures cause { HasCause (faults self.old) (faults self.new) result };
}
