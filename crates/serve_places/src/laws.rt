//! What holds of all events that the places bring. Nothing here runs: the law is the promise of an empty function.

ghost use Rattle.std.specs.Prelude.{◌≢◌, ℕ, List};
ghost use Rattle.serve_places.specs.Numbers.{Numbers, AreFresh, EventsCome, LivesOnce};
ghost use Rattle.serve_traits.specs.declared.event.Event.{Event};

/// Of each number there comes one Connect at most, before its bytes, and one Hangup at most, after them; and no number comes a second time.
pub fn each_number_lives_once<T>()
    ensures { (before after : Numbers) (events : List (Event T)) → AreFresh before → EventsCome before events after →
        (number : ℕ) → number ≢ 0 → LivesOnce number events }
{}
