ghost use Rattle.std.specs.Prelude.{◌≡◌, ◌≢◌, ℕ, List};
ghost use Rattle.database_state.specs.declared.database.Database.{Database};
ghost use Rattle.log_commands.specs.declared.command.Command.{Command};
ghost use Rattle.database_state.specs.Databases.{act};
ghost use Rattle.database_state.specs.Pins.{Pinning, IsPinned, with_pin, without_pin};
ghost use Rattle.session_spec.specs.Machine.{machine_of};

/// A law: that a read mark comes or goes changes no database as the rules see it.
#[tactic(auto, using(crate::proofs::Marked::released_stays, crate::proofs::Marked::pinned_stays))]
pub fn marks_change_no_database()
    ensures released { (pin : Pinning) (databases : List Database) → machine_of (without_pin pin databases) ≡ machine_of databases }
    ensures pinned { (name : List ℕ) (mark : ℕ) (databases : List Database) → machine_of (with_pin name mark databases) ≡ machine_of databases }
{}

/// A law: a mark that is live after a release was live before, and is another one than the one that was released.
#[tactic(auto, using(crate::proofs::Marked::spent_marks))]
pub fn released_marks_are_spent()
    ensures { (pin other : Pinning) (databases : List Database) → IsPinned (without_pin pin databases) other → IsPinned databases other × (other ≢ pin) }
{}

/// A law: a command makes no mark live. So the live marks of a state machine stay those of the sessions while commands are applied.
#[tactic(auto, using(crate::proofs::Unmarked::none_made))]
pub fn commands_make_no_marks()
    ensures { (databases : List Database) (command : Command) (pin : Pinning) → IsPinned (act databases command) pin → IsPinned databases pin }
{}
