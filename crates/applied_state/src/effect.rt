//! What is reported of an entry that was applied.

ghost use Rattle.std.specs.Prelude.{◌≡◌};
ghost use Rattle.applied_state.specs.Content.{effect_of_command};

use dq_base::Name;
use log_commands::Command;

/// What is reported of an entry that was applied.
#[derive(Drop)]
pub enum AppliedEffect {
    /// It was the last command of a transaction, in the database of this name.
    Committed(Name),
    /// The servers are others now.
    Configured,
    /// None of these.
    Other,
}

/// What is reported of a command. Moves its name; the pages are dropped.
pub(crate) fn effect_of(command: Command) -> AppliedEffect
    ensures { result ≡ effect_of_command command }
{
    match command {
        Command::Frames {
            name,
            commit: true,
            ..
        } => AppliedEffect::Committed(name),
        _ => AppliedEffect::Other,
    }
}
