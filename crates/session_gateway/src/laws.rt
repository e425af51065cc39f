ghost use Rattle.std.specs.Prelude.{◌≡◌, List};
ghost use Rattle.sql_engine.specs.Known.{Known};
ghost use Rattle.log_commands.specs.declared.command.Command.{Command};
ghost use Rattle.database_state.specs.declared.database.Database.{Database};
ghost use Rattle.database_state.specs.Databases.{act};
ghost use Rattle.database_state.specs.Machines.{IsMachine};
ghost use Rattle.database_state.specs.Pins.{Pinning, StillPinned};
ghost use Rattle.session_gateway.specs.Seen.{Held, seen, Agrees, PinsOf};

/// A law: a command that the state machine does leaves its live marks those of the sessions, and the sessions as they are. What
/// it asks of the state machine is the clause `shown` of `Machine::act`. And it leaves no number standing for two images.
pub fn commands_keep_sessions()
    ensures pins { (held : Held) (databases : List Database) (command : Command) →
        ((pin : Pinning) → StillPinned databases (act databases command) pin) →
        PinsOf held databases → PinsOf held (act databases command) }
    ensures sessions { (held : Held) (databases : List Database) (command : Command) →
        ((pin : Pinning) → StillPinned databases (act databases command) pin) →
        PinsOf held databases → seen held (act databases command) ≡ seen held databases }
    ensures agree { (known : List Known) (held : Held) (databases : List Database) (command : Command) → IsMachine databases →
        IsMachine (act databases command) → Agrees known held databases → Agrees known held (act databases command) }
{}
