ghost use Rattle.std.specs.Prelude.{◌≡◌, ◌≤◌, ◌↔◌, ℕ, List, length, sum_by, IsTrue};
ghost use Rattle.std.specs.List.{All};
ghost use Rattle.log_commands.specs.declared.command.Command.{Command};
ghost use Rattle.script_machines.specs.declared.stated.Stated.{Stated};
ghost use Rattle.script_machines.specs.Limits.{table_of, is_allowed};
ghost use Rattle.script_machines.specs.StatedLengths.{AreNamesOf, greatest_length, names_in};
ghost use Rattle.script_machines.specs.Alike.{EventsKeepAlike, FilesAreBounded, ListsStaySound, MachinesStandAlike};

/// The limits of a list bound what its commands state: its table has the name of each database that a command opens once, and with it the
/// greatest length that a command states for it. So a list is allowed exactly if it has at most 16 names, and the
/// greatest lengths of these names are together at most 67,108,864.
pub fn limits_bound_what_is_stated()
    ensures names { (commands : List Command) → AreNamesOf commands (names_in (table_of commands)) }
    ensures lengths { (commands : List Command) → All (λ (s : Stated). s.length ≡ greatest_length commands s.name) (table_of commands) }
    ensures sum { (commands : List Command) (names : List (List ℕ)) → AreNamesOf commands names →
        sum_by (λ (s : Stated). s.length) (table_of commands) ≡ sum_by (greatest_length commands) names }
    ensures allowed { (commands : List Command) (names : List (List ℕ)) → AreNamesOf commands names →
        IsTrue (is_allowed (table_of commands)) ↔ ((length names ≤ 16) × (sum_by (greatest_length commands) names ≤ 67108864)) }
{}

/// State machines apply fronts of one list, which only grows, and each holds what its front makes; what is said of a state machine names a front of
/// that list, with the digest of the files that it makes. The list stays within its limits, so the files of a state machine are never longer.
pub fn machines_stay_alike()
    ensures events { EventsKeepAlike }
    ensures shown { MachinesStandAlike }
    ensures sound { ListsStaySound }
    ensures bounded { FilesAreBounded }
{}
