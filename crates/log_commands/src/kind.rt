ghost use Rattle.std.specs.Prelude.{◌≡◌};
ghost use Rattle.log_commands.specs.Reading.{command_kind};

/// The types of command.
#[derive(Clone, Copy, PartialEq, Eq)]
pub(crate) enum CommandKind {
    OpenDb,
    Frames,
    Undo,
    Checkpoint,
}

impl CommandKind {
    /// The type that a command's second byte represents.
    pub(crate) fn of(byte: u8) -> Option<CommandKind>
        ensures { result ≡ command_kind byte }
    {
        match byte {
            1 => Some(CommandKind::OpenDb),
            2 => Some(CommandKind::Frames),
            3 => Some(CommandKind::Undo),
            4 => Some(CommandKind::Checkpoint),
            _ => None,
        }
    }
}
