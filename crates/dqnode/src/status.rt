//! The statuses that the program ends with.

ghost use Rattle.std.specs.Prelude.{◌≡◌};

/// How the program ends.
#[derive(Clone, Copy, Debug, PartialEq, Eq)]
pub enum Status {
    /// What was asked for was done: the script was read to its end, the statement was answered, the lines of the folder were
    /// printed.
    Done,
    /// The arguments ask for nothing that the program does.
    Words,
    /// A line of the script isn't in the grammar.
    Script,
    /// The input failed.
    ReadFault,
    /// The output failed.
    WriteFault,
    /// The folder failed.
    DiskFault,
    /// The host failed: it could not listen or start a thread, or brought no event any more.
    HostFault,
    /// There is not enough memory.
    NoMemory,
    /// The files of the folder have a fault.
    Files,
    /// The script has too many lines or events.
    Large,
    /// A served node took as many events as were asked for.
    Spent,
    /// A server refused the statement.
    Refused,
    /// No leader was found.
    NoLeader,
    /// The statement may have been run or not.
    Unknown,
    /// A node failed for a cause that is a bug of the program.
    Internal,
}

impl Status {
    ghost use Rattle.dqnode.specs.Status.{status_code};

    /// The number that the process ends with.
    pub fn code(self) -> u8
        ensures { result ≡ status_code self }
    {
        match self {
            Status::Done => 0,
            Status::Words => 1,
            Status::Script => 2,
            Status::ReadFault => 3,
            Status::WriteFault => 4,
            Status::DiskFault => 5,
            Status::HostFault => 6,
            Status::NoMemory => 7,
            Status::Files => 8,
            Status::Large => 9,
            Status::Spent => 10,
            Status::Refused => 11,
            Status::NoLeader => 12,
            Status::Unknown => 13,
            Status::Internal => 15,
        }
    }
}
