//! What a rule has made beside the node after it.
ghost use Rattle.std.specs.Prelude.{◌≡◌};

use raft_messages::LogEnd;

/// What a node says by itself, beside what a leader sends to its peers.
#[derive(Clone, Copy)]
pub enum Say {
    Nothing,
    /// It asks every other voter for its vote, with the end of its log, and whether a leader handed its leadership to it.
    AskVotes { last: LogEnd, transfer: bool },
    Vote { to: u64, granted: bool },
    Ack { to: u64, good: bool, index: u64 },
    TimeoutNow { to: u64 },
}

/// To whom a leader sends its log at the end of a step.
#[derive(Clone, Copy)]
pub enum Recipients {
    Nobody,
    Everyone,
    Only(u64),
}

/// Where a step has changed the log.
#[derive(Clone, Copy)]
pub enum LogChange {
    Nothing,
    /// From this index on the entries are others.
    From(u64),
    /// A snapshot that ends there has come in the place of entries.
    Installed(LogEnd),
}

/// What a rule has made: what is said, to whom the log is sent, if it has changed.
#[derive(Clone, Copy)]
pub struct Effects {
    pub say: Say,
    pub recipients: Recipients,
    pub change: LogChange,
}

impl Effects {
    /// This is said, and nothing else happens.
    pub fn says(say: Say) -> Effects
        ensures { result ≡ record { say = say; recipients = Recipients.Nobody; change = LogChange.Nothing } }
    {
        Effects {
            say,
            recipients: Recipients::Nobody,
            change: LogChange::Nothing,
        }
    }

    /// The log is sent to these, and nothing else happens.
    pub fn sends(recipients: Recipients) -> Effects
        ensures { result ≡ record { say = Say.Nothing; recipients = recipients; change = LogChange.Nothing } }
    {
        Effects {
            say: Say::Nothing,
            recipients,
            change: LogChange::Nothing,
        }
    }

    /// This is said, and a snapshot that ends there has come.
    pub fn installs(say: Say, last: LogEnd) -> Effects
        ensures { result ≡ record { say = say; recipients = Recipients.Nobody; change = LogChange.Installed last } }
    {
        Effects {
            say,
            recipients: Recipients::Nobody,
            change: LogChange::Installed(last),
        }
    }
}
