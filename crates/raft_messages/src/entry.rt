//! The entries of a log, and places in it.
ghost use Rattle.std.specs.Prelude.{◌≡◌, IfOk};
ghost use Rattle.raft_messages.specs.Kinds.{kind_code, kind_with};

use crate::shared::SharedBytes;
use dq_base::Items;
use std::alloc::AllocError;
use std::marker::Model;

/// What an entry of the log is for.
#[derive(Clone, Copy, Debug, PartialEq, Eq)]
pub enum EntryKind {
    /// A command to the databases.
    Command,
    /// The entry that a new leader appends first. It has no bytes.
    Barrier,
    /// A change of the servers: its bytes are the whole new configuration.
    Change,
}

impl EntryKind {
    /// The number that represents the kind.
    pub fn code(self) -> u8
        ensures { result ≡ kind_code self }
    {
        match self {
            EntryKind::Command => 1,
            EntryKind::Barrier => 2,
            EntryKind::Change => 3,
        }
    }

    /// The kind that a number represents, if any.
    pub fn with_code(code: u8) -> Option<EntryKind>
        ensures { result ≡ kind_with code }
    {
        match code {
            1 => Some(EntryKind::Command),
            2 => Some(EntryKind::Barrier),
            3 => Some(EntryKind::Change),
            _ => None,
        }
    }
}

/// An entry of the log. Clauses see it as the rules' entry.
#[derive(Debug, Drop)]
pub struct Entry {
    /// The term of the leader that appended it, at least 1.
    pub term: u64,
    /// What it is for.
    pub kind: EntryKind,
    /// What it says, shared with every copy of the entry.
    pub bytes: SharedBytes,
}

impl Model for Entry {
    ghost use Rattle.raft_spec.specs.Log.{Entry as EntryValue};

    ghost Value = { EntryValue };

    ghost use Rattle.raft_messages.specs.Kinds.{kind_value};

    ghost view = { λ e. record { term = e.term; kind = kind_value e.kind; bytes = e.bytes } };
}

/// Entries that follow one another. Clauses see them as a list.
pub type Entries = Items<Entry>;

impl Entry {
    /// The entry for one more owner: its bytes are shared, and none is copied. `Err` where their count is full.
    pub fn copied(&self) -> Result<Entry, AllocError>
        ensures { IfOk result (λ copy. copy ≡ self.now) }
    {
        Ok(Entry {
            term: self.term,
            kind: self.kind,
            bytes: self.bytes.share()?,
        })
    }
}

/// Where a log ends, or a place in it: an index, and the term of the entry there. Both are 0 where nothing is before.
/// Clauses see it as the rules' one.
#[derive(Clone, Copy, Debug, PartialEq, Eq)]
pub struct LogEnd {
    /// The index, from 1.
    pub index: u64,
    /// The term of the entry at that index.
    pub term: u64,
}

impl Model for LogEnd {
    ghost use Rattle.raft_spec.specs.Log.{LogEnd as LogEndValue};

    ghost Value = { LogEndValue };

    ghost view = { λ e. record { index = e.index; term = e.term } };

    ghost inverse = { λ e. record { index = e.index; term = e.term } };
}
