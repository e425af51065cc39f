use raft_messages::{Entries, Snapshot};
use std::marker::Model;

/// What a node has kept.
#[derive(Debug, Drop)]
pub struct Kept {
    /// The current term; 0 where none was kept.
    pub term: u64,
    /// The node that got the vote in that term; 0 for none.
    pub vote: u64,
    /// The newest snapshot; its index is at least 1.
    pub snapshot: Option<Snapshot>,
    /// The index of the first entry: without one, that of the snapshot plus 1, or 1 without a snapshot.
    pub first: u64,
    /// The entries of the log from there on.
    pub entries: Entries,
}

impl Model for Kept {
    ghost use Rattle.store_laws.specs.Store.{Kept as KeptValue};
    ghost use Rattle.store_format.specs.FilesRead.{snap_kept, HasIndex};

    ghost Value = { KeptValue };

    ghost view = { λ k. record { term = k.term; vote = k.vote; snap = snap_kept k.snapshot; log = record { first = k.first; entries = k.entries } } };

    ghost invariant = { λ k. HasIndex k.snapshot };
}
