//! What a replica keeps, as a load would answer it.
ghost use Rattle.std.specs.Prelude.{◌≡◌, IfOk};
ghost use Rattle.store_format.specs.FilesRead.{snap_kept, HasIndex};
ghost use Rattle.segment_store.specs.Keeping.{snap_value};
ghost use Rattle.raft_on_disk.specs.Replicas.{IsNoneAtZero, IsWhole, kept_of};

use crate::raft_storage::one_more;
use crate::replica::Replica;
use raft_messages::{Entries, Entry, Snapshot};
use segment_store::Kept;
use std::alloc::{AllocError, Global};

// These entries for one more owner: each shares its bytes.
fn copied(alloc: Global, entries: &[Entry]) -> Result<Entries, AllocError>
    ensures { IfOk result (λ copy. copy ≡ entries.now) }
{
    let mut copies = Vec::with_capacity(alloc, entries.len())?;
    for entry in entries {
        copies.push(entry.copied()?)?;
    }
    Ok(Entries::new(copies))
}

// A snapshot for one more owner; none if its index is 0.
fn shared(snapshot: &Snapshot) -> Result<Option<Snapshot>, AllocError>
    requires { IsNoneAtZero (snap_value snapshot.now) }
    ensures same { IfOk result (λ held. snap_kept held ≡ snap_value snapshot.now) }
    ensures index { IfOk result (λ held. HasIndex held) }
{
    if snapshot.index == 0 {
        return Ok(None);
    }
    Ok(Some(snapshot.share()?))
}

impl Replica {
    /// What it keeps, as a load of the disk would answer it; right after a start, what that load has answered. Entries and
    /// snapshot share their bytes with the replica's, so that none is copied.
    pub fn kept(&self) -> Result<Kept, AllocError>
        requires { IsWhole self.now }
        ensures { IfOk result (λ kept. kept ≡ kept_of self.now) }
    {
        let meta = self.raft.meta();
        let first = one_more(self.raft.cut_index())?;
        let snapshot = shared(&self.keeper.snapshot)?;
        let entries = copied(self.alloc, self.raft.tail(first))?;
        Ok(Kept {
            term: meta.0,
            vote: meta.1,
            snapshot,
            first,
            entries,
        })
    }
}
