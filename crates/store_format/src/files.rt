ghost use Rattle.std.specs.Prelude.{◌≡◌, ◌<◌, ◌≤◌, ◌+◌, ◌^◌, cond, suc, nat_lt, length, take, drop, OnOk, Some, None};
ghost use Rattle.store_laws.specs.Store.{Loaded, newest};
ghost use Rattle.store_laws.specs.Meta.{next_stamp};
ghost use Rattle.store_laws.specs.WholeLoad.{is_stale};
ghost use Rattle.store_format.specs.Metadata.{meta_in, meta_of_found};
ghost use Rattle.store_format.specs.Snapshots.{snap_of, IsNewer};
ghost use Rattle.store_format.specs.NodeFormat.{node_format};
ghost use Rattle.store_format.specs.SegmentLog.{with_segment, FitsNumber};
ghost use Rattle.store_format.specs.Starts.{CanStart};
ghost use Rattle.store_format.specs.FilesRead.{nothing_read, snap_kept, with_meta, with_snap, with_segment_read, lacks, judged, kept_by, Judges};

use crate::fault::FilesFault;
use crate::kept::Kept;
use crate::metadata::{Metadata, read_metadata};
use crate::segment_log::{LastSegment, SegmentLog};
use crate::snapshot::read_snapshot;
use raft_messages::{SharedBytes, Snapshot};
use std::alloc::{AllocError, Global};
use std::marker::Model;
use wire_words::WireBytes;

/// What is read of the files of a node, one after another: the newest metadata, the newest snapshot, and the segments.
#[derive(Drop)]
pub struct FilesRead {
    alloc: Global,
    metadata: Option<Metadata>,
    snapshot: Option<Snapshot>,
    segments: SegmentLog,
}

impl Model for FilesRead {
    ghost use Rattle.std.specs.Prelude.{◌<◌};
    ghost use Rattle.store_format.specs.Metadata.{meta_of_found};
    ghost use Rattle.store_format.specs.FilesRead.{FilesRead as FilesValue, snap_kept, HasIndex};

    ghost Value = { FilesValue };

    ghost view = { λ r. record { meta = meta_of_found r.metadata; snap = snap_kept r.snapshot; segments = r.segments } };

    // Indices of snapshots have sixteen digits, and are at least 1.
    ghost invariant = { λ r. ((snap_kept r.snapshot).index < 10000000000000000) × HasIndex r.snapshot };
}

#[tactic(auto, unfolding(store_laws::specs::Store::newest))]
fn newest(old: Option<Metadata>, found: Option<Metadata>) -> Option<Metadata>
    ensures { meta_of_found result ≡ newest (meta_of_found old) (meta_of_found found) }
{
    match (old, found) {
        (Some(old), Some(found)) if old.version < found.version => Some(found),
        (None, _) => found,
        _ => old,
    }
}

fn index_of(snapshot: &Option<Snapshot>) -> u64
    ensures { result ≡ (snap_kept snapshot.now).index }
{
    match snapshot {
        Some(snapshot) => snapshot.index,
        None => 0,
    }
}

fn term_of(snapshot: &Option<Snapshot>) -> u64
    ensures { result ≡ (snap_kept snapshot.now).term }
{
    match snapshot {
        Some(snapshot) => snapshot.term,
        None => 0,
    }
}

// The term of the snapshot in the file of a number, and how many bytes its state has, if it is whole and newer than
// the one of an index.
fn newer_in(number: u64, index: u64, file: &[u8]) -> Option<(u64, usize)>
    ensures { IsNewer number index file.now result }
{
    let found = read_snapshot(number, file)?;
    if found.index > index {
        Some((found.term, found.bytes.len()))
    } else {
        None
    }
}

// The state in a snapshot's file, moved to the front of the file's own memory.
fn into_state(file: Vec<u8>, size: usize) -> Vec<u8>
    requires { 40 + size ≤ length file.items }
    ensures { result.items ≡ take size (drop 40 file.items) }
{
    let mut bytes = file;
    bytes.copy_within(40..40 + size, 0);
    bytes.truncate(size);
    bytes
}

impl FilesRead {
    /// Before the first file.
    pub fn new(alloc: Global) -> FilesRead
        ensures { result ≡ nothing_read }
    {
        FilesRead {
            alloc,
            metadata: None,
            snapshot: None,
            segments: SegmentLog::new(alloc),
        }
    }

    /// The bytes of the first or the second file of metadata.
    pub fn add_metadata(&mut self, first: bool, bytes: &[u8])
        ensures { self.new ≡ with_meta (meta_in first bytes.now) self.old }
    {
        self.metadata = newest(self.metadata, read_metadata(first, bytes));
    }

    /// The bytes of the snapshot's file of a number. If the snapshot is whole and the newest so far its state stays in
    /// their memory, and none is copied into another one.
    pub fn add_snapshot(&mut self, number: u64, file: Vec<u8>) -> Result<(), AllocError>
        requires { number < 10000000000000000 }
        ensures { OnOk result (self.new ≡ with_snap (snap_of number file.items) self.old) }
    {
        match newer_in(number, self.snapshot_index(), file.as_slice()) {
            None => Ok(()),
            Some((term, size)) => {
                let bytes = WireBytes::new(into_state(file, size));
                self.snapshot = Some(Snapshot {
                    index: number,
                    term,
                    bytes: SharedBytes::new(self.alloc, bytes)?,
                });
                Ok(())
            }
        }
    }

    /// The bytes of the next segment, with its number. `Err` means out of memory, after which nothing is said of what
    /// was read.
    pub fn add_segment(&mut self, number: u64, bytes: &[u8]) -> Result<(), AllocError>
        requires { number < 10000000000000000 }
        ensures { OnOk result (self.new ≡ with_segment_read (with_segment node_format (record { number = number; bytes = bytes.now }) self.old.segments) self.old) }
    {
        self.segments.add(number, bytes)
    }

    /// The version of the newest metadata, and 0 without any.
    pub fn version(&self) -> u64
        ensures { next_stamp self.now.meta ≡ suc (suc result) }
    {
        match self.metadata {
            Some(metadata) => metadata.version,
            None => 0,
        }
    }

    /// The index of the newest snapshot, and 0 without any.
    pub fn snapshot_index(&self) -> u64
        ensures index { result ≡ self.now.snap.index }
        ensures digits { result < 10000000000000000 }
    {
        index_of(&self.snapshot)
    }

    /// The last segment, if any.
    pub fn last_segment(&self) -> Option<LastSegment>
        ensures is { result ≡ self.now.segments.last }
        ensures digits { FitsNumber result }
    {
        self.segments.last()
    }

    // Whether the log has an entry at the snapshot's index that is of another term.
    fn is_stale(&self) -> bool
        ensures { result ≡ is_stale self.now.snap self.now.segments.log }
    {
        let log = self.segments.log();
        log.is_stale(index_of(&self.snapshot), term_of(&self.snapshot))
    }

    // The first index of the log.
    fn log_first(&self) -> u64
        ensures { result ≡ self.now.segments.log.first }
    {
        self.segments.log().first()
    }

    /// The first index of the log, if it has an entry at the snapshot's index that is of another term.
    pub fn stale_from(&self) -> Option<u64>
        ensures first { result ≡ cond (is_stale self.now.snap self.now.segments.log) (Some self.now.segments.log.first) None }
        ensures fits { self.now.segments.log.first < 2 ^ 64 }
    {
        let first = self.log_first();
        if self.is_stale() { Some(first) } else { None }
    }

    // Whether some batch or snapshot is without metadata.
    fn lacks_metadata(&self) -> bool
        ensures { result ≡ lacks self.now }
    {
        self.metadata.is_none() && (self.segments.has_batches() || index_of(&self.snapshot) > 0)
    }

    // The first index of the log, if entries are missing before it.
    fn gap(&self) -> Option<u64>
        ensures { result ≡ cond (nat_lt (suc self.now.snap.index) self.now.segments.log.first) (Some self.now.segments.log.first) None }
    {
        let first = self.segments.log().first();
        if first > self.snapshot_index() + 1 {
            Some(first)
        } else {
            None
        }
    }

    /// Whether the files represent a state, and else why not.
    #[tactic(auto, unfolding(crate::specs::FilesRead::judged))]
    pub fn check(&self) -> Result<(), FilesFault>
        ensures { Judges self.now result }
    {
        if self.lacks_metadata() {
            return Err(FilesFault::NoMeta);
        }
        if let Some(damage) = self.segments.damage() {
            return Err(FilesFault::Damaged(damage));
        }
        match self.gap() {
            Some(first) => Err(FilesFault::Gap(first, self.snapshot_index())),
            None => Ok(()),
        }
    }

    // What is kept, whether or not the files represent it.
    fn into_unjudged(self) -> Kept
        ensures is { result ≡ kept_by self }
        ensures begins { 0 < result.log.first }
    {
        let (term, vote) = match self.metadata {
            Some(metadata) => (metadata.term, metadata.vote),
            None => (0, 0),
        };
        let log = self.segments.into_log();
        let log = log.behind(index_of(&self.snapshot), term_of(&self.snapshot));
        let (first, entries) = log.into_parts();
        Kept {
            term,
            vote,
            snapshot: self.snapshot,
            first,
            entries,
        }
    }

    /// What is kept, if the files represent a state: a node may start with it then. No entry is copied.
    pub fn into_kept(self) -> Kept
        ensures is { result ≡ kept_by self }
        ensures starts { judged self ≡ Loaded (kept_by self) → CanStart result }
    {
        self.into_unjudged()
    }
}
