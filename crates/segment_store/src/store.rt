ghost use Rattle.std.specs.Prelude.{◌≡◌, ◌==◌, ◌%◌, ◌<◌, ◌≤◌, ◌^◌, ◌+◌, ◌-◌, ◌++◌, ◌∷◌, [], suc, length, MatchOption, Some, None, IfOk, OnOk};
ghost use Rattle.disk_model.specs.Calls.{MayWrite, Sync, WriteAt};
ghost use Rattle.disk_model.specs.Trait.{Known, MakesCalls};
ghost use Rattle.store_laws.specs.Names.{Segment};
ghost use Rattle.store_laws.specs.Store.{Kept, Log};
ghost use Rattle.store_laws.specs.Append.{with_batch, CanAppend};
ghost use Rattle.store_laws.specs.Meta.{file_of, with_vote};
ghost use Rattle.store_format.specs.Metadata.{block_bytes};
ghost use Rattle.store_format.specs.Snapshots.{snapshot_bytes};
ghost use Rattle.store_format.specs.Batches.{batch_bytes};
ghost use Rattle.store_format.specs.BatchesWritten.{segment_word, Fits};
ghost use Rattle.segment_store.specs.FileNames.{file_name};
ghost use Rattle.segment_store.specs.Grow.{begin_calls, IsFree, room_in, appended_to, grown_to, with_appended};
ghost use Rattle.segment_store.specs.Halves.{BeginsAppend, EndsAppend, HasBegun, HasFailed, WentTo};
ghost use Rattle.segment_store.specs.Faults.{DiskCause, StaysUnlessFailed};
ghost use Rattle.segment_store.specs.Open.{HaveDigits, size_for, with_version};
ghost use Rattle.segment_store.specs.Keeps.{Keeps, Went, block_calls};
ghost use Rattle.segment_store.specs.Keeping.{CanKeep, KeepsSnapshot, kept_calls, later_than, snap_value, with_kept};
ghost use Rattle.segment_store.specs.Plans.{IsPlan};
ghost use Rattle.segment_store.specs.MadeCalls.{Makes, version_calls, batch_calls_in, block_count, batch_count, kept_count};

use crate::block::write_block;
use crate::fault::StoreFault;
use crate::keep_files::follow;
use crate::keep_plan::{KeepPlan, kept_indices, new_segment, new_snapshot, old_files};
use crate::names::{File, NUMBER_END, file_name, metadata_file};
use crate::segment::{begin_segment, write_unsynced};
use crate::unsynced::UnsyncedBatch;
use disk_model::Disk;
use raft_messages::{Entry, Snapshot};
use std::alloc::{AllocError, Global};
use std::marker::Model;
use store_format::{Metadata, batch_bytes, metadata_bytes};

/// What a node keeps in its folder: a term with a vote, a log in segments, and a snapshot. A store is open over the disk
/// that it was loaded from, which no one else changes.
///
/// After an `Err` of a call the store has to be loaded again. What was kept is then the state before the call or the one
/// after it, also if a crash came inside the call. If no call of the disk answered an `Err` the disk is as it was:
/// all memory of the store's own is there before the first of them.
#[derive(Drop)]
pub struct Store {
    alloc: Global,
    // the newest version of the metadata; 0 for none
    version: u64,
    // how long the files of metadata are, if they are there
    first: Option<u64>,
    second: Option<u64>,
    // the number of the next new segment
    next: u64,
    // how long the segment before it is, where batches may still be added to it
    size: Option<u64>,
    // the numbers of the segments that are there, ascending
    segments: Vec<u64>,
    // the indices of the snapshots' files that are there
    snapshots: Vec<u64>,
}

/// A segment of this many bytes or more takes no batch any more.
const MAX_SEGMENT_LENGTH: u64 = 8_388_608;

impl Model for Store {
    ghost use Rattle.segment_store.specs.Open.{Open, HaveDigits};

    ghost Value = { Open };

    ghost view = { λ s. record { version = s.version; first = s.first; second = s.second; next = s.next; size = s.size; segments = s.segments.items; snapshots = s.snapshots.items } };

    ghost invariant = { λ s. HaveDigits s.next s.segments.items s.snapshots.items };
}

// Writes metadata into the file of its version, which has this size, if it is there.
fn write_metadata<D: Disk>(
    alloc: Global,
    disk: &mut D,
    metadata: &Metadata,
    size: Option<u64>,
) -> Result<(), StoreFault>
    ensures went { Known D.tells (D.states disk.old) (MayWrite (file_name (file_of (metadata.now.version % 2 == 1))) 0) → Went (block_calls (file_name (file_of (metadata.now.version % 2 == 1))) (block_bytes metadata.now) size) (D.states disk.old) (D.states disk.new) result }
    ensures cause { DiskCause (D.faults disk.old) (D.faults disk.new) result }
    ensures stays { StaysUnlessFailed disk.old disk.new (D.faults disk.old) (D.faults disk.new) (D.wants disk.old) (D.wants disk.new) result }
    ensures count { MakesCalls (block_count size) (D.made disk.old) (D.made disk.new) result }
{
    let block = metadata_bytes(alloc, metadata)?;
    let name = file_name(alloc, metadata_file(metadata.version))?;
    write_block(disk, name.as_str(), block.as_slice(), size)?;
    Ok(())
}

// Writes a batch at the end of the segment of this number, which has this size, and leaves the sync to the caller.
fn write_batch<D: Disk>(
    alloc: Global,
    disk: &mut D,
    number: u64,
    size: u64,
    batch: &[u8],
) -> Result<UnsyncedBatch, StoreFault>
    requires number { number < 10000000000000000 }
    requires room { size < 8388608 }
    ensures unsynced { IfOk result (λ u. (u.name ≡ file_name (Segment number)) × (u.size ≡ size + length batch.now)) }
    ensures went { Known D.tells (D.states disk.old) (MayWrite (file_name (Segment number)) size) →
        WentTo (WriteAt (file_name (Segment number)) size batch.now ∷ []) (D.states disk.old) (D.states disk.new) result }
    ensures cause { DiskCause (D.faults disk.old) (D.faults disk.new) result }
    ensures wants { D.wants disk.old ≤ D.wants disk.new }
    ensures stays { StaysUnlessFailed disk.old disk.new (D.faults disk.old) (D.faults disk.new) (D.wants disk.old) (D.wants disk.new) result }
    ensures count { MakesCalls 1 (D.made disk.old) (D.made disk.new) result }
{
    let name = file_name(alloc, File::Segment(number))?;
    let is_begun = write_unsynced(disk, name.as_str(), size, batch)?;
    let size = size + batch.len() as u64;
    Ok(UnsyncedBatch {
        name,
        size,
        is_begun,
    })
}

/// Begins the segment of this number with a batch.
pub(crate) fn begin_batch<D: Disk>(
    alloc: Global,
    disk: &mut D,
    number: u64,
    batch: &[u8],
) -> Result<(), StoreFault>
    requires { number < 10000000000000000 }
    ensures went { Known D.tells (D.states disk.old) (IsFree (file_name (Segment number))) → Went (begin_calls (file_name (Segment number)) segment_word batch.now) (D.states disk.old) (D.states disk.new) result }
    ensures cause { DiskCause (D.faults disk.old) (D.faults disk.new) result }
    ensures stays { StaysUnlessFailed disk.old disk.new (D.faults disk.old) (D.faults disk.new) (D.wants disk.old) (D.wants disk.new) result }
    ensures count { MakesCalls 5 (D.made disk.old) (D.made disk.new) result }
{
    let name = file_name(alloc, File::Segment(number))?;
    begin_segment(disk, name.as_str(), batch)?;
    Ok(())
}

// The numbers with one more after them.
fn with_number(alloc: Global, numbers: &[u64], number: u64) -> Result<Vec<u64>, AllocError>
    ensures { IfOk result (λ all. all.items ≡ numbers.now ++ number ∷ []) }
{
    let mut all = Vec::from_slice(alloc, numbers)?;
    all.push(number)?;
    Ok(all)
}

impl Store {
    /// A store that was loaded, whose next batch begins a segment.
    pub(crate) fn opened(
        alloc: Global,
        version: u64,
        sizes: (Option<u64>, Option<u64>),
        next: u64,
        segments: Vec<u64>,
        snapshots: Vec<u64>,
    ) -> Store
        requires { HaveDigits next segments.items snapshots.items }
        ensures { result ≡ record { version = version; first = sizes.0; second = sizes.1; next = next; size = None; segments = segments.items; snapshots = snapshots.items } }
    {
        Store {
            alloc,
            version,
            first: sizes.0,
            second: sizes.1,
            next,
            size: None,
            segments,
            snapshots,
        }
    }

    fn size_for(&self, version: u64) -> Option<u64>
        ensures { result ≡ size_for version self.now }
    {
        if version % 2 == 1 {
            self.first
        } else {
            self.second
        }
    }

    fn next_version(&self) -> Option<u64>
        ensures { MatchOption result (Unit {0}) (λ version. (version ≡ suc self.now.version) × (version < 2 ^ 64)) }
    {
        self.version.checked_add(1)
    }

    fn note_metadata(&mut self, version: u64)
        ensures { self.new ≡ with_version version self.old }
    {
        self.version = version;
        if version % 2 == 1 {
            self.first = Some(40);
        } else {
            self.second = Some(40);
        }
    }

    /// Keeps a term and a vote; 0 is no vote. Writes one file of 40 bytes, in format 3. A version past the last number of
    /// 64 bits is answered as out of memory, with nothing written.
    pub fn set_meta<D: Disk>(
        &mut self,
        disk: &mut D,
        term: u64,
        vote: u64,
    ) -> Result<(), StoreFault>
        ensures kept { (k : Kept) → Keeps D.tells (D.states disk.old) (D.states disk.new) self.old self.new k (with_vote term vote k) result }
        ensures store { OnOk result (self.new ≡ with_version (suc self.old.version) self.old) }
        ensures calls { (k : Kept) → Makes D.tells (D.states disk.old) (D.states disk.new) self.old k (version_calls (suc self.old.version) self.old term vote) result }
        ensures cause { DiskCause (D.faults disk.old) (D.faults disk.new) result }
        ensures stays { StaysUnlessFailed disk.old disk.new (D.faults disk.old) (D.faults disk.new) (D.wants disk.old) (D.wants disk.new) result }
        ensures count { MakesCalls (block_count (size_for (suc self.old.version) self.old)) (D.made disk.old) (D.made disk.new) result }
    {
        let Some(version) = self.next_version() else {
            return Err(StoreFault::NoMemory);
        };
        let metadata = Metadata {
            version,
            term,
            vote,
        };
        write_metadata(self.alloc, disk, &metadata, self.size_for(version))?;
        self.note_metadata(version);
        Ok(())
    }

    fn room(&self) -> Option<u64>
        ensures { result ≡ room_in self.now.size }
    {
        match self.size {
            Some(size) if size < MAX_SEGMENT_LENGTH => Some(size),
            _ => None,
        }
    }

    fn last(&self) -> u64
        ensures number { result ≡ self.now.next - 1 }
        ensures digits { result < 10000000000000000 }
    {
        self.next.saturating_sub(1)
    }

    // The number of a new segment, if one is left.
    fn new_number(&self) -> Option<u64>
        ensures { MatchOption result (Unit {0}) (λ number. (number ≡ self.now.next) × (number < 10000000000000000)) }
    {
        if self.next < NUMBER_END {
            Some(self.next)
        } else {
            None
        }
    }

    // The last segment is this long now.
    fn note_grown(&mut self, size: u64)
        ensures { self.new ≡ grown_to size self.old }
    {
        self.size = Some(size);
    }

    fn note_begun(&mut self, segments: Vec<u64>, batch: &[u8])
        requires digits { self.old.next < 10000000000000000 }
        requires listed { segments.items ≡ self.old.segments ++ self.old.next ∷ [] }
        ensures { self.new ≡ appended_to None (length batch.now) self.old }
    {
        self.segments = segments;
        self.next += 1;
        self.size = Some(8 + batch.len() as u64);
    }

    // Adds a batch to the segment that has room for it.
    fn grow<D: Disk>(&mut self, disk: &mut D, size: u64, batch: &[u8]) -> Result<(), StoreFault>
        requires { size < 8388608 }
        ensures store { OnOk result (self.new ≡ appended_to (Some size) (length batch.now) self.old) }
        ensures kept { (k : Kept) (b : Log) → batch.now ≡ batch_bytes b → Fits b → CanAppend k b → room_in self.old.size ≡ Some size →
            Keeps D.tells (D.states disk.old) (D.states disk.new) self.old self.new k (with_batch b k) result }
        ensures calls { (k : Kept) → room_in self.old.size ≡ Some size → Makes D.tells (D.states disk.old) (D.states disk.new) self.old k (batch_calls_in (Some size) self.old batch.now) result }
        ensures cause { DiskCause (D.faults disk.old) (D.faults disk.new) result }
        ensures stays { StaysUnlessFailed disk.old disk.new (D.faults disk.old) (D.faults disk.new) (D.wants disk.old) (D.wants disk.new) result }
        ensures count { MakesCalls 2 (D.made disk.old) (D.made disk.new) result }
    {
        let unsynced = write_batch(self.alloc, disk, self.last(), size, batch)?;
        self.end_append(disk, unsynced)
    }

    // Begins a segment with a batch.
    fn begin<D: Disk>(&mut self, disk: &mut D, batch: &[u8]) -> Result<(), StoreFault>
        ensures store { OnOk result (self.new ≡ appended_to None (length batch.now) self.old) }
        ensures kept { (k : Kept) (b : Log) → batch.now ≡ batch_bytes b → Fits b → CanAppend k b → room_in self.old.size ≡ None →
            Keeps D.tells (D.states disk.old) (D.states disk.new) self.old self.new k (with_batch b k) result }
        ensures calls { (k : Kept) → Makes D.tells (D.states disk.old) (D.states disk.new) self.old k (batch_calls_in None self.old batch.now) result }
        ensures cause { DiskCause (D.faults disk.old) (D.faults disk.new) result }
        ensures stays { StaysUnlessFailed disk.old disk.new (D.faults disk.old) (D.faults disk.new) (D.wants disk.old) (D.wants disk.new) result }
        ensures count { MakesCalls 5 (D.made disk.old) (D.made disk.new) result }
    {
        let Some(number) = self.new_number() else {
            return Err(StoreFault::NoMemory);
        };
        let segments = with_number(self.alloc, self.segments.as_slice(), number)?;
        begin_batch(self.alloc, disk, number, batch)?;
        self.note_begun(segments, batch);
        Ok(())
    }

    // Writes a batch to the segment that has room for it, and leaves the sync.
    fn begin_grow<D: Disk>(
        &self,
        disk: &mut D,
        size: u64,
        batch: &[u8],
    ) -> Result<Option<UnsyncedBatch>, StoreFault>
        requires { size < 8388608 }
        ensures begun { room_in self.now.size ≡ Some size → IfOk result (HasBegun self.now self.now batch.now) }
        ensures kept { (k : Kept) (b : Log) → batch.now ≡ batch_bytes b → Fits b → CanAppend k b → room_in self.now.size ≡ Some size →
            BeginsAppend D.tells (D.states disk.old) (D.states disk.new) self.now self.now k b result }
        ensures cause { DiskCause (D.faults disk.old) (D.faults disk.new) result }
        ensures stays { StaysUnlessFailed disk.old disk.new (D.faults disk.old) (D.faults disk.new) (D.wants disk.old) (D.wants disk.new) result }
        ensures wants { IfOk result (λ left. MatchOption left (Unit {0}) (λ u. D.wants disk.old ≤ D.wants disk.new)) }
    {
        let unsynced = write_batch(self.alloc, disk, self.last(), size, batch)?;
        Ok(Some(unsynced))
    }

    // Begins a segment with a batch, and leaves nothing.
    fn begin_whole<D: Disk>(
        &mut self,
        disk: &mut D,
        batch: &[u8],
    ) -> Result<Option<UnsyncedBatch>, StoreFault>
        ensures begun { room_in self.old.size ≡ None → IfOk result (HasBegun self.old self.new batch.now) }
        ensures kept { (k : Kept) (b : Log) → batch.now ≡ batch_bytes b → Fits b → CanAppend k b → room_in self.old.size ≡ None →
            BeginsAppend D.tells (D.states disk.old) (D.states disk.new) self.old self.new k b result }
        ensures cause { DiskCause (D.faults disk.old) (D.faults disk.new) result }
        ensures stays { StaysUnlessFailed disk.old disk.new (D.faults disk.old) (D.faults disk.new) (D.wants disk.old) (D.wants disk.new) result }
        ensures wants { IfOk result (λ left. MatchOption left (Unit {0}) (λ u. D.wants disk.old ≤ D.wants disk.new)) }
    {
        self.begin(disk, batch)?;
        Ok(None)
    }

    /// Replaces the log from the index `first` on by these entries. `first` lies past the kept snapshot and at most one
    /// past the log's end, and a term is kept: else nothing is said of what is kept.
    ///
    /// One write and one sync of the batch, in the segment that is there where it has fewer than 8,388,608 bytes and a batch went to it since the load, else
    /// in a new one, which takes three calls more. Each entry is copied once. An entry of more than 4,294,967,295 bytes and a segment of more than sixteen
    /// digits are answered as out of memory, with nothing written.
    pub fn append<D: Disk>(
        &mut self,
        disk: &mut D,
        first: u64,
        entries: &[Entry],
    ) -> Result<(), StoreFault>
        ensures store { OnOk result (self.new ≡ with_appended (length (batch_bytes (record { first = first; entries = entries.now }))) self.old) }
        ensures kept { (k : Kept) → CanAppend k (record { first = first; entries = entries.now }) →
            Keeps D.tells (D.states disk.old) (D.states disk.new) self.old self.new k (with_batch (record { first = first; entries = entries.now }) k) result }
        ensures calls { (k : Kept) → Makes D.tells (D.states disk.old) (D.states disk.new) self.old k (batch_calls_in (room_in self.old.size) self.old (batch_bytes (record { first = first; entries = entries.now }))) result }
        ensures cause { DiskCause (D.faults disk.old) (D.faults disk.new) result }
        ensures stays { StaysUnlessFailed disk.old disk.new (D.faults disk.old) (D.faults disk.new) (D.wants disk.old) (D.wants disk.new) result }
        ensures count { MakesCalls (batch_count (room_in self.old.size)) (D.made disk.old) (D.made disk.new) result }
    {
        let batch = batch_bytes(self.alloc, first, entries)?;
        match self.room() {
            Some(size) => self.grow(disk, size, batch.as_slice()),
            None => self.begin(disk, batch.as_slice()),
        }
    }

    /// The first half of `append`, with its conditions and faults: writes the batch. If it went to the segment that is there, its
    /// sync is left to `end_append`, which is to be the next call; the store is as it was, and a crash leaves what a crash in
    /// `append` does. If it began a new segment it is kept, and nothing is left to be done.
    pub fn begin_append<D: Disk>(
        &mut self,
        disk: &mut D,
        first: u64,
        entries: &[Entry],
    ) -> Result<Option<UnsyncedBatch>, StoreFault>
        ensures begun { IfOk result (HasBegun self.old self.new (batch_bytes (record { first = first; entries = entries.now }))) }
        ensures kept { (k : Kept) → CanAppend k (record { first = first; entries = entries.now }) →
            BeginsAppend D.tells (D.states disk.old) (D.states disk.new) self.old self.new k (record { first = first; entries = entries.now }) result }
        ensures cause { DiskCause (D.faults disk.old) (D.faults disk.new) result }
        ensures stays { StaysUnlessFailed disk.old disk.new (D.faults disk.old) (D.faults disk.new) (D.wants disk.old) (D.wants disk.new) result }
        ensures wants { IfOk result (λ left. MatchOption left (Unit {0}) (λ u. D.wants disk.old ≤ D.wants disk.new)) }
    {
        let batch = batch_bytes(self.alloc, first, entries)?;
        match self.room() {
            Some(size) => self.begin_grow(disk, size, batch.as_slice()),
            None => self.begin_whole(disk, batch.as_slice()),
        }
    }

    /// The second half of `append`: syncs the batch that `begin_append` has written, by one call of the disk. Then it is kept. After
    /// an `Err` the disk has failed or run out of memory, and what is kept is the state before `begin_append` or the one with
    /// the batch.
    pub fn end_append<D: Disk>(
        &mut self,
        disk: &mut D,
        batch: UnsyncedBatch,
    ) -> Result<(), StoreFault>
        requires { batch.name ≡ file_name (Segment (self.old.next - 1)) }
        ensures store { OnOk result (self.new ≡ grown_to batch.size self.old) }
        ensures kept { (k : Kept) (b : Log) → EndsAppend D.tells (D.states disk.old) (D.states disk.new) self.old self.new k b batch.size result }
        ensures went { WentTo (Sync (file_name (Segment (self.old.next - 1))) ∷ []) (D.states disk.old) (D.states disk.new) result }
        ensures cause { DiskCause (D.faults disk.old) (D.faults disk.new) result }
        ensures failed { HasFailed (D.faults disk.old) (D.faults disk.new) (D.wants disk.old) (D.wants disk.new) result }
        ensures count { MakesCalls 1 (D.made disk.old) (D.made disk.new) result }
    {
        // It shows the prover that numbers of segments have sixteen digits.
        let _ = &self.segments;
        disk.sync(batch.name.as_str())?;
        self.note_grown(batch.size);
        Ok(())
    }

    // What keeping a snapshot writes and removes. Nothing is left for the store's own memory to refuse later.
    fn plan<'a>(
        &self,
        snapshot: &'a Snapshot,
        first: u64,
        rest: &[Entry],
    ) -> Result<KeepPlan<'a>, AllocError>
        ensures { IfOk result (λ plan. IsPlan self.now (snap_value snapshot.now) (record { first = first; entries = rest.now }) plan) }
    {
        let Some(number) = self.new_number() else {
            return Err(AllocError);
        };
        if snapshot.index >= NUMBER_END {
            return Err(AllocError);
        }
        let is_there = self.snapshots.contains(&snapshot.index);
        let content = snapshot.bytes.as_slice();
        let file = new_snapshot(self.alloc, snapshot.index, snapshot.term, content, is_there)?;
        let segment = new_segment(self.alloc, number, first, rest)?;
        let old = old_files(self.alloc, &self.segments, &self.snapshots, snapshot.index)?;
        Ok(KeepPlan {
            snapshot: file,
            segment,
            old,
        })
    }

    fn note_kept(&mut self, segments: Vec<u64>, snapshots: Vec<u64>, index: u64, batch: &[u8])
        requires number { self.old.next < 10000000000000000 }
        requires index { index < 10000000000000000 }
        requires segments { segments.items ≡ self.old.next ∷ [] }
        requires snapshots { snapshots.items ≡ index ∷ later_than index self.old.snapshots }
        ensures { self.new ≡ with_kept index (length batch.now) self.old }
    {
        let _index = index;
        self.segments = segments;
        self.snapshots = snapshots;
        self.next += 1;
        self.size = Some(8 + batch.len() as u64);
    }

    /// Keeps a snapshot with the log after it: the entries `rest` from the index `first` on. A term is kept, the
    /// snapshot's index is above the kept one's, `first` is at least 1 and at most one past the snapshot's index, and the
    /// given log is what stays of the kept one after the snapshot: its part from `first` on, if it has the snapshot's
    /// entry or begins right past it, and else nothing. If that isn't so nothing is said of what is kept.
    ///
    /// After `Ok` exactly the snapshot with this log is kept. After an `Err` it is that or what was kept before, or the
    /// snapshot with an end of the log that was kept, from an earlier index on; the store has to be loaded again.
    ///
    /// The snapshot's file is written and synced, and the names; an old file of its name is first cut to nothing. A new
    /// segment begins with the entries. Then older segments go ascending, with a sync of the names after each, and older
    /// snapshots. Each byte of the snapshot is written from where it lies, and each entry is copied once. A snapshot's
    /// index or a segment's number of more than sixteen digits, an entry of more than 4,294,967,295 bytes and want of the
    /// store's own memory are answered as out of memory, with nothing written.
    pub fn keep_snapshot<D: Disk>(
        &mut self,
        disk: &mut D,
        snapshot: &Snapshot,
        first: u64,
        rest: &[Entry],
    ) -> Result<(), StoreFault>
        ensures store { OnOk result (self.new ≡ with_kept snapshot.now.index (length (batch_bytes (record { first = first; entries = rest.now }))) self.old) }
        ensures kept { (k : Kept) → CanKeep k (snap_value snapshot.now) (record { first = first; entries = rest.now }) →
            KeepsSnapshot D.tells (D.states disk.old) (D.states disk.new) self.old self.new k (snap_value snapshot.now) (record { first = first; entries = rest.now }) result }
        ensures calls { (k : Kept) → CanKeep k (snap_value snapshot.now) (record { first = first; entries = rest.now }) →
            Makes D.tells (D.states disk.old) (D.states disk.new) self.old k (kept_calls self.old snapshot.now.index (snapshot_bytes snapshot.now.index snapshot.now.term snapshot.now.bytes) (batch_bytes (record { first = first; entries = rest.now }))) result }
        ensures cause { DiskCause (D.faults disk.old) (D.faults disk.new) result }
        ensures stays { StaysUnlessFailed disk.old disk.new (D.faults disk.old) (D.faults disk.new) (D.wants disk.old) (D.wants disk.new) result }
        ensures count { MakesCalls (kept_count self.old snapshot.now.index) (D.made disk.old) (D.made disk.new) result }
    {
        let plan = self.plan(snapshot, first, rest)?;
        let segments = with_number(self.alloc, &[], self.next)?;
        let snapshots = kept_indices(self.alloc, snapshot.index, &self.snapshots)?;
        follow(disk, &plan)?;
        self.note_kept(
            segments,
            snapshots,
            snapshot.index,
            plan.segment.batch.as_slice(),
        );
        Ok(())
    }
}
