// Loading a store from a disk, and looking at its files.
mod calls;
mod list;
mod names;
mod reads;

ghost use Rattle.std.specs.Prelude.{◌≡◌, ◌≤◌, ◌<◌, ◌+◌, ◌++◌, ◌∷◌, [], suc, length, None, IfOk};
ghost use Rattle.disk_model.specs.Spelled.{all_spelled};
ghost use Rattle.disk_model.specs.Trait.{Known, MakesCalls};
ghost use Rattle.store_laws.specs.Names.{Segment};
ghost use Rattle.store_format.specs.FilesRead.{nothing_read};
ghost use Rattle.store_format.specs.SegmentLog.{FitsNumber};
ghost use Rattle.store_format.specs.Starts.{CanStart};
ghost use Rattle.segment_store.specs.FileNames.{file_name};
ghost use Rattle.segment_store.specs.Faults.{DiskCause};
ghost use Rattle.segment_store.specs.Grow.{IsFree};
ghost use Rattle.segment_store.specs.Keeps.{folder, Went};
ghost use Rattle.segment_store.specs.Listed.{Below, IsListed};
ghost use Rattle.segment_store.specs.Loading.{Sees, IsPlain, Loads, LooksAt, LoadCause};
ghost use Rattle.segment_store.specs.LoadCounts.{Counts, LoadCounts, look_count, repair_count, settling_count};
ghost use Rattle.segment_store.specs.Reads.{ReadsAll};
ghost use Rattle.segment_store.specs.Repairs.{last_number};
ghost use Rattle.segment_store.specs.Settling.{front_calls, emptying_calls, left_after, Empties, Settles};

use crate::fault::StoreFault;
use crate::load_fault::LoadFault;
use crate::loading::calls::{repair, sync_files};
use crate::loading::list::{FolderList, list_files};
use crate::loading::reads::{Sizes, read_files};
use crate::names::NUMBER_END;
use crate::store::{Store, begin_batch};
use disk_model::Disk;
use std::alloc::{AllocError, Global};
use store_format::{FilesRead, Kept, LastSegment, batch_bytes};

// Lists the files and reads them.
fn read_folder<D: Disk>(
    alloc: Global,
    disk: &mut D,
    read: &mut FilesRead,
) -> Result<(FolderList, Sizes), StoreFault>
    requires { read.old ≡ nothing_read }
    ensures told { Sees (D.states disk.old) (D.states disk.new) result (λ d x. IsListed x.0 (folder d) × (IsPlain (folder d) → ReadsAll (folder d) read.new x.1.0 x.1.1)) }
    ensures cause { DiskCause (D.faults disk.old) (D.faults disk.new) result }
    ensures count { Counts (λ d. look_count (folder d).read) (D.states disk.old) (D.made disk.old) (D.made disk.new) result }
{
    let list = list_files(alloc, disk)?;
    let sizes = read_files(alloc, disk, &list, read)?;
    Ok((list, sizes))
}

// Syncs all files and the names, and repairs the last segment.
fn sync_and_repair<D: Disk>(
    alloc: Global,
    disk: &mut D,
    list: &FolderList,
    last: Option<LastSegment>,
) -> Result<(), StoreFault>
    requires { FitsNumber last }
    ensures went { Went (all_spelled file_name (front_calls list.now last)) (D.states disk.old) (D.states disk.new) result }
    ensures cause { DiskCause (D.faults disk.old) (D.faults disk.new) result }
    ensures count { MakesCalls (suc (length list.now.files) + repair_count last) (D.made disk.old) (D.made disk.new) result }
{
    sync_files(alloc, disk, list.files())?;
    repair(alloc, disk, last)
}

// Begins a segment with a batch without entries.
fn begin_empty<D: Disk>(
    alloc: Global,
    disk: &mut D,
    number: u64,
    first: u64,
) -> Result<(), StoreFault>
    requires { number < 10000000000000000 }
    ensures went { Known D.tells (D.states disk.old) (IsFree (file_name (Segment number))) → Went (emptying_calls number first) (D.states disk.old) (D.states disk.new) result }
    ensures cause { DiskCause (D.faults disk.old) (D.faults disk.new) result }
    ensures count { MakesCalls 5 (D.made disk.old) (D.made disk.new) result }
{
    let batch = batch_bytes(alloc, first, &[])?;
    begin_batch(alloc, disk, number, batch.as_slice())
}

// The number after that of the last segment.
fn next_number(last: Option<LastSegment>) -> u64
    requires { FitsNumber last }
    ensures next { result ≡ suc (last_number last) }
    ensures digits { result ≤ 10000000000000000 }
{
    match last {
        Some(last) => last.number + 1,
        None => 1,
    }
}

// The segments that are left after the repair of the last one.
fn left_after(segments: Vec<u64>, last: Option<LastSegment>) -> Vec<u64>
    ensures left { result.items ≡ left_after last segments.items }
    ensures digits { Below segments.items → Below result.items }
{
    let mut segments = segments;
    if let Some(last) = last {
        if last.good == 0 {
            let count = segments.len();
            segments.truncate(count.saturating_sub(1));
        }
    }
    segments
}

// The numbers with one more after them.
fn with_number(numbers: Vec<u64>, number: u64) -> Result<Vec<u64>, AllocError>
    requires { number < 10000000000000000 }
    ensures all { IfOk result (λ all. all.items ≡ numbers.items ++ number ∷ []) }
    ensures digits { IfOk result (λ all. Below numbers.items → Below all.items) }
{
    let mut numbers = numbers;
    numbers.push(number)?;
    Ok(numbers)
}

// Empties the log by a batch in a new segment of this number, and puts the number after those of the segments.
fn empty_log<D: Disk>(
    alloc: Global,
    disk: &mut D,
    number: u64,
    first: u64,
    segments: Vec<u64>,
) -> Result<Vec<u64>, StoreFault>
    ensures empties { Empties D.tells number first (D.states disk.old) (D.states disk.new) result }
    ensures segments { IfOk result (λ all. all.items ≡ segments.items ++ number ∷ []) }
    ensures digits { IfOk result (λ all. (number < 10000000000000000) × (Below segments.items → Below all.items)) }
    ensures cause { DiskCause (D.faults disk.old) (D.faults disk.new) result }
    ensures count { MakesCalls 5 (D.made disk.old) (D.made disk.new) result }
{
    if number >= NUMBER_END {
        return Err(StoreFault::NoMemory);
    }
    let all = with_number(segments, number)?;
    begin_empty(alloc, disk, number, first)?;
    Ok(all)
}

// Leaves the disk at rest with what the files represent, and opens the store.
fn settle<D: Disk>(
    alloc: Global,
    disk: &mut D,
    list: FolderList,
    sizes: Sizes,
    read: &FilesRead,
) -> Result<Store, StoreFault>
    ensures begins { IfOk result (λ store. store.size ≡ None) }
    ensures settles { Settles list read.now sizes.0 sizes.1 (D.states disk.old) (D.states disk.new) result }
    ensures cause { DiskCause (D.faults disk.old) (D.faults disk.new) result }
    ensures count { MakesCalls (settling_count list read.now) (D.made disk.old) (D.made disk.new) result }
{
    let last = read.last_segment();
    let stale = read.stale_from();
    sync_and_repair(alloc, disk, &list, last)?;
    let next = next_number(last);
    let (segments, snapshots) = list.into_numbers();
    let left = left_after(segments, last);
    match stale {
        None => Ok(Store::opened(alloc, read.version(), sizes, next, left, snapshots)),
        Some(first) => {
            let all = empty_log(alloc, disk, next, first, left)?;
            Ok(Store::opened(alloc, read.version(), sizes, next + 1, all, snapshots))
        }
    }
}

impl Store {
    /// Opens the store of a node over a disk, and answers what is kept: a folder without files has term 0 and no entry.
    ///
    /// Lists the folder and reads each file of a node once, except for snapshots of a smaller index than one that is whole. It judges first: after
    /// `NoMeta`, `Damaged` and `Gap` the disk is as it was. Then it syncs all files of a node and the names, truncates a torn tail of the last segment,
    /// or removes that segment where its first word says no format, and if the snapshot drops the whole log it empties that log by a batch in a new
    /// segment. So what it answers is after each crash. The store's first batch begins a segment. Inside the call a crash leaves what a load of the
    /// files before may give. After `DiskFault` and `NoMemory` the disk may be loaded again.
    ///
    /// Other names in the folder are left alone. Takes memory for the entries, the newest snapshot, and one file at a
    /// time.
    ///
    /// A file is read in pieces of 65,536 bytes, with one call more that finds its end. How many calls of the disk a load
    /// makes goes by the files alone: those of its reads, one sync for each file and one of the names, and those of the repair.
    pub fn load<D: Disk>(alloc: Global, disk: &mut D) -> Result<(Store, Kept), LoadFault>
        ensures loads { Loads (D.states disk.old) (D.states disk.new) result }
        ensures begins { IfOk result (λ loaded. loaded.0.size ≡ None) }
        // A node may start with it, whatever the disk tells.
        ensures starts { IfOk result (λ loaded. CanStart loaded.1) }
        ensures cause { LoadCause (D.faults disk.old) (D.faults disk.new) result }
        ensures count { LoadCounts (D.states disk.old) (D.made disk.old) (D.made disk.new) result }
    {
        let mut read = FilesRead::new(alloc);
        let (list, sizes) = read_folder(alloc, disk, &mut read)?;
        read.check()?;
        let store = settle(alloc, disk, list, sizes, &read)?;
        Ok((store, read.into_kept()))
    }

    /// What the files of a node represent. Only lists and reads: the disk stays as it is. Its faults are those of `load`.
    pub fn look<D: Disk>(alloc: Global, disk: &mut D) -> Result<Kept, LoadFault>
        ensures looks { LooksAt (D.states disk.old) (D.states disk.new) result }
        ensures starts { IfOk result (λ kept. CanStart kept) }
        ensures cause { LoadCause (D.faults disk.old) (D.faults disk.new) result }
        ensures count { Counts (λ d. look_count (folder d).read) (D.states disk.old) (D.made disk.old) (D.made disk.new) result }
    {
        let mut read = FilesRead::new(alloc);
        read_folder(alloc, disk, &mut read)?;
        read.check()?;
        Ok(read.into_kept())
    }
}
