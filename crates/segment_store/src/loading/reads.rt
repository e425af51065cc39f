// The files of a node, read one after another.
ghost use Rattle.std.specs.Prelude.{◌≡◌, ◌<◌, ◌≤◌, ◌++◌, [], length, take, OnOk};
ghost use Rattle.dq_base.specs.Faults.{one_more};
ghost use Rattle.dq_base.specs.Names.{IsName};
ghost use Rattle.store_laws.specs.Meta.{file_of};
ghost use Rattle.segment_store.specs.FileNames.{name_of, number_of};
ghost use Rattle.segment_store.specs.Faults.{DiskCause};
ghost use Rattle.segment_store.specs.Keeps.{folder};
ghost use Rattle.segment_store.specs.Listed.{Below, IsListed};
ghost use Rattle.segment_store.specs.Loading.{Sees, IsPlain};
ghost use Rattle.segment_store.specs.LoadCounts.{Counts, reads_for, meta_count, snapshot_count, snapshots_count, segments_count, list_count};
ghost use Rattle.segment_store.specs.Reads.{ReadsOn, ReadsPiece, ReadsMeta, ReadsSnaps, ReadsSegments, ReadsAll, snap_at};
ghost use Rattle.store_format.specs.FilesRead.{with_snap, nothing_read};

use crate::fault::StoreFault;
use crate::loading::list::FolderList;
use crate::names::{File, file_name};
use disk_model::Disk;
use std::alloc::{AllocError, Global};
use store_format::FilesRead;

/// How many bytes are read by one call.
const CHUNK: usize = 65_536;

fn size_of(bytes: &[u8]) -> u64
    ensures { result ≡ length bytes.now }
{
    bytes.len() as u64
}

// Puts the front of a piece after other bytes.
fn push_front(bytes: &mut Vec<u8>, piece: &[u8], count: usize) -> Result<(), AllocError>
    requires { count ≤ length piece.now }
    ensures { OnOk result (bytes.new.items ≡ bytes.old.items ++ take count piece.now) }
{
    bytes.extend_from_slice(&piece[..count])?;
    Ok(())
}

// Reads more bytes after those that were read, and answers whether there were any.
fn read_more<D: Disk>(
    disk: &mut D,
    name: &str,
    chunk: &mut [u8],
    bytes: &mut Vec<u8>,
) -> Result<bool, StoreFault>
    requires name { IsName name.now }
    requires room { 0 < length chunk.old }
    ensures told { Sees (D.states disk.old) (D.states disk.new) result (λ d more. ReadsOn (d.read name.now).bytes bytes.old.items bytes.new.items more) }
    ensures piece { Sees (D.states disk.old) (D.states disk.new) result (λ d more. ReadsPiece (length chunk.old) (d.read name.now).bytes bytes.old.items bytes.new.items more) }
    ensures cause { DiskCause (D.faults disk.old) (D.faults disk.new) result }
    ensures count { D.made disk.new ≡ one_more (D.made disk.old) }
{
    let at = size_of(bytes.as_slice());
    let count = disk.read_at(name, at, chunk)?;
    if count == 0 {
        return Ok(false);
    }
    push_front(bytes, chunk, count)?;
    Ok(true)
}

// Reads a file whole. No memory holds one of more pieces than there are numbers.
fn read_whole<D: Disk>(
    disk: &mut D,
    name: &str,
    chunk: &mut [u8],
    bytes: &mut Vec<u8>,
) -> Result<(), StoreFault>
    requires name { IsName name.now }
    requires room { length chunk.old ≡ 65536 }
    requires empty { bytes.old.items ≡ [] }
    ensures told { Sees (D.states disk.old) (D.states disk.new) result (λ d x. bytes.new.items ≡ (d.read name.now).bytes) }
    ensures cause { DiskCause (D.faults disk.old) (D.faults disk.new) result }
    ensures count { Counts (λ d. reads_for (length (d.read name.now).bytes)) (D.states disk.old) (D.made disk.old) (D.made disk.new) result }
{
    'reads: for _ in 0..u64::MAX {
        let more = read_more(disk, name, chunk, bytes)?;
        if !more {
            return Ok(());
        }
    }
    Err(StoreFault::NoMemory)
}

/// The bytes of a file.
#[tactic(auto, using(crate::proofs::LoadCounting::counts_refused))]
fn read_file<D: Disk>(alloc: Global, disk: &mut D, file: File) -> Result<Vec<u8>, StoreFault>
    requires { number_of file < 10000000000000000 }
    ensures told { Sees (D.states disk.old) (D.states disk.new) result (λ d bytes. bytes.items ≡ ((folder d).read (name_of file)).bytes) }
    ensures cause { DiskCause (D.faults disk.old) (D.faults disk.new) result }
    ensures count { Counts (λ d. reads_for (length ((folder d).read (name_of file)).bytes)) (D.states disk.old) (D.made disk.old) (D.made disk.new) result }
{
    let name = file_name(alloc, file)?;
    let mut chunk = Vec::from_elem(alloc, 0, CHUNK)?;
    let mut bytes = Vec::new(alloc);
    read_whole(disk, name.as_str(), chunk.as_mut_slice(), &mut bytes)?;
    Ok(bytes)
}

fn metadata_name(first: bool) -> File
    ensures file { name_of result ≡ file_of first }
    ensures number { number_of result ≡ 0 }
{
    if first { File::First } else { File::Second }
}

// Reads a file of metadata, if it is there, and answers its size.
fn read_metadata<D: Disk>(
    alloc: Global,
    disk: &mut D,
    first: bool,
    is_there: bool,
    read: &mut FilesRead,
) -> Result<Option<u64>, StoreFault>
    ensures told { Sees (D.states disk.old) (D.states disk.new) result (λ d size. ReadsMeta first is_there (folder d) read.old read.new size) }
    ensures snapshot { read.new.snap ≡ read.old.snap }
    ensures cause { DiskCause (D.faults disk.old) (D.faults disk.new) result }
    ensures count { Counts (λ d. meta_count is_there ((folder d).read (file_of first))) (D.states disk.old) (D.made disk.old) (D.made disk.new) result }
{
    if !is_there {
        return Ok(None);
    }
    let bytes = read_file(alloc, disk, metadata_name(first))?;
    read.add_metadata(first, bytes.as_slice());
    Ok(Some(bytes.len() as u64))
}

// Reads the snapshot of an index, unless a newer one is known.
fn read_snapshot<D: Disk>(
    alloc: Global,
    disk: &mut D,
    index: u64,
    read: &mut FilesRead,
) -> Result<(), StoreFault>
    requires { index < 10000000000000000 }
    ensures told { Sees (D.states disk.old) (D.states disk.new) result (λ d x. read.new ≡ with_snap (snap_at (folder d) index) read.old) }
    ensures cause { DiskCause (D.faults disk.old) (D.faults disk.new) result }
    ensures count { Counts (λ d. snapshot_count (folder d).read read.old.snap.index index) (D.states disk.old) (D.made disk.old) (D.made disk.new) result }
{
    if index < read.snapshot_index() {
        return Ok(());
    }
    let bytes = read_file(alloc, disk, File::Snapshot(index))?;
    read.add_snapshot(index, bytes)?;
    Ok(())
}

// Reads the snapshots from the last one down.
#[tactic(auto, using(crate::proofs::LoadLists::below_at))]
fn read_snapshots<D: Disk>(
    alloc: Global,
    disk: &mut D,
    indexes: &[u64],
    read: &mut FilesRead,
) -> Result<(), StoreFault>
    requires { Below indexes.now }
    ensures told { Sees (D.states disk.old) (D.states disk.new) result (λ d x. ReadsSnaps (folder d) indexes.now read.old read.new) }
    ensures cause { DiskCause (D.faults disk.old) (D.faults disk.new) result }
    ensures count { Counts (λ d. snapshots_count (folder d).read read.old.snap.index indexes.now) (D.states disk.old) (D.made disk.old) (D.made disk.new) result }
{
    let mut left = indexes.len();
    while left > 0 {
        left -= 1;
        read_snapshot(alloc, disk, indexes[left], read)?;
    }
    Ok(())
}

// Reads the segments in turn.
#[tactic(auto, using(crate::proofs::LoadLists::below_at))]
fn read_segments<D: Disk>(
    alloc: Global,
    disk: &mut D,
    numbers: &[u64],
    read: &mut FilesRead,
) -> Result<(), StoreFault>
    requires { Below numbers.now }
    ensures told { Sees (D.states disk.old) (D.states disk.new) result (λ d x. ReadsSegments (folder d) numbers.now read.old read.new) }
    ensures cause { DiskCause (D.faults disk.old) (D.faults disk.new) result }
    ensures count { Counts (λ d. segments_count (folder d).read numbers.now) (D.states disk.old) (D.made disk.old) (D.made disk.new) result }
{
    for number in numbers {
        let bytes = read_file(alloc, disk, File::Segment(*number))?;
        read.add_segment(*number, bytes.as_slice())?;
    }
    Ok(())
}

/// How long the files of metadata are, if they are there: the first and the second.
pub(crate) type Sizes = (Option<u64>, Option<u64>);

/// Reads all files that are listed, each once.
pub(crate) fn read_files<D: Disk>(
    alloc: Global,
    disk: &mut D,
    list: &FolderList,
    read: &mut FilesRead,
) -> Result<Sizes, StoreFault>
    requires { read.old ≡ nothing_read }
    ensures told { Sees (D.states disk.old) (D.states disk.new) result (λ d sizes. IsListed list.now (folder d) → IsPlain (folder d) → ReadsAll (folder d) read.new sizes.0 sizes.1) }
    ensures cause { DiskCause (D.faults disk.old) (D.faults disk.new) result }
    ensures count { Counts (λ d. list_count list.now (folder d).read) (D.states disk.old) (D.made disk.old) (D.made disk.new) result }
{
    let first = read_metadata(alloc, disk, true, list.has_metadata(true), read)?;
    let second = read_metadata(alloc, disk, false, list.has_metadata(false), read)?;
    read_snapshots(alloc, disk, list.snapshots(), read)?;
    read_segments(alloc, disk, list.segments(), read)?;
    Ok((first, second))
}
