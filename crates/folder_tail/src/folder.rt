//! The last segment of a folder.
ghost use Rattle.std.specs.Prelude.{◌≡◌, ◌≤◌, ◌<◌, ◌++◌, [], length, take, Some, OnOk, IfOk};
ghost use Rattle.dq_base.specs.Names.{IsName};
ghost use Rattle.store_laws.specs.Names.{Segment};
ghost use Rattle.segment_store.specs.FileNames.{file_name};
ghost use Rattle.segment_store.specs.Faults.{DiskCause};
ghost use Rattle.segment_store.specs.Keeps.{folder};
ghost use Rattle.segment_store.specs.Loading.{Sees};
ghost use Rattle.segment_store.specs.Reads.{ReadsOn};
ghost use Rattle.folder_tail.specs.Last.{IsNumberOf, is_after, TakesName, IsGreatest, IsLastFile, IsNamed, IsLastRead, HasDigits};

use crate::names::segment_number;
use disk_model::Disk;
use dq_base::Name;
use segment_store::StoreFault;
use std::alloc::{AllocError, Global};

/// How many bytes are read by one call.
const CHUNK: usize = 65_536;

/// The file of a segment.
#[derive(Drop)]
pub(crate) struct SegmentFile {
    /// Its number.
    pub(crate) number: u64,
    /// Its name.
    pub(crate) name: Name,
}

/// Whether a number comes after that of a file, if there is one.
fn is_after(number: u64, best: &Option<SegmentFile>) -> bool
    ensures { result ≡ is_after number best.now }
{
    match best {
        Some(best) => number > best.number,
        None => true,
    }
}

/// The file of the greater number: the one before, or the segment of this number and name.
fn later_of(
    alloc: Global,
    best: Option<SegmentFile>,
    number: u64,
    name: &Name,
) -> Result<Option<SegmentFile>, AllocError>
    requires { IsNumberOf name.now (Some number) }
    ensures { IfOk result (λ now. TakesName name.now best now) }
{
    let after = is_after(number, &best);
    if !after {
        return Ok(best);
    }
    let name = name.try_clone(alloc)?;
    Ok(Some(SegmentFile { number, name }))
}

/// The file of the greater number: the one before, or the one of this name, if that is a segment's.
fn later(
    alloc: Global,
    best: Option<SegmentFile>,
    name: &Name,
) -> Result<Option<SegmentFile>, AllocError>
    ensures { IfOk result (λ now. TakesName name.now best now) }
{
    match segment_number(name.as_str()) {
        Some(number) => later_of(alloc, best, number, name),
        None => Ok(best),
    }
}

/// The segment of the greatest number among names.
fn greatest(alloc: Global, names: &[Name]) -> Result<Option<SegmentFile>, AllocError>
    ensures { IfOk result (λ file. IsGreatest names.now file) }
{
    let mut best = None;
    for name in names {
        best = later(alloc, best, name)?;
    }
    Ok(best)
}

/// The last segment that a disk lists, if there is one.
fn last_segment<D: Disk>(alloc: Global, disk: &mut D) -> Result<Option<SegmentFile>, StoreFault>
    ensures told { Sees (D.states disk.old) (D.states disk.new) result (λ d file. IsLastFile file (folder d).read) }
    ensures named { IfOk result IsNamed }
    ensures cause { DiskCause (D.faults disk.old) (D.faults disk.new) result }
{
    let names = disk.list()?;
    let file = greatest(alloc, names.as_slice())?;
    Ok(file)
}

fn size_of(bytes: &[u8]) -> u64
    ensures { result ≡ length bytes.now }
{
    bytes.len() as u64
}

// Puts the front of a piece after other bytes.
fn push_front(bytes: &mut Vec<u8>, piece: &[u8], count: usize) -> Result<(), AllocError>
    requires { count ≤ length piece.now }
    ensures { OnOk result (bytes.new.items ≡ bytes.old.items ++ take count piece.now) }
{
    bytes.extend_from_slice(&piece[..count])?;
    Ok(())
}

// Reads more bytes after those that were read, and answers whether there were any.
fn read_more<D: Disk>(
    disk: &mut D,
    name: &str,
    chunk: &mut [u8],
    bytes: &mut Vec<u8>,
) -> Result<bool, StoreFault>
    requires name { IsName name.now }
    requires room { 0 < length chunk.old }
    ensures told { Sees (D.states disk.old) (D.states disk.new) result (λ d more. ReadsOn (d.read name.now).bytes bytes.old.items bytes.new.items more) }
    ensures cause { DiskCause (D.faults disk.old) (D.faults disk.new) result }
{
    let at = size_of(bytes.as_slice());
    let count = disk.read_at(name, at, chunk)?;
    if count == 0 {
        return Ok(false);
    }
    push_front(bytes, chunk, count)?;
    Ok(true)
}

// Reads a file whole. No memory holds one of more pieces than there are numbers.
fn read_whole<D: Disk>(
    disk: &mut D,
    name: &str,
    chunk: &mut [u8],
    bytes: &mut Vec<u8>,
) -> Result<(), StoreFault>
    requires name { IsName name.now }
    requires room { length chunk.old ≡ 65536 }
    requires empty { bytes.old.items ≡ [] }
    ensures told { Sees (D.states disk.old) (D.states disk.new) result (λ d x. bytes.new.items ≡ (d.read name.now).bytes) }
    ensures cause { DiskCause (D.faults disk.old) (D.faults disk.new) result }
{
    'reads: for _ in 0..u64::MAX {
        let more = read_more(disk, name, chunk, bytes)?;
        if !more {
            return Ok(());
        }
    }
    Err(StoreFault::NoMemory)
}

/// The bytes of a segment.
fn read_segment<D: Disk>(
    alloc: Global,
    disk: &mut D,
    file: &SegmentFile,
) -> Result<Vec<u8>, StoreFault>
    requires { file.now.name ≡ file_name (Segment file.now.number) }
    ensures told { Sees (D.states disk.old) (D.states disk.new) result (λ d bytes. bytes.items ≡ ((folder d).read (Segment file.now.number)).bytes) }
    ensures cause { DiskCause (D.faults disk.old) (D.faults disk.new) result }
{
    let mut chunk = Vec::from_elem(alloc, 0, CHUNK)?;
    let mut bytes = Vec::new(alloc);
    read_whole(disk, file.name.as_str(), chunk.as_mut_slice(), &mut bytes)?;
    Ok(bytes)
}

/// A segment that was read.
#[derive(Drop)]
pub(crate) struct SegmentBytes {
    /// Its number.
    pub(crate) number: u64,
    /// Its bytes.
    pub(crate) bytes: Vec<u8>,
}

/// The last segment of a disk, if there is one.
pub(crate) fn last_bytes<D: Disk>(
    alloc: Global,
    disk: &mut D,
) -> Result<Option<SegmentBytes>, StoreFault>
    ensures told { Sees (D.states disk.old) (D.states disk.new) result (λ d found. IsLastRead found (folder d).read) }
    ensures digits { IfOk result HasDigits }
    ensures cause { DiskCause (D.faults disk.old) (D.faults disk.new) result }
{
    let Some(file) = last_segment(alloc, disk)? else {
        return Ok(None);
    };
    let bytes = read_segment(alloc, disk, &file)?;
    Ok(Some(SegmentBytes {
        number: file.number,
        bytes,
    }))
}
