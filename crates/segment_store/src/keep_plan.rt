ghost use Rattle.std.specs.Prelude.{◌≡◌, ◌<◌, ◌^◌, ◌∷◌, ℕ, length, slice_index, IfOk};
ghost use Rattle.raft_messages.specs.Entries.{HaveHeads};
ghost use Rattle.store_laws.specs.Names.{Segment, Snapshot};
ghost use Rattle.store_laws.specs.Snapshots.{AllBelow};
ghost use Rattle.store_format.specs.Snapshots.{snapshot_bytes};
ghost use Rattle.store_format.specs.Batches.{batch_bytes};
ghost use Rattle.segment_store.specs.FileNames.{file_name};
ghost use Rattle.segment_store.specs.Keeping.{segment_names, snapshot_names, older_than, later_than};
ghost use Rattle.segment_store.specs.Plans.{file_bytes};

use crate::names::{File, file_name};
use dq_base::Name;
use raft_messages::Entry;
use std::alloc::{AllocError, Global};
use store_format::{batch_bytes, snapshot_head, snapshot_tail};

/// The file of a snapshot, in three parts. The state stays where it is.
#[derive(Drop)]
pub(crate) struct NewSnapshot<'a> {
    pub(crate) name: Name,
    // an old file of this name is there
    pub(crate) is_there: bool,
    pub(crate) head: Vec<u8>,
    pub(crate) content: &'a [u8],
    pub(crate) tail: &'a [u8],
}

/// A segment with its first batch.
#[derive(Drop)]
pub(crate) struct NewSegment {
    pub(crate) name: Name,
    pub(crate) batch: Vec<u8>,
}

/// The names of the files that go.
#[derive(Drop)]
pub(crate) struct OldFiles {
    pub(crate) segments: Vec<Name>,
    pub(crate) snapshots: Vec<Name>,
}

/// What keeping a snapshot writes and removes. It is made whole before anything is written, so that out of memory for
/// it leaves the disk as it is.
#[derive(Drop)]
pub(crate) struct KeepPlan<'a> {
    pub(crate) snapshot: NewSnapshot<'a>,
    pub(crate) segment: NewSegment,
    pub(crate) old: OldFiles,
}

/// The file of a snapshot, beside which an old one may be there. The state isn't copied.
pub(crate) fn new_snapshot<'a>(
    alloc: Global,
    index: u64,
    term: u64,
    content: &'a [u8],
    is_there: bool,
) -> Result<NewSnapshot<'a>, AllocError>
    requires { index < 10000000000000000 }
    ensures name { IfOk result (λ made. made.name ≡ file_name (Snapshot index)) }
    ensures is_there { IfOk result (λ made. made.is_there ≡ is_there) }
    ensures bytes { IfOk result (λ made. file_bytes made ≡ snapshot_bytes index term content.now) }
    ensures term { IfOk result (λ _. term < 2 ^ 64) }
    ensures size { IfOk result (λ _. length content.now < 2 ^ 64) }
{
    let _size = content.len();
    let head = snapshot_head(alloc, index, term, content)?;
    let name = file_name(alloc, File::Snapshot(index))?;
    Ok(NewSnapshot {
        name,
        is_there,
        head,
        content,
        tail: snapshot_tail(content),
    })
}

/// The segment of a number with these entries. Each entry is copied once; one of more than 4,294,967,295 bytes is
/// answered as out of memory.
pub(crate) fn new_segment(
    alloc: Global,
    number: u64,
    first: u64,
    entries: &[Entry],
) -> Result<NewSegment, AllocError>
    requires { number < 10000000000000000 }
    ensures name { IfOk result (λ made. made.name ≡ file_name (Segment number)) }
    ensures batch { IfOk result (λ made. made.batch.items ≡ batch_bytes (record { first = first; entries = entries.now })) }
    ensures heads { IfOk result (λ _. HaveHeads entries.now) }
    ensures count { IfOk result (λ _. length entries.now < 2 ^ 64) }
{
    let batch = batch_bytes(alloc, first, entries)?;
    let name = file_name(alloc, File::Segment(number))?;
    Ok(NewSegment { name, batch })
}

fn segment_names(alloc: Global, numbers: &[u64]) -> Result<Vec<Name>, AllocError>
    requires digits { (i : ℕ) → i < length numbers.now → slice_index numbers.now i < 10000000000000000 }
    ensures { IfOk result (λ names. names.items ≡ segment_names numbers.now) }
{
    let mut names = Vec::new(alloc);
    for number in numbers {
        names.push(file_name(alloc, File::Segment(*number))?)?;
    }
    Ok(names)
}

fn snapshot_names(alloc: Global, indices: &[u64]) -> Result<Vec<Name>, AllocError>
    requires digits { (i : ℕ) → i < length indices.now → slice_index indices.now i < 10000000000000000 }
    ensures { IfOk result (λ names. names.items ≡ snapshot_names indices.now) }
{
    let mut names = Vec::new(alloc);
    for index in indices {
        names.push(file_name(alloc, File::Snapshot(*index))?)?;
    }
    Ok(names)
}

fn older_than(alloc: Global, index: u64, indices: &[u64]) -> Result<Vec<u64>, AllocError>
    ensures { IfOk result (λ older. older.items ≡ older_than index indices.now) }
{
    indices
        .iter()
        .copied()
        .filter(|other| *other < index)
        .collect(alloc)
}

fn later_than(alloc: Global, index: u64, indices: &[u64]) -> Result<Vec<u64>, AllocError>
    ensures { IfOk result (λ later. later.items ≡ later_than index indices.now) }
{
    indices
        .iter()
        .copied()
        .filter(|other| index < *other)
        .collect(alloc)
}

/// The indices of the snapshots' files that are there once one of this index is kept and the older ones are gone.
pub(crate) fn kept_indices(
    alloc: Global,
    index: u64,
    indices: &[u64],
) -> Result<Vec<u64>, AllocError>
    ensures { IfOk result (λ all. all.items ≡ index ∷ later_than index indices.now) }
{
    let mut all = later_than(alloc, index, indices)?;
    all.insert(0, index)?;
    Ok(all)
}

/// What goes: these segments, and of these snapshots those that are older than an index.
pub(crate) fn old_files(
    alloc: Global,
    segments: &[u64],
    snapshots: &[u64],
    index: u64,
) -> Result<OldFiles, AllocError>
    requires segments { AllBelow 10000000000000000 segments.now }
    requires snapshots { AllBelow 10000000000000000 snapshots.now }
    ensures segments { IfOk result (λ old. old.segments.items ≡ segment_names segments.now) }
    ensures snapshots { IfOk result (λ old. old.snapshots.items ≡ snapshot_names (older_than index snapshots.now)) }
{
    let older = older_than(alloc, index, snapshots)?;
    let segments = segment_names(alloc, segments)?;
    let snapshots = snapshot_names(alloc, older.as_slice())?;
    Ok(OldFiles {
        segments,
        snapshots,
    })
}
