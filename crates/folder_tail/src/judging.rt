//! What follows the whole batches of the last segment of a folder.
ghost use Rattle.std.specs.Prelude.{◌≡◌, ◌⊎◌, ◌<◌, ℕ, length, IfOk, IfErr};
ghost use Rattle.store_format.specs.NodeFormat.{node_format};
ghost use Rattle.store_format.specs.SegmentLog.{last_of};
ghost use Rattle.segment_store.specs.declared.load_fault.LoadFault.TheVariants.{NoMemory};
ghost use Rattle.segment_store.specs.Keeps.{folder};
ghost use Rattle.segment_store.specs.LoadFaults.{of_store};
ghost use Rattle.segment_store.specs.Loading.{LoadCause};
ghost use Rattle.folder_tail.specs.Last.{HasDigits};
ghost use Rattle.folder_tail.specs.Tails.{Views, IsNext, next_in, OfBytes, OfSegment, OfFound, TailShows};

use crate::folder::{SegmentBytes, last_bytes};
use crate::search::{is_misread, later_batch};
use crate::tail::Tail;
use byteorder::{ByteOrder, LittleEndian};
use disk_model::Disk;
use segment_store::{Kept, LoadFault, Store, StoreFault};
use std::alloc::{AllocError, Global};
use store_format::{FilesRead, LastSegment, format_in};

/// How far a segment reads, as a load has it.
fn walked(alloc: Global, number: u64, bytes: &[u8]) -> Result<LastSegment, AllocError>
    requires { number < 10000000000000000 }
    ensures { IfOk result (λ last. last ≡ last_of node_format (record { number = number; bytes = bytes.now })) }
{
    let mut read = FilesRead::new(alloc);
    read.add_segment(number, bytes)?;
    match read.last_segment() {
        Some(last) => Ok(last),
        None => Err(AllocError),
    }
}

/// The index after that of the last entry that is kept. Memory can't hold as many entries as would give it none.
fn next_index(kept: &Kept) -> Result<u64, LoadFault>
    ensures next { IfOk result (λ next. next ≡ next_in kept.now) }
    ensures memory { IfErr result (λ fault. fault ≡ NoMemory) }
{
    let count = kept.entries.len() as u64;
    match kept.first.checked_add(count) {
        Some(next) => Ok(next),
        None => Err(LoadFault::NoMemory),
    }
}

/// What the bytes of a segment end with that says a format and doesn't read to its end.
fn after_batches(
    alloc: Global,
    last: LastSegment,
    bytes: &[u8],
    next: u64,
) -> Result<Tail, AllocError>
    requires some { 0 < last.good }
    requires within { last.good < length bytes.now }
    ensures { IfOk result (λ tail. OfBytes tail last next bytes.now) }
{
    let at = last.good as usize;
    if is_misread(alloc, bytes, at, next)? {
        return Ok(Tail::Damaged(last, last.good));
    }
    match later_batch(alloc, format_in(bytes), bytes, at, next)? {
        Some(place) => Ok(Tail::Damaged(last, place as u64)),
        None => Ok(Tail::Torn(last)),
    }
}

/// What the bytes of a segment end with that says no format. A first word is synced before more is written.
fn without_format(last: LastSegment, bytes: &[u8]) -> Tail
    requires { last.good ≡ 0 }
    ensures { (next : ℕ) → OfBytes result last next bytes.now }
{
    if bytes.len() > 8 {
        Tail::Unknown(last.number, LittleEndian::read_u64(bytes))
    } else {
        Tail::Torn(last)
    }
}

/// What the bytes of a segment that doesn't read to its end end with. `next` is the index after the last entry that is kept.
fn judge(alloc: Global, last: LastSegment, bytes: &[u8], next: u64) -> Result<Tail, AllocError>
    requires { last.good ≡ 0 ⊎ last.good < length bytes.now }
    ensures { IfOk result (λ tail. OfBytes tail last next bytes.now) }
{
    if last.good == 0 {
        Ok(without_format(last, bytes))
    } else {
        after_batches(alloc, last, bytes, next)
    }
}

/// What `judge` says, with the fault of a load.
fn judged(alloc: Global, last: LastSegment, bytes: &[u8], next: u64) -> Result<Tail, LoadFault>
    requires { last.good ≡ 0 ⊎ last.good < length bytes.now }
    ensures tail { IfOk result (λ tail. OfBytes tail last next bytes.now) }
    ensures memory { IfErr result (λ fault. fault ≡ NoMemory) }
{
    match judge(alloc, last, bytes, next) {
        Ok(tail) => Ok(tail),
        Err(_) => Err(LoadFault::NoMemory),
    }
}

/// The index after the last entry that the files of a node represent.
fn next_of<D: Disk>(alloc: Global, disk: &mut D) -> Result<u64, LoadFault>
    ensures told { Views (D.states disk.old) (D.states disk.new) result (λ d next. IsNext next (folder d).read) }
    ensures cause { LoadCause (D.faults disk.old) (D.faults disk.new) result }
{
    match Store::look(alloc, disk) {
        Ok(kept) => next_index(&kept),
        Err(fault) => Err(fault),
    }
}

/// Judges the segment of a number, whose bytes these are and read so far.
fn tail_after<D: Disk>(
    alloc: Global,
    disk: &mut D,
    number: u64,
    last: LastSegment,
    bytes: &[u8],
) -> Result<Tail, LoadFault>
    requires digits { number < 10000000000000000 }
    requires walked { last ≡ last_of node_format (record { number = number; bytes = bytes.now }) }
    ensures told { Views (D.states disk.old) (D.states disk.new) result (OfSegment number bytes.now) }
    ensures cause { LoadCause (D.faults disk.old) (D.faults disk.new) result }
{
    let whole = last.reads_whole();
    if whole {
        return Ok(Tail::Whole);
    }
    match next_of(alloc, disk) {
        Ok(next) => judged(alloc, last, bytes, next),
        Err(fault) => Err(fault),
    }
}

/// Judges the segment of a number, whose bytes these are.
fn tail_of<D: Disk>(
    alloc: Global,
    disk: &mut D,
    number: u64,
    bytes: &[u8],
) -> Result<Tail, LoadFault>
    requires { number < 10000000000000000 }
    ensures told { Views (D.states disk.old) (D.states disk.new) result (OfSegment number bytes.now) }
    ensures cause { LoadCause (D.faults disk.old) (D.faults disk.new) result }
{
    match walked(alloc, number, bytes) {
        Ok(last) => tail_after(alloc, disk, number, last, bytes),
        Err(_) => Err(LoadFault::NoMemory),
    }
}

/// Judges the last segment, if there is one.
fn found_tail<D: Disk>(
    alloc: Global,
    disk: &mut D,
    found: Option<SegmentBytes>,
) -> Result<Tail, LoadFault>
    requires { HasDigits found }
    ensures told { Views (D.states disk.old) (D.states disk.new) result (OfFound found) }
    ensures cause { LoadCause (D.faults disk.old) (D.faults disk.new) result }
{
    match found {
        Some(last) => tail_of(alloc, disk, last.number, last.bytes.as_slice()),
        None => Ok(Tail::Whole),
    }
}

/// The fault of a load for one of the store.
fn load_fault(fault: StoreFault) -> LoadFault
    ensures { result ≡ of_store fault }
{
    match fault {
        StoreFault::DiskFault => LoadFault::DiskFault,
        StoreFault::NoMemory => LoadFault::NoMemory,
    }
}

/// What follows the whole batches of the last segment of a folder. Only lists and reads: the disk stays as it is.
///
/// A batch is synced before the next one is written. So nothing follows one whose write never ended, and if a whole batch is
/// further on, what is before it was damaged later. A batch counts only if its first index continues the log: it is at most as far past the
/// last index that is kept as the bytes before it could hold entries. If the head of the batch is whole at which reading stops, what its entries
/// say is passed over; else each word after it is looked at. Where nothing reads after the first word, the other formats are tried there.
///
/// If the files represent no state, the fault of a load is answered, unless the last segment reads to its end. Reads the last segment once more
/// than a load does, and all files twice where it doesn't read to its end.
pub fn look_at_tail<D: Disk>(alloc: Global, disk: &mut D) -> Result<Tail, LoadFault>
    ensures looks { Views (D.states disk.old) (D.states disk.new) result (λ d tail. TailShows tail (folder d).read) }
    ensures cause { LoadCause (D.faults disk.old) (D.faults disk.new) result }
{
    match last_bytes(alloc, disk) {
        Ok(found) => found_tail(alloc, disk, found),
        Err(fault) => Err(load_fault(fault)),
    }
}
