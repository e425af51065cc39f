// What a load does to the disk, once it knows that the files represent a state: it syncs all files and the names, repairs
// the last segment, and empties a log that the snapshot drops whole.
ghost use Rattle.std.specs.Prelude.{◌<◌, ◌∷◌, [], suc, length, Some};
ghost use Rattle.disk_model.specs.Calls.{Sync, SyncNames, CutTo, Remove};
ghost use Rattle.disk_model.specs.Spelled.{all_spelled};
ghost use Rattle.disk_model.specs.SyncAll.{sync_all};
ghost use Rattle.disk_model.specs.Trait.{MakesCalls};
ghost use Rattle.store_laws.specs.Names.{Segment};
ghost use Rattle.segment_store.specs.FileNames.{file_name, name_of, number_of};
ghost use Rattle.segment_store.specs.Faults.{DiskCause};
ghost use Rattle.segment_store.specs.Keeps.{Went};
ghost use Rattle.segment_store.specs.Listed.{FilesBelow, named};
ghost use Rattle.segment_store.specs.LoadCounts.{repair_count};
ghost use Rattle.segment_store.specs.Repairs.{repairs, repairs_of};
ghost use Rattle.store_format.specs.SegmentLog.{FitsNumber};

use crate::fault::StoreFault;
use crate::names::{File, file_name};
use disk_model::Disk;
use std::alloc::Global;
use store_format::LastSegment;

#[tactic(auto, using(disk_model::proofs::Counting::calls_refused))]
fn sync_file<D: Disk>(alloc: Global, disk: &mut D, file: File) -> Result<(), StoreFault>
    requires { number_of file < 10000000000000000 }
    ensures went { Went (Sync (file_name (name_of file)) ∷ []) (D.states disk.old) (D.states disk.new) result }
    ensures cause { DiskCause (D.faults disk.old) (D.faults disk.new) result }
    ensures count { MakesCalls 1 (D.made disk.old) (D.made disk.new) result }
{
    let text = file_name(alloc, file)?;
    let name = text.as_str();
    disk.sync(name)?;
    Ok(())
}

/// Syncs these files and the names.
#[tactic(auto, using(crate::proofs::LoadLists::files_at))]
pub(crate) fn sync_files<D: Disk>(
    alloc: Global,
    disk: &mut D,
    files: &[File],
) -> Result<(), StoreFault>
    requires { FilesBelow files.now }
    ensures went { Went (all_spelled file_name (sync_all (named files.now))) (D.states disk.old) (D.states disk.new) result }
    ensures cause { DiskCause (D.faults disk.old) (D.faults disk.new) result }
    ensures count { MakesCalls (suc (length files.now)) (D.made disk.old) (D.made disk.new) result }
{
    for file in files {
        sync_file(alloc, disk, *file)?;
    }
    disk.sync_names()?;
    Ok(())
}

// Cuts the segment of a number to its first bytes, and syncs it.
#[tactic(auto, using(disk_model::proofs::Counting::calls_refused))]
fn cut_segment<D: Disk>(
    alloc: Global,
    disk: &mut D,
    number: u64,
    good: u64,
) -> Result<(), StoreFault>
    requires { number < 10000000000000000 }
    ensures went { Went (CutTo (file_name (Segment number)) good ∷ Sync (file_name (Segment number)) ∷ []) (D.states disk.old) (D.states disk.new) result }
    ensures cause { DiskCause (D.faults disk.old) (D.faults disk.new) result }
    ensures count { MakesCalls 2 (D.made disk.old) (D.made disk.new) result }
{
    let text = file_name(alloc, File::Segment(number))?;
    let name = text.as_str();
    disk.cut(name, good)?;
    disk.sync(name)?;
    Ok(())
}

// Removes the segment of a number, and syncs the names.
#[tactic(auto, using(disk_model::proofs::Counting::calls_refused))]
fn remove_segment<D: Disk>(alloc: Global, disk: &mut D, number: u64) -> Result<(), StoreFault>
    requires { number < 10000000000000000 }
    ensures went { Went (Remove (file_name (Segment number)) ∷ SyncNames ∷ []) (D.states disk.old) (D.states disk.new) result }
    ensures cause { DiskCause (D.faults disk.old) (D.faults disk.new) result }
    ensures count { MakesCalls 2 (D.made disk.old) (D.made disk.new) result }
{
    let text = file_name(alloc, File::Segment(number))?;
    let name = text.as_str();
    disk.remove(name)?;
    disk.sync_names()?;
    Ok(())
}

// Repairs the last segment: one without its first word goes, and a torn tail is truncated.
fn repair_last<D: Disk>(alloc: Global, disk: &mut D, last: LastSegment) -> Result<(), StoreFault>
    requires { last.number < 10000000000000000 }
    ensures went { Went (all_spelled file_name (repairs last)) (D.states disk.old) (D.states disk.new) result }
    ensures cause { DiskCause (D.faults disk.old) (D.faults disk.new) result }
    ensures count { MakesCalls (repair_count (Some last)) (D.made disk.old) (D.made disk.new) result }
{
    if last.good == 0 {
        return remove_segment(alloc, disk, last.number);
    }
    if last.good == last.size {
        return Ok(());
    }
    cut_segment(alloc, disk, last.number, last.good)
}

/// Repairs the last segment, if there is one.
pub(crate) fn repair<D: Disk>(
    alloc: Global,
    disk: &mut D,
    last: Option<LastSegment>,
) -> Result<(), StoreFault>
    requires { FitsNumber last }
    ensures went { Went (all_spelled file_name (repairs_of last)) (D.states disk.old) (D.states disk.new) result }
    ensures cause { DiskCause (D.faults disk.old) (D.faults disk.new) result }
    ensures count { MakesCalls (repair_count last) (D.made disk.old) (D.made disk.new) result }
{
    match last {
        Some(last) => repair_last(alloc, disk, last),
        None => Ok(()),
    }
}
