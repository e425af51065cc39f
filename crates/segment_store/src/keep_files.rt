ghost use Rattle.std.specs.Prelude.{◌+◌, ◌*◌, ◌++◌, true, false, length};
ghost use Rattle.dq_base.specs.Names.{IsName};
ghost use Rattle.disk_model.specs.Calls.{MayWrite};
ghost use Rattle.disk_model.specs.Trait.{Known, Ran, HasCause, HasWant, MakesCalls};
ghost use Rattle.segment_store.specs.Keeping.{file_calls, removal_calls, loose_removal_calls};
ghost use Rattle.segment_store.specs.MadeCalls.{file_count};
ghost use Rattle.segment_store.specs.Plans.{snapshot_plan_calls, old_calls, plan_calls, MayKeep};

use crate::keep_plan::{KeepPlan, NewSnapshot, OldFiles};
use crate::segment::begin_segment;
use disk_model::{Disk, DiskFault};
use dq_base::Name;

// Writes a new file whole, whose bytes lie in three parts: one write, a sync, and a sync of the names.
fn write_new<D: Disk>(
    disk: &mut D,
    name: &str,
    head: &[u8],
    content: &[u8],
    tail: &[u8],
) -> Result<(), DiskFault>
    requires { IsName name.now }
    ensures ran { Known D.tells (D.states disk.old) (MayWrite name.now 0) → Ran (file_calls name.now false (head.now ++ content.now ++ tail.now)) (D.states disk.old) (D.states disk.new) result }
    ensures cause { HasCause (D.faults disk.old) (D.faults disk.new) result }
    ensures want { HasWant (D.wants disk.old) (D.wants disk.new) result }
    ensures count { MakesCalls 3 (D.made disk.old) (D.made disk.new) result }
{
    disk.write_parts(name, 0, head, content, tail)?;
    disk.sync(name)?;
    disk.sync_names()
}

// Writes a file over an old one, which is truncated to nothing.
fn write_anew<D: Disk>(
    disk: &mut D,
    name: &str,
    head: &[u8],
    content: &[u8],
    tail: &[u8],
) -> Result<(), DiskFault>
    requires { IsName name.now }
    ensures ran { Known D.tells (D.states disk.old) (MayWrite name.now 0) → Ran (file_calls name.now true (head.now ++ content.now ++ tail.now)) (D.states disk.old) (D.states disk.new) result }
    ensures cause { HasCause (D.faults disk.old) (D.faults disk.new) result }
    ensures want { HasWant (D.wants disk.old) (D.wants disk.new) result }
    ensures count { MakesCalls 4 (D.made disk.old) (D.made disk.new) result }
{
    disk.cut(name, 0)?;
    write_new(disk, name, head, content, tail)
}

// Writes the file of a snapshot, and syncs it and the names. An old file of its name is first cut to nothing.
fn write_snapshot<D: Disk>(disk: &mut D, file: &NewSnapshot<'_>) -> Result<(), DiskFault>
    ensures ran { Known D.tells (D.states disk.old) (MayWrite file.now.name 0) → Ran (snapshot_plan_calls file.now) (D.states disk.old) (D.states disk.new) result }
    ensures cause { HasCause (D.faults disk.old) (D.faults disk.new) result }
    ensures want { HasWant (D.wants disk.old) (D.wants disk.new) result }
    ensures count { MakesCalls (file_count file.now.is_there) (D.made disk.old) (D.made disk.new) result }
{
    let name = file.name.as_str();
    let head = file.head.as_slice();
    if file.is_there {
        write_anew(disk, name, head, file.content, file.tail)
    } else {
        write_new(disk, name, head, file.content, file.tail)
    }
}

// Removes files, the names synced after each.
fn remove_synced<D: Disk>(disk: &mut D, names: &[Name]) -> Result<(), DiskFault>
    ensures ran { Ran (removal_calls names.now) (D.states disk.old) (D.states disk.new) result }
    ensures cause { HasCause (D.faults disk.old) (D.faults disk.new) result }
    ensures want { HasWant (D.wants disk.old) (D.wants disk.new) result }
    ensures count { MakesCalls (2 * length names.now) (D.made disk.old) (D.made disk.new) result }
{
    for name in names {
        disk.remove(name.as_str())?;
        disk.sync_names()?;
    }
    Ok(())
}

fn remove_loose<D: Disk>(disk: &mut D, names: &[Name]) -> Result<(), DiskFault>
    ensures ran { Ran (loose_removal_calls names.now) (D.states disk.old) (D.states disk.new) result }
    ensures cause { HasCause (D.faults disk.old) (D.faults disk.new) result }
    ensures want { HasWant (D.wants disk.old) (D.wants disk.new) result }
    ensures count { MakesCalls (length names.now) (D.made disk.old) (D.made disk.new) result }
{
    for name in names {
        disk.remove(name.as_str())?;
    }
    Ok(())
}

fn remove_old<D: Disk>(disk: &mut D, old: &OldFiles) -> Result<(), DiskFault>
    ensures ran { Ran (old_calls old.now) (D.states disk.old) (D.states disk.new) result }
    ensures cause { HasCause (D.faults disk.old) (D.faults disk.new) result }
    ensures want { HasWant (D.wants disk.old) (D.wants disk.new) result }
    ensures count { MakesCalls (2 * length old.now.segments.items + length old.now.snapshots.items) (D.made disk.old) (D.made disk.new) result }
{
    remove_synced(disk, old.segments.as_slice())?;
    remove_loose(disk, old.snapshots.as_slice())
}

/// Follows a plan: the snapshot's file, then the segment, then what is older goes.
pub(crate) fn follow<D: Disk>(disk: &mut D, plan: &KeepPlan<'_>) -> Result<(), DiskFault>
    ensures ran { Known D.tells (D.states disk.old) (MayKeep plan.now) → Ran (plan_calls plan.now) (D.states disk.old) (D.states disk.new) result }
    ensures cause { HasCause (D.faults disk.old) (D.faults disk.new) result }
    ensures want { HasWant (D.wants disk.old) (D.wants disk.new) result }
    ensures count { MakesCalls (file_count plan.now.snapshot.is_there + (5 + (2 * length plan.now.old.segments.items + length plan.now.old.snapshots.items))) (D.made disk.old) (D.made disk.new) result }
{
    let segment = &plan.segment;
    write_snapshot(disk, &plan.snapshot)?;
    begin_segment(disk, segment.name.as_str(), segment.batch.as_slice())?;
    remove_old(disk, &plan.old)
}
