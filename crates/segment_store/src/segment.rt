ghost use Rattle.dq_base.specs.Names.{IsName};
ghost use Rattle.disk_model.specs.Calls.{MayWrite, WriteAt};
ghost use Rattle.disk_model.specs.Trait.{Known, Ran, Steps, HasCause, HasWant, MakesCalls};
ghost use Rattle.store_format.specs.BatchesWritten.{segment_word};
ghost use Rattle.segment_store.specs.Grow.{grow_calls, begin_calls, IsFree};

use disk_model::{Disk, DiskFault, replace};

/// The first word of a segment: format 3.
const SEGMENT_WORD: [u8; 8] = [3, 0, 0, 0, 0, 0, 0, 0];

/// Writes a batch at the end of a segment of this size, by one write and one sync.
pub(crate) fn grow_segment<D: Disk>(
    disk: &mut D,
    name: &str,
    size: u64,
    batch: &[u8],
) -> Result<(), DiskFault>
    requires { IsName name.now }
    ensures ran { Known D.tells (D.states disk.old) (MayWrite name.now size) → Ran (grow_calls name.now size batch.now) (D.states disk.old) (D.states disk.new) result }
    ensures cause { HasCause (D.faults disk.old) (D.faults disk.new) result }
    ensures want { HasWant (D.wants disk.old) (D.wants disk.new) result }
    ensures count { MakesCalls 2 (D.made disk.old) (D.made disk.new) result }
{
    disk.write_at(name, size, batch)?;
    disk.sync(name)
}

/// Writes a batch at the end of a segment of this size, and hints at its sync, which is left to the caller. Answers whether the
/// disk has begun that.
pub(crate) fn write_unsynced<D: Disk>(
    disk: &mut D,
    name: &str,
    size: u64,
    batch: &[u8],
) -> Result<bool, DiskFault>
    requires { IsName name.now }
    ensures told { Known D.tells (D.states disk.old) (MayWrite name.now size) →
        Steps (WriteAt name.now size batch.now) (D.states disk.old) (D.states disk.new) result }
    ensures cause { HasCause (D.faults disk.old) (D.faults disk.new) result }
    ensures want { HasWant (D.wants disk.old) (D.wants disk.new) result }
    ensures count { MakesCalls 1 (D.made disk.old) (D.made disk.new) result }
{
    disk.write_at(name, size, batch)?;
    Ok(disk.begin_sync(name))
}

/// Begins a segment: its first word, synced, its name synced, and then the batch.
pub(crate) fn begin_segment<D: Disk>(
    disk: &mut D,
    name: &str,
    batch: &[u8],
) -> Result<(), DiskFault>
    requires { IsName name.now }
    ensures ran { Known D.tells (D.states disk.old) (IsFree name.now) → Ran (begin_calls name.now segment_word batch.now) (D.states disk.old) (D.states disk.new) result }
    ensures cause { HasCause (D.faults disk.old) (D.faults disk.new) result }
    ensures want { HasWant (D.wants disk.old) (D.wants disk.new) result }
    ensures count { MakesCalls 5 (D.made disk.old) (D.made disk.new) result }
{
    replace(disk, name, &SEGMENT_WORD, false)?;
    grow_segment(disk, name, 8, batch)
}
