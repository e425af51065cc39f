ghost use Rattle.dq_base.specs.Names.{IsName};
ghost use Rattle.disk_model.specs.Calls.{MayWrite};
ghost use Rattle.disk_model.specs.Trait.{Known, Ran, HasCause, HasWant, MakesCalls};
ghost use Rattle.segment_store.specs.Keeps.{over_calls, block_calls};
ghost use Rattle.segment_store.specs.MadeCalls.{block_count};

use disk_model::{Disk, DiskFault, replace};

/// How long a block of metadata is.
const BLOCK: u64 = 40;

// A longer file is written over and synced before it is truncated, so that nothing old comes alive.
fn write_over<D: Disk>(disk: &mut D, name: &str, block: &[u8]) -> Result<(), DiskFault>
    requires { IsName name.now }
    ensures ran { Known D.tells (D.states disk.old) (MayWrite name.now 0) → Ran (over_calls name.now block.now) (D.states disk.old) (D.states disk.new) result }
    ensures cause { HasCause (D.faults disk.old) (D.faults disk.new) result }
    ensures want { HasWant (D.wants disk.old) (D.wants disk.new) result }
    ensures count { MakesCalls 4 (D.made disk.old) (D.made disk.new) result }
{
    disk.write_at(name, 0, block)?;
    disk.sync(name)?;
    disk.cut(name, BLOCK)?;
    disk.sync(name)
}

/// Writes a block of metadata whole into the file of this name, which has this size, if it is there.
pub(crate) fn write_block<D: Disk>(
    disk: &mut D,
    name: &str,
    block: &[u8],
    size: Option<u64>,
) -> Result<(), DiskFault>
    requires { IsName name.now }
    ensures ran { Known D.tells (D.states disk.old) (MayWrite name.now 0) → Ran (block_calls name.now block.now size) (D.states disk.old) (D.states disk.new) result }
    ensures cause { HasCause (D.faults disk.old) (D.faults disk.new) result }
    ensures want { HasWant (D.wants disk.old) (D.wants disk.new) result }
    ensures count { MakesCalls (block_count size) (D.made disk.old) (D.made disk.new) result }
{
    match size {
        None => replace(disk, name, block, false),
        Some(size) if size > BLOCK => write_over(disk, name, block),
        Some(_) => replace(disk, name, block, true),
    }
}
