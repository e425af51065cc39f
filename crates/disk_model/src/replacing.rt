ghost use Rattle.std.specs.Prelude.{length};
ghost use Rattle.dq_base.specs.Names.{IsName};
ghost use Rattle.disk_model.specs.Calls.{MayWrite};
ghost use Rattle.disk_model.specs.Writing.{replace_calls};
ghost use Rattle.disk_model.specs.Trait.{Known, Ran, HasCause, HasWant, MakesCalls};

use crate::disk::Disk;
use crate::faults::DiskFault;

/// Writes a file whole: one write from its start on, a sync, and, if the file isn't there yet, a sync of the names.
/// `is_there` says whether it is. A longer file keeps its end. At an `Err` some of the calls were made, and the last of
/// them may have been done in any part. One write of the bytes, without a copy.
pub fn replace<D: Disk>(
    disk: &mut D,
    name: &str,
    bytes: &[u8],
    is_there: bool,
) -> Result<(), DiskFault>
    requires { IsName name.now }
    ensures ran { Known D.tells (D.states disk.old) (MayWrite name.now 0) → Ran (replace_calls name.now bytes.now is_there) (D.states disk.old) (D.states disk.new) result }
    ensures cause { HasCause (D.faults disk.old) (D.faults disk.new) result }
    ensures want { HasWant (D.wants disk.old) (D.wants disk.new) result }
    ensures count { MakesCalls (length (replace_calls name.now bytes.now is_there)) (D.made disk.old) (D.made disk.new) result }
{
    disk.write_at(name, 0, bytes)?;
    disk.sync(name)?;
    if is_there {
        return Ok(());
    }
    disk.sync_names()
}
