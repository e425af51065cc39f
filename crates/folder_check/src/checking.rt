//! A check of a stopped node.

ghost use Rattle.std.specs.Prelude.{IfErr};
ghost use Rattle.segment_store.specs.Loading.{LooksAt, LoadCause};
ghost use Rattle.folder_check.specs.Checking.{Reports, IsEarly, Prints, Checks, StaysUnlessPrinted, EndCause, ReportCause};
ghost use Rattle.folder_check.specs.declared.ends.CheckEnd.TheVariants.{DiskFault, WriteFault};

use crate::ends::CheckEnd;
use crate::lines::lines_of;
use disk_model::Disk;
use dq_base::Sink;
use segment_store::{Kept, LoadFault, Store};
use std::alloc::Global;

// What the files represent.
fn look<D: Disk>(alloc: Global, disk: &mut D) -> Result<Kept, LoadFault>
    ensures looks { LooksAt (D.states disk.old) (D.states disk.new) result }
    ensures cause { LoadCause (D.faults disk.old) (D.faults disk.new) result }
{
    Store::look(alloc, disk)
}

// The lines of what the files represent.
fn report<D: Disk>(alloc: Global, disk: &mut D) -> Result<String, CheckEnd>
    ensures told { Reports (D.states disk.old) (D.states disk.new) result }
    ensures early { IfErr result IsEarly }
    ensures cause { ReportCause (D.faults disk.old) (D.faults disk.new) result }
{
    let kept = look(alloc, disk)?;
    lines_of(alloc, &kept)
}

fn print<K: Sink>(text: &str, sink: &mut K) -> CheckEnd
    ensures prints { Prints result (K.written sink.old) (K.written sink.new) text.now }
    ensures cause { EndCause WriteFault (K.faults sink.old) (K.faults sink.new) result }
{
    match sink.write_all(text.as_bytes()) {
        Ok(()) => CheckEnd::Done,
        Err(_) => CheckEnd::WriteFault,
    }
}

/// Prints what the files of a stopped node represent: `term T vote V`; `snapshot I T` with the index and the term of the
/// kept snapshot, or `snapshot none`; `log F L` with the indexes of the first and the last entry of the log, or `log none`;
/// `files I DIGEST` with the digest of the databases at the snapshot, of index 0 without one; and if the log has
/// entries `end L DIGEST`, with that of the databases after all of them.
///
/// Only lists and reads: every file stays as it is. All is looked at and made before the first byte is printed, in one write, so
/// that only after `Done` and `WriteFault` anything was written. A log whose last index has more than 64 bits is answered as out of
/// memory.
///
/// Takes memory for what is kept, one file at a time, the databases at the snapshot and what the log adds to them, and goes
/// over all their pages once for each digest.
pub fn check<D: Disk, K: Sink>(alloc: Global, disk: &mut D, sink: &mut K) -> CheckEnd
    ensures checks { Checks (D.states disk.old) (D.states disk.new) (K.written sink.old) (K.written sink.new) result }
    ensures stays { StaysUnlessPrinted result sink.old sink.new }
    ensures disk { EndCause DiskFault (D.faults disk.old) (D.faults disk.new) result }
    ensures sink { EndCause WriteFault (K.faults sink.old) (K.faults sink.new) result }
{
    match report(alloc, disk) {
        Ok(text) => print(text.as_str(), sink),
        Err(early) => early,
    }
}
