//! Checks: what the files of a stopped node represent.

ghost use Rattle.std.specs.Prelude.{◌≡◌, ◌≤◌, ◌⊎◌, string_bytes, IfOk};
ghost use Rattle.std.specs.Io.KnownBytes.{Appends};
ghost use Rattle.dq_base.specs.Faults.{Rose};
ghost use Rattle.dq_base.specs.Sink.{AppendsFront};
ghost use Rattle.dqnode.specs.Checks.{fault_line, CheckEnds};
ghost use Rattle.dqnode.specs.Status.{IsCheckCode, status_code};

use crate::status::Status;
use disk_model::Disk;
use dq_base::Sink;
use folder_check::{CheckEnd, check};
use segment_store::LoadFault;
use std::alloc::{AllocError, Global};

/// The line of a fault of the files; none if they have none.
fn fault_text(alloc: Global, end: CheckEnd) -> Result<String, AllocError>
    ensures { IfOk result (λ line. string_bytes line ≡ fault_line end) }
{
    match end {
        CheckEnd::Damaged(LoadFault::Damaged(segment, at)) => {
            format!(in alloc; "damaged {segment} {at}\n")
        }
        CheckEnd::Damaged(LoadFault::Gap(first, last)) => {
            format!(in alloc; "gap {first} {last}\n")
        }
        CheckEnd::Damaged(LoadFault::NoMeta) => String::from_str(alloc, "no metadata\n"),
        CheckEnd::Snapshot(index) => format!(in alloc; "bad snapshot {index}\n"),
        _ => Ok(String::new(alloc)),
    }
}

/// Writes the line of a fault of the files.
fn name_fault<K: Sink>(alloc: Global, end: CheckEnd, output: &mut K) -> Status
    ensures files { result ≡ Status.Files → Appends (K.written output.old) (K.written output.new) (fault_line end) }
    ensures broken { result ≡ Status.WriteFault → AppendsFront (K.written output.old) (K.written output.new) (fault_line end) }
    ensures unwritten { result ≡ Status.NoMemory → output.new ≡ output.old }
    ensures write_fault { result ≡ Status.WriteFault → Rose (K.faults output.old) (K.faults output.new) }
    ensures others { (result ≡ Status.Files) ⊎ ((result ≡ Status.WriteFault) ⊎ (result ≡ Status.NoMemory)) }
    ensures count { K.faults output.old ≤ K.faults output.new }
{
    let Ok(line) = fault_text(alloc, end) else {
        return Status::NoMemory;
    };
    match output.write_all(line.as_bytes()) {
        Ok(()) => Status::Files,
        Err(_) => Status::WriteFault,
    }
}

/// Prints what the files of a stopped node represent, or the line of their fault.
pub(crate) fn tell<K: Sink, D: Disk>(alloc: Global, output: &mut K, disk: &mut D) -> Status
    ensures ended { CheckEnds (D.states disk.old) (D.states disk.new) (K.written output.old) (K.written output.new) (status_code result) }
    ensures unwritten { (result ≡ Status.DiskFault) ⊎ (result ≡ Status.NoMemory) → output.new ≡ output.old }
    ensures disk_fault { result ≡ Status.DiskFault → Rose (D.faults disk.old) (D.faults disk.new) }
    ensures write_fault { result ≡ Status.WriteFault → Rose (K.faults output.old) (K.faults output.new) }
    ensures codes { IsCheckCode (status_code result) }
    ensures disk_count { D.faults disk.old ≤ D.faults disk.new }
    ensures output_count { K.faults output.old ≤ K.faults output.new }
{
    match check(alloc, disk, output) {
        CheckEnd::Done => Status::Done,
        CheckEnd::Damaged(fault) => name_fault(alloc, CheckEnd::Damaged(fault), output),
        CheckEnd::Snapshot(index) => name_fault(alloc, CheckEnd::Snapshot(index), output),
        CheckEnd::DiskFault => Status::DiskFault,
        CheckEnd::WriteFault => Status::WriteFault,
        CheckEnd::NoMemory => Status::NoMemory,
    }
}
