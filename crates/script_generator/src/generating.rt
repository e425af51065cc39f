//! Writes a script.

ghost use Rattle.std.specs.Prelude.{◌≡◌, ◌≤◌, OnOk, OnErr, IsErrOf};
ghost use Rattle.std.specs.Io.KnownBytes.{Appends};
ghost use Rattle.dq_base.specs.Faults.{Rose};
ghost use Rattle.dq_base.specs.Sink.{AppendsFront};
ghost use Rattle.script_generator.specs.Generated.{opening_lines, write_lines, text_of, script_text};

use crate::fault::GenerateFault;
use crate::lines::{opening_text, write_text};
use crate::numbers::number_after;
use dq_base::Sink;
use std::alloc::Global;

/// Writes the lines before the first write.
fn put_opening<K: Sink>(alloc: Global, sink: &mut K) -> Result<(), GenerateFault>
    ensures done { OnOk result (Appends (K.written sink.old) (K.written sink.new) (text_of opening_lines)) }
    ensures broken { OnErr result (AppendsFront (K.written sink.old) (K.written sink.new) (text_of opening_lines)) }
    ensures cause { IsErrOf result GenerateFault.Sink → Rose (K.faults sink.old) (K.faults sink.new) }
    ensures count { K.faults sink.old ≤ K.faults sink.new }
{
    let text = opening_text(alloc)?;
    sink.write_all(text.as_bytes())?;
    Ok(())
}

/// Writes the lines of the write of a number at its place.
fn put_write<K: Sink>(
    alloc: Global,
    number: u32,
    place: u32,
    sink: &mut K,
) -> Result<(), GenerateFault>
    ensures done { OnOk result (Appends (K.written sink.old) (K.written sink.new) (text_of (write_lines number place))) }
    ensures broken { OnErr result (AppendsFront (K.written sink.old) (K.written sink.new) (text_of (write_lines number place))) }
    ensures cause { IsErrOf result GenerateFault.Sink → Rose (K.faults sink.old) (K.faults sink.new) }
    ensures count { K.faults sink.old ≤ K.faults sink.new }
{
    let text = write_text(alloc, number, place)?;
    sink.write_all(text.as_bytes())?;
    Ok(())
}

/// Writes the script that a number and a count of writes give, for an engine of cells at three nodes.
///
/// The first six lines have node 1 elected and a client of it open a database. Then each write has two lines: the client
/// sends `SET a b`, and at most 100 messages are delivered. The number of a write is that of the write before it, or `number`
/// for the first, times 1,103,515,245 and 12,345 more, modulo 2^31; `a` is one more than its bits 16 to 21, and `b` its
/// remainder by 1,000. After each hundredth write node 3 crashes and is started again.
///
/// An `Err` is a failure of the sink, which has counted it, or out of memory; a front of the script was written then. The
/// first six lines go to the sink in one call, and so do those of each write, so that it has `count` calls and one more. At
/// most 157 bytes of the script are held at a time, beside the bytes that the client sends in them, at most 48, and their hex.
pub fn generate<K: Sink>(
    alloc: Global,
    number: u32,
    count: u32,
    sink: &mut K,
) -> Result<(), GenerateFault>
    // The script was written, and nothing else.
    ensures done { OnOk result (Appends (K.written sink.old) (K.written sink.new) (script_text number count)) }
    // A front of it was written.
    ensures broken { OnErr result (AppendsFront (K.written sink.old) (K.written sink.new) (script_text number count)) }
    // The sink failed in this call.
    ensures cause { IsErrOf result GenerateFault.Sink → Rose (K.faults sink.old) (K.faults sink.new) }
    ensures count { K.faults sink.old ≤ K.faults sink.new }
{
    put_opening(alloc, sink)?;
    let mut last = number;
    for done in 0..count {
        last = number_after(last);
        put_write(alloc, last, done + 1, sink)?;
    }
    Ok(())
}
