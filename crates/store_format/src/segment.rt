// One segment: its first word, and its batches one after the other.
ghost use Rattle.std.specs.Prelude.{◌≡◌, ◌≤◌, ◌<◌, ◌+◌, length, MatchOption, IfOk};
ghost use Rattle.store_format.specs.Batches.{batch_in};
ghost use Rattle.store_format.specs.NodeFormat.{node_format};
ghost use Rattle.store_format.specs.BatchesTaken.{Steps, ReadsAll, InLog};

use crate::batch_reading::{FoundBatch, read_batch};
use crate::log::BatchLog;
use crate::words::format_in;
use std::alloc::{AllocError, Global};

// The batch that bytes begin with, if any. It has some bytes.
#[tactic(auto, using(crate::proofs::Runs::found_or_none))]
fn next_batch(alloc: Global, format: u64, bytes: &[u8]) -> Result<Option<FoundBatch>, AllocError>
    ensures found { IfOk result (λ found. MatchOption found ((batch_in format bytes.now).size ≡ 0) (λ b. (batch_in format bytes.now ≡ record { batch = record { first = b.first; entries = b.entries }; size = b.size }) × (0 < b.size))) }
    ensures begins { IfOk result (λ found. MatchOption found (Unit {0}) (λ b. 0 < b.first)) }
{
    read_batch(alloc, format, bytes)
}

// Takes the batch at a place into the log, and answers whether there is one.
fn take_batch(
    alloc: Global,
    format: u64,
    bytes: &[u8],
    place: &mut usize,
    log: &mut BatchLog,
) -> Result<bool, AllocError>
    requires { place.old ≤ length bytes.now }
    ensures { IfOk result (λ more. Steps (batch_in format) bytes.now place.old place.new log.old log.new more) }
{
    match next_batch(alloc, format, &bytes[*place..])? {
        Some(batch) => {
            *place += batch.size;
            log.put(batch.first, batch.entries)?;
            Ok(true)
        }
        None => Ok(false),
    }
}

// Takes the batches after the first word into the log, and answers where the first place is at which none reads.
fn take_batches(
    alloc: Global,
    format: u64,
    bytes: &[u8],
    log: &mut BatchLog,
) -> Result<usize, AllocError>
    requires { 8 ≤ length bytes.now }
    ensures { IfOk result (λ end. ReadsAll (batch_in format) bytes.now log.old log.new end) }
{
    let mut place = 8;
    'batches: while take_batch(alloc, format, bytes, &mut place, log)? {}
    Ok(place)
}

/// Takes the batches of a segment into the log, and answers how far it reads: to the end of its whole batches, and not at
/// all if its first word says no format.
pub fn take_segment(alloc: Global, bytes: &[u8], log: &mut BatchLog) -> Result<usize, AllocError>
    ensures { IfOk result (λ good. InLog node_format bytes.now log.old log.new good) }
{
    let format = format_in(bytes);
    if format == 0 {
        return Ok(0);
    }
    take_batches(alloc, format, bytes, log)
}
