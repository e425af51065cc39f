//! The search for a batch after the place at which none reads.
ghost use Rattle.std.specs.Prelude.{◌≡◌, ◌≤◌, ◌<◌, nat_lt, min, length, Some, IfOk};
ghost use Rattle.store_format.specs.Batches.{batch_in};
ghost use Rattle.folder_tail.specs.Heads.{head_in};
ghost use Rattle.folder_tail.specs.Search.{continues, continues_at, reads_in_any, is_misread, LaterFrom, Later, passed_over};

use crate::heads::{BatchHead, head_in, sum_size};
use std::alloc::{AllocError, Global};
use store_format::read_batch;

/// How many bytes the head of one entry has.
const HEAD_SIZE: usize = 16;

/// Whether bytes begin with a whole batch.
fn begins_with_batch(alloc: Global, format: u64, bytes: &[u8]) -> Result<bool, AllocError>
    ensures { IfOk result (λ found. found ≡ nat_lt 0 (batch_in format bytes.now).size) }
{
    let found = read_batch(alloc, format, bytes)?;
    Ok(found.is_some())
}

/// Whether bytes that begin with this head begin with a whole batch whose first index is at most `lost` past `next`.
fn head_continues(
    alloc: Global,
    format: u64,
    bytes: &[u8],
    head: BatchHead,
    next: u64,
    lost: u64,
) -> Result<bool, AllocError>
    requires { head_in format bytes.now ≡ Some head }
    ensures { IfOk result (λ found. found ≡ continues format next lost bytes.now) }
{
    let gap = head.first.saturating_sub(next);
    if gap > lost {
        return Ok(false);
    }
    begins_with_batch(alloc, format, bytes)
}

/// Whether bytes begin with a whole batch whose first index is at most `lost` past `next`.
fn continues(
    alloc: Global,
    format: u64,
    bytes: &[u8],
    next: u64,
    lost: u64,
) -> Result<bool, AllocError>
    ensures { IfOk result (λ found. found ≡ continues format next lost bytes.now) }
{
    match head_in(alloc, format, bytes)? {
        Some(head) => head_continues(alloc, format, bytes, head, next, lost),
        None => Ok(false),
    }
}

/// Whether a batch at a place continues the log. `at` is the place at which none reads: the bytes from there on had at most one entry for each
/// `HEAD_SIZE` of them.
fn continues_at(
    alloc: Global,
    format: u64,
    bytes: &[u8],
    at: usize,
    place: usize,
    next: u64,
) -> Result<bool, AllocError>
    requires order { at ≤ place }
    requires within { place ≤ length bytes.now }
    ensures { IfOk result (λ found. found ≡ continues_at format next at bytes.now place) }
{
    let (_, rest) = bytes.split_at(place);
    let lost = (place - at) / HEAD_SIZE;
    continues(alloc, format, rest, next, lost as u64)
}

/// Whether bytes begin with a whole batch of any format whose first index is at most `next`.
fn reads_in_any(alloc: Global, bytes: &[u8], next: u64) -> Result<bool, AllocError>
    ensures { IfOk result (λ found. found ≡ reads_in_any next bytes.now) }
{
    let first = continues(alloc, 1, bytes, next, 0)?;
    let second = continues(alloc, 2, bytes, next, 0)?;
    let third = continues(alloc, 3, bytes, next, 0)?;
    Ok(first || second || third)
}

/// Whether nothing reads after the first word of a segment because that word is another format's: the place `at` is right after it, and a batch
/// of some format is there.
pub(crate) fn is_misread(
    alloc: Global,
    bytes: &[u8],
    at: usize,
    next: u64,
) -> Result<bool, AllocError>
    requires { at ≤ length bytes.now }
    ensures { IfOk result (λ found. found ≡ is_misread next at bytes.now) }
{
    if at != 8 {
        return Ok(false);
    }
    let (_, rest) = bytes.split_at(at);
    reads_in_any(alloc, rest, next)
}

/// The first place, from `from` on in steps of a word, at which a whole batch continues the log.
fn later_from(
    alloc: Global,
    format: u64,
    bytes: &[u8],
    at: usize,
    from: usize,
    next: u64,
) -> Result<Option<usize>, AllocError>
    requires { at ≤ from }
    ensures { IfOk result (λ found. LaterFrom format next at from bytes.now found) }
{
    let mut place = from;
    'words: while place < bytes.len() {
        let found = continues_at(alloc, format, bytes, at, place, next)?;
        if found {
            return Ok(Some(place));
        }
        place += 8;
    }
    Ok(None)
}

/// How many bytes are passed over at a place at which no batch reads, by the head that is there.
fn passed_over(format: u64, head: Option<BatchHead>) -> u64
    ensures { result ≡ min (passed_over format head) 18446744073709551615 }
{
    match head {
        Some(head) => head.end.saturating_add(2 * sum_size(format) as u64),
        None => 8,
    }
}

/// The place of a whole batch after the place `at`, at which none reads: the first one, word by word, after the batch whose head is whole at
/// `at`, or from the next word on if none is. `next` is the index that a batch at `at` had: a batch further on begins at most as many
/// indices later as the bytes between could hold entries.
pub(crate) fn later_batch(
    alloc: Global,
    format: u64,
    bytes: &[u8],
    at: usize,
    next: u64,
) -> Result<Option<usize>, AllocError>
    requires { at < length bytes.now }
    ensures { IfOk result (λ found. Later format next at bytes.now found) }
{
    let (_, rest) = bytes.split_at(at);
    let head = head_in(alloc, format, rest)?;
    let size = passed_over(format, head);
    if size >= rest.len() as u64 {
        return Ok(None);
    }
    later_from(alloc, format, bytes, at, at + size as usize, next)
}
