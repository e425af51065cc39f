ghost use Rattle.std.specs.Prelude.{◌≡◌, ◌<◌, ◌^◌, ◌≤◌, ◌+◌, ◌*◌, ◌++◌, min, length, take, drop, IfOk};
ghost use Rattle.raft_messages.specs.Entries.{contents_bytes, HaveHeads};
ghost use Rattle.store_format.specs.Sums.{word_sum_of};
ghost use Rattle.store_format.specs.Batches.{numbers_bytes, header_bytes, with_sums, batch_bytes};

use crate::word_sums::word_sum;
use raft_messages::{Entry, write_entry_contents, write_entry_heads};
use std::alloc::{AllocError, Global};
use wire_words::Writer;

fn content_size(entry: &Entry) -> usize
    ensures { result ≡ length entry.now.bytes }
{
    entry.bytes.len()
}

// Room for what entries say, with that for their heads: enough, or the greatest number, which no memory has.
fn room_for(entries: &[Entry]) -> usize
    ensures { min 18446744073709551615 (32 + 16 * length entries.now + length (contents_bytes entries.now)) ≤ result }
{
    let mut room: usize = 32;
    for entry in entries {
        room = room.saturating_add(content_size(entry)).saturating_add(23);
    }
    room
}

// A writer with two words in place of the sums, and the numbers after them.
#[tactic(auto, unfolding(crate::specs::Batches::numbers_bytes))]
fn begun(alloc: Global, room: usize, first: u64, count: u64) -> Result<Writer, AllocError>
    ensures numbers { IfOk result (λ out. drop 16 out ≡ numbers_bytes first count) }
    ensures long { IfOk result (λ out. length out ≡ 32) }
{
    let mut out = Writer::with_capacity(alloc, room)?;
    out.word(0)?;
    out.word(0)?;
    out.word(first)?;
    out.word(count)?;
    Ok(out)
}

// A batch with two words in place of its sums.
fn without_sums(alloc: Global, first: u64, entries: &[Entry]) -> Result<Vec<u8>, AllocError>
    ensures body { IfOk result (λ bytes. drop 16 bytes.items ≡ header_bytes (record { first = first; entries = entries.now }) ++ contents_bytes entries.now) }
    ensures fit { IfOk result (λ _. HaveHeads entries.now) }
{
    let mut out = begun(alloc, room_for(entries), first, entries.len() as u64)?;
    write_entry_heads(&mut out, entries)?;
    write_entry_contents(&mut out, entries)?;
    Ok(out.finish().into_vec())
}

fn put_sum(bytes: &mut [u8], sum: &[u8; 8])
    requires { 8 ≤ length bytes.old }
    ensures { bytes.new ≡ sum.now ++ drop 8 bytes.old }
{
    bytes[..8].copy_from_slice(sum);
}

fn put_both(bytes: &mut [u8], first: &[u8; 8], second: &[u8; 8])
    requires { 16 ≤ length bytes.old }
    ensures { bytes.new ≡ first.now ++ (second.now ++ drop 16 bytes.old) }
{
    put_sum(bytes, first);
    put_sum(&mut bytes[8..], second);
}

// The sums of a header of this many bytes and of what follows it.
fn sums_of(body: &[u8], header: usize) -> ([u8; 8], [u8; 8])
    requires { header ≤ length body.now }
    ensures first { result.0 ≡ word_sum_of (take header body.now) }
    ensures second { result.1 ≡ word_sum_of (drop header body.now) }
{
    let (header, contents) = body.split_at(header);
    (word_sum(header), word_sum(contents))
}

// Puts the sums of a batch of this many entries into the words that were left for them.
#[tactic(auto, unfolding(crate::specs::Batches::with_sums))]
fn put_sums(bytes: &mut [u8], count: usize)
    requires { 32 + 16 * count ≤ length bytes.old }
    ensures { bytes.new ≡ with_sums (16 + 16 * count) (drop 16 bytes.old) }
{
    let (_, body) = bytes.split_at(16);
    let (first, second) = sums_of(body, 16 + 16 * count);
    put_both(bytes, &first, &second);
}

/// The bytes of a batch in format 3. Each entry is copied once. An entry of more than 4,294,967,295 bytes is answered as
/// if memory had run out; any other `Err` means out of memory.
pub fn batch_bytes(alloc: Global, first: u64, entries: &[Entry]) -> Result<Vec<u8>, AllocError>
    ensures bytes { IfOk result (λ bytes. bytes.items ≡ batch_bytes (record { first = first; entries = entries.now })) }
    ensures fit { IfOk result (λ _. HaveHeads entries.now) }
    ensures count { IfOk result (λ _. length entries.now < 2 ^ 64) }
{
    let mut bytes = without_sums(alloc, first, entries)?;
    put_sums(bytes.as_mut_slice(), entries.len());
    Ok(bytes)
}
