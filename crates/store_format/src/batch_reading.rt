ghost use Rattle.std.specs.Prelude.{◌≡◌, ◌≤◌, ◌<◌, ◌+◌, ◌-◌, ◌==◌, ◌&&◌, cond, length, IfOk, IsTrue, MatchOption};
ghost use Rattle.std.specs.Str.{bytes_eq};
ghost use Rattle.wire_words.specs.Reading.{Finds};
ghost use Rattle.byteorder.specs.Endian.{little_bytes};
ghost use Rattle.store_format.specs.Sums.{sum8_of, word_sum_of};
ghost use Rattle.store_format.specs.Batches.{sum_size, sums_size, batch_sum, body_at, is_sound, batch_in, read_of_found};

use crate::sums::{crc32, sum8};
use crate::word_sums::word_sum;
use byteorder::{ByteOrder, LittleEndian};
use dq_base::Items;
use raft_messages::{Entries, read_entry_contents, read_entry_heads};
use std::alloc::{AllocError, Global};
use wire_words::{WordFault, Words};

/// What follows the sums of a batch.
#[derive(Drop)]
pub struct Body {
    /// The index of the first entry.
    pub first: u64,
    /// The entries.
    pub entries: Entries,
    /// Where the header ends and the entries' bytes begin.
    pub header: u64,
}

/// A batch that bytes begin with.
#[derive(Debug, Drop)]
pub struct FoundBatch {
    /// The index of the first entry, at least 1.
    pub first: u64,
    /// The entries.
    pub entries: Entries,
    /// How many bytes it has, its sums included.
    pub size: usize,
}

fn sum_size(format: u64) -> usize
    ensures { result ≡ sum_size format }
{
    if format == 1 { 4 } else { 8 }
}

fn little(value: u32) -> [u8; 4]
    ensures { result ≡ little_bytes 4 value }
{
    let mut bytes = [0; 4];
    LittleEndian::write_u32(&mut bytes, value);
    bytes
}

// The sum of a format since 2.
fn long_sum(format: u64, bytes: &[u8]) -> [u8; 8]
    ensures { result ≡ cond (format == 2) (sum8_of bytes.now) (word_sum_of bytes.now) }
{
    if format == 2 {
        sum8(bytes)
    } else {
        word_sum(bytes)
    }
}

fn has_sum(format: u64, bytes: &[u8], sum: &[u8]) -> bool
    ensures { result ≡ bytes_eq sum.now (batch_sum format bytes.now) }
{
    if format == 1 {
        let wanted = little(crc32(bytes));
        return sum == wanted.as_slice();
    }
    let wanted = long_sum(format, bytes);
    sum == wanted.as_slice()
}

#[tactic(auto, unfolding(crate::specs::Batches::body_at))]
fn read_body(alloc: Global, words: &mut Words<'_>) -> Result<Body, WordFault>
    ensures { Finds (λ body. body) body_at words.old words.new result }
{
    let first = words.u64()?;
    let count = words.u64()?;
    let heads = read_entry_heads(alloc, words, count)?;
    let header = words.place();
    let entries = read_entry_contents(alloc, words, heads.as_slice())?;
    Ok(Body {
        first,
        entries: Items::new(entries),
        header,
    })
}

fn is_sound(format: u64, bytes: &[u8], body: &Body, end: usize) -> bool
    requires room { sums_size format + end ≤ length bytes.now }
    requires header { body.now.header ≤ end }
    ensures is { result ≡ is_sound format bytes.now body.now end }
    ensures some { IsTrue result → 0 < body.now.first }
{
    let size = sum_size(format);
    let (first_sum, behind) = bytes.split_at(size);
    let (second_sum, rest) = behind.split_at(size);
    let (header, contents) = rest.split_at(body.header as usize);
    let (contents, _) = contents.split_at(end - body.header as usize);
    has_sum(format, header, first_sum) && has_sum(format, contents, second_sum) && body.first > 0
}

/// The batch that bytes begin with, in a format (1, 2 or 3), and none if no batch reads: if the sums don't match, an
/// item isn't there or is wrong, or the first index is 0. Each byte is copied once, into its entry.
#[tactic(auto, using(crate::proofs::Local::header_first, crate::proofs::Local::body_ends), unfolding(crate::specs::Batches::batch_in))]
pub fn read_batch(
    alloc: Global,
    format: u64,
    bytes: &[u8],
) -> Result<Option<FoundBatch>, AllocError>
    ensures found { IfOk result (λ found. read_of_found found ≡ batch_in format bytes.now) }
    ensures some { IfOk result (λ found. MatchOption found (Unit {0}) (λ batch. 0 < batch.size)) }
    ensures begins { IfOk result (λ found. MatchOption found (Unit {0}) (λ batch. 0 < batch.first)) }
{
    let size = sum_size(format) * 2;
    if bytes.len() < size {
        return Ok(None);
    }
    let (_, rest) = bytes.split_at(size);
    let mut words = Words::new(rest);
    let body = match read_body(alloc, &mut words) {
        Ok(body) => body,
        Err(WordFault::NoMemory) => return Err(AllocError),
        Err(_) => return Ok(None),
    };
    let end = words.place() as usize;
    if !is_sound(format, bytes, &body, end) {
        return Ok(None);
    }
    Ok(Some(FoundBatch {
        first: body.first,
        entries: body.entries,
        size: size + end,
    }))
}
