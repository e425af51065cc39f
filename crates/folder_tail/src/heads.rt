//! The head of a batch: its numbers and the heads of its entries, without what the entries say.
ghost use Rattle.std.specs.Prelude.{◌≡◌, ◌≤◌, ◌+◌, cond, ◌==◌, length, IfOk};
ghost use Rattle.std.specs.Str.{bytes_eq};
ghost use Rattle.byteorder.specs.Endian.{little_bytes};
ghost use Rattle.wire_words.specs.Reading.{Finds};
ghost use Rattle.store_format.specs.Sums.{sum8_of, word_sum_of};
ghost use Rattle.store_format.specs.Batches.{sum_size, sums_size, batch_sum};
ghost use Rattle.folder_tail.specs.Heads.{padded, contents_end, batch_head_at, has_head_sum, head_in};

use byteorder::{ByteOrder, LittleEndian};
use raft_messages::{EntryHead, read_entry_heads};
use std::alloc::{AllocError, Global};
use store_format::{crc32, sum8, word_sum};
use wire_words::{WordFault, Words};

/// What the head of a batch says. Places are counted from the end of the batch's sums.
#[derive(Clone, Copy, Debug, PartialEq, Eq)]
pub struct BatchHead {
    /// The index of the first entry.
    pub first: u64,
    /// Where the head ends.
    pub header: u64,
    /// Where the bytes of its entries end, with their padding.
    pub end: u64,
}

/// How many bytes a sum has, in a format.
pub(crate) fn sum_size(format: u64) -> usize
    ensures { result ≡ sum_size format }
{
    if format == 1 { 4 } else { 8 }
}

fn little(value: u32) -> [u8; 4]
    ensures { result ≡ little_bytes 4 value }
{
    let mut bytes = [0; 4];
    LittleEndian::write_u32(&mut bytes, value);
    bytes
}

// The sum of a format since 2.
fn long_sum(format: u64, bytes: &[u8]) -> [u8; 8]
    ensures { result ≡ cond (format == 2) (sum8_of bytes.now) (word_sum_of bytes.now) }
{
    if format == 2 {
        sum8(bytes)
    } else {
        word_sum(bytes)
    }
}

fn has_sum(format: u64, bytes: &[u8], sum: &[u8]) -> bool
    ensures { result ≡ bytes_eq sum.now (batch_sum format bytes.now) }
{
    if format == 1 {
        let wanted = little(crc32(bytes));
        return sum == wanted.as_slice();
    }
    let wanted = long_sum(format, bytes);
    sum == wanted.as_slice()
}

/// How many bytes an entry's bytes have with the zeros that fill them up to a whole word.
fn padded(size: u32) -> u64
    ensures { result ≡ padded size }
{
    (u64::from(size) + 7) / 8 * 8
}

/// Where the bytes of entries with these heads end.
fn contents_end(header: u64, heads: &[EntryHead]) -> u64
    ensures { result ≡ contents_end header heads.now }
{
    let mut end = header;
    for head in heads {
        end = end.saturating_add(padded(head.size));
    }
    end
}

#[tactic(auto, unfolding(crate::specs::Heads::batch_head_at))]
fn read_head(alloc: Global, words: &mut Words<'_>) -> Result<BatchHead, WordFault>
    ensures { Finds (λ head. head) batch_head_at words.old words.new result }
{
    let first = words.u64()?;
    let count = words.u64()?;
    let heads = read_entry_heads(alloc, words, count)?;
    let header = words.place();
    let end = contents_end(header, heads.as_slice());
    Ok(BatchHead { first, header, end })
}

/// Whether the first sum of a batch is that of its head.
fn has_head_sum(format: u64, bytes: &[u8], header: u64) -> bool
    requires room { sums_size format + header ≤ length bytes.now }
    ensures { result ≡ has_head_sum format bytes.now header }
{
    let size = sum_size(format);
    let (sum, behind) = bytes.split_at(size);
    let (_, rest) = behind.split_at(size);
    let (head, _) = rest.split_at(header as usize);
    has_sum(format, head, sum)
}

/// The head of the batch that bytes begin with, in a format (1, 2 or 3), and none if its sum doesn't match or an item of it isn't there or
/// is wrong. What its entries say isn't looked at.
#[tactic(auto, using(crate::proofs::HeadEnds::head_ends), unfolding(crate::specs::Heads::head_in))]
pub(crate) fn head_in(
    alloc: Global,
    format: u64,
    bytes: &[u8],
) -> Result<Option<BatchHead>, AllocError>
    ensures { IfOk result (λ head. head ≡ head_in format bytes.now) }
{
    let size = sum_size(format) * 2;
    if bytes.len() < size {
        return Ok(None);
    }
    let (_, rest) = bytes.split_at(size);
    let mut words = Words::new(rest);
    let head = match read_head(alloc, &mut words) {
        Ok(head) => head,
        Err(WordFault::NoMemory) => return Err(AllocError),
        Err(_) => return Ok(None),
    };
    if has_head_sum(format, bytes, head.header) {
        Ok(Some(head))
    } else {
        Ok(None)
    }
}
