ghost use Rattle.std.specs.Prelude.{◌≡◌, ◌≤◌, ◌<◌, ◌==◌, ◌++◌, true, false, length, take, drop, IfOk, MatchOption};
ghost use Rattle.wire_words.specs.Items.{zeros_after};
ghost use Rattle.store_format.specs.Snapshots.{fills, head_fits, is_snapshot, size_in, snap_of, snap_of_found, snapshot_bytes};

use crate::sums::have_sum;
use crate::word_sums::word_sum_of_both;
use crate::words::{front, is_known, word_from};
use std::alloc::{AllocError, Global};
use wire_words::{Words, Writer};

/// What the file of a snapshot says. The bytes are borrowed from the file.
#[derive(Clone, Copy, Debug, PartialEq, Eq)]
pub struct SnapshotFile<'a> {
    /// The index of the last entry that it represents, at least 1.
    pub index: u64,
    /// The term of that entry.
    pub term: u64,
    /// The state.
    pub bytes: &'a [u8],
}

#[tactic(auto, unfolding(crate::specs::Snapshots::head_fits))]
fn head_fits(number: u64, bytes: &[u8]) -> bool
    ensures fits { result ≡ head_fits number bytes.now }
    ensures long { result ≡ true → 40 ≤ length bytes.now }
    ensures some { result ≡ true → 0 < number }
{
    if bytes.len() < 40 || number == 0 {
        return false;
    }
    is_known(word_from(bytes, 0)) && word_from(bytes, 8) == number
}

// This many bytes, if they and zeros to a whole word are all that there is.
#[tactic(auto, unfolding(wire_words::specs::Reading::raw_at))]
fn content(body: &[u8], size: u64) -> Option<&[u8]>
    ensures { MatchOption result (fills size body.now ≡ false) (λ content. (fills size body.now ≡ true) × (content.now ≡ take size body.now)) }
{
    let mut words = Words::new(body);
    let Ok(content) = words.raw_slice(size) else {
        return None;
    };
    if words.left() == 0 {
        Some(content)
    } else {
        None
    }
}

// The numbers after the format, the sum, and what follows.
#[tactic(auto, using(crate::proofs::Places::behind_numbers))]
fn parts(bytes: &[u8]) -> (&[u8], &[u8], &[u8])
    requires { 40 ≤ length bytes.now }
    ensures numbers { result.0.now ≡ take 24 (drop 8 bytes.now) }
    ensures long { length result.0.now ≡ 24 }
    ensures sum { result.1.now ≡ take 8 (drop 32 bytes.now) }
    ensures body { result.2.now ≡ drop 40 bytes.now }
{
    let (_, behind) = bytes.split_at(8);
    let (numbers, behind) = behind.split_at(24);
    let (sum, body) = behind.split_at(8);
    (numbers, sum, body)
}

// What follows a fitting head, if the rest of the file fits too.
#[tactic(auto, unfolding(crate::specs::Snapshots::is_snapshot))]
fn whole_content(number: u64, bytes: &[u8]) -> Option<&[u8]>
    requires long { 40 ≤ length bytes.now }
    requires head { head_fits number bytes.now ≡ true }
    ensures { MatchOption result (is_snapshot number bytes.now ≡ false) (λ content. (is_snapshot number bytes.now ≡ true) × (content.now ≡ take (size_in bytes.now) (drop 40 bytes.now))) }
{
    let (numbers, sum, body) = parts(bytes);
    let content = content(body, word_from(bytes, 24))?;
    let fits = have_sum(word_from(bytes, 0), numbers, content, sum);
    if fits { Some(content) } else { None }
}

/// What the bytes of the file of this number say. The file is whole with a known format, the number as its index, its
/// size in bytes, zeros after them to a whole word and nothing more, and a matching sum of index, term, size and bytes.
#[tactic(auto, unfolding(crate::specs::Snapshots::snap_of, crate::specs::Snapshots::is_snapshot))]
pub fn read_snapshot(number: u64, bytes: &[u8]) -> Option<SnapshotFile<'_>>
    ensures found { snap_of_found result ≡ snap_of number bytes.now }
    ensures index { MatchOption result (Unit {0}) (λ found. 0 < found.index) }
{
    if !head_fits(number, bytes) {
        return None;
    }
    let content = whole_content(number, bytes)?;
    Some(SnapshotFile {
        index: number,
        term: word_from(bytes, 16),
        bytes: content,
    })
}

/// What is before a snapshot's bytes in its file, in format 3: 40 bytes, with the sum. The bytes themselves aren't
/// copied.
pub fn snapshot_head(
    alloc: Global,
    index: u64,
    term: u64,
    bytes: &[u8],
) -> Result<Vec<u8>, AllocError>
    ensures { IfOk result (λ head. (head.items ++ bytes.now) ++ zeros_after (length bytes.now) ≡ snapshot_bytes index term bytes.now) }
{
    let head = front(alloc, index, term, bytes.len() as u64)?;
    let (_, numbers) = head.as_slice().split_at(8);
    let sum = word_sum_of_both(numbers, bytes);
    let mut out = Writer::new(alloc);
    out.raw(head.as_slice())?;
    out.raw(&sum)?;
    Ok(out.finish().into_vec())
}

const ZEROS: &[u8] = &[0; 8];

/// What follows a snapshot's bytes in its file: zeros to a whole word.
pub fn snapshot_tail(bytes: &[u8]) -> &'static [u8]
    ensures { result.now ≡ zeros_after (length bytes.now) }
{
    let zeros = ZEROS;
    let over = bytes.len() % 8;
    if over == 0 {
        &zeros[8..]
    } else {
        &zeros[over..]
    }
}
