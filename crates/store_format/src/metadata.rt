ghost use Rattle.std.specs.Prelude.{◌≡◌, ◌==◌, IfOk};
ghost use Rattle.store_format.specs.Metadata.{fits_side, is_block, meta_in, meta_of_found, block_bytes};

use crate::sums::has_sum;
use crate::word_sums::word_sum;
use crate::words::{front, is_known, word_from};
use std::alloc::{AllocError, Global};

/// What a metadata file says.
#[derive(Clone, Copy, Debug, PartialEq, Eq)]
pub struct Metadata {
    /// Counts the writes of metadata, from 1.
    pub version: u64,
    /// The current term.
    pub term: u64,
    /// The node that got the vote in that term; 0 for none.
    pub vote: u64,
}

fn fits_side(first: bool, version: u64) -> bool
    ensures { result ≡ fits_side first version }
{
    let odd = version % 2 == 1;
    if first { odd } else { !odd }
}

#[tactic(auto, unfolding(crate::specs::Metadata::is_block))]
fn is_block(first: bool, bytes: &[u8]) -> bool
    ensures { result ≡ is_block first bytes.now }
{
    if bytes.len() != 40 {
        return false;
    }
    let (front, sum) = bytes.split_at(32);
    let format = word_from(bytes, 0);
    let version = word_from(bytes, 8);
    is_known(format) && fits_side(first, version) && has_sum(format, front, sum)
}

/// What the bytes of the first or the second metadata file say. A file is valid with 40 bytes, a known format, a version
/// of that file's parity (odd in the first), and a matching sum of its first 32 bytes.
#[tactic(auto, unfolding(crate::specs::Metadata::meta_in, crate::specs::Metadata::is_block))]
pub fn read_metadata(first: bool, bytes: &[u8]) -> Option<Metadata>
    ensures { meta_of_found result ≡ meta_in first bytes.now }
{
    if !is_block(first, bytes) {
        return None;
    }
    Some(Metadata {
        version: word_from(bytes, 8),
        term: word_from(bytes, 16),
        vote: word_from(bytes, 24),
    })
}

/// The 40 bytes of a metadata file, in format 3.
pub fn metadata_bytes(alloc: Global, metadata: &Metadata) -> Result<Vec<u8>, AllocError>
    ensures { IfOk result (λ block. block.items ≡ block_bytes metadata.now) }
{
    let mut block = front(alloc, metadata.version, metadata.term, metadata.vote)?;
    let sum = word_sum(block.as_slice());
    block.extend_from_slice(&sum)?;
    Ok(block)
}
