ghost use Rattle.std.specs.Prelude.{◌≡◌, ◌%◌, ◌++◌, length};
ghost use Rattle.std.specs.Str.{bytes_eq};
ghost use Rattle.store_format.specs.Sums.{crc_bit, crc_bits, crc_from, crc_byte, crc32_of, sum8_of, sum_bytes};

use crate::word_sums::{little, word_sum, word_sum_of_both};
use sha2::{Digest, Sha256};

/// The reflected polynomial of CRC-32.
const POLYNOMIAL: u32 = 0xEDB8_8320;

fn next_bit(rest: u32) -> u32
    ensures { result ≡ crc_bit rest }
{
    if rest % 2 == 1 {
        (rest / 2) ^ POLYNOMIAL
    } else {
        rest / 2
    }
}

fn next_four(rest: u32) -> u32
    ensures { result ≡ crc_bit (crc_bit (crc_bit (crc_bit rest))) }
{
    let rest = next_bit(rest);
    let rest = next_bit(rest);
    let rest = next_bit(rest);
    next_bit(rest)
}

#[tactic(auto, unfolding(crate::specs::Sums::crc_bits))]
fn next_byte(rest: u32, byte: u8) -> u32
    ensures { result ≡ crc_byte rest byte }
{
    let mixed = rest ^ u32::from(byte);
    let half = next_four(mixed);
    next_four(half)
}

// What is left of a CRC-32 after more bytes.
#[tactic(auto, using(crate::proofs::Checking::crc_at, crate::proofs::Checking::crc_none))]
fn crc_over(start: u32, bytes: &[u8]) -> u32
    ensures { result ≡ crc_from start bytes.now }
{
    let mut rest = start;
    for byte in bytes {
        rest = next_byte(rest, *byte);
    }
    rest
}

/// The CRC-32 of the bytes: the reflected polynomial 0xEDB88320, the start and the final mask all ones, as in zlib and
/// Ethernet.
#[tactic(auto, unfolding(crate::specs::Sums::crc32_of))]
pub fn crc32(bytes: &[u8]) -> u32
    ensures { result ≡ crc32_of bytes.now }
{
    crc_over(u32::MAX, bytes) ^ u32::MAX
}

// The CRC-32 of two pieces taken as one.
#[tactic(auto, using(crate::proofs::Checking::crc_both), unfolding(crate::specs::Sums::crc32_of))]
fn crc32_of_both(front: &[u8], back: &[u8]) -> u32
    ensures { result ≡ crc32_of (front.now ++ back.now) }
{
    let rest = crc_over(u32::MAX, front);
    crc_over(rest, back) ^ u32::MAX
}

/// The first eight bytes of the SHA-256 of the bytes.
#[tactic(auto, unfolding(crate::specs::Sums::sum8_of))]
pub fn sum8(bytes: &[u8]) -> [u8; 8]
    ensures { result ≡ sum8_of bytes.now }
{
    let digest: [u8; 32] = Sha256::digest(bytes);
    let mut sum = [0; 8];
    sum.copy_from_slice(&digest[..8]);
    sum
}

/// The first eight bytes of the SHA-256 of two pieces taken as one.
#[tactic(auto, unfolding(crate::specs::Sums::sum8_of))]
pub(crate) fn sum8_of_both(front: &[u8], back: &[u8]) -> [u8; 8]
    ensures { result ≡ sum8_of (front.now ++ back.now) }
{
    let mut hasher = Sha256::new();
    hasher.update(front);
    hasher.update(back);
    let digest: [u8; 32] = hasher.finalize();
    let mut sum = [0; 8];
    sum.copy_from_slice(&digest[..8]);
    sum
}

/// The sum of a format, as the eight bytes that are in a file: in format 1 the CRC-32 as a number of 64 bits.
fn sum_of(format: u64, bytes: &[u8]) -> [u8; 8]
    ensures { result ≡ sum_bytes format bytes.now }
{
    match format {
        1 => little(u64::from(crc32(bytes))),
        2 => sum8(bytes),
        _ => word_sum(bytes),
    }
}

/// Whether this is the sum of the bytes, in a format.
pub(crate) fn has_sum(format: u64, bytes: &[u8], sum: &[u8]) -> bool
    ensures { result ≡ bytes_eq sum.now (sum_bytes format bytes.now) }
{
    let wanted = sum_of(format, bytes);
    sum == wanted.as_slice()
}

// The sum of two pieces taken as one, in a format.
fn sum_of_both(format: u64, front: &[u8], back: &[u8]) -> [u8; 8]
    requires whole { length front.now % 8 ≡ 0 }
    ensures { result ≡ sum_bytes format (front.now ++ back.now) }
{
    match format {
        1 => little(u64::from(crc32_of_both(front, back))),
        2 => sum8_of_both(front, back),
        _ => word_sum_of_both(front, back),
    }
}

/// Whether this is the sum of two pieces taken as one, in a format. The first piece has whole words.
pub(crate) fn have_sum(format: u64, front: &[u8], back: &[u8], sum: &[u8]) -> bool
    requires whole { length front.now % 8 ≡ 0 }
    ensures { result ≡ bytes_eq sum.now (sum_bytes format (front.now ++ back.now)) }
{
    let wanted = sum_of_both(format, front, back);
    sum == wanted.as_slice()
}
