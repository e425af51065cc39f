//! The sum of format 3, over words of eight bytes.
ghost use Rattle.std.specs.Prelude.{◌≡◌, ◌<◌, ◌/◌, ◌%◌, ◌++◌, length};
ghost use Rattle.byteorder.specs.Endian.{little_bytes, little_number};
ghost use Rattle.store_format.specs.Sums.{mixed, mixed_over, words_in, mix_ended, word_sum_of};

use crate::words::word_from;
use byteorder::{ByteOrder, LittleEndian};

/// The odd factor of the sum over words.
const MIX_FACTOR: u64 = 0x9E37_79B1_85EB_CA87;

/// What the sum over words begins with.
const MIX_START: u64 = 0xC2B2_AE3D_27D4_EB4F;

fn mix(state: u64, word: u64) -> u64
    ensures { result ≡ mixed state word }
{
    (state ^ word).wrapping_mul(MIX_FACTOR).rotate_left(31)
}

// The whole words of bytes come in.
#[tactic(auto, using(crate::proofs::Mixing::mix_none, crate::proofs::Mixing::mix_more))]
fn mix_words(start: u64, bytes: &[u8]) -> u64
    ensures { result ≡ mixed_over start (length bytes.now / 8) bytes.now }
{
    let mut state = start;
    for place in 0..bytes.len() / 8 {
        state = mix(state, word_from(bytes, 8 * place));
    }
    state
}

// Fewer bytes than a word has, as one word.
fn short_word(bytes: &[u8]) -> u64
    requires { length bytes.now < 8 }
    ensures { result ≡ little_number 8 bytes.now }
{
    let mut word = [0; 8];
    word[..bytes.len()].copy_from_slice(bytes);
    word_from(&word, 0)
}

// All words of bytes come in, the last one filled up with zeros.
#[tactic(auto, using(crate::proofs::Mixing::whole_words, crate::proofs::Mixing::one_word_more))]
fn mix_over(start: u64, bytes: &[u8]) -> u64
    ensures { result ≡ mixed_over start (words_in (length bytes.now)) bytes.now }
{
    let state = mix_words(start, bytes);
    let rest = bytes.len() % 8;
    if rest == 0 {
        return state;
    }
    let (_, last) = bytes.split_at(bytes.len() - rest);
    mix(state, short_word(last))
}

fn end_mix(state: u64, size: u64) -> [u8; 8]
    ensures { result ≡ little_bytes 8 (mix_ended state size) }
{
    let state = mix(state, size);
    let state = mix(state, MIX_FACTOR);
    little(mix(state, MIX_FACTOR))
}

/// The sum over words, as eight bytes. Each eight bytes are a word, little-endian; zeros fill the last one. A word comes in
/// by an exclusive or, a product with an odd factor and a rotation.
#[tactic(auto, unfolding(crate::specs::Sums::word_sum_of))]
pub fn word_sum(bytes: &[u8]) -> [u8; 8]
    ensures { result ≡ word_sum_of bytes.now }
{
    end_mix(mix_over(MIX_START, bytes), bytes.len() as u64)
}

/// The sum over words of two pieces taken as one. The first piece has whole words.
#[tactic(auto, using(crate::proofs::Mixing::both_pieces))]
pub(crate) fn word_sum_of_both(front: &[u8], back: &[u8]) -> [u8; 8]
    requires whole { length front.now % 8 ≡ 0 }
    ensures { result ≡ word_sum_of (front.now ++ back.now) }
{
    let state = mix_over(MIX_START, front);
    let state = mix_over(state, back);
    end_mix(state, (front.len() + back.len()) as u64)
}

/// A number as its eight bytes, the lowest first.
pub(crate) fn little(value: u64) -> [u8; 8]
    ensures { result ≡ little_bytes 8 value }
{
    let mut bytes = [0; 8];
    LittleEndian::write_u64(&mut bytes, value);
    bytes
}
