ghost use Rattle.std.specs.Prelude.{◌≡◌, ◌≤◌, ◌+◌, length, IfOk};
ghost use Rattle.store_format.specs.Words.{word_from, is_known, format_in, front_bytes};

use byteorder::{ByteOrder, LittleEndian};
use std::alloc::{AllocError, Global};
use wire_words::Writer;

/// The word from a place on.
pub(crate) fn word_from(bytes: &[u8], place: usize) -> u64
    requires { place + 8 ≤ length bytes.now }
    ensures { result ≡ word_from place bytes.now }
{
    let rest = &bytes[place..];
    LittleEndian::read_u64(rest)
}

/// Whether files have this format: 1, 2 or 3.
pub(crate) fn is_known(format: u64) -> bool
    ensures { result ≡ is_known format }
{
    format == 1 || format == 2 || format == 3
}

/// The format that a file's first word says, and 0 where it says none that is known.
#[tactic(auto, unfolding(crate::specs::Words::format_in))]
pub fn format_in(bytes: &[u8]) -> u64
    ensures { result ≡ format_in bytes.now }
{
    if bytes.len() < 8 {
        return 0;
    }
    let format = word_from(bytes, 0);
    if is_known(format) { format } else { 0 }
}

/// The first four words of a file in format 3.
#[tactic(auto, unfolding(crate::specs::Words::front_bytes))]
pub(crate) fn front(
    alloc: Global,
    first: u64,
    second: u64,
    third: u64,
) -> Result<Vec<u8>, AllocError>
    ensures bytes { IfOk result (λ front. front.items ≡ front_bytes first second third) }
    ensures length { IfOk result (λ front. length front.items ≡ 32) }
{
    let mut out = Writer::new(alloc);
    out.word(3)?;
    out.word(first)?;
    out.word(second)?;
    out.word(third)?;
    Ok(out.finish().into_vec())
}
