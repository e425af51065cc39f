ghost use Rattle.std.specs.Prelude.{◌≡◌, ◌≤◌, ◌++◌, length, drop};
ghost use Rattle.wal_frames.specs.Text.{pair, pair_of};

use byteorder::{BigEndian, ByteOrder};

/// The two big-endian numbers in the first eight bytes.
#[tactic(auto, unfolding(crate::specs::Text::pair_of))]
pub(crate) fn pair_of(bytes: &[u8]) -> (u32, u32)
    requires { 8 ≤ length bytes.now }
    ensures { result ≡ pair_of bytes.now }
{
    (BigEndian::read_u32(bytes), BigEndian::read_u32(&bytes[4..]))
}

/// The bytes of two big-endian numbers.
#[tactic(auto, unfolding(crate::specs::Text::pair))]
pub(crate) fn pair(first: u32, second: u32) -> [u8; 8]
    ensures { result ≡ pair (first, second) }
{
    let mut bytes = [0; 8];
    BigEndian::write_u32(&mut bytes, first);
    BigEndian::write_u32(&mut bytes[4..], second);
    bytes
}

/// Two pieces of eight bytes, one after the other.
fn two_pieces(first: &[u8; 8], second: &[u8; 8]) -> [u8; 16]
    ensures { result ≡ first.now ++ second.now }
{
    let mut bytes = [0; 16];
    bytes[..8].copy_from_slice(first);
    bytes[8..].copy_from_slice(second);
    bytes
}

/// Three pieces of eight bytes, one after the other.
pub(crate) fn three_pieces(first: &[u8; 8], second: &[u8; 8], third: &[u8; 8]) -> [u8; 24]
    ensures { result ≡ first.now ++ (second.now ++ third.now) }
{
    let mut bytes = [0; 24];
    bytes[..8].copy_from_slice(first);
    bytes[8..].copy_from_slice(&two_pieces(second, third));
    bytes
}
