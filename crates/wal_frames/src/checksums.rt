ghost use Rattle.std.specs.Prelude.{◌≡◌, ◌%◌, length};
ghost use Rattle.wal_frames.specs.Checksum.{checksum, after_words, after_piece, sums_over};

use byteorder::{BigEndian, ByteOrder, LittleEndian};

/// In which order a checksum reads the bytes of a word.
#[derive(Clone, Copy, Debug, PartialEq, Eq)]
pub enum WordOrder {
    /// The highest byte first.
    Big,
    /// The lowest byte first.
    Little,
}

/// The checksum of the bytes, whose number has to be a multiple of 8, going on from two sums: for each two words x and
/// y the first sum grows by x and the second sum, and then the second by y and the first, all modulo 2^32.
///
/// Goes over the bytes once.
pub fn checksum(order: WordOrder, start: (u32, u32), bytes: &[u8]) -> (u32, u32)
    requires { length bytes.now % 8 ≡ 0 }
    ensures { result ≡ checksum order start bytes.now }
{
    match order {
        WordOrder::Big => sums_over::<BigEndian>(start, bytes),
        WordOrder::Little => sums_over::<LittleEndian>(start, bytes),
    }
}

/// Both sums after the bytes, the words of which are read in one order.
fn sums_over<T: ByteOrder>(start: (u32, u32), bytes: &[u8]) -> (u32, u32)
    ensures { result ≡ sums_over (λ word. T.number_of 4 word) start bytes.now }
{
    let mut sums = start;
    let (pieces, _) = bytes.as_chunks::<8>();
    for piece in pieces {
        sums = after_piece::<T>(sums, piece);
    }
    sums
}

/// Both sums after eight more bytes.
#[tactic(auto, unfolding(crate::specs::Checksum::after_piece))]
fn after_piece<T: ByteOrder>(sums: (u32, u32), piece: &[u8; 8]) -> (u32, u32)
    ensures { result ≡ after_piece (λ word. T.number_of 4 word) sums piece.now }
{
    after_words(sums, T::read_u32(piece), T::read_u32(&piece[4..]))
}

/// Both sums after two more words.
fn after_words(sums: (u32, u32), x: u32, y: u32) -> (u32, u32)
    ensures { result ≡ after_words sums x y }
{
    let first = sums.0.wrapping_add(x).wrapping_add(sums.1);
    (first, sums.1.wrapping_add(y).wrapping_add(first))
}
