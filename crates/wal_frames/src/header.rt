ghost use Rattle.std.specs.Prelude.{◌≡◌, ◌≤◌, ◌++◌, length, take, drop, Ok, Err, MatchResult, Option, option_map};
ghost use Rattle.wal_frames.specs.Checksum.{checksum};
ghost use Rattle.wal_frames.specs.Text.{magic, fields, written_header, pair_of};
ghost use Rattle.wal_frames.specs.Headers.{order_of, stated, header_with, header_of, same_pair};

use crate::checksums::{WordOrder, checksum};
use crate::fault::WalFault;
use crate::words::{pair, pair_of, three_pieces};

const BIG_MAGIC: u32 = 0x377f_0683;

const LITTLE_MAGIC: u32 = 0x377f_0682;

const VERSION: u32 = 3_007_000;

const PAGE_SIZE: u32 = 4096;

/// How long a header is, in bytes.
pub(crate) const HEADER_LENGTH: usize = 32;

/// What the header of a log says.
#[derive(Clone, Copy, Debug, PartialEq, Eq)]
pub struct WalHeader {
    /// In which order the checksums of this log read words.
    pub order: WordOrder,
    /// The number of the checkpoint sequence.
    pub sequence: u32,
    /// The two salts, which each valid frame repeats.
    pub salts: (u32, u32),
}

impl WalHeader {
    /// The header that is written here for a sequence number: words in big-endian order, the first salt the sequence
    /// number, and the second 0.
    pub fn written(sequence: u32) -> WalHeader
        ensures { result ≡ written_header sequence }
    {
        WalHeader {
            order: WordOrder::Big,
            sequence,
            salts: (sequence, 0),
        }
    }

    /// Reads the header at the front of the bytes, or names the first fault: `Short`, `Magic`, `Version`, `PageSize`,
    /// `HeaderSum`. Looks at 32 bytes at most.
    #[tactic(auto, unfolding(crate::specs::Headers::header_of, crate::specs::Headers::header_with))]
    pub fn read(bytes: &[u8]) -> Result<WalHeader, WalFault>
        ensures { result ≡ header_of bytes.now }
    {
        if bytes.len() < HEADER_LENGTH {
            return Err(WalFault::Short);
        }
        let (number, version) = pair_of(bytes);
        let Some(order) = order_of(number) else {
            return Err(WalFault::Magic);
        };
        if version != VERSION {
            return Err(WalFault::Version);
        }
        let (page_size, _) = pair_of(&bytes[8..]);
        if page_size != PAGE_SIZE {
            return Err(WalFault::PageSize);
        }
        if !holds_sum(order, bytes) {
            return Err(WalFault::HeaderSum);
        }
        Ok(stated(order, bytes))
    }

    /// The 24 bytes of a header that its checksum covers.
    #[tactic(auto, unfolding(crate::specs::Text::fields))]
    pub(crate) fn fields(self) -> [u8; 24]
        ensures { result ≡ fields self }
    {
        three_pieces(
            &pair(magic(self.order), VERSION),
            &pair(PAGE_SIZE, self.sequence),
            &pair(self.salts.0, self.salts.1),
        )
    }
}

fn magic(order: WordOrder) -> u32
    ensures { result ≡ magic order }
{
    match order {
        WordOrder::Big => BIG_MAGIC,
        WordOrder::Little => LITTLE_MAGIC,
    }
}

/// The order that a magic number tells.
fn order_of(number: u32) -> Option<WordOrder>
    ensures { result ≡ order_of number }
{
    match number {
        BIG_MAGIC => Some(WordOrder::Big),
        LITTLE_MAGIC => Some(WordOrder::Little),
        _ => None,
    }
}

/// Whether the checksum of the first 24 bytes follows them.
fn holds_sum(order: WordOrder, bytes: &[u8]) -> bool
    requires { 32 ≤ length bytes.now }
    ensures { result ≡ same_pair (checksum order (0, 0) (take 24 bytes.now)) (pair_of (drop 24 bytes.now)) }
{
    checksum(order, (0, 0), &bytes[..24]) == pair_of(&bytes[24..])
}

/// The header that the bytes state.
#[tactic(auto, unfolding(crate::specs::Headers::stated))]
fn stated(order: WordOrder, bytes: &[u8]) -> WalHeader
    requires { 32 ≤ length bytes.now }
    ensures { result ≡ stated order bytes.now }
{
    let (_, sequence) = pair_of(&bytes[8..]);
    let salts = pair_of(&bytes[16..]);
    WalHeader {
        order,
        sequence,
        salts,
    }
}
