ghost use Rattle.std.specs.Prelude.{◌≡◌, ◌≤◌, ◌==◌, length, true, false, MatchOption};
ghost use Rattle.std.specs.List.{list_all};
ghost use Rattle.dq_base.specs.Applying.{stated_main, stated_side, is_sizes};

use crate::pages::NumberedPage;
use byteorder::{ByteOrder, LittleEndian};

/// How long a file may be that a sizes page states, in bytes.
pub const MAX_FILE_LENGTH: u64 = 67_108_864;

/// The lengths of both files of an image, in bytes.
#[derive(Clone, Copy, Debug, PartialEq, Eq)]
pub struct Lengths {
    /// Of the main file.
    pub main: usize,
    /// Of the file next to it.
    pub side: usize,
}

/// The lengths that a sizes page states; `None` exactly if the page is none: its number isn't 1, a length is above
/// 67,108,864, or a byte from byte 16 on isn't zero.
#[tactic(auto, using(crate::proofs::SizesTests::sizes_tests))]
pub fn stated_lengths(page: &NumberedPage) -> Option<Lengths>
    ensures { MatchOption result (is_sizes page.now ≡ false)
        (λ lengths. (is_sizes page.now ≡ true) × (lengths.main ≡ stated_main page.now.page) × (lengths.side ≡ stated_side page.now.page)) }
{
    let bytes = page.page.bytes();
    if page.number != 1 || !are_zeros(&bytes[16..]) {
        return None;
    }
    let main = main_length(bytes);
    let side = side_length(bytes);
    if main > MAX_FILE_LENGTH || side > MAX_FILE_LENGTH {
        return None;
    }
    Some(Lengths {
        main: main as usize,
        side: side as usize,
    })
}

/// Looks at all bytes, without an early end, so that the compiler can take many at a time.
fn are_zeros(bytes: &[u8]) -> bool
    ensures { result ≡ list_all (λ byte. byte == 0) bytes.now }
{
    let mut zeros = true;
    for byte in bytes {
        zeros &= *byte == 0;
    }
    zeros
}

#[tactic(auto, unfolding(crate::specs::Applying::stated_main))]
fn main_length(bytes: &[u8]) -> u64
    requires { 8 ≤ length bytes.now }
    ensures { result ≡ stated_main bytes.now }
{
    LittleEndian::read_u64(bytes)
}

#[tactic(auto, unfolding(crate::specs::Applying::stated_side))]
fn side_length(bytes: &[u8]) -> u64
    requires { 16 ≤ length bytes.now }
    ensures { result ≡ stated_side bytes.now }
{
    LittleEndian::read_u64(&bytes[8..])
}
