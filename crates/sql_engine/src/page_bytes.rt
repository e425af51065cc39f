ghost use Rattle.std.specs.Prelude.{◌≡◌};
ghost use Rattle.dq_base.specs.Images.{zeros, pages_of};
ghost use Rattle.byteorder.specs.Endian.{little_number};
ghost use Rattle.sql_engine.specs.Cells.{cell_page};

use byteorder::{ByteOrder, LittleEndian};
use dq_base::{PAGE_SIZE, Page};

/// The page of a number: it in eight bytes, and zeros.
#[tactic(auto, unfolding(crate::specs::Cells::cell_page), using(crate::proofs::CellBytes::cell_bytes))]
pub(crate) fn cell_page(value: u64) -> Page
    ensures { result ≡ cell_page value }
{
    let mut bytes = zeroed_bytes();
    LittleEndian::write_u64(&mut bytes, value);
    Page::new(bytes)
}

/// The number that a page holds.
pub(crate) fn number_of(page: &Page) -> u64
    ensures { result ≡ little_number 8 page.now }
{
    LittleEndian::read_u64(page.bytes())
}

/// The bytes of a page of zeros.
#[tactic(auto, unfolding(dq_base::specs::Images::zeros))]
fn zeroed_bytes() -> [u8; PAGE_SIZE]
    ensures { result ≡ zeros 4096 }
{
    [0; PAGE_SIZE]
}

/// How many pages a file of this many bytes fills, the last of them maybe in part.
pub(crate) fn pages_in(bytes: usize) -> u64
    ensures { result ≡ pages_of bytes }
{
    bytes.div_ceil(PAGE_SIZE) as u64
}
