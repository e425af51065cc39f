ghost use Rattle.std.specs.Prelude.{◌≡◌};
ghost use Rattle.dq_base.specs.Images.{page_start, is_page_of};
ghost use Rattle.dq_base.specs.Applying.{replaced, put_pages};

use crate::page_numbers::start_within;
use crate::pages::{NumberedPage, PAGE_SIZE};

/// Whether a number above 1 is that of a page of a file: the main file has the even numbers, so its parity is 0, and the
/// file beside it has the odd ones, so its parity is 1.
pub fn is_page_of(number: u64, parity: u64) -> bool
    ensures { result ≡ is_page_of parity number }
{
    number > 1 && number % 2 == parity
}

/// Replaces the bytes that a page represents, as far as they lie inside its file. The file keeps its length.
#[tactic(auto, unfolding(crate::specs::Applying::replaced))]
pub fn put_page(file: &mut [u8], page: &NumberedPage)
    ensures { file.new ≡ replaced file.old (page_start page.now.number) page.now.page }
{
    let Some(start) = start_within(page.number, file.len()) else {
        return;
    };
    let count = PAGE_SIZE.min(file.len() - start);
    file[start..start + count].copy_from_slice(&page.page.bytes()[..count]);
}

/// Puts those of the pages into a file that are pages of it, in their order: those whose numbers are above 1 and have this
/// remainder by 2, which is 0 for the main file and 1 for the file next to it. The file keeps its length.
pub fn put_pages(file: &mut [u8], pages: &[NumberedPage], parity: u64)
    ensures { file.new ≡ put_pages (is_page_of parity) pages.now file.old }
{
    for page in pages {
        if is_page_of(page.number, parity) {
            put_page(file, page);
        }
    }
}
