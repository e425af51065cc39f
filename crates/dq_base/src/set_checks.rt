ghost use Rattle.std.specs.Prelude.{◌≡◌, ◌==◌, ◌%◌, nat_le, if◌then◌else◌, None, Some, MatchResult};
ghost use Rattle.dq_base.specs.Images.{page_start};
ghost use Rattle.dq_base.specs.Applying.{order_fault, length_fault, page_fault, lengths_in, StateLengths};

use crate::page_fault::PageFault;
use crate::page_numbers::start_within;
use crate::pages::NumberedPage;
use crate::sizes::{Lengths, stated_lengths};

/// The lengths that the last page of a set states, to which applying the set resizes both files, or the set's first
/// fault: `NoSizes`, then `Order`, then `NotInLength`. Looks at each page's number, and at the bytes of the last page
/// alone.
pub fn set_lengths(pages: &[NumberedPage]) -> Result<Lengths, PageFault>
    ensures { MatchResult result
        (λ lengths. (page_fault pages.now ≡ None) × (lengths ≡ lengths_in pages.now) × StateLengths pages.now lengths.main lengths.side)
        (λ fault. page_fault pages.now ≡ Some fault) }
{
    let Some((last, front)) = pages.split_last() else {
        return Err(PageFault::NoSizes);
    };
    let Some(lengths) = stated_lengths(last) else {
        return Err(PageFault::NoSizes);
    };
    check_order(front)?;
    check_lengths(front, lengths)?;
    Ok(lengths)
}

/// Refuses the first number that isn't above the one before it, or is 0 or 1.
fn check_order(front: &[NumberedPage]) -> Result<(), PageFault>
    ensures { MatchResult result (λ _. order_fault 1 front.now ≡ None) (λ fault. order_fault 1 front.now ≡ Some fault) }
{
    let mut before = 1;
    for page in front {
        if page.number <= before {
            return Err(PageFault::Order(page.number));
        }
        before = page.number;
    }
    Ok(())
}

/// Refuses the first page that lies wholly past its file's length.
fn check_lengths(front: &[NumberedPage], lengths: Lengths) -> Result<(), PageFault>
    ensures { MatchResult result
        (λ _. length_fault lengths.main lengths.side front.now ≡ None)
        (λ fault. length_fault lengths.main lengths.side front.now ≡ Some fault) }
{
    for page in front {
        if is_past_end(page.number, lengths) {
            return Err(PageFault::NotInLength(page.number));
        }
    }
    Ok(())
}

/// Whether the page of a number lies wholly past its file's length.
fn is_past_end(number: u64, lengths: Lengths) -> bool
    ensures { result ≡ nat_le (if number % 2 == 0 then lengths.main else lengths.side) (page_start number) }
{
    if number % 2 == 0 {
        start_within(number, lengths.main).is_none()
    } else {
        start_within(number, lengths.side).is_none()
    }
}
