//! An earlier image that is told page by page, and compared with a later one.

ghost use Rattle.std.specs.Prelude.{◌≡◌, ◌≤◌, ◌&&◌, is_none, IfOk};
ghost use Rattle.dq_base.specs.Changes.{changed};
ghost use Rattle.dq_base.specs.Images.{page_at};
ghost use Rattle.image_diff.specs.Pages as pages_of_images;
ghost use Rattle.image_diff.specs.Touched.{no_pages, ListsAll, changed_at, same_lengths};

use crate::change::add_changed;
use crate::numbers::in_order;
use dq_base::{Image, Lengths, NumberedPage, PAGE_SIZE, Page, lengths_of, page_at, sizes_of};
use std::alloc::{AllocError, Global};

/// An image that is told page by page.
pub trait ImagePages {
    ghost use Rattle.std.specs.Prelude.{◌≡◌};
    ghost use Rattle.dq_base.specs.declared.images.Image.{Image};
    ghost use Rattle.dq_base.specs.Images.{page_at};

    /// The image.
    ghost image: { Self → Image };

    /// Whether its pages may be asked for.
    ghost is_shown: { Self → Type 0 };

    /// The page of a number, copied; `None` exactly if the image doesn't have the page.
    fn page(&self, alloc: Global, number: u64) -> Option<Page>
        requires { is_shown self.now }
        ensures { result ≡ page_at (image self.now) number };
}

/// Whether it is empty.
pub fn are_none(pages: &Vec<NumberedPage>) -> bool
    ensures { result ≡ no_pages pages.now.items }
{
    let pages = pages.as_slice();
    pages.is_empty()
}

/// Whether there is a page, with these bytes.
fn shows(page: &Option<Page>, other: &Page) -> bool
    ensures { result ≡ pages_of_images.shows page.now other.now }
{
    match page {
        Some(page) => page.bytes() == other.bytes(),
        None => false,
    }
}

/// Whether the earlier image has the sizes page of a later one.
fn has_sizes<P: ImagePages>(alloc: Global, earlier: &P, after: &Image) -> bool
    requires { P.is_shown earlier.now }
    ensures { result ≡ pages_of_images.has_sizes (P.image earlier.now) after.now }
{
    let own = earlier.page(alloc, 1);
    let sizes = sizes_of(after);
    shows(&own, &sizes.page)
}

/// The number of the page after the last one of a file with this many bytes, whose first page has this number.
fn number_behind(first: u64, length: usize) -> u64
    requires { first ≤ 3 }
    ensures { result ≡ pages_of_images.number_behind first length }
{
    first + 2 * length.div_ceil(PAGE_SIZE) as u64
}

/// Whether the earlier image lacks the page of a number.
fn lacks<P: ImagePages>(alloc: Global, earlier: &P, number: u64) -> bool
    requires { P.is_shown earlier.now }
    ensures { result ≡ is_none (page_at (P.image earlier.now) number) }
{
    let page = earlier.page(alloc, number);
    page.is_none()
}

/// Whether the earlier image has no page after the main file of a later one with these lengths, and none after the side file.
fn ends_within<P: ImagePages>(alloc: Global, earlier: &P, lengths: Lengths) -> bool
    requires { P.is_shown earlier.now }
    ensures { result ≡ pages_of_images.ends_within (P.image earlier.now) lengths.main lengths.side }
{
    if !lacks(alloc, earlier, number_behind(2, lengths.main)) {
        return false;
    }
    lacks(alloc, earlier, number_behind(3, lengths.side))
}

/// The pages at these numbers that a later image has and the earlier has not or has otherwise, in their order.
fn changed_at<P: ImagePages>(
    alloc: Global,
    earlier: &P,
    after: &Image,
    numbers: &[u64],
) -> Result<Vec<NumberedPage>, AllocError>
    requires { P.is_shown earlier.now }
    ensures { IfOk result (λ pages. pages.items ≡ changed_at numbers.now (P.image earlier.now) after.now) }
{
    let mut pages = Vec::new(alloc);
    for number in numbers {
        let number = *number;
        let before = earlier.page(alloc, number);
        add_changed(&mut pages, number, before, page_at(after, number))?;
    }
    Ok(pages)
}

/// Whether the files of the earlier image are as long as those of a later one. Looks at three pages.
fn same_lengths<P: ImagePages>(alloc: Global, earlier: &P, after: &Image) -> bool
    requires { P.is_shown earlier.now }
    ensures { result ≡ same_lengths (P.image earlier.now) after.now }
{
    let lengths = lengths_of(after);
    if !has_sizes(alloc, earlier, after) {
        return false;
    }
    ends_within(alloc, earlier, lengths)
}

/// Whether the earlier image is a later one, if only these pages above 1 differ.
fn is_unchanged<P: ImagePages>(
    alloc: Global,
    earlier: &P,
    after: &Image,
    pages: &Vec<NumberedPage>,
) -> bool
    requires { P.is_shown earlier.now }
    ensures { result ≡ no_pages pages.now.items && same_lengths (P.image earlier.now) after.now }
{
    if !are_none(pages) {
        return false;
    }
    same_lengths(alloc, earlier, after)
}

/// The pages that lead from an earlier image to a later one, which differ only in the pages of these numbers: none if they
/// are the same; else those pages that the later has and the earlier has not or has otherwise, in order, and its sizes page.
/// Copies the pages of the numbers, one at a time, and keeps those that it lists.
pub fn change_between<P: ImagePages>(
    alloc: Global,
    earlier: &P,
    after: &Image,
    touched: &[u64],
) -> Result<Vec<NumberedPage>, AllocError>
    requires shown { P.is_shown earlier.now }
    requires listed { ListsAll touched.now (P.image earlier.now) after.now }
    ensures { IfOk result (λ pages. pages.items ≡ changed (P.image earlier.now) after.now) }
{
    let _ = lengths_of(after);
    let numbers = in_order(alloc, touched)?;
    let mut pages = changed_at(alloc, earlier, after, numbers.as_slice())?;
    if is_unchanged(alloc, earlier, after, &pages) {
        return Ok(pages);
    }
    pages.push(sizes_of(after))?;
    Ok(pages)
}
