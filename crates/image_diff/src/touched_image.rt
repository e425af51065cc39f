//! An image that is described by the pages that were touched, and the change to it.

ghost use Rattle.std.specs.Prelude.{◌≡◌, ◌<◌, ◌^◌, [], length, IfOk};
ghost use Rattle.image_diff.specs.Touched.{put_in_order};
ghost use Rattle.image_diff.specs.Reached as there;

use crate::change::{add_changed, add_page};
use crate::numbers::in_order;
use dq_base::{Image, Items, Lengths, NumberedPage, lengths_of, page_at, sizes_of};
use std::alloc::{AllocError, Global};

/// An image, told by pages that were touched.
#[derive(Drop)]
pub struct TouchedImage {
    /// Those of these pages that it has, in ascending order.
    pub pages: Items<NumberedPage>,
    /// Its sizes page.
    pub sizes: NumberedPage,
    /// The lengths of its files.
    pub lengths: Lengths,
}

/// The pages that an image has at these numbers, in their order.
fn pages_at(alloc: Global, image: &Image, numbers: &[u64]) -> Result<Vec<NumberedPage>, AllocError>
    ensures { IfOk result (λ pages. pages.items ≡ there.pages_at numbers.now image.now) }
{
    let mut pages = Vec::new(alloc);
    for number in numbers {
        add_page(&mut pages, image, *number)?;
    }
    Ok(pages)
}

/// Those of these pages that an earlier image has not, or has otherwise, in order.
fn newer(
    alloc: Global,
    before: &Image,
    pages: &[NumberedPage],
) -> Result<Vec<NumberedPage>, AllocError>
    ensures { IfOk result (λ newer. newer.items ≡ there.newer before.now pages.now) }
{
    let mut newer = Vec::new(alloc);
    for page in pages {
        let old = page_at(before, page.number);
        add_changed(&mut newer, page.number, old, Some(page.page))?;
    }
    Ok(newer)
}

/// Whether the files of an image have these lengths.
fn has_lengths(image: &Image, lengths: Lengths) -> bool
    ensures { result ≡ there.has_lengths image.now lengths }
{
    image.main.len() == lengths.main && image.side.len() == lengths.side
}

impl TouchedImage {
    /// What an image is, of which these are the numbers of the pages that were touched.
    pub fn of(alloc: Global, image: &Image, touched: &[u64]) -> Result<TouchedImage, AllocError>
        ensures value { IfOk result (λ reached. reached ≡ there.reached_at (put_in_order [] touched.now) image.now) }
        ensures main_fits { length image.now.main < 2 ^ 64 }
        ensures side_fits { length image.now.side < 2 ^ 64 }
    {
        let lengths = lengths_of(image);
        let numbers = in_order(alloc, touched)?;
        let pages = pages_at(alloc, image, numbers.as_slice())?;
        Ok(TouchedImage {
            pages: Items::new(pages),
            sizes: sizes_of(image),
            lengths,
        })
    }

    /// The change from an earlier image to it, if the two differ in touched pages alone.
    pub fn change_from(
        &self,
        alloc: Global,
        before: &Image,
    ) -> Result<Vec<NumberedPage>, AllocError>
        ensures { IfOk result (λ pages. pages.items ≡ there.change_to before.now self.now) }
    {
        let mut pages = newer(alloc, before, self.pages.as_slice())?;
        let is_none = pages.is_empty();
        if is_none && has_lengths(before, self.lengths) {
            return Ok(pages);
        }
        pages.push(self.sizes)?;
        Ok(pages)
    }
}
