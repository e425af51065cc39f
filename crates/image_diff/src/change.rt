//! The pages that lead from one image to another.

ghost use Rattle.std.specs.Prelude.{◌≡◌, ◌++◌, None, OnOk};
ghost use Rattle.dq_base.specs.Images.{page_at};
ghost use Rattle.dq_base.specs.Changes.{changed_page};

use dq_base::{Image, NumberedPage, Page, page_at};
use std::alloc::AllocError;

/// Adds to the pages of a change what it lists at a number: the later page, if there was none before or another one.
pub fn add_changed(
    pages: &mut Vec<NumberedPage>,
    number: u64,
    old: Option<Page>,
    new: Option<Page>,
) -> Result<(), AllocError>
    ensures { OnOk result (pages.new.items ≡ pages.old.items ++ changed_page number old new) }
{
    let Some(page) = new else {
        return Ok(());
    };
    if let Some(old) = old {
        if old.bytes() == page.bytes() {
            return Ok(());
        }
    }
    pages.push(NumberedPage { number, page })?;
    Ok(())
}

/// Adds the page that an image has at a number, if it has one.
pub(crate) fn add_page(
    pages: &mut Vec<NumberedPage>,
    image: &Image,
    number: u64,
) -> Result<(), AllocError>
    ensures { OnOk result (pages.new.items ≡ pages.old.items ++ changed_page number None (page_at image.now number)) }
{
    add_changed(pages, number, None, page_at(image, number))
}
