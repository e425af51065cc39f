ghost use Rattle.std.specs.Prelude.{◌≡◌, ◌+◌, ◌^◌, ◌≤◌, false, [], ◌∷◌, ◌++◌, length, max, Some, if◌then◌else◌, ℕ, IsTrue, IfOk, OnOk};
ghost use Rattle.dq_base.specs.Images.{page_at, pages_in};
ghost use Rattle.dq_base.specs.Changes.{changed, changed_page, changed_from, numbers_above_one, sizes_of};
ghost use Rattle.sqlite_files.specs.Recording.{since, touched_count, IsRecorded};

use crate::original_image::OriginalImage;
use crate::stamps::is_touched;
use crate::steps::PageReads;
use dq_base::{Image, Items, NumberedPage, PAGE_SIZE, Page, page_at};
use std::alloc::{AllocError, Global};
use std::sync::ledger::Ledger;

/// The change from one image to another: the pages that differ, the sizes page last, and none if nothing differs.
/// The image before is looked at only at the pages that have a stamp.
pub(crate) fn change<L: Ledger>(
    alloc: Global,
    before: &OriginalImage,
    after: &Image,
    main: &[u64],
    side: &[u64],
    steps: &mut PageReads<L>,
) -> Result<Items<NumberedPage>, AllocError>
    requires main { IsRecorded before.now.main after.now.main (since 0 main.now) }
    requires side { IsRecorded before.now.side after.now.side (since 0 side.now) }
    ensures pages { IfOk result (λ pages. pages ≡ changed before.now after.now) }
    ensures cost { steps.new ≤ steps.old + (touched_count (since 0 main.now) + touched_count (since 0 side.now)) }
{
    let mut pages = Vec::new(alloc);
    push_changed(&mut pages, before, after, main, side, steps)?;
    if nothing_differs(pages.as_slice(), before, after) {
        return Ok(Items::new(pages));
    }
    push_sizes(&mut pages, after)?;
    Ok(Items::new(pages))
}

/// Whether no page differs, nor any length.
fn nothing_differs(pages: &[NumberedPage], before: &OriginalImage, after: &Image) -> bool
    ensures same { IsTrue result → (pages.now ≡ []) × (length before.now.main ≡ length after.now.main) × (length before.now.side ≡ length after.now.side) }
    ensures other { result ≡ false → pages.now ≡ [] → length before.now.main ≡ length after.now.main → length before.now.side ≡ length after.now.side → ⊥ }
{
    pages.is_empty() && before.has_lengths_of(after)
}

fn push_sizes(pages: &mut Vec<NumberedPage>, after: &Image) -> Result<(), AllocError>
    ensures { OnOk result (pages.new.items ≡ pages.old.items ++ sizes_of after.now ∷ []) }
{
    if let Some(page) = page_at(after, 1) {
        pages.push(NumberedPage { number: 1, page })?;
    }
    Ok(())
}

/// Adds the pages above 1 that differ, in ascending order.
fn push_changed<L: Ledger>(
    pages: &mut Vec<NumberedPage>,
    before: &OriginalImage,
    after: &Image,
    main: &[u64],
    side: &[u64],
    steps: &mut PageReads<L>,
) -> Result<(), AllocError>
    requires empty { pages.old.items ≡ [] }
    requires main { IsRecorded before.now.main after.now.main (since 0 main.now) }
    requires side { IsRecorded before.now.side after.now.side (since 0 side.now) }
    ensures pages { OnOk result (pages.new.items ≡ changed_from 2 (numbers_above_one after.now) before.now after.now) }
    ensures cost { steps.new ≤ steps.old + (touched_count (since 0 main.now) + touched_count (since 0 side.now)) }
{
    for index in 0..longer(after) {
        let number = 2 * (index as u64 + 1);
        push_page(
            pages,
            before,
            after,
            number,
            is_touched(main, 0, index),
            steps,
        )?;
        push_page(
            pages,
            before,
            after,
            number + 1,
            is_touched(side, 0, index),
            steps,
        )?;
    }
    Ok(())
}

/// How many pages the longer of the two files has.
fn longer(image: &Image) -> usize
    ensures value { result ≡ max (pages_in image.now.main) (pages_in image.now.side) }
    ensures small { result ≤ 2 ^ 52 }
{
    image
        .main
        .len()
        .div_ceil(PAGE_SIZE)
        .max(image.side.len().div_ceil(PAGE_SIZE))
}

/// Adds the page of a number where it differs. It looks at the page before only if the page was touched.
fn push_page<L: Ledger>(
    pages: &mut Vec<NumberedPage>,
    before: &OriginalImage,
    after: &Image,
    number: u64,
    touched: bool,
    steps: &mut PageReads<L>,
) -> Result<(), AllocError>
    requires { touched ≡ false → page_at before.now number ≡ page_at after.now number }
    ensures pages { OnOk result (pages.new.items ≡ pages.old.items ++ changed_page number (page_at before.now number) (page_at after.now number)) }
    ensures cost { steps.new ≤ steps.old + (if touched then 1 else 0) }
{
    if !touched {
        return Ok(());
    }
    push_touched(pages, before, after, number, steps)
}

/// Adds a page that was touched, if it differs. A function pays at entry for its locals, and these hold two pages.
fn push_touched<L: Ledger>(
    pages: &mut Vec<NumberedPage>,
    before: &OriginalImage,
    after: &Image,
    number: u64,
    steps: &mut PageReads<L>,
) -> Result<(), AllocError>
    ensures pages { OnOk result (pages.new.items ≡ pages.old.items ++ changed_page number (page_at before.now number) (page_at after.now number)) }
    ensures cost { steps.new ≤ steps.old + 1 }
{
    let old = before.page(number, steps);
    if let Some(page) = page_at(after, number)
        && differs(&old, &page)
    {
        pages.push(NumberedPage { number, page })?;
    }
    Ok(())
}

/// Whether a page is another one than before, or there was none.
pub(crate) fn differs(old: &Option<Page>, page: &Page) -> bool
    ensures { (number : _) → changed_page number old.now (Some page.now) ≡ (if result then record { number = number; page = page.now } ∷ [] else []) }
{
    match old {
        Some(old) => old.bytes() != page.bytes(),
        None => true,
    }
}
