ghost use Rattle.std.specs.Prelude.{◌≡◌, ◌≤◌, ◌++◌, ◌-◌, ◌∷◌, [], length, max, Some, IfOk};
ghost use Rattle.dq_base.specs.Images.{page_at, sizes_page};
ghost use Rattle.dq_base.specs.Changes.{changed, changed_page};
ghost use Rattle.sql_engine.specs.CellTexts.{IsCellPage};
ghost use Rattle.sql_engine.specs.Meanings.{IsShort};
ghost use Rattle.sql_engine.specs.Cells.{changes_in, with_cell, wiped};
ghost use Rattle.sql_engine.specs.CellChanges.{new_page, cells_from, count_page, lengths_of};

use crate::page_bytes::{cell_page, number_of, pages_in};
use dq_base::{Image, Lengths, NumberedPage, PAGE_SIZE, Page, page_at, sizes_page};
use std::alloc::{AllocError, Global};

/// The pages that setting a cell changes, in their order, the sizes page last: the pages up to the cell's that were not
/// there, the cell's page where it is another one, and page 1 of the side file. It looks at these pages alone, and costs in
/// their order, whatever the image has besides.
pub(crate) fn set_changes(
    alloc: Global,
    image: &Image,
    lengths: Lengths,
    page: u64,
    value: u64,
) -> Result<Vec<NumberedPage>, AllocError>
    requires page { IsCellPage page }
    requires lengths { lengths ≡ lengths_of image.now }
    ensures { IfOk result (λ pages. pages.items ≡ changed image.now (with_cell image.now page value)) }
{
    let first = page.min(pages_in(lengths.main) + 1);
    let mut pages = Vec::new(alloc);
    list_cells(&mut pages, image, page, value, first, 2)?;
    list_count(&mut pages, image)?;
    list_cells(&mut pages, image, page, value, first.max(2), page + 1)?;
    list_sizes(
        &mut pages,
        lengths.main.max(PAGE_SIZE * page as usize),
        lengths.side.max(PAGE_SIZE),
    )?;
    Ok(pages)
}

/// The pages that cutting the main file to this many pages changes: page 1 of the side file and the sizes page, or none where
/// the file is no longer than that.
pub(crate) fn wipe_changes(
    alloc: Global,
    image: &Image,
    lengths: Lengths,
    pages: u64,
) -> Result<Vec<NumberedPage>, AllocError>
    requires pages { pages ≤ 8192 }
    requires lengths { lengths ≡ lengths_of image.now }
    ensures { IfOk result (λ changes. changes.items ≡ changed image.now (wiped image.now pages)) }
{
    let kept = PAGE_SIZE * pages as usize;
    let mut changes = Vec::new(alloc);
    if lengths.main <= kept {
        return Ok(changes);
    }
    list_count(&mut changes, image)?;
    list_sizes(&mut changes, kept, lengths.side.max(PAGE_SIZE))?;
    Ok(changes)
}

/// Lists a page at its number, unless the image has the same there.
fn list_page(
    pages: &mut Vec<NumberedPage>,
    image: &Image,
    number: u64,
    page: Page,
) -> Result<(), AllocError>
    ensures { IfOk result (λ _. pages.new.items ≡ pages.old.items ++ changed_page number (page_at image.now number) (Some page)) }
{
    if page_at(image, number) != Some(page) {
        pages.push(NumberedPage { number, page })?;
    }
    Ok(())
}

/// A page of the main file, up to that of the cell: the cell, and zeros before it.
fn new_page(page: u64, value: u64, index: u64) -> Page
    ensures { result ≡ new_page page value index }
{
    if index == page {
        cell_page(value)
    } else {
        Page::zeroed()
    }
}

/// Lists the pages of the main file from one on up to another one, without it.
fn list_cells(
    pages: &mut Vec<NumberedPage>,
    image: &Image,
    page: u64,
    value: u64,
    from: u64,
    until: u64,
) -> Result<(), AllocError>
    requires { until ≤ 8193 }
    ensures { IfOk result (λ _. pages.new.items ≡ pages.old.items ++ cells_from image.now page value from (until - from)) }
{
    for index in from..until {
        list_page(pages, image, 2 * index, new_page(page, value, index))?;
    }
    Ok(())
}

/// How many changes the image counts.
fn changes_in(image: &Image) -> u64
    ensures { result ≡ changes_in image.now }
{
    match page_at(image, 3) {
        Some(page) => number_of(&page),
        None => 0,
    }
}

/// Lists page 1 of the side file, with one change more.
fn list_count(pages: &mut Vec<NumberedPage>, image: &Image) -> Result<(), AllocError>
    ensures { IfOk result (λ _. pages.new.items ≡ pages.old.items ++ count_page image.now ∷ []) }
{
    let page = cell_page(changes_in(image).wrapping_add(1));
    pages.push(NumberedPage { number: 3, page })?;
    Ok(())
}

/// Lists the sizes page of files with these lengths.
fn list_sizes(pages: &mut Vec<NumberedPage>, main: usize, side: usize) -> Result<(), AllocError>
    ensures { IfOk result (λ _. pages.new.items ≡ pages.old.items ++ (record { number = 1; page = sizes_page main side }) ∷ []) }
{
    let page = sizes_page(Lengths { main, side });
    pages.push(NumberedPage { number: 1, page })?;
    Ok(())
}

/// The lengths of an image's files.
pub(crate) fn lengths_of(image: &Image) -> Lengths
    ensures lengths { result ≡ lengths_of image.now }
    ensures short { IsShort image.now }
{
    Lengths {
        main: image.main.len(),
        side: image.side.len(),
    }
}
