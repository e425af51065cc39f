ghost use Rattle.std.specs.Prelude.{◌≡◌, ◌*◌, ◌^◌, ◌≤◌, [], ◌∷◌, ◌++◌, ◌<◌, length, max, false, None, IsTrue, IfOk, OnOk};
ghost use Rattle.dq_base.specs.Images.{pages_in};
ghost use Rattle.dq_base.specs.Changes.{changed, changed_page, changed_from, numbers_above_one, sizes_of};
ghost use Rattle.sqlite_files.specs.Pairs.{both, piece_of, page_of};
ghost use Rattle.sqlite_files.specs.Recording.{since, is_touched, IsRecorded};

use crate::stamps::{is_touched, next_touched};
use crate::taking::differs;
use dq_base::{Image, Items, Lengths, NumberedPage, PAGE_SIZE, Page, PageSet, sizes_page};
use std::alloc::{AllocError, Global};

/// The set of the pages that lead from an image to two files, with the sizes page last; no pages where nothing differs. It
/// compares all bytes, and copies the pages that differ and no others. Fails where memory runs out.
pub fn changes_between(
    alloc: Global,
    before: &Image,
    main: &[u8],
    side: &[u8],
    tx: u64,
) -> Result<PageSet, AllocError>
    ensures { IfOk result (λ set. set ≡ record { tx = tx; pages = changed before.now (both main.now side.now) }) }
{
    let mut pages = Vec::new(alloc);
    push_differing(&mut pages, before, main, side)?;
    if nothing_differs(pages.as_slice(), before, main, side) {
        return Ok(PageSet {
            tx,
            pages: Items::new(pages),
        });
    }
    push_lengths(&mut pages, main, side)?;
    Ok(PageSet {
        tx,
        pages: Items::new(pages),
    })
}

/// A file with the stamps of its pages, and the number of a call after which it was another one, or the same.
#[derive(Clone, Copy)]
pub struct TouchedFile<'a> {
    /// Its bytes.
    pub bytes: &'a [u8],
    /// For each page the number of the last call that touched it.
    pub stamps: &'a [u64],
    /// The number of the call.
    pub mark: u64,
}

/// That set for two files of which it is known that they were the image after earlier calls. It looks at 8 bytes
/// a page of the longer file, compares the bytes of the pages alone that were touched since, and copies the pages that differ and
/// no others. Fails if memory runs out.
pub fn changes_since(
    alloc: Global,
    before: &Image,
    main: &TouchedFile<'_>,
    side: &TouchedFile<'_>,
    tx: u64,
) -> Result<PageSet, AllocError>
    requires main { IsRecorded before.now.main main.now.bytes.now (since main.now.mark main.now.stamps.now) }
    requires side { IsRecorded before.now.side side.now.bytes.now (since side.now.mark side.now.stamps.now) }
    ensures { IfOk result (λ set. set ≡ record { tx = tx; pages = changed before.now (both main.now.bytes.now side.now.bytes.now) }) }
{
    let mut pages = Vec::new(alloc);
    push_touched(&mut pages, before, main, side)?;
    if nothing_differs(pages.as_slice(), before, main.bytes, side.bytes) {
        return Ok(PageSet {
            tx,
            pages: Items::new(pages),
        });
    }
    push_lengths(&mut pages, main.bytes, side.bytes)?;
    Ok(PageSet {
        tx,
        pages: Items::new(pages),
    })
}

/// Whether no page differs, nor any length.
fn nothing_differs(pages: &[NumberedPage], before: &Image, main: &[u8], side: &[u8]) -> bool
    ensures same { IsTrue result → (pages.now ≡ []) × (length before.now.main ≡ length main.now) × (length before.now.side ≡ length side.now) }
    ensures other { result ≡ false → pages.now ≡ [] → length before.now.main ≡ length main.now
        → length before.now.side ≡ length side.now → ⊥ }
{
    pages.is_empty() && before.main.len() == main.len() && before.side.len() == side.len()
}

/// Adds the sizes page of two files.
fn push_lengths(pages: &mut Vec<NumberedPage>, main: &[u8], side: &[u8]) -> Result<(), AllocError>
    ensures { OnOk result (pages.new.items ≡ pages.old.items ++ sizes_of (both main.now side.now) ∷ []) }
{
    let page = sizes_page(Lengths {
        main: main.len(),
        side: side.len(),
    });
    pages.push(NumberedPage { number: 1, page })?;
    Ok(())
}

/// Adds the pages above 1 that differ, in ascending order.
fn push_differing(
    pages: &mut Vec<NumberedPage>,
    before: &Image,
    main: &[u8],
    side: &[u8],
) -> Result<(), AllocError>
    requires { pages.old.items ≡ [] }
    ensures { OnOk result (pages.new.items ≡ changed_from 2 (numbers_above_one (both main.now side.now)) before.now (both main.now side.now)) }
{
    let main_before = before.main.as_slice();
    let side_before = before.side.as_slice();
    for index in 0..longer(main, side) {
        let number = 2 * (index as u64 + 1);
        push_piece(pages, piece(main_before, index), piece(main, index), number)?;
        push_piece(
            pages,
            piece(side_before, index),
            piece(side, index),
            number + 1,
        )?;
    }
    Ok(())
}

/// Adds the pages above 1 that differ, in ascending order, of those that were touched.
fn push_touched(
    pages: &mut Vec<NumberedPage>,
    before: &Image,
    main: &TouchedFile<'_>,
    side: &TouchedFile<'_>,
) -> Result<(), AllocError>
    requires empty { pages.old.items ≡ [] }
    requires main { IsRecorded before.now.main main.now.bytes.now (since main.now.mark main.now.stamps.now) }
    requires side { IsRecorded before.now.side side.now.bytes.now (since side.now.mark side.now.stamps.now) }
    ensures { OnOk result (pages.new.items ≡ changed_from 2 (numbers_above_one (both main.now.bytes.now side.now.bytes.now)) before.now
        (both main.now.bytes.now side.now.bytes.now)) }
{
    let main_before = before.main.as_slice();
    let side_before = before.side.as_slice();
    let end = longer(main.bytes, side.bytes);
    let mut index = next_of_both(main, side, 0, end);
    while index < end {
        let number = 2 * (index as u64 + 1);
        push_since(pages, main_before, main, index, number)?;
        push_since(pages, side_before, side, index, number + 1)?;
        index = next_of_both(main, side, index + 1, end);
    }
    Ok(())
}

/// The first index from this one on of a page that was touched in either file, or this end.
fn next_of_both(main: &TouchedFile<'_>, side: &TouchedFile<'_>, from: usize, end: usize) -> usize
    requires { from ≤ end }
    ensures from { from ≤ result }
    ensures end { result ≤ end }
    ensures main { (page : _) → from ≤ page → page < result → is_touched (since main.now.mark main.now.stamps.now) page ≡ false }
    ensures side { (page : _) → from ≤ page → page < result → is_touched (since side.now.mark side.now.stamps.now) page ≡ false }
{
    let first = next_touched(side.stamps, side.mark, from, end);
    next_touched(main.stamps, main.mark, from, first)
}

/// Adds the page of an index if it differs. It looks at its bytes only if it was touched.
fn push_since(
    pages: &mut Vec<NumberedPage>,
    before: &[u8],
    now: &TouchedFile<'_>,
    index: usize,
    number: u64,
) -> Result<(), AllocError>
    requires small { index * 4096 ≤ 2 ^ 63 }
    requires same { is_touched (since now.now.mark now.now.stamps.now) index ≡ false
        → page_of (piece_of before.now index) ≡ page_of (piece_of now.now.bytes.now index) }
    ensures { OnOk result (pages.new.items ≡ pages.old.items
        ++ changed_page number (page_of (piece_of before.now index)) (page_of (piece_of now.now.bytes.now index))) }
{
    if !is_touched(now.stamps, now.mark, index) {
        return Ok(());
    }
    push_piece(pages, piece(before, index), piece(now.bytes, index), number)
}

/// How many pages the longer of two files has.
fn longer(main: &[u8], side: &[u8]) -> usize
    ensures value { result ≡ max (pages_in main.now) (pages_in side.now) }
    ensures small { result ≤ 2 ^ 52 }
{
    main.len()
        .div_ceil(PAGE_SIZE)
        .max(side.len().div_ceil(PAGE_SIZE))
}

/// Adds a page of this number where the bytes that a file has of it are others than before.
fn push_piece(
    pages: &mut Vec<NumberedPage>,
    before: &[u8],
    now: &[u8],
    number: u64,
) -> Result<(), AllocError>
    requires before { length before.now ≤ 4096 }
    requires now { length now.now ≤ 4096 }
    ensures { OnOk result (pages.new.items ≡ pages.old.items ++ changed_page number (page_of before.now) (page_of now.now)) }
{
    if is_same(before, now) {
        return Ok(());
    }
    if before.len() == now.len() {
        return push_new(pages, now, number);
    }
    push_page(pages, before, now, number)
}

/// Adds a page that there wasn't before. A function pays at entry for its locals, and these hold a page.
fn push_new(pages: &mut Vec<NumberedPage>, now: &[u8], number: u64) -> Result<(), AllocError>
    requires { length now.now ≤ 4096 }
    ensures { OnOk result (pages.new.items ≡ pages.old.items ++ changed_page number None (page_of now.now)) }
{
    if !now.is_empty() {
        pages.push(NumberedPage {
            number,
            page: Page::padded(now),
        })?;
    }
    Ok(())
}

/// Adds a page of this number if it differs, also if its file got longer or shorter within the page. The locals hold two pages.
fn push_page(
    pages: &mut Vec<NumberedPage>,
    before: &[u8],
    now: &[u8],
    number: u64,
) -> Result<(), AllocError>
    requires before { length before.now ≤ 4096 }
    requires now { length now.now ≤ 4096 }
    ensures { OnOk result (pages.new.items ≡ pages.old.items ++ changed_page number (page_of before.now) (page_of now.now)) }
{
    let old = page_of(before);
    if let Some(page) = page_of(now)
        && differs(&old, &page)
    {
        pages.push(NumberedPage { number, page })?;
    }
    Ok(())
}

/// The page of these bytes, the first of it, with zeros after them; none if there are no bytes.
fn page_of(bytes: &[u8]) -> Option<Page>
    requires { length bytes.now ≤ 4096 }
    ensures { result ≡ page_of bytes.now }
{
    match bytes {
        [] => None,
        [_, ..] => Some(Page::padded(bytes)),
    }
}

fn is_same(a: &[u8], b: &[u8]) -> bool
    ensures same { IsTrue result → a.now ≡ b.now }
    ensures other { result ≡ false → a.now ≡ b.now → ⊥ }
{
    a == b
}

/// The bytes of a page that a file has.
fn piece(file: &[u8], page: usize) -> &[u8]
    requires { page * 4096 ≤ 2 ^ 63 }
    ensures bytes { result.now ≡ piece_of file.now page }
    ensures short { length result.now ≤ 4096 }
{
    let start = page * PAGE_SIZE;
    if start >= file.len() {
        return &[];
    }
    let rest = &file[start..];
    &rest[..rest.len().min(PAGE_SIZE)]
}
