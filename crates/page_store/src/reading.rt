ghost use Rattle.std.specs.Prelude.{◌≡◌, ℕ, ◌-◌, ◌%◌, ◌<◌, ◌≤◌, ◌==◌, if◌then◌else◌, length, take, drop, min, IfOk, slice_index_or};
ghost use Rattle.dq_base.specs.Images.{resized, page_start, page_from, page_at, page_count};
ghost use Rattle.page_store.specs.Laying.{laid, IsLeast};
ghost use Rattle.page_store.specs.Log.{laid_image, PageOfFrame, PageOfBase};

use crate::files::{lay, length_of, make_room_for};
use crate::frame_log::FrameLog;
use dq_base::{Bytes, Image, Lengths, PAGE_SIZE, Page, sizes_page, start_within};
use std::alloc::{AllocError, Global};

/// The page of a number in the image that the first frames of a log make of a base.
pub(crate) fn page_under(
    main: &[u8],
    side: &[u8],
    log: &FrameLog,
    count: usize,
    number: u64,
) -> Option<Page>
    requires { count ≤ length log.now.pages }
    ensures { result ≡ page_at (laid_image log.now count main.now side.now) number }
{
    let lengths = lengths_under(main, side, log, count);
    if number == 1 {
        return Some(sizes_page(lengths));
    }
    if number == 0 {
        return None;
    }
    match start_within(number, length_of(lengths, number % 2)) {
        Some(start) => Some(page_from_start(main, side, log, count, number, start)),
        None => None,
    }
}

/// How many pages the image has that the first frames of a log make of a base.
pub(crate) fn page_count_under(main: &[u8], side: &[u8], log: &FrameLog, count: usize) -> u64
    requires { count ≤ length log.now.pages }
    ensures { result ≡ page_count (laid_image log.now count main.now side.now) }
{
    let lengths = lengths_under(main, side, log, count);
    1 + lengths.main.div_ceil(PAGE_SIZE) as u64 + lengths.side.div_ceil(PAGE_SIZE) as u64
}

/// The lengths of both files after the first frames of a log.
pub(crate) fn lengths_under(main: &[u8], side: &[u8], log: &FrameLog, count: usize) -> Lengths
    requires { count ≤ length log.now.pages }
    ensures main { result.main ≡ length (laid 0 (take count log.now.pages) (take count log.now.lengths) main.now) }
    ensures side { result.side ≡ length (laid 1 (take count log.now.pages) (take count log.now.lengths) side.now) }
{
    let _len = log.len();
    if count == 0 {
        return Lengths {
            main: main.len(),
            side: side.len(),
        };
    }
    log.lengths(count - 1)
}

/// The bytes of a page of either file, which begins at this place, after the first frames of a log.
fn page_from_start(
    main: &[u8],
    side: &[u8],
    log: &FrameLog,
    count: usize,
    number: u64,
    start: usize,
) -> Page
    requires within { count ≤ length log.now.pages }
    requires above { 1 < number }
    requires place { start ≡ page_start number }
    ensures { result ≡ page_from (if number % 2 == 0 then (laid_image log.now count main.now side.now).main else (laid_image log.now count main.now side.now).side) start }
{
    if number % 2 == 0 {
        page_of_file(main, log, count, number, start)
    } else {
        page_of_file(side, log, count, number, start)
    }
}

/// The bytes of a page of one file after the first frames of a log: those of the last frame of the page, or of the base
/// without one, as far as no later set cut the file, and then zeros.
fn page_of_file(file: &[u8], log: &FrameLog, count: usize, number: u64, start: usize) -> Page
    requires within { count ≤ length log.now.pages }
    requires above { 1 < number }
    requires place { start ≡ page_start number }
    ensures { result ≡ page_from (laid (number % 2) (take count log.now.pages) (take count log.now.lengths) file.now) start }
{
    let _len = log.len();
    match log.last_at(number, count as u64) {
        Some(frame) => page_of_frame(log, frame as usize - 1, count, number % 2, start),
        None => page_of_base(file, log, count, number % 2, start),
    }
}

/// The bytes of a frame's page, as far as no later set cut the file.
fn page_of_frame(log: &FrameLog, frame: usize, count: usize, parity: u64, start: usize) -> Page
    requires order { frame < count }
    requires within { count ≤ length log.now.lengths }
    requires pages { frame < length log.now.pages }
    ensures { PageOfFrame log.now frame count parity start result }
{
    let page = log.page(frame);
    let least = length_of(log.least(frame, count - 1), parity);
    let kept = least.saturating_sub(start).min(PAGE_SIZE);
    Page::padded(&page.page.bytes()[..kept])
}

/// The bytes of a page of the base, as far as no set cut the file.
fn page_of_base(file: &[u8], log: &FrameLog, count: usize, parity: u64, start: usize) -> Page
    requires { count ≤ length log.now.lengths }
    ensures { PageOfBase log.now file.now count parity start result }
{
    let end = end_of_base(file, log, count, parity);
    let begin = start.min(end);
    Page::padded(&file[begin..begin + PAGE_SIZE.min(end - begin)])
}

/// How much of a file of the base no set cut.
fn end_of_base(file: &[u8], log: &FrameLog, count: usize, parity: u64) -> usize
    requires { count ≤ length log.now.lengths }
    ensures within { result ≤ length file.now }
    ensures none { count ≡ 0 → result ≡ length file.now }
    ensures least { 0 < count → ((least : ℕ) × IsLeast parity log.now.lengths 0 (count - 1) least × (result ≡ min (length file.now) least)) }
{
    if count == 0 {
        return file.len();
    }
    file.len().min(length_of(log.least(0, count - 1), parity))
}

/// The image that the first frames of a log make of a base.
pub(crate) fn image_under(
    alloc: Global,
    main: &[u8],
    side: &[u8],
    log: &FrameLog,
    count: usize,
) -> Result<Image, AllocError>
    requires { count ≤ length log.now.pages }
    ensures { IfOk result (λ image. image ≡ laid_image log.now count main.now side.now) }
{
    Ok(Image {
        main: file_under(alloc, main, log, count, 0)?,
        side: file_under(alloc, side, log, count, 1)?,
    })
}

/// One file after the first frames of a log.
fn file_under(
    alloc: Global,
    file: &[u8],
    log: &FrameLog,
    count: usize,
    parity: u64,
) -> Result<Bytes, AllocError>
    requires { count ≤ length log.now.pages }
    ensures { IfOk result (λ bytes. bytes ≡ laid parity (take count log.now.pages) (take count log.now.lengths) file.now) }
{
    let mut copy = Vec::from_slice(alloc, file)?;
    make_room_for(&mut copy, log, count, parity)?;
    lay(&mut copy, log, count, parity);
    Ok(Bytes::new(copy))
}
