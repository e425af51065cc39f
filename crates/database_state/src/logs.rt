//! Writing the logs of a snapshot.

ghost use Rattle.std.specs.Prelude.{◌≡◌, ◌<◌, ◌+◌, ◌^◌, ◌++◌, length, OnOk};
ghost use Rattle.dq_base.specs.Changes.{numbers_above_one};
ghost use Rattle.dq_base.specs.Images.{page_at};
ghost use Rattle.log_commands.specs.Numbers.{AreLow};
ghost use Rattle.log_commands.specs.Spelling.{HaveSizes};
ghost use Rattle.page_store.specs.Store.{newest_image};
ghost use Rattle.database_state.specs.Logs.{IsShort, listed, pages_from, plain_frames, image_log, pending_log, Continues};

use dq_base::{NumberedPage, PAGE_SIZE};
use page_store::PageStore;
use std::alloc::AllocError;
use wal_frames::{WalWriter, wal_length};

/// How many numbers there are from 2 up to the highest that a page of the newest image has.
fn numbers_above_one(store: &PageStore) -> usize
    requires { IsShort (newest_image store.now) }
    ensures { result ≡ numbers_above_one (newest_image store.now) }
{
    let lengths = store.lengths();
    let main = lengths.main.div_ceil(PAGE_SIZE);
    let side = lengths.side.div_ceil(PAGE_SIZE);
    2 * main.max(side)
}

/// Appends the page of a number, if the newest image has one.
fn put_page(
    out: &mut Vec<u8>,
    writer: &mut WalWriter,
    store: &PageStore,
    number: usize,
) -> Result<(), AllocError>
    requires { number < 2 ^ 32 }
    ensures { OnOk result (Continues (plain_frames (listed number (page_at (newest_image store.now) number))) out.old.items writer.old out.new.items writer.new) }
{
    match store.newest_page(number as u64) {
        Some(page) => writer.frame(out, number as u32, 0, &page),
        None => Ok(()),
    }
}

/// Appends the pages of this many numbers from 2 on, if the newest image has them.
fn put_pages_above_one(
    out: &mut Vec<u8>,
    writer: &mut WalWriter,
    store: &PageStore,
    count: usize,
) -> Result<(), AllocError>
    requires { count + 2 < 2 ^ 32 }
    ensures { OnOk result (Continues (plain_frames (pages_from 2 count (newest_image store.now))) out.old.items writer.old out.new.items writer.new) }
{
    for number in 2..count + 2 {
        put_page(out, writer, store, number)?;
    }
    Ok(())
}

/// Appends the log of the newest image: all its pages, ascending, and then the sizes page with the page count as its commit
/// size.
pub(crate) fn put_image_log(out: &mut Vec<u8>, store: &PageStore) -> Result<(), AllocError>
    requires { IsShort (newest_image store.now) }
    ensures { OnOk result (out.new.items ≡ out.old.items ++ image_log (newest_image store.now)) }
{
    let mut writer = WalWriter::begin(out, 0)?;
    put_pages_above_one(out, &mut writer, store, numbers_above_one(store))?;
    let sizes = store.newest_page(1).unwrap();
    writer.frame(out, 1, store.page_count() as u32, &sizes)
}

/// How many bytes the log of the newest image has.
pub(crate) fn image_log_length(store: &PageStore) -> usize
    requires { IsShort (newest_image store.now) }
    ensures { result ≡ length (image_log (newest_image store.now)) }
{
    wal_length(store.page_count() as usize)
}

/// Appends the log of pending pages, in their order.
pub(crate) fn put_pending_log(out: &mut Vec<u8>, pages: &[NumberedPage]) -> Result<(), AllocError>
    requires { AreLow pages.now }
    ensures log { OnOk result (out.new.items ≡ out.old.items ++ pending_log pages.now) }
    ensures sizes { OnOk result (HaveSizes pages.now) }
{
    let mut writer = WalWriter::begin(out, 0)?;
    for page in pages {
        let _bytes = page.page.bytes();
        writer.frame(out, page.number as u32, 0, &page.page)?;
    }
    Ok(())
}
