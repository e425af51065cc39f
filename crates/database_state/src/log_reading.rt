//! Reading the logs of a snapshot.

ghost use Rattle.std.specs.Prelude.{◌≡◌, ◌==◌, true, length, bytes_eq, IfOk, OnOk};
ghost use Rattle.page_store.specs.Store.{fresh_store, newest_image};
ghost use Rattle.log_commands.specs.Numbers.{AreLow};
ghost use Rattle.log_commands.specs.Spelling.{HaveSizes};
ghost use Rattle.wal_frames.specs.Text.{written_header};
ghost use Rattle.wal_frames.specs.Valid.{TookAll, NoneMatches};
ghost use Rattle.database_state.specs.Logs.{IsShort, image_log, pending_log};
ghost use Rattle.database_state.specs.Restoring.{Gives, pages_of, log_pages, image_of, log_image, log_pending, TookPages};

use crate::fault::SnapFault;
use crate::logs::{put_image_log, put_pending_log};
use dq_base::{Image, NumberedPage, apply_pages};
use page_store::PageStore;
use std::alloc::{AllocError, Global};
use wal_frames::{WalHeader, WalReader};

/// The pages of the frames that a reader has left.
fn pages_left(alloc: Global, reader: &mut WalReader<'_>) -> Result<Vec<NumberedPage>, AllocError>
    ensures took { IfOk result (λ pages. TookPages reader.old pages.items reader.new) }
    ensures none { OnOk result (NoneMatches reader.new) }
{
    let mut pages = Vec::new(alloc);
    'frames: while let Some(frame) = reader.next_frame() {
        let frame = frame.to_frame();
        pages.push(NumberedPage {
            number: u64::from(frame.number),
            page: frame.page,
        })?;
    }
    Ok(pages)
}

/// Whether a header is the one that is written with the sequence number 0.
fn is_written(header: WalHeader) -> bool
    ensures sound { result ≡ true → header ≡ written_header 0 }
    ensures complete { header ≡ written_header 0 → result ≡ true }
{
    header == WalHeader::written(0)
}

/// Whether a reader has nothing left.
fn is_at_end(reader: &WalReader<'_>) -> bool
    ensures { result ≡ (length reader.now.rest == 0) }
{
    reader.rest().is_empty()
}

/// The pages of a log that begins at a place, which is written so of its frames, with the sequence number 0.
#[tactic(auto, unfolding(crate::specs::Restoring::log_pages))]
fn pages_of_log(alloc: Global, at: u64, log: &[u8]) -> Result<Vec<NumberedPage>, SnapFault>
    ensures exact { Gives (λ pages. pages.items) (log_pages at log.now) result }
    ensures low { IfOk result (λ pages. AreLow pages.items) }
    ensures sizes { IfOk result (λ pages. HaveSizes pages.items) }
{
    let mut reader = WalReader::new(log)?;
    let header = reader.header();
    let pages = pages_left(alloc, &mut reader)?;
    if !is_written(header) {
        return Err(SnapFault::Order(at));
    }
    if !is_at_end(&reader) {
        return Err(SnapFault::Order(at));
    }
    Ok(pages)
}

/// Two empty files after these pages.
fn store_of(alloc: Global, pages: &[NumberedPage]) -> Result<PageStore, SnapFault>
    requires { HaveSizes pages.now }
    ensures exact { Gives (λ store. newest_image store) (image_of pages.now) result }
    ensures fresh { IfOk result (λ store. store ≡ fresh_store (newest_image store)) }
    ensures short { IfOk result (λ store. IsShort (newest_image store)) }
{
    let mut image = Image::new(alloc);
    apply_pages(&mut image, pages)?;
    Ok(PageStore::from_image(alloc, image))
}

/// Whether a log is that of an image. Writes the log of the image once more.
fn is_image_log(alloc: Global, store: &PageStore, log: &[u8]) -> Result<bool, AllocError>
    requires { IsShort (newest_image store.now) }
    ensures { IfOk result (λ same. same ≡ bytes_eq log.now (image_log (newest_image store.now))) }
{
    let mut written = Vec::with_capacity(alloc, log.len())?;
    put_image_log(&mut written, store)?;
    Ok(log == written.as_slice())
}

/// Whether a log is that of pending pages. Writes their log once more.
fn is_pending_log(alloc: Global, pages: &[NumberedPage], log: &[u8]) -> Result<bool, AllocError>
    requires { AreLow pages.now }
    ensures { IfOk result (λ same. same ≡ bytes_eq log.now (pending_log pages.now)) }
{
    let mut written = Vec::with_capacity(alloc, log.len())?;
    put_pending_log(&mut written, pages)?;
    Ok(log == written.as_slice())
}

/// A store over the image of a log that begins at a place.
#[tactic(auto, unfolding(crate::specs::Restoring::log_image))]
pub(crate) fn image_of_log(alloc: Global, at: u64, log: &[u8]) -> Result<PageStore, SnapFault>
    ensures exact { Gives (λ store. newest_image store) (log_image at log.now) result }
    ensures fresh { IfOk result (λ store. store ≡ fresh_store (newest_image store)) }
{
    let pages = pages_of_log(alloc, at, log)?;
    let store = store_of(alloc, pages.as_slice())?;
    if !is_image_log(alloc, &store, log)? {
        return Err(SnapFault::Order(at));
    }
    Ok(store)
}

/// The pending pages of a log that begins at a place.
#[tactic(auto, unfolding(crate::specs::Restoring::log_pending))]
pub(crate) fn pending_of_log(
    alloc: Global,
    at: u64,
    log: &[u8],
) -> Result<Vec<NumberedPage>, SnapFault>
    ensures { Gives (λ pages. pages.items) (log_pending at log.now) result }
{
    let pages = pages_of_log(alloc, at, log)?;
    if !is_pending_log(alloc, pages.as_slice(), log)? {
        return Err(SnapFault::Order(at));
    }
    Ok(pages)
}
