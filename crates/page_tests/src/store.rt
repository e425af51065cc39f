ghost use Rattle.page_store.specs.Store.{IsLive};

use dq_base::{Bytes, Image, Items, NumberedPage, PageSet, page_at};
use page_store::*;
use std::alloc::{AllocError, Global};
use std::test::Fail;

/// The set of pages 2, 3 and 1 of an image with one page in each file, all bytes of the main file being this one.
fn set_of(alloc: Global, byte: u8) -> Result<PageSet, AllocError> {
    let image = Image {
        main: Bytes::new(vec![in alloc; byte; 4096]?),
        side: Bytes::new(vec![in alloc; 0; 4096]?),
    };
    let mut pages = Vec::new(alloc);
    for number in [2, 3, 1] {
        if let Some(page) = page_at(&image, number) {
            pages.push(NumberedPage { number, page })?;
        }
    }
    Ok(PageSet {
        tx: 1,
        pages: Items::new(pages),
    })
}

fn first_byte(store: &PageStore, pin: &MarkId) -> Option<u8>
    requires { IsLive store.now pin.now }
{
    match store.page_under(pin, 2) {
        Some(page) => page.bytes().first().copied(),
        None => None,
    }
}

fn first_of(image: Result<Image, AllocError>) -> Option<u8> {
    match image {
        Ok(image) => image.main.as_slice().first().copied(),
        Err(_) => None,
    }
}

/// What two checkpoints answer while a pin is live, what it reads then, and what one answers after its release.
fn moves(store: &mut PageStore, pin: MarkId) -> (u64, u64, Option<u8>, Option<u8>, u64)
    requires { IsLive store.old pin }
{
    let first = store.checkpoint();
    let again = store.checkpoint();
    let byte = first_byte(store, &pin);
    let image = first_of(store.image_at(&pin));
    store.release(pin);
    (first, again, byte, image, store.checkpoint())
}

/// What `moves` answers around a pin, after which a set is committed.
fn moves_around_a_pin(
    store: &mut PageStore,
    set: &PageSet,
) -> Option<(u64, u64, Option<u8>, Option<u8>, u64)> {
    let Ok(pin) = store.pin() else {
        return None;
    };
    let _ = store.commit(set);
    Some(moves(store, pin))
}

#[test]
fn a_pin_reads_on_while_checkpoints_move_frames(rt: HostRuntime) -> Result<(), Fail> {
    let alloc = rt.alloc();
    let first = set_of(alloc, 7)?;
    let second = set_of(alloc, 8)?;
    let mut store = PageStore::from_image(alloc, Image::new(alloc));
    assert_eq!(rt; store.commit(&first).ok(), Some(1));
    assert_eq!(rt;
        moves_around_a_pin(&mut store, &second),
        Some((3, 0, Some(7), Some(7), 3))
    );
    assert_eq!(rt; store.newest(), 2);
    assert_eq!(rt; first_of(store.newest_image()), Some(8));
    Ok(())
}

#[test]
fn the_65th_live_pin_is_full(rt: HostRuntime) {
    let alloc = rt.alloc();
    let mut store = PageStore::from_image(alloc, Image::new(alloc));
    for _ in 0..63 {
        let _ = store.pin();
    }
    assert!(rt; store.pin().is_ok());
    assert_eq!(rt; store.pin().err(), Some(MarkFault::Full(64)));
}

/// The first byte of the newest image as it is lent.
fn lent_byte(store: &PageStore) -> Option<u8> {
    match store.newest_shared() {
        Ok(image) => image.main.as_slice().first().copied(),
        Err(_) => None,
    }
}

/// The bytes that a lent image and the newest one begin with, after a commit while the former is held.
fn after_a_commit(store: &mut PageStore, set: &PageSet) -> (Option<u8>, Option<u8>) {
    let Ok(held) = store.newest_shared() else {
        return (None, None);
    };
    let _ = store.commit(set);
    (held.main.as_slice().first().copied(), lent_byte(store))
}

#[test]
fn a_lent_image_stays_and_the_next_one_is_newer(rt: HostRuntime) -> Result<(), Fail> {
    let alloc = rt.alloc();
    let mut store = PageStore::from_image(alloc, Image::new(alloc));
    assert_eq!(rt; store.commit(&set_of(alloc, 7)?).ok(), Some(1));
    store.keep_newest();
    assert_eq!(rt;
        after_a_commit(&mut store, &set_of(alloc, 8)?),
        (Some(7), Some(8))
    );
    assert_eq!(rt; store.commit(&set_of(alloc, 9)?).ok(), Some(3));
    assert_eq!(rt; store.checkpoint(), 9);
    assert_eq!(rt; lent_byte(&store), Some(9));
    Ok(())
}
