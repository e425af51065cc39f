use dq_base::{
    Bytes, Image, Items, Lengths, Name, NumberedPage, PAGE_SIZE, Page, PageFault, PageSet, apply,
    apply_pages, page_at, page_count, stated_lengths,
};
use std::alloc::{AllocError, Global};
use std::test::Fail;

/// The bytes of an empty page.
fn zeroed_bytes() -> [u8; PAGE_SIZE] {
    [0; PAGE_SIZE]
}

fn filled_file(alloc: Global, len: usize, byte: u8) -> Result<Bytes, AllocError> {
    Ok(Items::new(vec![in alloc; byte; len]?))
}

/// A copy of an image whose main file is this many bytes 7, and the side file this many bytes 9.
fn image_of(alloc: Global, main: usize, side: usize) -> Result<Image, AllocError> {
    let main = filled_file(alloc, main, 7)?;
    let side = filled_file(alloc, side, 9)?;
    Image { main, side }.try_clone(alloc)
}

/// A page that begins with two numbers of eight bytes, and has one byte after them.
fn page_of(main: u64, side: u64, after: u8) -> Page {
    let mut bytes = zeroed_bytes();
    bytes[..8].copy_from_slice(&main.to_le_bytes());
    bytes[8..16].copy_from_slice(&side.to_le_bytes());
    bytes[16] = after;
    Page::new(bytes)
}

fn numbered(number: u64, page: Page) -> NumberedPage {
    NumberedPage { number, page }
}

/// The first three bytes of a page.
fn front_of(image: &Image, number: u64) -> Option<[u8; 3]> {
    let page = page_at(image, number)?;
    let bytes = page.bytes();
    Some([bytes[0], bytes[1], bytes[2]])
}

/// A set of these pages, each filled with its byte, and then a sizes page.
fn set_of(alloc: Global, pages: &[(u64, u8)], main: u64, side: u64) -> Result<PageSet, AllocError> {
    let mut all = Vec::new(alloc);
    for (number, byte) in pages {
        all.push(numbered(*number, Page::new([*byte; PAGE_SIZE])))?;
    }
    all.push(numbered(1, page_of(main, side, 0)))?;
    Ok(PageSet {
        tx: 1,
        pages: Items::new(all),
    })
}

/// What applying a set to a small image answers, and whether the image stayed.
fn fault_of(alloc: Global, set: &PageSet) -> Result<(Result<(), PageFault>, bool), AllocError> {
    let mut image = image_of(alloc, 3, 1)?;
    let answer = apply(&mut image, set);
    let kept = image.main.as_slice() == [7, 7, 7].as_slice()
        && image.side.as_slice() == [9].as_slice();
    Ok((answer, kept))
}

/// A copy of the text's name, if it is one.
fn copied_name(alloc: Global, text: String) -> Result<Option<Name>, AllocError> {
    let Some(name) = Name::new(text) else {
        return Ok(None);
    };
    Ok(Some(name.try_clone(alloc)?))
}

const PAGES: &[(u64, Option<[u8; 3]>)] = &[
    (0, None),
    // The length of the main file, whose lowest byte comes first.
    (1, Some([0x01, 0x10, 0])),
    (2, Some([7, 7, 7])),
    (3, Some([9, 9, 0])),
    (4, Some([7, 0, 0])),
    (5, None),
    (6, None),
    (u64::MAX, None),
];

#[test]
fn images_have_pages(rt: HostRuntime) -> Result<(), Fail> {
    // The main file fills a page and has a byte more; the side file has two bytes.
    let image = image_of(rt.alloc(), 4097, 2)?;
    assert_eq!(rt; page_count(&image), 4);
    for &(number, front) in PAGES {
        assert_eq!(rt; front_of(&image, number), front, "page {number}");
    }
    Ok(())
}

#[test]
fn sets_are_applied(rt: HostRuntime) -> Result<(), Fail> {
    let mut image = Image::new(rt.alloc());
    let set = set_of(rt.alloc(), &[(2, 0xaa), (4, 0xbb)], 4098, 3)?;
    for answer in [
        apply(&mut image, &set),
        apply_pages(&mut image, set.pages.as_slice()),
    ] {
        assert_eq!(rt; answer, Ok(()));
    }
    assert_eq!(rt; apply_pages(&mut image, &[]), Err(PageFault::NoSizes));
    for (number, front) in [
        (2, Some([0xaa, 0xaa, 0xaa])),
        (3, Some([0, 0, 0])),
        (4, Some([0xbb, 0xbb, 0])),
        (5, None),
    ] {
        assert_eq!(rt; front_of(&image, number), front, "page {number}");
    }
    Ok(())
}

#[test]
fn faults_leave_the_image(rt: HostRuntime) -> Result<(), Fail> {
    let alloc = rt.alloc();
    let cases = [
        ([2, 0], 67_108_865, 0, PageFault::NoSizes),
        ([2, 0], 0, 67_108_865, PageFault::NoSizes),
        ([2, 0], 67_108_864, 67_108_864, PageFault::Order(0)),
        ([2, 1], 4096, 0, PageFault::Order(1)),
        ([2, 2], 4096, 0, PageFault::Order(2)),
        ([6, 4], 0, 0, PageFault::Order(4)),
        ([2, 4], 4096, 0, PageFault::NotInLength(4)),
        ([2, 5], 4096, 4096, PageFault::NotInLength(5)),
        ([2, u64::MAX], 4096, 4096, PageFault::NotInLength(u64::MAX)),
    ];
    for ([first, second], main, side, fault) in cases {
        let set = set_of(alloc, &[(first, 0), (second, 0)], main, side)?;
        let (answer, kept) = fault_of(alloc, &set)?;
        assert_eq!(rt; answer, Err(fault), "pages {first} and {second}");
        assert!(rt; kept, "pages {first} and {second}");
    }
    Ok(())
}

#[test]
fn sizes_pages_state_lengths(rt: HostRuntime) {
    let lengths = Lengths { main: 3, side: 4 };
    for (number, after, stated) in [(1, 0, Some(lengths)), (2, 0, None), (1, 1, None)] {
        let page = numbered(number, page_of(3, 4, after));
        assert_eq!(rt; stated_lengths(&page), stated, "page {number}");
    }
}

const NAMES: &[(&str, usize, bool)] = &[
    ("", 1, false),
    ("x", 1, true),
    ("x", 255, true),
    ("x", 256, false),
    ("\0", 1, false),
    ("a\0b", 1, false),
    ("é", 1, true),
];

#[test]
fn names_are_short_texts(rt: HostRuntime) -> Result<(), Fail> {
    let alloc = rt.alloc();
    for &(text, times, is_name) in NAMES {
        let name = copied_name(alloc, text.repeat(alloc, times)?)?;
        assert_eq!(rt; name.is_some(), is_name, "{times} times {text:?}");
    }
    Ok(())
}

const FAULTS: &[(PageFault, &str)] = &[
    (PageFault::NoSizes, "the last page is no sizes page"),
    (PageFault::Order(7), "page 7 is out of order"),
    (
        PageFault::NotInLength(8),
        "page 8 lies past the stated end of its file",
    ),
    (PageFault::NoMemory, "out of memory"),
];

#[test]
fn faults_say_why(rt: HostRuntime) -> Result<(), Fail> {
    for &(fault, text) in FAULTS {
        assert_eq!(rt; fault.to_string(rt.alloc())?.as_str(), text);
    }
    Ok(())
}
