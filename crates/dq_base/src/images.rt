ghost use Rattle.std.specs.Prelude.{◌≡◌, ◌<◌, ◌^◌, [], length, IfOk};
ghost use Rattle.dq_base.specs.Images.{page_at, page_count, pages_in, file_of, lengths_of, sizes_page, page_from};
ghost use Rattle.dq_base.specs.Changes.{sizes_of};

use crate::items::Bytes;
use crate::page_numbers::start_within;
use crate::pages::{NumberedPage, PAGE_SIZE, Page, zeroed_bytes};
use crate::sizes::Lengths;
use byteorder::{ByteOrder, LittleEndian};
use std::alloc::{AllocError, Global};

/// The pair of files that `sqlite` keeps for one database.
#[derive(Debug, Drop)]
pub struct Image {
    /// The main file.
    pub main: Bytes,
    /// The file next to it.
    pub side: Bytes,
}

impl Image {
    /// Two empty files.
    pub fn new(alloc: Global) -> Image
        ensures main { result.main ≡ [] }
        ensures side { result.side ≡ [] }
    {
        Image {
            main: Bytes::new(Vec::new(alloc)),
            side: Bytes::new(Vec::new(alloc)),
        }
    }

    /// A copy of both files. Fails where memory runs out.
    pub fn try_clone(&self, alloc: Global) -> Result<Image, AllocError>
        ensures { IfOk result (λ copy. copy ≡ self.now) }
    {
        let main = Vec::from_slice(alloc, self.main.as_slice())?;
        let side = Vec::from_slice(alloc, self.side.as_slice())?;
        Ok(Image {
            main: Bytes::new(main),
            side: Bytes::new(side),
        })
    }
}

/// The page of a number, a last page that its file only partly fills with zeros to its end; `None` exactly if the
/// image doesn't have the page. Page 1 is the sizes page and always exists.
pub fn page_at(image: &Image, number: u64) -> Option<Page>
    ensures { result ≡ page_at image.now number }
{
    if number == 1 {
        return Some(sizes_page(lengths_of(image)));
    }
    if number == 0 {
        return None;
    }
    let file = file_of(image, number);
    match start_within(number, file.len()) {
        Some(start) => Some(page_from(file, start)),
        None => None,
    }
}

/// The file that the page of a number lies in.
fn file_of(image: &Image, number: u64) -> &[u8]
    ensures { result.now ≡ file_of image.now number }
{
    if number % 2 == 0 {
        image.main.as_slice()
    } else {
        image.side.as_slice()
    }
}

/// How many pages an image has, the sizes page included.
pub fn page_count(image: &Image) -> u64
    ensures { result ≡ page_count image.now }
{
    1 + pages_in(image.main.as_slice()) + pages_in(image.side.as_slice())
}

fn pages_in(file: &[u8]) -> u64
    ensures { result ≡ pages_in file.now }
{
    file.len().div_ceil(PAGE_SIZE) as u64
}

/// The lengths of an image's files, in bytes.
pub fn lengths_of(image: &Image) -> Lengths
    ensures lengths { result ≡ lengths_of image.now }
    ensures main_fits { length image.now.main < 2 ^ 64 }
    ensures side_fits { length image.now.side < 2 ^ 64 }
{
    Lengths {
        main: image.main.len(),
        side: image.side.len(),
    }
}

/// The sizes page of files with these lengths: both in eight bytes, little-endian, and zeros after them.
pub fn sizes_page(lengths: Lengths) -> Page
    ensures { result ≡ sizes_page lengths.main lengths.side }
{
    let mut bytes = zeroed_bytes();
    LittleEndian::write_u64(&mut bytes, lengths.main as u64);
    LittleEndian::write_u64(&mut bytes[8..], lengths.side as u64);
    Page::new(bytes)
}

/// The sizes page of an image, with its number 1.
pub fn sizes_of(image: &Image) -> NumberedPage
    ensures { result ≡ sizes_of image.now }
{
    NumberedPage {
        number: 1,
        page: sizes_page(lengths_of(image)),
    }
}

/// The page that begins at a byte of a file.
fn page_from(file: &[u8], start: usize) -> Page
    requires { start < length file.now }
    ensures { result ≡ page_from file.now start }
{
    let mut bytes = zeroed_bytes();
    let rest = &file[start..];
    let count = PAGE_SIZE.min(rest.len());
    bytes[..count].copy_from_slice(&rest[..count]);
    Page::new(bytes)
}
