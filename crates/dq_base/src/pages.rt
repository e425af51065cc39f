ghost use Rattle.std.specs.Prelude.{◌≡◌, ◌≤◌, length};
ghost use Rattle.dq_base.specs.Images.{zeros, resized};

use crate::items::Items;
use std::marker::Model;

/// The bytes of a page.
pub const PAGE_SIZE: usize = 4096;

/// A page: 4,096 bytes, held by value. Contracts see it as their list.
#[derive(Clone, Copy, Debug, PartialEq, Eq)]
pub struct Page {
    bytes: [u8; PAGE_SIZE],
}

impl Model for Page {
    ghost use Rattle.std.specs.Prelude.{List, ℕ};

    ghost Value = { List ℕ };

    ghost view = { λ a. a.bytes };

    ghost inverse = { λ d. record { bytes = d } };
}

impl Page {
    /// A page of these bytes.
    pub fn new(bytes: [u8; PAGE_SIZE]) -> Page
        ensures { result ≡ bytes }
    {
        Page { bytes }
    }

    /// A page of zeros.
    pub fn zeroed() -> Page
        ensures { result ≡ zeros 4096 }
    {
        Page {
            bytes: zeroed_bytes(),
        }
    }

    /// A copy of these bytes, which have to be 4,096, as a page.
    pub fn from_slice(bytes: &[u8]) -> Page
        requires { length bytes.now ≡ 4096 }
        ensures { result ≡ bytes.now }
    {
        let mut page = zeroed_bytes();
        page.copy_from_slice(bytes);
        Page { bytes: page }
    }

    /// A page with a copy of these bytes first, of which there are at most 4,096, and zeros after them.
    pub fn padded(bytes: &[u8]) -> Page
        requires { length bytes.now ≤ 4096 }
        ensures { result ≡ resized 4096 bytes.now }
    {
        let mut page = zeroed_bytes();
        page[..bytes.len()].copy_from_slice(bytes);
        Page { bytes: page }
    }

    /// The 4,096 bytes, borrowed.
    pub fn bytes(&self) -> &[u8]
        ensures value { result.now ≡ self.now }
        ensures size { length self.now ≡ 4096 }
    {
        &self.bytes
    }
}

/// The bytes of a page of zeros.
#[tactic(auto, unfolding(crate::specs::Images::zeros))]
pub(crate) fn zeroed_bytes() -> [u8; PAGE_SIZE]
    ensures { result ≡ zeros 4096 }
{
    [0; PAGE_SIZE]
}

/// A page with its number in an image.
#[derive(Clone, Copy, Debug, PartialEq, Eq)]
pub struct NumberedPage {
    /// Page 1 is the sizes page; `2k` is page `k` of the main file and `2k + 1` page `k` of the side file, from `k = 1`.
    pub number: u64,
    /// The page's bytes.
    pub page: Page,
}

/// Pages that one transaction changed. To be applied their numbers have to ascend, and the sizes page to be last.
#[derive(Debug, Drop)]
pub struct PageSet {
    /// The number of the transaction.
    pub tx: u64,
    /// The changed pages.
    pub pages: Items<NumberedPage>,
}
