ghost use Rattle.std.specs.Prelude.{◌≡◌, ◌++◌, length};
ghost use Rattle.wal_frames.specs.Text.{frame_sums};
ghost use Rattle.wal_frames.specs.Lent.{owned};

use crate::checksums::checksum;
use crate::header::WalHeader;
use crate::words::pair;
use dq_base::Page;

/// How long a frame is, in bytes: 24 and a page.
pub(crate) const FRAME_LENGTH: usize = 4120;

/// A frame of a log: a page, its number, and whether it ends a transaction.
#[derive(Clone, Copy, Debug, PartialEq, Eq)]
pub struct Frame {
    /// The number of the page.
    pub number: u32,
    /// The size of the database in pages after a transaction that this frame ends, else 0.
    pub commit: u32,
    /// The page's bytes.
    pub page: Page,
}

/// A frame whose page is borrowed.
#[derive(Clone, Copy, Debug)]
pub struct LentFrame<'a> {
    /// The number of the page.
    pub number: u32,
    /// The size of the database in pages after a transaction that this frame ends, else 0.
    pub commit: u32,
    /// The page's 4,096 bytes.
    pub page: &'a [u8],
}

impl<'a> LentFrame<'a> {
    /// The frame with its own page. Copies the page's bytes, which have to be 4,096.
    pub fn to_frame(self) -> Frame
        requires { length self.page.now ≡ 4096 }
        ensures { result ≡ owned self.entry }
    {
        Frame {
            number: self.number,
            commit: self.commit,
            page: Page::from_slice(self.page),
        }
    }

    /// The checksum of this frame, going on from the one before it.
    pub(crate) fn sums(self, header: WalHeader, before: (u32, u32)) -> (u32, u32)
        requires { length self.page.now ≡ 4096 }
        ensures { result ≡ frame_sums header before (owned self.entry) }
    {
        let start = checksum(header.order, before, &pair(self.number, self.commit));
        checksum(header.order, start, self.page)
    }
}
