//! The two files of an image, by the numbers of their pages.

ghost use Rattle.std.specs.Prelude.{◌≡◌, ◌<◌, ◌^◌, length};
ghost use Rattle.file_digest.specs.Pages.{page_number, length_of};

use dq_base::Lengths;

/// One of the two files of an image.
#[derive(Clone, Copy, PartialEq, Eq)]
pub(crate) enum File {
    /// The one that SQLite calls the database.
    Main,
    /// The one next to it.
    Side,
}

impl File {
    /// The number of its page at a place, counted from 0.
    pub fn page_number(self, place: usize) -> u64
        requires { place < 2 ^ 60 }
        ensures { result ≡ page_number self place }
    {
        let first = match self {
            File::Main => 2,
            File::Side => 3,
        };
        2 * place as u64 + first
    }

    /// Its length among those of both files.
    pub fn length_in(self, lengths: Lengths) -> usize
        ensures { result ≡ length_of self lengths }
    {
        match self {
            File::Main => lengths.main,
            File::Side => lengths.side,
        }
    }
}
