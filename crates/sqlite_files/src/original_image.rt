ghost use Rattle.std.specs.Prelude.{◌≡◌, ◌+◌, ◌==◌, ◌&&◌, length};
ghost use Rattle.dq_base.specs.Images.{page_at};
ghost use Rattle.std.specs.Str.{bytes_eq};

use crate::steps::PageReads;
use dq_base::{Bytes, Image, Page, page_at};
use std::marker::Model;
use std::sync::ledger::Ledger;

/// One file as it was, which nobody reads.
#[derive(Drop)]
pub(crate) struct FileBefore {
    bytes: Bytes,
}

impl Model for FileBefore {
    ghost use Rattle.std.specs.Prelude.{List, ℕ};

    ghost Value = { List ℕ };

    ghost view = { λ a. a.bytes };
}

impl FileBefore {
    /// A file of these bytes.
    pub(crate) fn new(bytes: Bytes) -> FileBefore
        ensures { result ≡ bytes }
    {
        FileBefore { bytes }
    }

    /// Whether these are its bytes.
    pub(crate) fn is(&self, bytes: &[u8]) -> bool
        ensures { result ≡ bytes_eq self.now bytes.now }
    {
        self.bytes.as_slice() == bytes
    }
}

/// An image as it was. One call hands out its pages, and counts them.
#[derive(Drop)]
pub struct OriginalImage {
    image: Image,
}

impl Model for OriginalImage {
    ghost use Rattle.dq_base.specs.declared.images.Image.{Image};

    ghost Value = { Image };

    ghost view = { λ a. a.image };
}

impl OriginalImage {
    /// Both files together.
    pub(crate) fn new(main: FileBefore, side: FileBefore) -> OriginalImage
        ensures main { result.main ≡ main }
        ensures side { result.side ≡ side }
    {
        OriginalImage {
            image: Image {
                main: main.bytes,
                side: side.bytes,
            },
        }
    }

    /// The page of a number, if the image has one. It is one step.
    pub fn page<L: Ledger>(&self, number: u64, steps: &mut PageReads<L>) -> Option<Page>
        ensures page { result ≡ page_at self.now number }
        ensures step { steps.new ≡ steps.old + 1 }
    {
        steps.tick();
        page_at(&self.image, number)
    }

    /// Whether its files are as long as those of another image.
    pub fn has_lengths_of(&self, other: &Image) -> bool
        ensures { result ≡ ((length self.now.main == length other.now.main) && (length self.now.side == length other.now.side)) }
    {
        self.image.main.len() == other.main.len() && self.image.side.len() == other.side.len()
    }
}
