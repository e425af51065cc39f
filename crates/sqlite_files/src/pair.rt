ghost use Rattle.std.specs.Prelude.{◌≡◌, ◌+◌, ◌<◌, ◌≤◌, [], IfOk};
ghost use Rattle.dq_base.specs.Changes.{changed, same_image};
ghost use Rattle.sqlite_files.specs.Pairs.{both, pair_of};

use crate::original_image::OriginalImage;
use crate::page_file::PageFile;
use crate::steps::PageReads;
use crate::taking::change;
use dq_base::{Image, PageSet};
use sqlite_disk::Files;
use std::alloc::{AllocError, Global};
use std::marker::{Brand, Model};
use std::sync::ledger::{Blank, Ledger};

/// The two files as `sqlite` takes them and gives them back: its log is the side file, its database the main one.
pub type PairFiles = Files<PageFile>;

/// The two files of an image in memory, which record what changes: the image before, the image after, and how many
/// pages were written, cut or grown.
#[derive(Drop)]
pub struct PairDisk {
    main: PageFile,
    side: PageFile,
}

impl Model for PairDisk {
    ghost use Rattle.sqlite_files.specs.Pairs.{Pair, pair_of};

    ghost Value = { Pair };

    ghost view = { λ a. pair_of a.main a.side };
}

impl PairDisk {
    /// Files with the bytes of an image, of which nothing was touched. It costs two copies of the image. Fails where
    /// memory runs out.
    pub fn from_image(alloc: Global, image: &Image) -> Result<PairDisk, AllocError>
        ensures { IfOk result (λ pair. pair ≡ record { before = image.now; after = image.now; touched = 0 }) }
    {
        let before = image.try_clone(alloc)?;
        let after = image.try_clone(alloc)?;
        Ok(PairDisk {
            main: PageFile::new(alloc, before.main, after.main, false),
            side: PageFile::new(alloc, before.side, after.side, true),
        })
    }

    /// Files with the bytes of an image that were empty before, so that each page of them is noted. It costs one copy of the
    /// image. Fails where memory runs out.
    pub fn grown_to(alloc: Global, image: &Image) -> Result<PairDisk, AllocError>
        ensures before { IfOk result (λ pair. pair.before ≡ both [] []) }
        ensures after { IfOk result (λ pair. pair.after ≡ image.now) }
    {
        let after = image.try_clone(alloc)?;
        Ok(PairDisk {
            main: PageFile::grown_to(alloc, after.main, false)?,
            side: PageFile::grown_to(alloc, after.side, true)?,
        })
    }

    /// The files for `sqlite` to open.
    pub fn into_files(self) -> PairFiles
        ensures { pair_of result.db result.log ≡ self }
    {
        Files {
            log: self.side,
            db: self.main,
        }
    }

    /// The files that `sqlite` gave back.
    pub fn from_files(files: PairFiles) -> PairDisk
        ensures { result ≡ pair_of files.db files.log }
    {
        let Files { log, db } = files;
        PairDisk {
            main: db,
            side: log,
        }
    }

    /// The image after.
    pub fn into_image(self) -> Image
        ensures { result ≡ self.after }
    {
        Image {
            main: self.main.into_bytes(),
            side: self.side.into_bytes(),
        }
    }

    /// Whether this is the image before. It compares the bytes of both files, and hands out no page.
    pub fn began_with(&self, image: &Image) -> bool
        ensures { result ≡ same_image self.now.before image.now }
    {
        self.main.was(image.main.as_slice()) && self.side.was(image.side.as_slice())
    }

    /// The image after, and the set of the pages that differ from the image before, with the sizes page last; no pages
    /// if nothing differs. Of the image before it looks only at pages that were written, cut or grown, each one step.
    /// It costs a comparison of each of those, a copy of those that differ, and a look at 8 bytes a page of the longer
    /// file. Fails where memory runs out.
    pub fn taken<L: Ledger>(
        self,
        alloc: Global,
        tx: u64,
        steps: &mut PageReads<L>,
    ) -> Result<(Image, PageSet), AllocError>
        ensures image { IfOk result (λ r. r.0 ≡ self.after) }
        ensures tx { IfOk result (λ r. r.1.tx ≡ tx) }
        ensures pages { IfOk result (λ r. r.1.pages ≡ changed self.before self.after) }
        ensures cost { steps.new ≤ steps.old + self.touched }
    {
        let (main_before, main, main_stamps) = self.main.into_parts();
        let (side_before, side, side_stamps) = self.side.into_parts();
        let before = OriginalImage::new(main_before, side_before);
        let after = Image { main, side };
        let pages = change(alloc, &before, &after, &main_stamps, &side_stamps, steps)?;
        Ok((after, PageSet { tx, pages }))
    }

    /// The image after and the change to it, for a caller that counts no steps.
    pub fn changes(self, alloc: Global, tx: u64) -> Result<(Image, PageSet), AllocError>
        ensures image { IfOk result (λ r. r.0 ≡ self.after) }
        ensures tx { IfOk result (λ r. r.1.tx ≡ tx) }
        ensures pages { IfOk result (λ r. r.1.pages ≡ changed self.before self.after) }
    {
        taken_uncounted::<Brand>(Blank::new(1), self, alloc, tx)
    }
}

fn taken_uncounted<L: Ledger>(
    blank: Blank,
    pair: PairDisk,
    alloc: Global,
    tx: u64,
) -> Result<(Image, PageSet), AllocError>
    requires name { blank.name ≡ L.name }
    requires parts { blank.parts ≡ L.parts }
    requires some { 0 < L.parts }
    ensures image { IfOk result (λ r. r.0 ≡ pair.after) }
    ensures tx { IfOk result (λ r. r.1.tx ≡ tx) }
    ensures pages { IfOk result (λ r. r.1.pages ≡ changed pair.before pair.after) }
{
    let mut steps = PageReads::<L>::new(blank);
    pair.taken(alloc, tx, &mut steps)
}
