ghost use Rattle.std.specs.Prelude.{◌≡◌, ◌≢◌, ℕ, ◌<◌, length, None, unwrap_or, IfOk, IfErr, IfSome, IsSomeAnd, OnOk, OnErr};
ghost use Rattle.std.specs.Arc.{arc_value};
ghost use Rattle.std.specs.List.{AllByRecursion};
ghost use Rattle.dq_base.specs.Images.{page_at, page_count};
ghost use Rattle.dq_base.specs.Applying.{applied, page_fault, IsRefusal};
ghost use Rattle.page_store.specs.Marks.{mark_at, live_count, least_mark};
ghost use Rattle.page_store.specs.declared.marks.MarkFault.TheVariants.{Full};
ghost use Rattle.page_store.specs.Log.{IsSized};
ghost use Rattle.page_store.specs.Store.{fresh_store, newest, newest_image, IsLive, image_under, committed, pinned, released, checkpointed, pages_to_move, StillShows};

use crate::files::{lay, make_room};
use crate::frame_log::FrameLog;
use crate::marks::{MarkFault, MarkId, Marks};
use crate::reading::{image_under, lengths_under, page_count_under, page_under};
use dq_base::{Image, Lengths, NumberedPage, Page, PageFault, PageSet, apply_pages, set_lengths};
use std::alloc::{AllocError, Global};
use std::marker::Model;
use std::sync::Arc;

/// A database under readers. It has a base image and, over it, the pages of each later commit as frames. A reader pins a
/// mark and sees the image that was newest then, whatever is committed or checkpointed later. A checkpoint moves frames
/// into the base, up to the least live mark.
///
/// It may also keep its newest image whole, to be lent without a copy. Each commit brings that image along, in place where
/// no one else holds it and in a copy where somebody does; where memory is short it is let go, and no commit fails for it.
///
/// Contracts see it as the base, the list of page sets over it, the number of commits that are in the base, and a table
/// of live marks, each with the number of sets that it sees.
#[derive(Drop)]
pub struct PageStore {
    main: Vec<u8>,
    side: Vec<u8>,
    log: FrameLog,
    marks: Marks,
    newest: u64,
    // the newest image, whole
    whole: Option<Arc<Image, Global>>,
    alloc: Global,
}

impl Model for PageStore {
    ghost use Rattle.std.specs.Prelude.{◌≡◌, vec_capacity, IfSome};
    ghost use Rattle.std.specs.Arc.{arc_value};
    ghost use Rattle.page_store.specs.Store.{Store, after_sets};
    ghost use Rattle.page_store.specs.Sets.{sets_of, store_of};
    ghost use Rattle.page_store.specs.Holding.{Holds};

    ghost Value = { Store };

    ghost view = { λ a. store_of (record { main = a.main.items; side = a.side.items }) a.log.pages a.newest a.marks };

    ghost invariant = { λ a. Holds (vec_capacity a.main) (vec_capacity a.side) a.log.pages a.log.lengths a.newest a.marks
        × IfSome a.whole (λ shared. arc_value shared ≡ after_sets (record { main = a.main.items; side = a.side.items }) (sets_of a.log.pages)) };
}

impl PageStore {
    /// A store over an image, before any commit. Allocates nothing, and no byte is
    /// copied.
    pub fn from_image(alloc: Global, image: Image) -> PageStore
        ensures { result ≡ fresh_store image }
    {
        PageStore {
            main: image.main.into_vec(),
            side: image.side.into_vec(),
            log: FrameLog::new(alloc),
            marks: Marks::new(),
            newest: 0,
            whole: None,
            alloc,
        }
    }

    /// Adds the pages of a set as frames, and answers the number of commits so far. A set is refused as `dq_base::apply`
    /// refuses it: by its first fault `NoSizes`, `Order` or `NotInLength`, and a set without a fault by `NoMemory` where
    /// memory runs out or 2^64 commits would be passed. After every refusal the store is unchanged: a set that isn't
    /// applied counts nowhere.
    ///
    /// It makes the room first that the base needs for the set's two lengths. It looks at the set's pages and costs a
    /// look-up and a copy for each; now and then, as the frames or the base outgrow their room, they are moved. If the
    /// newest image is kept whole, each page is copied once more, into that image, and the image is copied first where
    /// somebody else holds it.
    pub fn commit(&mut self, set: &PageSet) -> Result<u64, PageFault>
        ensures done { OnOk result (self.new ≡ committed self.old set.now.pages) }
        ensures newest { IfOk result (λ mark. mark ≡ newest self.new) }
        ensures sound { OnOk result (page_fault set.now.pages ≡ None) }
        ensures refused { IfErr result (λ fault. IsRefusal fault (page_fault set.now.pages)) }
        ensures kept { OnErr result (self.new ≡ self.old) }
        ensures shown { (id : ℕ) → StillShows self.old self.new id }
    {
        self.commit_pages(set.pages.as_slice())
    }

    /// Adds pages that belong to no set, as `commit` does.
    pub fn commit_pages(&mut self, pages: &[NumberedPage]) -> Result<u64, PageFault>
        ensures done { OnOk result (self.new ≡ committed self.old pages.now) }
        ensures newest { IfOk result (λ mark. mark ≡ newest self.new) }
        ensures sound { OnOk result (page_fault pages.now ≡ None) }
        ensures sized { OnOk result (AllByRecursion IsSized pages.now) }
        ensures refused { IfErr result (λ fault. IsRefusal fault (page_fault pages.now)) }
        ensures kept { OnErr result (self.new ≡ self.old) }
        ensures shown { (id : ℕ) → StillShows self.old self.new id }
    {
        let lengths = set_lengths(pages)?;
        let Some(newest) = self.newest.checked_add(1) else {
            return Err(PageFault::NoMemory);
        };
        let whole = self.whole.take();
        make_room(&mut self.main, lengths.main)?;
        make_room(&mut self.side, lengths.side)?;
        self.log.append(pages, lengths)?;
        let _frames = self.log.len();
        self.newest = newest;
        self.whole = brought_along(self.alloc, whole, pages);
        Ok(newest)
    }

    /// How many commits there were; a refused set is none. Constant cost.
    pub fn newest(&self) -> u64
        ensures { result ≡ newest self.now }
    {
        self.newest
    }

    /// Pins a mark that sees all commits so far. `Full(64)` exactly if 64 marks are live; the store is then unchanged.
    /// Constant cost.
    pub fn pin(&mut self) -> Result<MarkId, MarkFault>
        ensures was_free { IfOk result (λ id. mark_at self.old.marks id ≡ None) }
        ensures done { IfOk result (λ id. self.new ≡ pinned self.old id) }
        ensures shows { IfOk result (λ id. IsLive self.new id × (image_under self.new id ≡ newest_image self.old)) }
        ensures room { OnOk result (live_count self.old.marks < 64) }
        ensures full { IfErr result (λ fault. fault ≡ Full 64) }
        ensures all_live { OnErr result (live_count self.old.marks ≡ 64) }
        ensures kept { OnErr result (self.new ≡ self.old) }
        ensures shown { (id : ℕ) → StillShows self.old self.new id }
    {
        let count = self.log.len() as u64;
        self.marks.pin(count)
    }

    /// Releases a mark that is live in this store; the id is spent. Constant cost.
    pub fn release(&mut self, id: MarkId)
        requires { IsLive self.old id }
        ensures done { self.new ≡ released self.old id }
        ensures shown { (other : ℕ) → other ≢ id → StillShows self.old self.new other }
    {
        self.marks.release(id);
    }

    /// The page of a number in the image that a live mark shows, a last page that its file only partly fills with zeros to
    /// its end; `None` exactly if that image doesn't have the page. Page 1 is the sizes page and always exists.
    ///
    /// Costs a look-up and the copy of one page.
    pub fn page_under(&self, id: &MarkId, number: u64) -> Option<Page>
        requires { IsLive self.now id.now }
        ensures { result ≡ page_at (image_under self.now id.now) number }
    {
        let main = self.main.as_slice();
        let side = self.side.as_slice();
        let count = self.marks.at(id) as usize;
        page_under(main, side, &self.log, count, number)
    }

    /// The page of a number in the image with all commits, as `page_under` gives it. Costs a look-up and the copy of one
    /// page.
    pub fn newest_page(&self, number: u64) -> Option<Page>
        ensures { result ≡ page_at (newest_image self.now) number }
    {
        let main = self.main.as_slice();
        let side = self.side.as_slice();
        let all = self.log.len();
        page_under(main, side, &self.log, all, number)
    }

    /// How many pages the image with all commits has, the sizes page included. Constant cost.
    pub fn page_count(&self) -> u64
        ensures { result ≡ page_count (newest_image self.now) }
    {
        let main = self.main.as_slice();
        let side = self.side.as_slice();
        let all = self.log.len();
        page_count_under(main, side, &self.log, all)
    }

    /// The lengths of both files of the image with all commits, in bytes. Constant cost.
    pub fn lengths(&self) -> Lengths
        ensures main { result.main ≡ length (newest_image self.now).main }
        ensures side { result.side ≡ length (newest_image self.now).side }
    {
        let main = self.main.as_slice();
        let side = self.side.as_slice();
        let all = self.log.len();
        lengths_under(main, side, &self.log, all)
    }

    /// The image that a live mark shows. Copies the base, and lays the frames below the mark into the copy.
    pub fn image_at(&self, id: &MarkId) -> Result<Image, AllocError>
        requires { IsLive self.now id.now }
        ensures { IfOk result (λ image. image ≡ image_under self.now id.now) }
    {
        let main = self.main.as_slice();
        let side = self.side.as_slice();
        let count = self.marks.at(id) as usize;
        image_under(self.alloc, main, side, &self.log, count)
    }

    /// The image with all commits. Copies the image that is kept whole, and if none is, copies the base and lays all
    /// frames into the copy.
    pub fn newest_image(&self) -> Result<Image, AllocError>
        ensures { IfOk result (λ image. image ≡ newest_image self.now) }
    {
        if let Some(whole) = &self.whole {
            return whole.try_clone(self.alloc);
        }
        let main = self.main.as_slice();
        let side = self.side.as_slice();
        let count = self.log.len();
        image_under(self.alloc, main, side, &self.log, count)
    }

    /// A share of the newest image: of the one that is kept whole, which costs nothing, and else of a fresh copy, as
    /// `newest_image` makes it. Whoever holds it keeps that image, whatever is committed later.
    pub fn newest_shared(&self) -> Result<Arc<Image, Global>, AllocError>
        ensures { IfOk result (λ shared. arc_value shared ≡ newest_image self.now) }
    {
        if let Some(whole) = &self.whole {
            return Ok(Arc::try_clone(whole)?);
        }
        Ok(Arc::new(self.alloc, self.newest_image()?)?)
    }

    /// Keeps the newest image whole from here on, if there is the memory. Copies it at the first time, and after it was
    /// let go.
    pub fn keep_newest(&mut self)
        ensures { self.new ≡ self.old }
    {
        self.whole = self.newest_shared().ok();
    }

    /// Moves frames into the base: those up to the least live mark, or all if no mark is live. Answers how many moved,
    /// which is the number of pages of the sets that moved. Every live mark shows what it showed before.
    ///
    /// Costs a look-up and the copy of a page for each frame that moves, and the bytes by which the files grow. The base
    /// has the room already; allocates nothing and can't fail.
    pub fn checkpoint(&mut self) -> u64
        ensures done { self.new ≡ checkpointed self.old }
        ensures moved { result ≡ pages_to_move self.old }
        ensures shown { (id : ℕ) → StillShows self.old self.new id }
    {
        let count = frames_to_move(&self.marks, self.log.len() as u64);
        lay(&mut self.main, &self.log, count as usize, 0);
        lay(&mut self.side, &self.log, count as usize, 1);
        self.log.drop_first(count as usize);
        self.marks.lower(count);
        count
    }
}

/// How many frames a checkpoint moves: those up to the least live mark, or all of this many where no mark is live.
fn frames_to_move(marks: &Marks, frames: u64) -> u64
    ensures { result ≡ unwrap_or (least_mark marks.now) frames }
{
    match marks.least() {
        Some(least) => least,
        None => frames,
    }
}

/// An image that was kept whole, after a commit of these pages: changed in place where no one else holds it, and in a copy
/// if somebody does. `None` where memory is short.
fn brought_along(
    alloc: Global,
    whole: Option<Arc<Image, Global>>,
    pages: &[NumberedPage],
) -> Option<Arc<Image, Global>>
    ensures { IfSome result (λ now. IsSomeAnd whole (λ was. arc_value now ≡ applied (arc_value was) pages.now)) }
{
    let mut shared = whole?;
    if let Some(alone) = Arc::get_mut(&mut shared) {
        return match apply_pages(alone, pages) {
            Ok(()) => Some(shared),
            Err(_) => None,
        };
    }
    let mut copy = shared.try_clone(alloc).ok()?;
    apply_pages(&mut copy, pages).ok()?;
    Arc::new(alloc, copy).ok()
}
