ghost use Rattle.std.specs.Prelude.{◌≡◌, ◌+◌, ◌-◌, ◌<◌, ◌≤◌, [], ◌∷◌, ◌++◌, min, length, map, OnOk, OnErr, MatchOption, slice_index_or};
ghost use Rattle.std.specs.List.{AllByRecursion};
ghost use Rattle.page_store.specs.Frames.{IsLastAt, NoneAt};
ghost use Rattle.page_store.specs.Laying.{no_lengths, IsLeast};
ghost use Rattle.page_store.specs.Log.{extended, without_first, first_of, IsSized, lengths_of, LooksBack, AllLookBack};

use crate::frame_index::FrameIndex;
use dq_base::{Lengths, NumberedPage};
use std::alloc::{AllocError, Global};
use std::collections::VecDeque;
use std::marker::Model;

/// One page of a committed set, with the lengths that its set states.
///
/// A frame also looks back over a stretch of frames that ends with itself, and has the least lengths in it. The
/// stretches are those of a skew-binary list: a frame looks back over the two stretches before it if these are
/// equally long, and else over itself alone. So the least lengths of any stretch come together from a number of frames
/// in the order of the logarithm of its length.
#[derive(Clone, Copy)]
pub(crate) struct Frame {
    pub page: NumberedPage,
    pub lengths: Lengths,
    // how many frames it looks back over, itself included
    pub back: usize,
    // the least lengths of these frames, if none of them was dropped
    pub least: Lengths,
}

/// The frames over a base, in order, with an index from page number to frame. Contracts see it as the list of pages and
/// the list of their sets' lengths.
#[derive(Drop)]
pub(crate) struct FrameLog {
    frames: VecDeque<Frame>,
    index: FrameIndex,
}

impl Model for FrameLog {
    ghost use Rattle.page_store.specs.Log.{Log, LogHolds, pages_of, lengths_of};

    ghost Value = { Log };

    ghost view = { λ a. record { pages = pages_of a.frames.items; lengths = lengths_of a.frames.items } };

    ghost invariant = { λ a. LogHolds a.frames.items a.index };
}

impl FrameLog {
    /// A log without frames.
    pub fn new(alloc: Global) -> FrameLog
        ensures { result ≡ record { pages = []; lengths = [] } }
    {
        FrameLog {
            frames: VecDeque::new(alloc),
            index: FrameIndex::new(alloc),
        }
    }

    /// How many frames there are. Constant cost.
    pub fn len(&self) -> usize
        ensures value { result ≡ length self.now.pages }
        ensures same { length self.now.lengths ≡ length self.now.pages }
        ensures sized { AllByRecursion IsSized self.now.pages }
    {
        self.frames.len()
    }

    /// The page of a frame; frames count from 0 here. Constant cost.
    pub fn page(&self, i: usize) -> &NumberedPage
        requires { i < length self.now.pages }
        ensures value { result.now ≡ slice_index_or self.now.pages i result.now }
        ensures size { IsSized result.now }
    {
        let frame = &self.frames[i];
        let _bytes = frame.page.page.bytes();
        &frame.page
    }

    /// The lengths of a frame's set. Constant cost.
    pub fn lengths(&self, i: usize) -> Lengths
        requires { i < length self.now.lengths }
        ensures { result ≡ slice_index_or self.now.lengths i no_lengths }
    {
        self.frames[i].lengths
    }

    /// The last frame with this page number among the first `mark`, counted from 1. The cost of a look-up.
    pub fn last_at(&self, number: u64, mark: u64) -> Option<u64>
        ensures { MatchOption result (NoneAt (map (λ p. p.number) self.now.pages) number mark) (λ frame. IsLastAt (map (λ p. p.number) self.now.pages) number mark frame) }
    {
        self.index.last_at(number, mark)
    }

    /// The least lengths of the frames from one to another, both included. Looks at frames in the order of the logarithm
    /// of their number.
    pub fn least(&self, first: usize, last: usize) -> Lengths
        requires order { first ≤ last }
        requires within { last < length self.now.lengths }
        ensures main { IsLeast 0 self.now.lengths first last result.main }
        ensures side { IsLeast 1 self.now.lengths first last result.side }
    {
        least_of(&self.frames, first, last)
    }

    /// Adds the pages of a set, with the lengths that it states. `Err` means out of memory; the log is then
    /// unchanged. Costs a look-up for each page, and now and then, as the frames grow, a move of all of them.
    pub fn append(&mut self, pages: &[NumberedPage], lengths: Lengths) -> Result<(), AllocError>
        ensures done { OnOk result (self.new ≡ extended self.old pages.now lengths) }
        ensures kept { OnErr result (self.new ≡ self.old) }
    {
        let before = self.len();
        let done = self.append_some(pages, lengths);
        if done.is_err() {
            self.truncate(before);
        }
        done
    }

    /// Drops the first frames, or all if there are fewer. Costs a look-up for each.
    pub fn drop_first(&mut self, count: usize)
        ensures { self.new ≡ without_first count self.old }
    {
        for _ in 0..count.min(self.len()) {
            self.drop_one();
        }
    }

    /// Adds pages until memory runs out.
    fn append_some(&mut self, pages: &[NumberedPage], lengths: Lengths) -> Result<(), AllocError>
        ensures done { OnOk result (self.new ≡ extended self.old pages.now lengths) }
        ensures front { OnErr result (first_of (length self.old.pages) self.new ≡ self.old) }
    {
        let _before = self.len();
        for page in pages {
            self.push(page, lengths)?;
        }
        Ok(())
    }

    /// Adds one page, or nothing if memory runs out.
    fn push(&mut self, page: &NumberedPage, lengths: Lengths) -> Result<(), AllocError>
        ensures done { OnOk result (self.new ≡ extended self.old (page.now ∷ []) lengths) }
        ensures kept { OnErr result (self.new ≡ self.old) }
    {
        let _bytes = page.page.bytes();
        let (back, least) = next_stretch(&self.frames, lengths);
        self.frames.reserve(1)?;
        self.index.push(page.number)?;
        self.frames.push_back(Frame {
            page: *page,
            lengths,
            back,
            least,
        })?;
        Ok(())
    }

    /// Keeps the first frames, and drops the rest.
    fn truncate(&mut self, count: usize)
        ensures { self.new ≡ first_of count self.old }
    {
        for _ in 0..self.len().saturating_sub(count) {
            self.drop_last();
        }
    }

    /// Drops the first frame, if there is one.
    fn drop_one(&mut self)
        ensures { self.new ≡ without_first 1 self.old }
    {
        if let Some(_frame) = self.frames.pop_front() {
            self.index.drop_first(1);
        }
    }

    /// Drops the last frame, if there is one.
    fn drop_last(&mut self)
        ensures { self.new ≡ first_of (length self.old.pages - 1) self.old }
    {
        if let Some(_frame) = self.frames.pop_back() {
            self.index.truncate(self.frames.len() as u64);
        }
    }
}

/// How far back a frame with these lengths looks that comes after others, and the least lengths there.
fn next_stretch(frames: &VecDeque<Frame>, lengths: Lengths) -> (usize, Lengths)
    requires { AllLookBack frames.now.items }
    ensures { LooksBack (lengths_of frames.now.items ++ lengths ∷ []) (length frames.now.items) result.0 result.1 }
{
    let len = frames.len();
    if len == 0 {
        return (1, lengths);
    }
    let last = &frames[len - 1];
    if last.back >= len {
        return (1, lengths);
    }
    let before = &frames[len - 1 - last.back];
    if before.back != last.back {
        return (1, lengths);
    }
    let least = lesser(lesser(before.least, last.least), lengths);
    (1 + last.back + before.back, least)
}

/// The least lengths of the frames from one to another, both included.
fn least_of(frames: &VecDeque<Frame>, first: usize, last: usize) -> Lengths
    requires look_back { AllLookBack frames.now.items }
    requires order { first ≤ last }
    requires within { last < length frames.now.items }
    ensures main { IsLeast 0 (lengths_of frames.now.items) first last result.main }
    ensures side { IsLeast 1 (lengths_of frames.now.items) first last result.side }
{
    let mut least = frames[last].lengths;
    let mut from = last;
    while from > first {
        let (count, lower) = stretch(frames, first, from);
        least = lesser(lower, least);
        from -= count;
    }
    least
}

/// How many frames right before an end the frame before it looks back over, not beyond the first, and their least lengths.
fn stretch(frames: &VecDeque<Frame>, first: usize, end: usize) -> (usize, Lengths)
    requires look_back { AllLookBack frames.now.items }
    requires order { first < end }
    requires within { end ≤ length frames.now.items }
    ensures from_one { 1 ≤ result.0 }
    ensures not_beyond { result.0 ≤ end - first }
    ensures main { IsLeast 0 (lengths_of frames.now.items) (end - result.0) (end - 1) result.1.main }
    ensures side { IsLeast 1 (lengths_of frames.now.items) (end - result.0) (end - 1) result.1.side }
{
    let frame = &frames[end - 1];
    if frame.back <= end - first {
        (frame.back, frame.least)
    } else {
        (1, frame.lengths)
    }
}

/// The lesser of two lengths, for each file.
fn lesser(a: Lengths, b: Lengths) -> Lengths
    ensures main { result.main ≡ min a.main b.main }
    ensures side { result.side ≡ min a.side b.side }
{
    Lengths {
        main: a.main.min(b.main),
        side: a.side.min(b.side),
    }
}
