ghost use Rattle.std.specs.Prelude.{◌≡◌, ℕ, ◌+◌, ◌-◌, ◌<◌, ◌≤◌, ◌^◌, [], ◌∷◌, ◌++◌, length, take, drop, OnOk, OnErr, MatchOption};
ghost use Rattle.page_store.specs.Frames.{IsLastAt, NoneAt};
ghost use Rattle.page_store.specs.Places.{NoPlace, IsLastPlace};

use std::alloc::{AllocError, Global};
use std::collections::{BTreeSet, VecDeque};
use std::marker::Model;

/// Finds the last frame of a page among the first frames of a log. Contracts see it as the list of the frames' page
/// numbers; frames count from 1.
///
/// It holds the numbers in order, and an ordered set of pairs of a page number and a place, so that each number's places
/// stand beside each other in ascending order. Places count all frames since `new`, dropped ones included, so that
/// dropping the first frames moves no other.
#[derive(Drop)]
pub struct FrameIndex {
    numbers: VecDeque<u64>,
    places: BTreeSet<(u64, u64)>,
    // how many frames were dropped
    dropped: u64,
}

impl Model for FrameIndex {
    ghost use Rattle.std.specs.Prelude.{ℕ, List};
    ghost use Rattle.page_store.specs.Places.{Placed};

    ghost Value = { List ℕ };

    ghost view = { λ a. a.numbers.items };

    ghost invariant = { λ a. Placed a.numbers.items a.dropped a.places };
}

impl FrameIndex {
    /// An index without frames.
    pub fn new(alloc: Global) -> FrameIndex
        ensures { result ≡ [] }
    {
        FrameIndex {
            numbers: VecDeque::new(alloc),
            places: BTreeSet::new(alloc),
            dropped: 0,
        }
    }

    /// How many frames there are. Constant cost.
    pub fn len(&self) -> u64
        ensures { result ≡ length self.now }
    {
        self.numbers.len() as u64
    }

    /// Adds a frame with this page number after the others. `Err` means out of memory, which comes also if 2^64
    /// frames would have been pushed; the index is then unchanged. Costs a look-up in an ordered set, and now and then,
    /// as a `VecDeque` grows, a move of all numbers.
    pub fn push(&mut self, number: u64) -> Result<(), AllocError>
        ensures done { OnOk result (self.new ≡ self.old ++ number ∷ []) }
        ensures kept { OnErr result (self.new ≡ self.old) }
    {
        let place = self.dropped + self.numbers.len() as u64;
        if place == u64::MAX {
            return Err(AllocError);
        }
        self.numbers.reserve(1)?;
        self.places.insert((number, place))?;
        self.numbers.push_back(number)?;
        Ok(())
    }

    /// The last frame with this page number among the first `mark` frames; `None` exactly if none of them has it.
    /// Costs a look-up in an ordered set.
    pub fn last_at(&self, number: u64, mark: u64) -> Option<u64>
        ensures { MatchOption result (NoneAt self.now number mark) (λ frame. IsLastAt self.now number mark frame) }
    {
        let end = self.dropped + mark.min(self.numbers.len() as u64);
        match last_place(&self.places, number, end) {
            Some(place) => Some(place - self.dropped + 1),
            None => None,
        }
    }

    /// Drops the first `count` frames, or all if there are fewer; the rest count from 1. Costs a look-up in an ordered
    /// set for each frame that is dropped.
    pub fn drop_first(&mut self, count: u64)
        ensures { self.new ≡ drop count self.old }
    {
        for _ in 0..count.min(self.len()) {
            self.drop_one();
        }
    }

    /// Keeps the first `count` frames, or all if there are fewer, and drops the rest. Costs a look-up in an ordered
    /// set for each frame that is dropped.
    pub fn truncate(&mut self, count: u64)
        ensures { self.new ≡ take count self.old }
    {
        for _ in 0..self.len().saturating_sub(count) {
            self.drop_last();
        }
    }

    /// Drops the first frame, if there is one.
    fn drop_one(&mut self)
        ensures { self.new ≡ drop 1 self.old }
    {
        if let Some(number) = self.numbers.pop_front() {
            self.places.remove(&(number, self.dropped));
            self.dropped += 1;
        }
    }

    /// Drops the last frame, if there is one.
    fn drop_last(&mut self)
        ensures { self.new ≡ take (length self.old - 1) self.old }
    {
        if let Some(number) = self.numbers.pop_back() {
            let place = self.dropped + self.numbers.len() as u64;
            self.places.remove(&(number, place));
        }
    }
}

/// The greatest place below an end that is next to a number.
fn last_place(places: &BTreeSet<(u64, u64)>, number: u64, end: u64) -> Option<u64>
    ensures { MatchOption result (NoPlace places.now number end) (λ place. IsLastPlace places.now number end place) }
{
    let Some((found, place)) = places.range(..(number, end)).next_back() else {
        return None;
    };
    if *found == number { Some(*place) } else { None }
}
