//! The log of one node, compacted at its front.
ghost use Rattle.std.specs.Prelude.{◌≡◌, ◌<◌, ◌≤◌, ◌+◌, ◌-◌, ◌++◌, suc, true, MatchOption, option_map, [], ◌∷◌, OnErr, IfOk, IfSome, IsSome, ◌↔◌, if◌then◌else◌, is_ok, length, take, drop, slice_index_or, ◌&&◌, nat_lt, nat_le};
ghost use Rattle.raft_spec.specs.Log.{nth_term, log_end, term_at, first_replaced};
ghost use Rattle.raft_spec.specs.Compaction.{whole_log, meets};
ghost use Rattle.raft_log.specs.Places.{known_term, cut_at};
ghost use Rattle.raft_log.specs.Agreeing.{TakesAfter};
ghost use Rattle.raft_log.specs.Answers.{Answers};

use crate::queue::{conflict, copied, drop_front, index_after, take_in, term_of};
use raft_messages::{Entries, Entry, LogEnd};
use std::alloc::{AllocError, Global};
use std::marker::Model;

/// The answer of a log to the entries of an Append.
#[derive(Clone, Copy, Debug, PartialEq, Eq)]
pub enum Accepted {
    /// The log doesn't have the place that the entries follow. With its last index.
    Differs(u64),
    /// The entries are in the log.
    Match {
        /// The last index that is known to agree with the sender's log: that of the last entry that came.
        index: u64,
        /// The first index that was replaced or added, if any.
        from: Option<u64>,
    },
}

/// The log of one node, compacted at its front: of the entries up to `first` it knows the place alone. Clauses see it as
/// the rules' log that is compacted. Indexes are counted from 1.
///
/// The entries are in one piece, so that all from an index on can be lent. Cutting off the front moves the heads of those
/// that stay, and none of their bytes: if a log is compacted only after a snapshot, and no more entries stay than go, that
/// is constant for an entry's whole stay on average. Adding an entry is constant on average.
#[derive(Drop)]
pub struct Log {
    first: LogEnd,
    entries: Vec<Entry>,
}

impl Model for Log {
    ghost use Rattle.std.specs.Prelude.{◌≤◌, ◌+◌, length};
    ghost use Rattle.raft_spec.specs.Compaction.{CutLog};

    ghost Value = { CutLog };

    ghost view = { λ l. record { first = l.first; entries = l.entries.items } };

    ghost invariant = { λ l. l.first.index + length l.entries.items ≤ 18446744073709551615 };
}

/// The index of the entry that is this many after another, if any.
fn first_index(after: u64, from: Option<usize>) -> Option<u64>
    requires { MatchOption from (Unit {0}) (λ n. after + n < 18446744073709551615) }
    ensures { result ≡ option_map (λ n. suc (after + n)) from }
{
    match from {
        Some(n) => Some(after + n as u64 + 1),
        None => None,
    }
}

impl Log {
    /// A log without entries past the cut.
    pub fn new(alloc: Global, first: LogEnd) -> Log
        ensures { result ≡ record { first = first; entries = [] } }
    {
        Log {
            first,
            entries: Vec::new(alloc),
        }
    }

    /// The place after which the entries stand. Allocates nothing and constant
    /// time.
    pub fn first(&self) -> LogEnd
        ensures { result ≡ self.now.first }
    {
        self.first
    }

    /// The last index. Allocates nothing and constant time.
    #[tactic(auto, using(crate::proofs::Places::whole_count))]
    pub fn last_index(&self) -> u64
        ensures { result ≡ length (whole_log self.now) }
    {
        self.first.index + self.entries.len() as u64
    }

    // The index of the cut.
    fn cut(&self) -> u64
        ensures { result ≡ self.now.first.index }
    {
        self.first.index
    }

    // The term of the cut.
    fn cut_term(&self) -> u64
        ensures { result ≡ self.now.first.term }
    {
        self.first.term
    }

    // The term of an entry, by its place past the cut, from 0.
    fn entry_term(&self, place: usize) -> u64
        requires { place < length self.now.entries }
        ensures { result ≡ nth_term self.now.entries place }
    {
        term_of(&self.entries, place)
    }

    /// The term at an index of the whole log; what is compacted has the term of the cut.
    pub(crate) fn whole_term(&self, index: u64) -> u64
        requires { index ≤ length (whole_log self.now) }
        ensures { result ≡ term_at (whole_log self.now) index }
    {
        if index == 0 {
            return 0;
        }
        let cut = self.cut();
        if index <= cut {
            return self.cut_term();
        }
        self.entry_term((index - cut - 1) as usize)
    }

    /// Where the log ends. Allocates nothing and constant time.
    #[tactic(auto, unfolding(raft_spec::specs::Log::log_end))]
    pub fn end(&self) -> LogEnd
        ensures { result ≡ log_end (whole_log self.now) }
    {
        let index = self.last_index();
        LogEnd {
            index,
            term: self.whole_term(index),
        }
    }

    /// The term at an index, if it is known: at the cut, and at each entry past it. Allocates nothing and constant
    /// time.
    pub fn term_at(&self, index: u64) -> Option<u64>
        ensures { result ≡ known_term self.now index }
    {
        if index < self.first.index || self.last_index() < index {
            return None;
        }
        Some(self.whole_term(index))
    }

    /// Whether the log has this place: it isn't before the cut, and the term at the index is known and the same.
    /// Allocates nothing and constant time.
    #[tactic(auto, unfolding(raft_spec::specs::Log::matches))]
    pub fn matches(&self, index: u64, term: u64) -> bool
        ensures { result ≡ meets self.now (record { index = index; term = term }) }
    {
        self.term_at(index) == Some(term)
    }

    /// The entry at an index, if it is past the cut. Allocates nothing and constant
    /// time.
    pub fn entry(&self, index: u64) -> Option<&Entry>
        ensures some { IsSome result ↔ (self.now.first.index < index) × (index ≤ length (whole_log self.now)) }
        ensures entry { IfSome result (λ e. e.now ≡ slice_index_or self.now.entries (index - self.now.first.index - 1) e.now) }
    {
        if index <= self.first.index {
            return None;
        }
        let place = index - self.first.index - 1;
        self.entries.get(place as usize)
    }

    /// Adds an entry at the end, in constant time on average. If memory runs out, or the last index is the greatest
    /// number of 64 bits, the log stays.
    pub fn push(&mut self, entry: Entry) -> Result<(), AllocError>
        ensures { self.new ≡ (if is_ok result then record self.old { entries = self.old.entries ++ entry ∷ [] } else self.old) }
    {
        index_after(self.last_index(), 1)?;
        self.entries.push(entry)?;
        Ok(())
    }

    /// Takes the entries of an Append, which follow the place `prev`. If the log doesn't have that place, it stays.
    /// Else an entry that has the same term as the log's own at its index stays there, and whatever follows it; at the
    /// first that differs the own one and all after it go, and the ones that came stand. If memory runs out, the log
    /// stays. The cost is in the order of the entries that come and those that go; none is copied.
    pub fn accept(&mut self, prev: LogEnd, entries: Vec<Entry>) -> Result<Accepted, AllocError>
        ensures answer { IfOk result (λ answer. Answers answer self.old self.new prev entries.items) }
        ensures first { self.new.first ≡ self.old.first }
        ensures err { OnErr result (self.new ≡ self.old) }
    {
        if !self.matches(prev.index, prev.term) {
            return Ok(Accepted::Differs(self.last_index()));
        }
        self.take_past(prev, entries)
    }

    // Takes the entries that follow a place which the log has.
    fn take_past(&mut self, prev: LogEnd, entries: Vec<Entry>) -> Result<Accepted, AllocError>
        requires { meets self.old prev ≡ true }
        ensures answer { IfOk result (λ answer. Answers answer self.old self.new prev entries.items) }
        ensures first { self.new.first ≡ self.old.first }
        ensures err { OnErr result (self.new ≡ self.old) }
    {
        let index = index_after(prev.index, entries.len())?;
        let from = self.take_after(prev.index, entries)?;
        Ok(Accepted::Match { index, from })
    }

    /// Takes the entries of an Append as `accept` does, if the log is known to agree with the sender's up to the index
    /// `after`. Answers the first index that was replaced or added, if any. If memory runs out, the log stays.
    pub fn take_after(&mut self, after: u64, entries: Vec<Entry>) -> Result<Option<u64>, AllocError>
        requires low { self.old.first.index ≤ after }
        requires high { after ≤ length (whole_log self.old) }
        ensures ok { IfOk result (λ from. TakesAfter self.old self.new after entries.items from) }
        ensures first { self.new.first ≡ self.old.first }
        ensures err { OnErr result (self.new ≡ self.old) }
    {
        let cut = self.cut();
        index_after(after, entries.len())?;
        let from = take_in(&mut self.entries, (after - cut) as usize, entries)?;
        Ok(first_index(after, from))
    }

    /// Whether the entries of an Append, which follow the index `prev`, would replace one at or below the index `through`.
    /// Allocates nothing; the cost is in the order of the entries that come.
    #[tactic(auto, unfolding(raft_spec::specs::Log::first_replaced), using(crate::proofs::Places::whole_count, crate::proofs::Taking::rest))]
    pub fn replaces(&self, prev: u64, coming: &[Entry], through: u64) -> bool
        requires low { self.now.first.index ≤ prev }
        requires high { prev ≤ length (whole_log self.now) }
        ensures { result ≡ (nat_lt 0 (first_replaced (whole_log self.now) prev coming.now) && nat_le (first_replaced (whole_log self.now) prev coming.now) through) }
    {
        match conflict(&self.entries, (prev - self.first.index) as usize, coming) {
            Some(n) => prev + (n as u64) < through,
            None => false,
        }
    }

    /// Adds entries at the end, which are moved: the cost is in their order, on average. If memory runs out, or the
    /// last index would be past 64 bits, the log stays.
    pub fn append(&mut self, entries: Vec<Entry>) -> Result<(), AllocError>
        ensures { self.new ≡ (if is_ok result then record self.old { entries = self.old.entries ++ entries.items } else self.old) }
    {
        let mut entries = entries;
        index_after(self.last_index(), entries.len())?;
        self.entries.append(&mut entries)?;
        Ok(())
    }

    /// The entries that are past an index, the cut or a later one, lent; none past the last index. Allocates nothing
    /// and constant time.
    pub fn tail(&self, after: u64) -> &[Entry]
        ensures { result.now ≡ drop (after - self.now.first.index) self.now.entries }
    {
        let count = self.entries.len();
        let from = after.saturating_sub(self.first.index).min(count as u64);
        &self.entries[from as usize..]
    }

    /// The entries that are past an index, the cut or a later one, and no more than this many of them, for one more
    /// owner. The cost is in the order of how many they are; none of their bytes is copied.
    pub fn copied(&self, alloc: Global, after: u64, most: usize) -> Result<Entries, AllocError>
        ensures { IfOk result (λ copy. copy ≡ take most (drop (after - self.now.first.index) self.now.entries)) }
    {
        let count = self.entries.len();
        let from = after.saturating_sub(self.first.index).min(count as u64) as usize;
        copied(alloc, &self.entries, from, from + most.min(count - from))
    }

    /// Compacts the entries up to an index. At or below the cut nothing changes; past the last index all go, and the log is
    /// compacted there. The cost is in the order of the entries, those that stay too.
    pub fn cut_to(&mut self, index: u64)
        ensures { self.new ≡ cut_at self.old index }
    {
        if index <= self.first.index {
            return;
        }
        let last = index.min(self.last_index());
        let term = self.whole_term(last);
        drop_front(&mut self.entries, (last - self.first.index) as usize);
        self.first = LogEnd { index: last, term };
    }
}
