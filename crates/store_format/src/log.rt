ghost use Rattle.std.specs.Prelude.{◌≡◌, ◌≤◌, ◌<◌, ◌+◌, ◌-◌, ◌++◌, ◌&&◌, ◌==◌, ℕ, List, nat_le, nat_lt, length, take, OnOk};
ghost use Rattle.store_laws.specs.Store.{empty_log, put_batch, behind, nth_term};
ghost use Rattle.store_laws.specs.WholeLoad.{is_stale};

use raft_messages::{Entries, Entry};
use std::alloc::{AllocError, Global};
use std::marker::Model;

/// The log that batches make, one after another.
#[derive(Drop)]
pub struct BatchLog {
    first: u64,
    entries: Vec<Entry>,
}

impl Model for BatchLog {
    ghost use Rattle.std.specs.Prelude.{◌<◌};
    ghost use Rattle.store_laws.specs.Store.{Log};

    ghost Value = { Log };

    ghost view = { λ l. record { first = l.first; entries = l.entries.items } };

    // Indices begin at 1.
    ghost invariant = { λ l. 0 < l.first };
}

// The term of the entry at a place.
fn term_of(entries: &[Entry], place: usize) -> u64
    requires { place < length entries.now }
    ensures { result ≡ nth_term entries.now place }
{
    let entry = &entries[place];
    entry.term
}

impl BatchLog {
    /// The log before the first batch.
    pub fn new(alloc: Global) -> BatchLog
        ensures { result ≡ empty_log }
    {
        BatchLog {
            first: 1,
            entries: Vec::new(alloc),
        }
    }

    /// The index of the first entry.
    pub fn first(&self) -> u64
        ensures { result ≡ self.now.first }
    {
        self.first
    }

    fn count(&self) -> u64
        ensures { result ≡ length self.now.entries }
    {
        self.entries.len() as u64
    }

    // Whether an index lies in the log or right after it.
    fn reaches(&self, index: u64) -> bool
        ensures { result ≡ (nat_le self.now.first index && nat_le index (self.now.first + length self.now.entries)) }
    {
        let first = self.first();
        first <= index && index - first <= self.count()
    }

    fn replace_from(&mut self, index: u64, entries: Vec<Entry>) -> Result<(), AllocError>
        requires { self.old.first ≤ index }
        ensures { OnOk result (self.new ≡ record { first = self.old.first; entries = take (index - self.old.first) self.old.entries ++ entries.items }) }
    {
        let mut entries = entries;
        self.entries.truncate((index - self.first) as usize);
        self.entries.append(&mut entries)
    }

    fn become_batch(&mut self, first: u64, entries: Vec<Entry>)
        requires { 0 < first }
        ensures { self.new ≡ record { first = first; entries = entries.items } }
    {
        self.first = first;
        self.entries = entries;
    }

    /// One batch more: it replaces the log from its first index on, if that lies in the log or right after it, and
    /// else becomes the whole log. No entry is copied. `Err` means out of memory, after which nothing is said of the
    /// log.
    #[tactic(auto, unfolding(store_laws::specs::Store::put_batch))]
    pub fn put(&mut self, first: u64, entries: Entries) -> Result<(), AllocError>
        requires { 0 < first }
        ensures { OnOk result (self.new ≡ put_batch self.old (record { first = first; entries = entries })) }
    {
        let entries = entries.into_vec();
        if self.reaches(first) {
            return self.replace_from(first, entries);
        }
        self.become_batch(first, entries);
        Ok(())
    }

    // Whether the log has an entry at an index.
    fn has(&self, index: u64) -> bool
        requires { self.now.first ≤ index }
        ensures { result ≡ nat_lt index (self.now.first + length self.now.entries) }
    {
        index - self.first() < self.count()
    }

    // The term of the entry at an index.
    fn term_at(&self, index: u64) -> u64
        requires from { self.now.first ≤ index }
        requires upto { index < self.now.first + length self.now.entries }
        ensures { result ≡ nth_term self.now.entries (index - self.now.first) }
    {
        term_of(self.entries.as_slice(), (index - self.first) as usize)
    }

    // Whether the log has an entry of this term at an index.
    fn matches(&self, index: u64, term: u64) -> bool
        requires { self.now.first ≤ index }
        ensures { result ≡ (nat_lt index (self.now.first + length self.now.entries) && (nth_term self.now.entries (index - self.now.first) == term)) }
    {
        self.has(index) && self.term_at(index) == term
    }

    /// Whether the log has an entry at the snapshot's index, of another term.
    pub fn is_stale(&self, index: u64, term: u64) -> bool
        ensures { (bytes : List ℕ) → result ≡ is_stale (record { index = index; term = term; bytes = bytes }) self.now }
    {
        self.first() <= index && self.has(index) && self.term_at(index) != term
    }

    /// The log after a snapshot: without all entries, where it has none of the snapshot's term at its index and begins
    /// there or before.
    #[tactic(auto, unfolding(store_laws::specs::Store::behind))]
    pub fn behind(self, index: u64, term: u64) -> BatchLog
        requires { index < 18446744073709551615 }
        ensures { (bytes : List ℕ) → result ≡ behind (record { index = index; term = term; bytes = bytes }) self }
    {
        if index < self.first() || self.matches(index, term) {
            return self;
        }
        let mut log = self;
        log.entries.clear();
        log.first = index + 1;
        log
    }

    /// Its parts: the index of the first entry, and the entries.
    pub fn into_parts(self) -> (u64, Entries)
        ensures first { result.0 ≡ self.first }
        ensures begins { 0 < result.0 }
        ensures entries { result.1 ≡ self.entries }
    {
        (self.first, Entries::new(self.entries))
    }
}
