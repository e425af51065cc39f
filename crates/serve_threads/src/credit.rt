//! How many events of one post may wait for the node.

use std::alloc::{AllocError, Global};
use std::sync::atomic::{AtomicU64, Ordering};
use std::sync::{Arc, Wait};

/// The events that may still be posted, and how many threads may sleep until there is one.
#[derive(Drop)]
struct Shared {
    free: AtomicU64,
    sleepers: AtomicU64,
}

/// The events that a post may still post.
#[derive(Drop)]
pub(crate) struct Credit {
    shared: Arc<Shared, Global>,
}

/// An event's part of a credit, which its post gets back once this is dropped: when the event is taken, or with an inbox that never took
/// it.
pub(crate) struct Debit {
    shared: Arc<Shared, Global>,
}

impl Credit {
    /// This many events may be posted.
    pub(crate) fn new(alloc: Global, events: u32) -> Result<Credit, AllocError> {
        let shared = Shared {
            free: AtomicU64::new(events as u64),
            sleepers: AtomicU64::new(0),
        };
        Ok(Credit {
            shared: Arc::new(alloc, shared)?,
        })
    }

    /// Waits until an event may be posted, and takes it off. `Err` where there are too many.
    pub(crate) fn take<R: Wait>(&self, rt: &R) -> Result<Debit, AllocError> {
        let shared = Arc::try_clone(&self.shared)?;
        self.shared.wait(rt);
        Ok(Debit { shared })
    }
}

impl Shared {
    /// Takes an event off, if one may be posted. It tries again where another thread changed the count.
    fn try_take(&self) -> bool {
        for _ in 0..u64::MAX {
            let free = self.free.load(Ordering::SeqCst);
            if free == 0 {
                return false;
            }
            let taken = self
                .free
                .compare_exchange(free, free - 1, Ordering::SeqCst, Ordering::SeqCst);
            if taken.is_ok() {
                return true;
            }
        }
        false
    }

    /// Waits until an event may be posted, and takes it off. Who gives one back looks for sleepers after that, and a sleep begins only
    /// if there is still none: so no event that is given back is missed.
    fn wait<R: Wait>(&self, rt: &R) {
        for _ in rt.forever() {
            if self.try_take() {
                return;
            }
            self.sleepers.fetch_add(1, Ordering::SeqCst);
            self.free.park(rt, 0);
            self.sleepers.fetch_sub(1, Ordering::SeqCst);
        }
    }

    /// An event may be posted more.
    fn give(&self) {
        self.free.fetch_add(1, Ordering::SeqCst);
        if self.sleepers.load(Ordering::SeqCst) != 0 {
            self.free.wake_one();
        }
    }
}

impl Drop for Debit {
    fn drop(self) {
        let Debit { shared } = self;
        shared.give();
    }
}
