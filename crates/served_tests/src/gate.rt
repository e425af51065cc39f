//! Stages that two threads wait for.

use std::alloc::{AllocError, Global};
use std::sync::Arc;
use std::sync::atomic::{AtomicU64, Ordering};
use std::thread;
use std::time::{Clock, Duration};

/// A query is lent.
pub(crate) const LENT: u64 = 1;

/// A sync after that is held.
pub(crate) const HELD: u64 = 2;

/// The query is answered.
pub(crate) const ANSWERED: u64 = 3;

/// How many times a stage is looked for at most, a millisecond apart.
const TURNS: u32 = 20_000;

/// One end of the stage that was reached.
#[derive(Drop)]
pub(crate) struct Gate {
    stage: Arc<AtomicU64, Global>,
}

impl Gate {
    /// Nothing was reached.
    pub(crate) fn new(alloc: Global) -> Result<Gate, AllocError> {
        Ok(Gate {
            stage: Arc::new(alloc, AtomicU64::new(0))?,
        })
    }

    /// Another end. `Err` where there are too many.
    pub(crate) fn again(&self) -> Result<Gate, AllocError> {
        Ok(Gate {
            stage: Arc::try_clone(&self.stage)?,
        })
    }

    /// The stage that was reached.
    pub(crate) fn stage(&self) -> u64 {
        self.stage.load(Ordering::SeqCst)
    }

    /// Reaches a stage from the one before it, and says whether that was the last one.
    pub(crate) fn reach(&self, stage: u64) -> bool {
        self.stage
            .compare_exchange(
                stage.saturating_sub(1),
                stage,
                Ordering::SeqCst,
                Ordering::SeqCst,
            )
            .is_ok()
    }

    /// Waits for a stage, this many turns at most.
    pub(crate) fn wait<R: Clock>(&self, rt: &R, stage: u64) {
        for _ in 0..TURNS {
            if self.stage() >= stage {
                return;
            }
            thread::sleep(rt, Duration::from_millis(1));
        }
    }
}
