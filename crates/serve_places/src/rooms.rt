//! The room that all connections share for what waits.

ghost use Rattle.std.specs.Prelude.{◌≡◌, ◌≤◌, ◌-◌, true, false, get_or};
ghost use Rattle.serve_places.specs.Rooms.{common_bytes};

use crate::limits::{MAX_COMMON_BYTES, MAX_SOCKETS, OWN_BYTES};
use std::alloc::{AllocError, Global};

/// How many bytes of the common room each socket has, which is what waits there beyond its own 1 MiB, and how many all have.
#[derive(Drop)]
pub(crate) struct Rooms {
    lent: Vec<u64>,
    common: u64,
    ghost counted: { common ≡ common_bytes lent.items },
    ghost within: { common ≤ 100663296 },
}

impl Rooms {
    /// Nothing waits.
    pub(crate) fn new(alloc: Global) -> Result<Rooms, AllocError> {
        let lent = vec![in alloc; 0u64; MAX_SOCKETS]?;
        Ok(Rooms { lent, common: 0 })
    }

    /// How many bytes of the common room a socket has.
    fn lent_at(&self, at: usize) -> u64
        ensures { result ≡ get_or self.now.lent.items at 0 }
    {
        match self.lent.get(at) {
            Some(lent) => *lent,
            None => 0,
        }
    }

    /// This number of bytes waits at a socket from now on, if there is room for that, and nothing changes otherwise. Says whether there was.
    #[tactic(auto, using(crate::proofs::Adding::lent_now))]
    pub(crate) fn set(&mut self, at: usize, waiting: u64) -> bool
        ensures lent { result ≡ true → get_or self.new.lent.items at 0 ≡ waiting - 1048576 }
        ensures kept { result ≡ false → self.new ≡ self.old }
    {
        let lent = waiting.saturating_sub(OWN_BYTES);
        if at >= self.lent.len() {
            return false;
        }
        let others = self.common.saturating_sub(self.lent_at(at));
        let Some(common) = others.checked_add(lent) else {
            return false;
        };
        if common > MAX_COMMON_BYTES {
            return false;
        }
        self.lent[at] = lent;
        self.common = common;
        true
    }
}
