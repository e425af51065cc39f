//! The rules of compaction: when a snapshot is due, what stays of the log, which peer needs it, and what becomes of the
//! log when one comes.
ghost use Rattle.std.specs.Prelude.{◌≡◌, ◌≢◌, ◌⊎◌, ◌<◌, ◌≤◌, ◌+◌, ◌-◌, ◌↔◌, IsTrue, Some, nat_le};
ghost use Rattle.raft_log.specs.Compacting.{is_due, first_kept, needs, plan_for};

use raft_messages::LogEnd;
use std::marker::Model;

/// From this many entries past its last snapshot on a node takes another one.
const SNAPSHOT_DISTANCE: u64 = 64;

/// This many entries up to a snapshot stay in the log, for peers that lag a little.
const KEPT_ENTRIES: u64 = 16;

/// What becomes of the log when a snapshot comes.
#[derive(Clone, Copy, Debug, PartialEq, Eq)]
pub enum InstallPlan {
    /// The snapshot says nothing new.
    Old,
    /// The log has the snapshot's end: the entries after it stay.
    KeepRest,
    /// The log doesn't have it: no entry stays.
    Replace,
}

/// The rules of compaction at a node whose last snapshot ends at a place; 0 and 0 is no snapshot. Clauses see it as that
/// place. No call takes memory, and each takes constant time.
#[derive(Clone, Copy, Debug, PartialEq, Eq)]
pub struct Compact {
    last: LogEnd,
}

impl Model for Compact {
    ghost use Rattle.raft_spec.specs.Log.{LogEnd as LogEndValue};

    ghost Value = { LogEndValue };

    ghost view = { λ c. c.last };

    ghost inverse = { λ e. record { last = e } };
}

impl Compact {
    /// The rules for a snapshot that ends there.
    pub fn new(last: LogEnd) -> Compact
        ensures { result ≡ last }
    {
        Compact { last }
    }

    /// Whether another snapshot is due: the applied index is 64 or more past the snapshot's.
    pub fn due(&self, applied: u64) -> bool
        ensures { result ≡ is_due self.now applied }
    {
        applied >= self.last.index && applied - self.last.index >= SNAPSHOT_DISTANCE
    }

    /// The first index that stays in the log with a snapshot at the index: 16 entries up to there stay.
    pub fn keep_from(&self, index: u64) -> u64
        ensures { result ≡ first_kept index }
    {
        index.saturating_sub(KEPT_ENTRIES - 1).max(1)
    }

    /// Whether a peer whose next entry has the index `next` needs the snapshot, with a log that begins at the index
    /// `first`, at least 1: its next entry is compacted, or it is the first one, and the term before it isn't known.
    pub fn needs_snapshot(&self, next: u64, first: u64) -> bool
        requires { 0 < first }
        ensures { result ≡ needs self.now next first }
    {
        next < first || next == first && first != 1 && first - 1 != self.last.index
    }

    /// What becomes of the log when a snapshot comes that ends at a place: nothing if its index is applied; if the
    /// log's own term there is the snapshot's, the entries after it stay; else none. `own` is that term, if it is known.
    pub fn plan(&self, offered: LogEnd, applied: u64, own: Option<u64>) -> InstallPlan
        ensures { result ≡ plan_for offered applied own }
    {
        if offered.index <= applied {
            return InstallPlan::Old;
        }
        if own == Some(offered.term) {
            return InstallPlan::KeepRest;
        }
        InstallPlan::Replace
    }
}
