//! Lines on the error stream about connections that were closed.

use serve_places::{MAX_CLIENTS, Refused};
use serve_threads::LineQueue;
use std::alloc::AllocError;

/// How long there are no other lines after one, in milliseconds.
const PAUSE_MS: u64 = 60_000;

/// Says how many connections were not taken, at most once a minute: what is refused meanwhile is counted, and said then. And says how many were
/// closed because of an idle transaction.
#[derive(Drop)]
pub(crate) struct RefusalLines {
    rt: HostRuntime,
    lines: LineQueue,
    next_at: u64,
}

impl RefusalLines {
    /// Nothing was said yet.
    pub(crate) fn new(rt: HostRuntime, lines: LineQueue) -> RefusalLines {
        RefusalLines {
            rt,
            lines,
            next_at: 0,
        }
    }

    /// Whether a line may be put at this moment, in milliseconds.
    pub(crate) fn may_say(&self, now: u64) -> bool {
        now >= self.next_at
    }

    /// Has a line, unless memory runs out.
    fn put(&self, line: Result<String, AllocError>) {
        if let Ok(line) = line {
            self.lines.put(line);
        }
    }

    /// Says what was refused, if anything was.
    pub(crate) fn say(&mut self, refused: Refused, now: u64) {
        let alloc = self.rt.alloc();
        let Refused { clients, strangers } = refused;
        if clients > 0 {
            self.put(format!(in alloc;
                "closed {clients} connections of clients, since {MAX_CLIENTS} others were there"
            ));
        }
        if strangers > 0 {
            self.put(format!(in alloc;
                "closed {strangers} connections with reason 6: CONNECT without the cluster's secret"
            ));
        }
        if clients > 0 || strangers > 0 {
            self.next_at = now.saturating_add(PAUSE_MS);
        }
    }

    /// Says how many connections were closed because of an idle transaction, if any were.
    pub(crate) fn say_idle(&self, count: u64) {
        if count > 0 {
            self.put(format!(in self.rt.alloc();
                "closed {count} connections of clients, since a transaction was idle"
            ));
        }
    }
}
