//! Entries that join the log, one after another.
ghost use Rattle.std.specs.Prelude.{◌≡◌, ◌<◌, ◌||◌, suc, IfOk};
ghost use Rattle.raft_membership.specs.Members.{Joined, last_index};

use crate::members::Members;
use raft_messages::Entry;
use std::alloc::{AllocError, Global};

fn either(one: bool, other: bool) -> bool
    ensures { result ≡ (one || other) }
{
    one || other
}

// The index after one. One past 64 bits means out of memory.
fn index_after(index: u64) -> Result<u64, AllocError>
    ensures { IfOk result (λ next. next ≡ suc index) }
{
    match index.checked_add(1) {
        Some(next) => Ok(next),
        None => Err(AllocError),
    }
}

fn join(
    alloc: Global,
    members: &mut Members,
    first: u64,
    entries: &[Entry],
) -> Result<bool, AllocError>
    requires { last_index members.old < first }
    ensures { IfOk result (λ told. Joined members.old members.new first entries.now told) }
{
    let mut told = false;
    let mut index = first;
    for entry in entries {
        let changes = members.take_in(alloc, index, entry)?;
        told = either(changes, told);
        index = index_after(index)?;
    }
    Ok(told)
}

impl Members {
    /// These entries join the log, the first one at an index past the last change's. True where one of them is a change that
    /// reads: else all stays. Reads each entry once. `Err` means out of memory, or an index past 64 bits; some of them have
    /// joined then.
    pub fn take_all(
        &mut self,
        alloc: Global,
        first: u64,
        entries: &[Entry],
    ) -> Result<bool, AllocError>
        requires { last_index self.old < first }
        ensures { IfOk result (λ told. Joined self.old self.new first entries.now told) }
    {
        join(alloc, self, first, entries)
    }
}
