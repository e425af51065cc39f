//! Wrong runs, and that the laws refuse them.

ghost use Rattle.append_safety.specs.Wrong.{
  NoAppliedReplaced,
  NoEntryWithoutLeader,
  NoNewBeforeOld,
  NoOtherEntryBelow,
  NoSwappedAppends,
};

/// Refuses an applied entry that no leader appended.
pub fn refuses_an_entry_without_leader()
    ensures { NoEntryWithoutLeader }
{}

/// Refuses an entry that was first appended after the entry that follows it.
pub fn refuses_swapped_appends()
    ensures { NoSwappedAppends }
{}

/// Refuses a log that has another entry than the applied list before an entry that both have.
pub fn refuses_another_entry_below()
    ensures { NoOtherEntryBelow }
{}

/// Refuses an entry that is applied before another one that was in a log before it was appended.
pub fn refuses_a_new_entry_before_an_old_one()
    ensures { NoNewBeforeOld }
{}

/// Refuses an entry that a leader appends at an index at which another one was applied.
pub fn refuses_a_replaced_entry()
    ensures { NoAppliedReplaced }
{}
