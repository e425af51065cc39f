//! Wrong crashes and wrong checks, and that the laws refuse them.

ghost use Rattle.store_chance.specs.Wrong.{
  NoEmptyFile,
  NoFalseAlarm,
  NoLastHalf,
  NoMissedChance,
  NoStrangeBatch,
};

/// Refuses a file that is empty after a crash in the write of a block.
pub fn refuses_an_empty_file()
    ensures { NoEmptyFile }
{}

/// Refuses a file that has the last half of a write after a crash, and not the first.
pub fn refuses_the_last_half()
    ensures { NoLastHalf }
{}

/// Refuses a check that says no of metadata that was found by chance.
pub fn refuses_a_missed_chance()
    ensures { NoMissedChance }
{}

/// Refuses a check that says yes though the torn block does not read as a block.
pub fn refuses_a_false_alarm()
    ensures { NoFalseAlarm }
{}

/// Refuses a batch that a load reaches after a write that a crash kept whole, and that was neither there nor written.
pub fn refuses_a_strange_batch()
    ensures { NoStrangeBatch }
{}
