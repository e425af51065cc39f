//! Wrong lists of changes and wrong files, and that the laws refuse them.

ghost use Rattle.change_safety.specs.Wrong.{
  NoFewerChanges,
  NoHiddenDatabase,
  NoLostChange,
  NoOtherImage,
  NoSecondOpening,
  NoUnfinishedChange,
};

/// Refuses an entry that takes an earlier change away.
pub fn refuses_fewer_changes()
    ensures { NoFewerChanges }
{}

/// Refuses a change of an entry that opens a database which is there.
pub fn refuses_a_second_opening()
    ensures { NoSecondOpening }
{}

/// Refuses a change of pages whose transaction has not ended.
pub fn refuses_an_unfinished_change()
    ensures { NoUnfinishedChange }
{}

/// Refuses a database that lacks its last change.
pub fn refuses_a_lost_change()
    ensures { NoLostChange }
{}

/// Refuses a node that shows no files of a database that it has.
pub fn refuses_a_hidden_database()
    ensures { NoHiddenDatabase }
{}

/// Refuses a node that shows another image than the one that it has.
pub fn refuses_another_image()
    ensures { NoOtherImage }
{}
