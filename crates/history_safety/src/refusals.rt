//! Wrong histories, and that the laws refuse them.

ghost use Rattle.history_safety.specs.Wrong.{
  NoMarkLostByChange,
  NoMarkLostInside,
  NoMarkLostLater,
  NoWriteLostEver,
};

use sql_engine::Engine;

/// Refuses a transaction that has lost what the image of its BEGIN had.
pub fn refuses_a_mark_lost_inside<E: Engine>()
    ensures { (kind : _) → NoMarkLostInside (E.meaning kind) }
{}

/// Refuses a change that lacks what the change before it had made.
pub fn refuses_a_mark_lost_by_a_change<E: Engine>()
    ensures { (kind : _) → NoMarkLostByChange (E.meaning kind) }
{}

/// Refuses a database that lacks, after any changes, what the first one had made.
pub fn refuses_a_mark_lost_later<E: Engine>()
    ensures { (kind : _) → NoMarkLostLater (E.meaning kind) }
{}

/// Refuses files without an answered write at its node, however long after the answer.
pub fn refuses_a_write_lost_ever<E: Engine>()
    ensures { (kind : _) → NoWriteLostEver (E.meaning kind) }
{}
