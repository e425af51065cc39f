//! Wrong answers of a node, and that the laws refuse them.

ghost use Rattle.reply_safety.specs.Wrong.{
  NoDroppedCommit,
  NoDroppedWrite,
  NoLostUpdate,
  NoOldReader,
  NoOtherCount,
  NoOtherQuery,
  NoOtherReading,
  NoOtherRows,
  NoOtherWrite,
  NoStaleBegin,
};

use sql_engine::Engine;

/// Refuses a RESULT at once for a write outside a transaction.
pub fn refuses_a_dropped_write<E: Engine>()
    ensures { (kind : _) → NoDroppedWrite (E.meaning kind) }
{}

/// Refuses a proposal that leads to another image than its statement.
pub fn refuses_another_write<E: Engine>()
    ensures { (kind : _) → NoOtherWrite (E.meaning kind) }
{}

/// Refuses a RESULT with another number of rows than the statement changed.
pub fn refuses_another_count<E: Engine>()
    ensures { (kind : _) → NoOtherCount (E.meaning kind) }
{}

/// Refuses a transaction that begins over an image that is not the newest.
pub fn refuses_a_stale_begin<E: Engine>()
    ensures { (kind : _) → NoStaleBegin (E.meaning kind) }
{}

/// Refuses an answer at once to the COMMIT of a transaction that has changed its image.
pub fn refuses_a_dropped_commit<E: Engine>()
    ensures { (kind : _) → NoDroppedCommit (E.meaning kind) }
{}

/// Refuses a COMMIT that is proposed after another commit of its database came.
pub fn refuses_a_lost_update<E: Engine>()
    ensures { (kind : _) → NoLostUpdate (E.meaning kind) }
{}

/// Refuses a query that a reader gets over an image that is not the newest.
pub fn refuses_an_old_reader<E: Engine>()
    ensures { (kind : _) → NoOldReader (E.meaning kind) }
{}

/// Refuses a barrier for another query than the one that was asked.
pub fn refuses_another_query<E: Engine>()
    ensures { (kind : _) → NoOtherQuery (E.meaning kind) }
{}

/// Refuses rows, after a barrier, that the query does not give over the newest image.
pub fn refuses_other_rows<E: Engine>()
    ensures { (kind : _) → NoOtherRows (E.meaning kind) }
{}

/// Refuses a reader's rows that the query does not give over the image of its job.
pub fn refuses_another_reading<E: Engine>()
    ensures { (kind : _) → NoOtherReading (E.meaning kind) }
{}
