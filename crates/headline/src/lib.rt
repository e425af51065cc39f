//! The headline of a cluster: what a client may rely on, about what is seen from outside. Nothing here runs. Each law is the
//! promise of an empty function, and holds whatever statements mean.
#![tactic(auto)]

ghost use Rattle.headline.specs.Laws.{
  AResultIsCommitted,
  NoLostWrite,
  NoWriteLostLater,
  NoResultForText,
  NoResultForLeftOut,
  NoResultForNumber,
  NoResultForMessage,
  NoEmptyForNumber,
  NoNumberTwice,
  NoAnswerFromElsewhere,
  NoAnswerAfterClose,
  NoAnswerUnasked,
  NoStaleRead,
  NoSkippedBarrier,
  NoStaleReadLater,
  NoStaleReadHere,
  NoStaleBegin,
  NoStaleDump,
  NoDirtyRead,
  NoOtherReply,
  NoRefusedWrite,
  NoLateWrite,
  NoLateWriteAfterBarrier,
  NoLateWriteOfDownNode,
  NoSwappedWrites,
  NoLossWhileLeading,
  NoRolledBackWrite,
  NoCommitInParts,
  NoLostUpdate,
  NoWriteAfterLoss,
  NoOtherFiles,
  NoStepBack,
  AHistoryIsAllowed,
  RollbackIsAllowed,
};
ghost use Rattle.headline.specs.Toy.{PremisesAreMet};

use sql_engine::Engine;

/// Whatever follows a result of a write that changes every image, the write is among the changes.
pub fn a_result_is_committed<E: Engine>()
    ensures { (kind : _) → AResultIsCommitted (E.meaning kind) }
{}

/// Refuses a node that answers a write and then shows files without it.
pub fn no_lost_write<E: Engine>()
    ensures { (kind : _) → NoLostWrite (E.meaning kind) }
{}

/// Refuses files without an answered write at a node that leads after the first one went down, and
/// answered a later write.
pub fn no_write_lost_later<E: Engine>()
    ensures { (kind : _) → NoWriteLostLater (E.meaning kind) }
{}

/// Refuses a result for a text that can't be split into statements.
pub fn no_result_for_text<E: Engine>()
    ensures { (kind : _) → NoResultForText (E.meaning kind) }
{}

/// Refuses a result for a statement that is left out, as PRAGMA.
pub fn no_result_for_left_out<E: Engine>()
    ensures { (kind : _) → NoResultForLeftOut (E.meaning kind) }
{}

/// Refuses a result for a number under which no statement was prepared.
pub fn no_result_for_number<E: Engine>()
    ensures { (kind : _) → NoResultForNumber (E.meaning kind) }
{}

/// Refuses a result for a message that does not read as a request.
pub fn no_result_for_message<E: Engine>()
    ensures { (kind : _) → NoResultForMessage (E.meaning kind) }
{}

/// Refuses an answer to FINALIZE of a number under which no statement was prepared.
pub fn no_empty_for_number<E: Engine>()
    ensures { (kind : _) → NoEmptyForNumber (E.meaning kind) }
{}

/// Refuses a PREPARE that reports a number in use.
pub fn no_number_twice<E: Engine>()
    ensures { (kind : _) → NoNumberTwice (E.meaning kind) }
{}

/// Refuses an answer from another node than the one that the connection leads to.
pub fn no_answer_from_elsewhere<E: Engine>()
    ensures { (kind : _) → NoAnswerFromElsewhere (E.meaning kind) }
{}

/// Refuses an answer on a connection that was closed.
pub fn no_answer_after_close<E: Engine>()
    ensures { (kind : _) → NoAnswerAfterClose (E.meaning kind) }
{}

/// Refuses an answer to no message.
pub fn no_answer_unasked<E: Engine>()
    ensures { (kind : _) → NoAnswerUnasked (E.meaning kind) }
{}

/// Refuses rows without a write that was answered on the same connection.
pub fn no_stale_read<E: Engine>()
    ensures { (kind : _) → NoStaleRead (E.meaning kind) }
{}

/// Refuses rows without an answered write if the query waits for a barrier, at any node.
pub fn no_skipped_barrier<E: Engine>()
    ensures { (kind : _) → NoSkippedBarrier (E.meaning kind) }
{}

/// Refuses rows without an answered write if their node began to lead after the answer.
pub fn no_stale_read_later<E: Engine>()
    ensures { (kind : _) → NoStaleReadLater (E.meaning kind) }
{}

/// Refuses rows without a write that the same node answered on another connection.
pub fn no_stale_read_here<E: Engine>()
    ensures { (kind : _) → NoStaleReadHere (E.meaning kind) }
{}

/// Refuses rows in a transaction without a write that the same node answered before BEGIN.
pub fn no_stale_begin<E: Engine>()
    ensures { (kind : _) → NoStaleBegin (E.meaning kind) }
{}

/// Refuses files, in an answer to DUMP, without a write that was answered on the same connection.
pub fn no_stale_dump<E: Engine>()
    ensures { (kind : _) → NoStaleDump (E.meaning kind) }
{}

/// Refuses rows of a write that the node has not applied.
pub fn no_dirty_read<E: Engine>()
    ensures { (kind : _) → NoDirtyRead (E.meaning kind) }
{}

/// Refuses rows that the query gives over no image.
pub fn no_other_reply<E: Engine>()
    ensures { (kind : _) → NoOtherReply (E.meaning kind) }
{}

/// Refuses a write that is committed though it was refused by another code than 10506.
pub fn no_refused_write<E: Engine>()
    ensures { (kind : _) → NoRefusedWrite (E.meaning kind) }
{}

/// Refuses a write that was refused by 10506 and is committed after a later answered write.
pub fn no_late_write<E: Engine>()
    ensures { (kind : _) → NoLateWrite (E.meaning kind) }
{}

/// Refuses a write that was refused by 10506 and is committed after a query with a barrier did not
/// find it.
pub fn no_late_write_after_barrier<E: Engine>()
    ensures { (kind : _) → NoLateWriteAfterBarrier (E.meaning kind) }
{}

/// Refuses a write of a node that went down, if it is committed after a later answered write.
pub fn no_late_write_of_down_node<E: Engine>()
    ensures { (kind : _) → NoLateWriteOfDownNode (E.meaning kind) }
{}

/// Refuses two writes of one connection in the other order.
pub fn no_swapped_writes<E: Engine>()
    ensures { (kind : _) → NoSwappedWrites (E.meaning kind) }
{}

/// Refuses a query that is refused by 10506 by a node that still leads.
pub fn no_loss_while_leading<E: Engine>()
    ensures { (kind : _) → NoLossWhileLeading (E.meaning kind) }
{}

/// Refuses a write of a transaction that is committed though the transaction was rolled back.
pub fn no_rolled_back_write<E: Engine>()
    ensures { (kind : _) → NoRolledBackWrite (E.meaning kind) }
{}

/// Refuses a write of a transaction that is committed though the COMMIT or ROLLBACK after it was
/// refused by another code than 10506.
pub fn no_commit_in_parts<E: Engine>()
    ensures { (kind : _) → NoCommitInParts (E.meaning kind) }
{}

/// Refuses a COMMIT if another write of the database was answered since BEGIN.
pub fn no_lost_update<E: Engine>()
    ensures { (kind : _) → NoLostUpdate (E.meaning kind) }
{}

/// Refuses a result for a write that follows a reported loss of its transaction, with neither
/// COMMIT nor ROLLBACK between.
pub fn no_write_after_loss<E: Engine>()
    ensures { (kind : _) → NoWriteAfterLoss (E.meaning kind) }
{}

/// Refuses other files at two nodes that have applied the same index.
pub fn no_other_files<E: Engine>()
    ensures { (kind : _) → NoOtherFiles (E.meaning kind) }
{}

/// Refuses a lower index at a node that did not go down.
pub fn no_step_back<E: Engine>()
    ensures { (kind : _) → NoStepBack (E.meaning kind) }
{}

/// Allows a small history: a write, a node that goes down, another leader, and a query with a
/// barrier that finds the write.
pub fn a_history_is_allowed<E: Engine>()
    ensures { (kind : _) → AHistoryIsAllowed (E.meaning kind) }
{}

/// Allows a ROLLBACK that is answered by RESULT after its transaction was reported as lost.
pub fn rollback_is_allowed<E: Engine>()
    ensures { (kind : _) → RollbackIsAllowed (E.meaning kind) }
{}

/// The premises of these laws can be met, by a small language.
pub fn premises_are_met()
    ensures { PremisesAreMet }
{}
