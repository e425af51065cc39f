//! The rules of a node's sessions as definitions: what a request asks for, each refusal in its order, what statements come
//! to by an engine's answers, what is proposed, and what applied entries, a lost leadership and a hang-up do to all
//! sessions. The contracts of the code cite them, and so do the laws over the lives of nodes. Nothing here runs: a law is
//! the promise of an empty function.
#![tactic(auto)]

ghost use Rattle.session_spec.specs.Allowed.{AllAreAllowed};
ghost use Rattle.session_spec.specs.Laws.{LatersKeep, LossesAreMarked, LossesAreReported, MachinesFollow, NotesTell, ProposesPages, RefusalsKeep};
ghost use Rattle.session_spec.specs.Restarts.{CommandsRestart, CountsRestart, EventsShift, LatersRestart};
ghost use Rattle.session_spec.specs.Seen.{WrittenIsSeen};

/// Whatever a request asks for, it may: what needs a leader is asked of one that serves, a new database where the log has room,
/// other servers one change at a time and of one server each, and what is done in the session's database where it has one.
pub fn all_are_allowed()
    ensures { AllAreAllowed }
{}

/// A request that is answered by a FAILURE leaves the sessions as they were, and appends nothing. A COMMIT of a transaction that was
/// lost with leadership also ends this transaction.
pub fn refusals_keep()
    ensures { RefusalsKeep }
{}

/// What is noted of an answered request are all statements that it handed to the engine, and no others; and a query that is
/// lent to a reader is the one that was handed over.
pub fn notes_tell()
    ensures { NotesTell }
{}

/// What a request proposes is the split change of pages from one image to another, with the transaction of the next entry, or
/// one entry: a new database, other servers, or a barrier. It is never a statement.
pub fn proposes_pages()
    ensures { ProposesPages }
{}

/// A query that the node runs later than it was asked, after its barrier or as a reader gave it back, keeps the same: its
/// refusals leave all as it was, what is noted is what was handed over, and what it proposes is a change of pages.
pub fn laters_keep()
    ensures { LatersKeep }
{}

/// A transaction that was open when leadership was lost is lost, unless its COMMIT was proposed. From then on each request of the
/// connection that has a statement is refused by `not leader` and runs nothing, until a COMMIT, which is refused by the same, or a
/// ROLLBACK, which gets a RESULT, ends the transaction.
pub fn losses_are_reported()
    ensures marked { LossesAreMarked }
    ensures reported { LossesAreReported }
{}

/// A command does to the databases of a node, seen as a map from names, what it does to that map.
pub fn machines_follow()
    ensures { MachinesFollow }
{}

/// What is written into a log is seen there again, in its term: commands and configurations that have an encoding.
pub fn written_is_seen()
    ensures { WrittenIsSeen }
{}

/// A request gives the same wherever a state machine's counts of commits begin, and hands the same to the engine: so a node that
/// was restored from a snapshot, and counts from there, answers as one that counts from the first entry.
pub fn counts_restart()
    ensures requests { CountsRestart }
    ensures later { LatersRestart }
{}

/// This holds for applied entries, a lost leadership, and connections that come and go; and a command does to a restored state machine
/// what it does to the other.
pub fn events_restart()
    ensures events { EventsShift }
    ensures commands { CommandsRestart }
{}
