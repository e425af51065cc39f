//! The sessions of a node over every list of events: requests with the answers of an engine, entries that are applied
//! later than they were proposed, leadership that comes and goes, entries of others between its own, connections that
//! come and go. Nothing here runs: each law is the promise of an empty function, and it holds under every engine.
#![tactic(auto)]

ghost use Rattle.session_safety.specs.Staying.{RequestsStayInside, TransactionsStay};
ghost use Rattle.session_safety.specs.Alone.{AloneIsSafe, TurnsSay, TurnsSee, ScriptsAreSafe};
ghost use Rattle.session_safety.specs.Answering.{RequestsAreAnswered, TransactionsRun};
ghost use Rattle.session_safety.specs.Examples.{
  WriteWaits,
  OldImages,
  TurnEnds,
  ProposalStays,
  LeadershipGoes,
  BarrierWaits,
  ReadersTell,
  TransactionFits,
};
ghost use Rattle.session_safety.specs.Laws.{
  LivesAreSafe,
  LivesLast,
  AnsweredHere,
  AnswersCome,
  LivesWeave,
  OneTurn,
  ChangesTakeTurns,
  CommitsPass,
  FlightsStand,
  IdleIsEmpty,
  LivesSee,
  QueriesHaveDatabases,
};
ghost use Rattle.session_safety.specs.Lending.{JobsAreKnown, JobsStay, LatersStay};
ghost use Rattle.session_safety.specs.Logs.{OneCommit, CommitsApply, OnlyCommits, UndosClear};

use sql_engine::Engine;

/// Each reply of a node's life is right by the entries that the node has applied. An answered commit's entries are the
/// change of pages from the image right before the first of them to the image after the last, and its statements ran
/// between these two images. Rows are what a query gives over an image that is no older than what its connection saw; in
/// a transaction, over what its statements so far made of it.
pub fn lives_are_safe<E: Engine>()
    ensures { (kind : _) → LivesAreSafe (E.meaning kind) kind }
{}

/// What was applied stays, and what was said. So a law of the end of a list of events speaks of all later moments.
pub fn lives_last<E: Engine>()
    ensures { (kind : _) → LivesLast (E.meaning kind) kind }
{}

/// A reply that waited for an entry is said where the node, leading in the term of that entry, has just applied it.
pub fn answered_here<E: Engine>()
    ensures { (kind : _) → AnsweredHere (E.meaning kind) kind }
{}

/// What a connection has seen is not below what any of its earlier replies rests on, be it a query's image or a commit. It
/// counts from where the connection came: a number that comes again is another connection.
pub fn lives_see<E: Engine>()
    ensures { (kind : _) → LivesSee (E.meaning kind) kind }
{}

/// A pending proposal whose client is there is answered in the event that applies its last entry, or with the refusal of
/// a lost leadership where that is lost before.
pub fn answers_come<E: Engine>()
    ensures { (kind : _) → AnswersCome (E.meaning kind) kind }
{}

/// The replies to a connection are those to its requests that are handled, one by one and in order: rows are of the request's
/// statement, a commit is of its statements and those of its transaction, and a reply is owed exactly if a proposal is in
/// pending proposal. A transaction's statements are those of its requests that weren't refused, in order.
pub fn requests_are_answered<E: Engine>()
    ensures replies { (kind : _) → RequestsAreAnswered (E.meaning kind) kind }
    ensures transactions { TransactionsRun }
{}

/// At most one session has the write lock of a database, at any time.
pub fn one_turn<E: Engine>()
    ensures { (kind : _) → OneTurn (E.meaning kind) kind }
{}

/// A transaction that never took the write lock has the image that it pinned: no change is lost where its COMMIT ends it at
/// once.
pub fn changes_take_turns<E: Engine>()
    ensures { (kind : _) → ChangesTakeTurns (E.meaning kind) kind }
{}

/// If a transaction changed pages, no one else has the write lock of its database and no commit came since it began: its
/// COMMIT is refused neither for the write lock nor for an old image.
pub fn commits_pass<E: Engine>()
    ensures { (kind : _) → CommitsPass (E.meaning kind) kind }
{}

/// If a node doesn't serve, no session has a transaction, a pending proposal or a query that is due: so none begins between a
/// lost leadership and the next service, and a state machine that comes in a snapshot meanwhile has no marks to carry over.
pub fn idle_is_empty<E: Engine>()
    ensures { (kind : _) → IdleIsEmpty (E.meaning kind) kind }
{}

/// The log of each life is woven: the entries of each transaction are in one piece.
pub fn lives_weave<E: Engine>()
    ensures { (kind : _) → LivesWeave (E.meaning kind) kind }
{}

/// In a woven log a transaction has at most one commit and no pages after it, and a commit applies the pages of its own
/// entries and no others. In any log an image changes by commits alone.
pub fn commits_stand_alone()
    ensures once { OneCommit }
    ensures alone { CommitsApply }
    ensures only { OnlyCommits }
{}

/// After one Undo for each database with pending pages nothing is pending anywhere, so that a leader may begin to serve.
pub fn undos_clear()
    ensures { UndosClear }
{}

/// A pending write already is whole in the node's log, ahead of what is applied and in the node's term, and is right
/// by that log as a commit.
pub fn flights_stand<E: Engine>()
    ensures { (kind : _) → FlightsStand (E.meaning kind) kind }
{}

/// A session with a query that waits for its answer has opened a database: while the query's barrier is pending, once it is due,
/// and while a reader has it. This holds after any list of events, whatever an engine answers.
pub fn queries_have_databases()
    ensures { QueriesHaveDatabases }
{}

/// The job of a query that a reader has, the query over the image of the moment at which it was lent, stays the same until its reader
/// is done or gives it back, or the client goes. It is the last one that was handed out for its connection, by a request; a query that
/// is run later than it was asked is never lent.
pub fn jobs_stay<E: Engine>()
    ensures stay { (kind : _) → JobsStay (E.meaning kind) kind }
    ensures known { (kind : _) → JobsAreKnown (E.meaning kind) kind }
    ensures later { LatersStay }
{}

/// A client that has begun a transaction keeps it, open or lost, until it ends it by COMMIT or ROLLBACK: no statement of its
/// connection runs outside of the transaction, and neither an applied entry nor lost leadership ends it, unless its COMMIT is
/// proposed.
pub fn transactions_stay()
    ensures requests { RequestsStayInside }
    ensures events { TransactionsStay }
{}

/// One voter that never stops: after each turn all of its log is applied, each reply is right by it, its log is woven, and
/// no request waits; a reply that waited for an entry is said in the turn that applies this entry; and what a connection has
/// seen is not below what its earlier replies rest on. This also holds for the lines of a script with one journal, of which each
/// request takes its answers off the front; that run ends before a request that lacks one.
pub fn alone_is_safe<E: Engine>()
    ensures turns { (kind : _) → AloneIsSafe (E.meaning kind) kind }
    ensures in_turn { (kind : _) → TurnsSay (E.meaning kind) kind }
    ensures seen { (kind : _) → TurnsSee (E.meaning kind) kind }
    ensures scripts { (kind : _) → ScriptsAreSafe (E.meaning kind) kind }
{}

/// Small lives under the engine of cells, computed: a write is answered when it is applied, a transaction reads its own image
/// and can't write over an old one, a hang-up ends the write lock and leaves a proposal, a leader that is deposed refuses
/// what it proposed, a query with barrier reads waits for its barrier, and one that is cut is lent to a reader. And a life in
/// which a transaction is committed and read, each event of which fits. So no law is empty.
pub fn lives_are_made()
    ensures write { WriteWaits }
    ensures old_images { OldImages }
    ensures turn { TurnEnds }
    ensures proposal { ProposalStays }
    ensures lost { LeadershipGoes }
    ensures barrier { BarrierWaits }
    ensures readers { ReadersTell }
    ensures fits { TransactionFits }
{}
