//! A cluster of whole nodes: Raft's world, with changing voters, snapshots and stops inside a step, and beside it the
//! sessions of each node. Nothing here runs: each law is the promise of an empty function, and it holds under every engine.
#![tactic(auto)]

ghost use Rattle.cluster_model.specs.Examples.{RunFits, RunIsSafe, RunSays, SecondLeads};
ghost use Rattle.cluster_model.specs.Laws.{
  AlikeFiles,
  AnswersInTime,
  BarrierQueries,
  BarriersRead,
  ChosenWhole,
  ClustersAnswer,
  ClustersAreSafe,
  ClustersSee,
  FlightsWhole,
  FreshQueries,
  RepliesStay,
  StopsAreSafe,
};
ghost use Rattle.cluster_model.specs.Proposals.{FollowsLog, ProposalsSeen, ProposalsWeave};
ghost use Rattle.cluster_model.specs.Weaving.{ChosenWeaves, LogsWeave, LogsWeaveMidway};

use sql_engine::Engine;

/// If each proposal of a leader keeps its log woven, so are all logs of all nodes, at all times and after each step, and so
/// are the chosen entries.
#[tactic(auto, using(crate::proofs::Weavings::logs_weave_hold, crate::proofs::Weavings::midway_weave_holds, crate::proofs::Weavings::chosen_weaves_hold))]
pub fn logs_weave()
    ensures logs { LogsWeave }
    ensures midway { LogsWeaveMidway }
    ensures chosen { ChosenWeaves }
{}

/// A leader's proposal adds its contents to the log that sessions see, and keeps it woven, if it is a write's split pages,
/// numbered by the term and its first index, or has no pages.
pub fn proposals_weave()
    ensures seen { ProposalsSeen }
    ensures weaves { ProposalsWeave }
{}

/// A step that keeps what the node had applied leaves a log that the node's life follows.
#[tactic(auto, using(crate::proofs::Proposals::follows_log_holds))]
pub fn follows_log()
    ensures { FollowsLog }
{}

/// A cluster of whole nodes is safe at every moment: one list of entries that every node applied a front of, also one that
/// stopped; each reply right by it, answered entries in the log of each later leader, each transaction in one piece.
pub fn clusters_are_safe<E: Engine>()
    ensures { (kind : _) → ClustersAreSafe (E.meaning kind) kind }
{}

/// A reply that waited for an entry is said in the event in which its node applies the entry, leading the entry's term; and
/// nothing is said in a stopped event, a crash or a start.
pub fn answers_in_time<E: Engine>()
    ensures { (kind : _) → AnswersInTime (E.meaning kind) kind }
{}

/// What a connection has seen is not below what any of its earlier replies rests on. It counts from where the connection came,
/// at a node that isn't started meanwhile.
pub fn clusters_see<E: Engine>()
    ensures { (kind : _) → ClustersSee (E.meaning kind) kind }
{}

/// The replies to a connection are those to its requests, one by one and in order, each with what the request asked: rows are of
/// the request's statement, a commit is of its statements and those of its transaction.
pub fn clusters_answer<E: Engine>()
    ensures { (kind : _) → ClustersAnswer (E.meaning kind) kind }
{}

/// What was said to clients stays said, so that the law above speaks of all later moments.
#[tactic(auto, using(crate::proofs::Clusters::replies_stay_hold))]
pub fn replies_stay()
    ensures { RepliesStay }
{}

/// What a stopped event applied gives the configuration of a front of the chosen entries.
#[tactic(auto, using(crate::proofs::Clusters::stops_are_safe_hold))]
pub fn stops_are_safe()
    ensures { StopsAreSafe }
{}

/// Nodes that have applied as many entries have the same databases.
pub fn files_are_alike<E: Engine>()
    ensures { (kind : _) → AlikeFiles (E.meaning kind) kind }
{}

/// A write that once was whole in a node's log is whole in the chosen entries, at its place, if these have its commit.
pub fn chosen_whole<E: Engine>()
    ensures { (kind : _) → ChosenWhole (E.meaning kind) }
{}

/// A pending write, refused as leadership was lost or not, is whole in the chosen entries, if these have its commit.
pub fn flights_whole<E: Engine>()
    ensures { (kind : _) → FlightsWhole (E.meaning kind) kind }
{}

/// What a leader has applied past the log that it had at an earlier moment is above all that was answered by then: so a
/// barrier query sees every commit that was answered before it was taken.
pub fn barriers_read<E: Engine>()
    ensures { (kind : _) → BarriersRead (E.meaning kind) kind }
{}

/// A query that waited for a barrier has every commit that any node answered before the query was taken.
pub fn fresh_queries<E: Engine>()
    ensures { (kind : _) → FreshQueries (E.meaning kind) kind }
{}

/// A barrier query's image has every commit that any node answered before the query was taken.
pub fn barrier_queries<E: Engine>()
    ensures { (kind : _) → BarrierQueries (E.meaning kind) kind }
{}

/// A small cluster under the engine of cells, computed: an election, a database and a write that are answered, a stop inside
/// a step and a start, a leader that is deposed by another, a client that reads there. Each act fits, so no law is empty; and
/// so the run is safe.
pub fn a_cluster_is_made()
    ensures says { RunSays }
    ensures leads { SecondLeads }
    ensures fits { RunFits }
    ensures safe { RunIsSafe }
{}
