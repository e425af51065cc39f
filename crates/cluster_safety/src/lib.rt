//! Runs of whole nodes: each event says only that a node's call met its clauses, or that the node crashed. Nothing here runs:
//! each law is the promise of an empty function, and it holds under every engine.
#![tactic(auto)]

ghost use Rattle.cluster_safety.specs.Acts.{RunsGoOn, RunsMakeActs};
ghost use Rattle.cluster_safety.specs.Examples.{LoneRuns, RunWrites};
ghost use Rattle.cluster_safety.specs.Laws.{RunsAnswer, RunsAreSafe, RunsComplete, RunsLast};

use sql_engine::Engine;

/// Every run represents acts of a cluster that fit: nodes that are up for Raft's nodes and their lives, disks for what these
/// have stored, messages for those of Raft's world; and it says what they say. Whose query a reader has in a node's life, has the job
/// that the node handed out last for its connection. A run that continues makes further acts.
pub fn runs_make_acts<E: Engine>()
    ensures acts { (kind : _) → RunsMakeActs (E.meaning kind) kind }
    ensures later { (kind : _) → RunsGoOn (E.meaning kind) kind }
{}

/// Every run is safe at every moment: there is one list of entries, of which each node that is up has applied a front, so that
/// any two that have applied as many have the same files; each reply is right by it, and what was answered is in the logs
/// of later leaders; and the entries of each transaction are in it in one piece.
pub fn runs_are_safe<E: Engine>()
    ensures { (kind : _) → RunsAreSafe (E.meaning kind) kind }
{}

/// A reply that waited for an entry is said by the call in which its node applies the entry, leading the entry's term.
pub fn runs_answer<E: Engine>()
    ensures { (kind : _) → RunsAnswer (E.meaning kind) kind }
{}

/// Every request of a connection that is open is answered once, and in its order: by the call that handles it, if nothing was
/// proposed, else by the one in which its node, still leading that term, applies the last entry. So after each call a reply is
/// owed only if its last entry isn't applied yet.
pub fn runs_complete<E: Engine>()
    ensures { (kind : _) → RunsComplete (E.meaning kind) kind }
{}

/// What was chosen at a moment stays, and what was said; a pending write then is whole in what is chosen later, or has no
/// commit there; what a leader applies past its log of then is above all that was answered by then; and each connection sees
/// what it has seen.
pub fn runs_last<E: Engine>()
    ensures { (kind : _) → RunsLast (E.meaning kind) kind }
{}

/// Small runs of a lone node whose clauses all hold. Under every engine: a start over nothing, an event that changes nothing, a
/// crash, a start. Over cells: it elects itself, and a client opens a database and writes, and is answered.
pub fn a_run_is_made<E: Engine>()
    ensures quiet { (kind : _) → LoneRuns (E.meaning kind) kind }
    ensures writes { RunWrites }
{}
