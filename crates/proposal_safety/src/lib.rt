//! Which changes a client's request proposes, and how a request that proposed one is answered. Nothing here runs: each law
//! is the promise of an empty function.
#![tactic(auto)]

ghost use Rattle.proposal_safety.specs.Proposing.{
  ChangesAreAnswered,
  LatersProposeOnce,
  LogsGrowByProposals,
  ProposalsAreAnswered,
  RequestsProposeOnce,
};

pub mod refusals;

use sql_engine::Engine;

/// A request proposes one change at most: a new database, or a commit of pages. So does a query that is run later than
/// it was asked. The log grows by just what is proposed, and so not at all by a request that is refused at once.
pub fn requests_propose_once()
    ensures requests { RequestsProposeOnce }
    ensures later { LatersProposeOnce }
    ensures grows { LogsGrowByProposals }
{}

/// If a proposal that makes a change is pending, then the next reply to its connection is no refusal, or names a loss of
/// leadership. The same holds of the first reply from where a request was handled that proposed a change.
pub fn proposals_are_answered<E: Engine>()
    ensures pending { (kind : _) → ProposalsAreAnswered (E.meaning kind) kind }
    ensures requests { (kind : _) → ChangesAreAnswered (E.meaning kind) kind }
{}
