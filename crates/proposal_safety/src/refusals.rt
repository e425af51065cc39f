//! Wrong proposals and replies, and that the laws refuse them.

ghost use Rattle.proposal_safety.specs.Wrong.{
  NoChangeForQuery,
  NoLooseProposal,
  NoProposalForRefused,
  NoRefusedChange,
  NoTwoChanges,
};

/// Refuses a request that proposes two changes.
pub fn refuses_two_changes()
    ensures { NoTwoChanges }
{}

/// Refuses a change that is proposed while its session has nothing pending.
pub fn refuses_a_loose_proposal()
    ensures { NoLooseProposal }
{}

/// Refuses a change in place of the barrier before a query.
pub fn refuses_a_change_for_a_query()
    ensures { NoChangeForQuery }
{}

/// Refuses an entry of a request that is refused at once.
pub fn refuses_a_proposal_for_a_refused_request()
    ensures { NoProposalForRefused }
{}

/// Refuses a refusal, for another cause than a loss of leadership, of a request that proposed a change.
pub fn refuses_a_refused_change()
    ensures { NoRefusedChange }
{}
