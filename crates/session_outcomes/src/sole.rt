//! Proposals of one entry that is no command: other servers of the cluster, and the barrier before a query.

ghost use Rattle.std.specs.Prelude.{◌≡◌, ◌∷◌, [], ℕ, List, Option, false, IfOk, OnOk};
ghost use Rattle.raft_messages.specs.Servers.{IsConfiguration};
ghost use Rattle.session_spec.specs.Asking as asking;
ghost use Rattle.session_spec.specs.Engines.{Answer};
ghost use Rattle.session_spec.specs.Entries.{Content, Configures, Other, written_in};
ghost use Rattle.session_spec.specs.Limits as limits;
ghost use Rattle.session_spec.specs.Machine.{Machine as RuleMachine};
ghost use Rattle.session_spec.specs.Requests.{barrier_first, does, flying};
ghost use Rattle.session_spec.specs.Seen.{HasSpelling};
ghost use Rattle.session_spec.specs.Sessions.{Session as RuleSession, Gateway, Nothing, Proposes};
ghost use Rattle.session_table.specs.Named.{kind_named, name_for, pages_for};
ghost use Rattle.session_table.specs.declared.session.Transaction.{Transaction as TransactionValue};
ghost use Rattle.session_outcomes.specs.Numbers.{work_in};
ghost use Rattle.session_outcomes.specs.Turning.{MatchesOutcome};

use crate::decision::Decision;
use crate::ends::flight;
use dq_base::Items;
use raft_messages::{Entries, Entry, EntryKind, Servers, SharedBytes, write_servers};
use session_requests::{View, log_full};
use session_table::{Cause, ChangeReply, ProposalKind, Query};
use std::alloc::{AllocError, Global};

/// The entry that gives the cluster these servers, in a term.
fn servers_entry(alloc: Global, term: u64, servers: &Servers) -> Result<Entry, AllocError>
    requires { IsConfiguration servers.now }
    ensures entry { IfOk result (λ entry. entry ≡ written_in term (Configures servers.now)) }
    // So it is seen again.
    ensures spelled { OnOk result (HasSpelling (Configures servers.now)) }
{
    let bytes = write_servers(alloc, servers.as_slice())?;
    Ok(Entry {
        term,
        kind: EntryKind::Change,
        bytes: SharedBytes::new(alloc, bytes)?,
    })
}

/// A barrier of a term.
fn barrier_entry(alloc: Global, term: u64) -> Result<Entry, AllocError>
    ensures { IfOk result (λ entry. entry ≡ written_in term Other) }
{
    let bytes = Items::new(Vec::new(alloc));
    Ok(Entry {
        term,
        kind: EntryKind::Barrier,
        bytes: SharedBytes::new(alloc, bytes)?,
    })
}

/// The proposal of an entry that comes next in the log, which isn't full.
fn proposed_alone(
    alloc: Global,
    view: &View,
    entry: Entry,
    kind: ProposalKind,
) -> Result<Decision, AllocError>
    requires { limits.log_full view.now ≡ false }
    ensures works { IfOk result (λ decision. (tx : Option TransactionValue) → work_in decision tx ≡ []) }
    ensures comes { (m : RuleMachine) (s : RuleSession) (content : Content) → entry ≡ written_in view.now.term content → HasSpelling content
        → IfOk result (MatchesOutcome view.now m s (Proposes (flying view.now s (name_for kind) (content ∷ []) (pages_for kind) (kind_named kind))
        (content ∷ []) Nothing)) }
{
    let entries = Entries::new(vec![in alloc; entry]?);
    let flight = flight(view, &entries, kind);
    Ok(Decision::Proposes(flight, entries))
}

/// What comes of ADD, ASSIGN and REMOVE where the cluster is to get these servers: one entry, which gets this reply once it is applied;
/// or a refusal where nothing more is appended to the log.
#[tactic(auto, unfolding(session_spec::specs::Requests::does))]
pub fn changing(
    alloc: Global,
    view: &View,
    servers: &Servers,
    reply: ChangeReply,
) -> Result<Decision, AllocError>
    requires { IsConfiguration servers.now }
    ensures works { IfOk result (λ decision. (tx : Option TransactionValue) → work_in decision tx ≡ []) }
    ensures comes { (m : RuleMachine) (g : Gateway) (conn : ℕ) (s : RuleSession) (answers : List Answer)
        → IfOk result (MatchesOutcome view.now m s (does view.now m g conn s (asking.Changes servers.now reply) answers)) }
{
    if log_full(view) {
        return Ok(Decision::Refused(Cause::LogFull));
    }
    let entry = servers_entry(alloc, view.term, servers)?;
    proposed_alone(alloc, view, entry, ProposalKind::Configuring { reply })
}

/// What comes of a query that waits for a barrier: the barrier, after which the query is run; or a refusal where nothing more is
/// appended to the log.
pub(crate) fn waiting(alloc: Global, view: &View, query: Query) -> Result<Decision, AllocError>
    ensures works { IfOk result (λ decision. (tx : Option TransactionValue) → work_in decision tx ≡ []) }
    ensures comes { (m : RuleMachine) (s : RuleSession) → IfOk result (MatchesOutcome view.now m s (barrier_first view.now s query)) }
{
    if log_full(view) {
        return Ok(Decision::Refused(Cause::LogFull));
    }
    let entry = barrier_entry(alloc, view.term)?;
    proposed_alone(alloc, view, entry, ProposalKind::Querying { query })
}
