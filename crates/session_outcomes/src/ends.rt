//! The ways in which statements that ran end.

ghost use Rattle.std.specs.Prelude.{[], ◌≡◌, ℕ, List, Option, Some, None, true, false, IfOk};
ghost use Rattle.std.specs.List.{AllByRecursion};
ghost use Rattle.dq_base.specs.declared.images.Image.{Image};
ghost use Rattle.dq_base.specs.Applying.{applied};
ghost use Rattle.dq_base.specs.Changes.{changed};
ghost use Rattle.sql_engine.specs.Replies.{IsTable};
ghost use Rattle.session_spec.specs.Causes.{Cause as RuleCause};
ghost use Rattle.session_spec.specs.Entries.{Content, written};
ghost use Rattle.session_spec.specs.Limits as limits;
ghost use Rattle.session_spec.specs.Machine.{Machine};
ghost use Rattle.session_spec.specs.Requests.{unless, row_cause, reply_of, with_flight, flying, worked};
ghost use Rattle.session_spec.specs.Seen.{HasSpelling};
ghost use Rattle.session_spec.specs.Sessions as sessions;
ghost use Rattle.session_spec.specs.Sessions.{Session, View as RuleView, Turned, Note, Transaction};
ghost use Rattle.session_table.specs.Named.{cause_named, kind_named, name_for, pages_for};
ghost use Rattle.session_table.specs.Working.{work_with, AreAmong};
ghost use Rattle.session_table.specs.declared.session.Transaction.{Transaction as TransactionValue};
ghost use Rattle.session_outcomes.specs.Numbers.{work_in};
ghost use Rattle.session_outcomes.specs.Turning.{MatchesOutcome};

use crate::decision::Decision;
use crate::rows::told;
use dq_base::{Name, PageSet};
use raft_messages::Entries;
use session_requests::View;
use session_table::{Cause, Change, PendingProposal, ProposalKind};
use sql_engine::StatementResult;
use std::alloc::{AllocError, Global};

/// Statements that ran are refused: their rows can't be sent, or else for this cause.
pub(crate) fn refused(
    alloc: Global,
    rows: bool,
    answer: StatementResult,
    cause: Cause,
) -> Result<Decision, AllocError>
    requires { IsTable answer.columns answer.rows }
    ensures works { IfOk result (λ decision. (tx : Option TransactionValue) → work_in decision tx ≡ []) }
    ensures comes { (hindrance : Option RuleCause) → hindrance ≡ Some (cause_named cause) → (v : RuleView) (m : Machine) (s : Session) (turned : Turned)
        → IfOk result (MatchesOutcome v m s (unless (row_cause rows answer hindrance) turned)) }
{
    match told(alloc, rows, answer)? {
        Ok(_reply) => Ok(Decision::Refused(cause)),
        Err(row_cause) => Ok(Decision::Refused(row_cause)),
    }
}

/// Statements that changed no page are answered.
pub(crate) fn idle(
    alloc: Global,
    rows: bool,
    answer: StatementResult,
) -> Result<Decision, AllocError>
    requires { IsTable answer.columns answer.rows }
    ensures works { IfOk result (λ decision. (tx : Option TransactionValue) → work_in decision tx ≡ []) }
    ensures comes { (v : RuleView) (m : Machine) (s : Session) (note : Note)
        → IfOk result (MatchesOutcome v m s (unless (row_cause rows answer None) (sessions.Answers s (reply_of rows answer) note))) }
{
    match told(alloc, rows, answer)? {
        Ok(reply) => Ok(Decision::Answers(Change::Stays, reply)),
        Err(cause) => Ok(Decision::Refused(cause)),
    }
}

/// Statements that changed pages in a transaction are answered; the number is that of its working image then.
#[tactic(auto, using(crate::proofs::InsideRun::works_on))]
pub(crate) fn worked(
    alloc: Global,
    rows: bool,
    answer: StatementResult,
    set: PageSet,
    number: u64,
) -> Result<Decision, AllocError>
    requires { IsTable answer.columns answer.rows }
    ensures works { IfOk result (λ decision. (tx : Option TransactionValue) → AreAmong (work_with set.pages number tx) (work_in decision tx)) }
    ensures comes { (v : RuleView) (m : Machine) (s : Session) (x : Transaction) (note : Note) (to : Image) → s.tx ≡ Some x → applied x.working set.pages ≡ to
        → set.pages ≡ changed x.working to → IfOk result (MatchesOutcome v m s
        (unless (row_cause rows answer None) (sessions.Answers (worked s x to true) (reply_of rows answer) note))) }
{
    match told(alloc, rows, answer)? {
        Ok(reply) => Ok(Decision::Answers(Change::Works(set, number), reply)),
        Err(cause) => Ok(Decision::Refused(cause)),
    }
}

/// A proposal of entries that come next in the log, which isn't full.
pub(crate) fn flight(view: &View, entries: &Entries, kind: ProposalKind) -> PendingProposal
    requires { limits.log_full view.now ≡ false }
    ensures { (s : Session) (contents : List Content) → entries.now ≡ written view.now.term contents
        → flying view.now s (name_for kind) contents (pages_for kind) (kind_named kind) ≡ with_flight s (Some result) }
{
    PendingProposal {
        first: view.last + 1,
        last: view.last + entries.as_slice().len() as u64,
        term: view.term,
        kind,
    }
}

/// A write outside a transaction is proposed.
pub(crate) fn proposed(
    alloc: Global,
    view: &View,
    name: &Name,
    rows: bool,
    answer: StatementResult,
    entries: Entries,
    pages: u64,
) -> Result<Decision, AllocError>
    requires table { IsTable answer.columns answer.rows }
    requires room { limits.log_full view.now ≡ false }
    ensures { (m : Machine) (s : Session) (note : Note) (contents : List Content) → entries ≡ written view.now.term contents
        → AllByRecursion HasSpelling contents → IfOk result (MatchesOutcome view.now m s
        (unless (row_cause rows answer None) (sessions.Proposes (flying view.now s name.now contents pages
        (sessions.Writing (reply_of rows answer))) contents note))) }
{
    match told(alloc, rows, answer)? {
        Ok(reply) => {
            let name = name.try_clone(alloc)?;
            let kind = ProposalKind::Writing { name, pages, reply };
            let flight = flight(view, &entries, kind);
            Ok(Decision::Proposes(flight, entries))
        }
        Err(cause) => Ok(Decision::Refused(cause)),
    }
}
