//! A transaction that ends with its changes.

ghost use Rattle.std.specs.Prelude.{◌≡◌, ◌≤◌, ℕ, [], List, Option, true, false, is_none, suc, map, Some, IfOk, OnOk};
ghost use Rattle.std.specs.List.{AllByRecursion};
ghost use Rattle.dq_base.specs.declared.images.Image.{Image as ImageValue};
ghost use Rattle.dq_base.specs.Applying.{page_fault};
ghost use Rattle.dq_base.specs.Changes.{changed};
ghost use Rattle.dq_base.specs.Images.{page_count};
ghost use Rattle.log_commands.specs.Splitting.{split};
ghost use Rattle.database_state.specs.Pins.{IsPinned};
ghost use Rattle.session_spec.specs.Asking.{Commits};
ghost use Rattle.session_spec.specs.Causes.{LogFull};
ghost use Rattle.session_spec.specs.Engines.{Answer, no_pages};
ghost use Rattle.session_spec.specs.Entries.{Content, Does, written, tx_of};
ghost use Rattle.session_spec.specs.Limits as limits;
ghost use Rattle.session_spec.specs.Machine.{Machine as RuleMachine, machine_of};
ghost use Rattle.session_spec.specs.Requests.{unless, flying, with_flight, change_of, does};
ghost use Rattle.session_spec.specs.Seen.{HasSpelling};
ghost use Rattle.session_spec.specs.Touched.{IsListed, ListsAll};
ghost use Rattle.session_spec.specs.Sessions as rules;
ghost use Rattle.session_spec.specs.Sessions.{Session as RuleSession};
ghost use Rattle.session_table.specs.Table.{image_pinned, mark_of, pin_of, session_of, table_of, AreApart};
ghost use Rattle.session_spec.specs.Allowed.{IsServed};
ghost use Rattle.session_table.specs.declared.session.Transaction.{Transaction as TransactionValue};
ghost use Rattle.session_outcomes.specs.Numbers.{work_in};
ghost use Rattle.session_outcomes.specs.Turning.{MatchesOutcome};
ghost use Rattle.session_outcomes.specs.Hindered.{LeadsTo, Hinders};

use crate::change_limits::change_refusal;
use crate::decision::Decision;
use crate::earlier::pinned;
use crate::writing::{change_entries, transaction_number};
use database_state::Machine;
use dq_base::{Items, Name, NumberedPage, PageSet, lengths_of};
use image_diff::{are_none, change_between};
use raft_messages::Entries;
use session_requests::{View, log_full};
use session_table::{Cause, PendingProposal, ProposalKind, Session, Transaction};
use std::alloc::{AllocError, Global};

/// The pages that a transaction has changed, which lead to its working image.
fn pages_of(
    alloc: Global,
    machine: &Machine,
    transaction: &Transaction,
) -> Result<Vec<NumberedPage>, AllocError>
    requires live { AllByRecursion (IsPinned machine.now) (mark_of transaction.now.pin) }
    requires listed { ListsAll transaction.now.touched.items (image_pinned machine.now transaction.now.pin) transaction.now.working }
    ensures change { IfOk result (λ pages. pages.items ≡ changed (image_pinned machine.now transaction.now.pin) transaction.now.working) }
    ensures leads { IfOk result (λ pages. LeadsTo pages.items transaction.now.working) }
{
    let _ = lengths_of(&transaction.working);
    let earlier = pinned(machine, &transaction.pin);
    change_between(
        alloc,
        &earlier,
        &transaction.working,
        transaction.touched.as_slice(),
    )
}

/// A commit of entries that come next in the log, which isn't full.
fn flight(
    alloc: Global,
    view: &View,
    name: &Name,
    entries: &Entries,
    pages: u64,
) -> Result<PendingProposal, AllocError>
    requires { limits.log_full view.now ≡ false }
    ensures { (s : RuleSession) (contents : List Content) → entries.now ≡ written view.now.term contents
        → IfOk result (λ flight. flying view.now s name.now contents pages rules.Committing ≡ with_flight s (Some flight)) }
{
    let name = name.try_clone(alloc)?;
    let kind = ProposalKind::Committing { name, pages };
    Ok(PendingProposal {
        first: view.last + 1,
        last: view.last + entries.as_slice().len() as u64,
        term: view.term,
        kind,
    })
}

/// Pages as those of the transaction whose entries come next in the log, which isn't full.
fn set_of(view: &View, pages: Vec<NumberedPage>) -> PageSet
    requires room { limits.log_full view.now ≡ false }
    requires term { view.now.term ≤ 4294967295 }
    ensures { result ≡ record { tx = tx_of view.now.term (suc view.now.last); pages = pages.items } }
{
    PageSet {
        tx: transaction_number(view.term, view.last),
        pages: Items::new(pages),
    }
}

/// The entries that bring a change of pages to every node, in the term.
fn entries_of(alloc: Global, view: &View, name: &Name, set: &PageSet) -> Result<Entries, AllocError>
    requires { is_none (page_fault set.now.pages) ≡ true }
    ensures entries { IfOk result (λ entries. entries ≡ written view.now.term (map Does (split name.now set.now))) }
    ensures spelled { OnOk result (AllByRecursion HasSpelling (map Does (split name.now set.now))) }
{
    change_entries(alloc, view.term, name, set)
}

/// A change of these pages, which nothing hinders, is proposed.
fn proposed(
    alloc: Global,
    view: &View,
    name: &Name,
    pages: Vec<NumberedPage>,
    count: u64,
) -> Result<Decision, AllocError>
    requires room { limits.log_full view.now ≡ false }
    requires term { view.now.term ≤ 4294967295 }
    requires taken { is_none (page_fault pages.items) ≡ true }
    ensures works { IfOk result (λ decision. (tx : Option TransactionValue) → work_in decision tx ≡ []) }
    ensures comes { (m : RuleMachine) (s : RuleSession) → IfOk result
        (MatchesOutcome view.now m s (rules.Proposes (flying view.now s name.now (change_of view.now name.now pages.items) count rules.Committing)
        (change_of view.now name.now pages.items) rules.Nothing)) }
{
    let set = set_of(view, pages);
    let entries = entries_of(alloc, view, name, &set)?;
    let flight = flight(alloc, view, name, &entries, count)?;
    Ok(Decision::Proposes(flight, entries))
}

/// What hinders a commit of these pages. The outer `Err` means out of memory.
fn refused_commit(
    alloc: Global,
    machine: &Machine,
    sessions: &[Session],
    conn: u64,
    transaction: &Transaction,
    pages: &Vec<NumberedPage>,
) -> Result<Result<u64, Cause>, AllocError>
    requires apart { AreApart sessions.now }
    requires some { no_pages pages.now.items ≡ false }
    ensures { (weight : ℕ) (to : ImageValue) → LeadsTo pages.now.items to
        → IfOk result (Hinders pages.now.items to (limits.change_refusal (machine_of machine.now)
        (table_of machine.now sessions.now weight) conn transaction.now.name transaction.now.mark pages.now.items to)) }
{
    let name = transaction.name.as_str();
    change_refusal(
        alloc,
        machine,
        sessions,
        conn,
        name,
        transaction.mark,
        pages.as_slice(),
    )
}

/// The outcome of the commit of a transaction's pages, if there are some: a proposal, if nothing hinders it.
fn commit(
    alloc: Global,
    view: &View,
    machine: &Machine,
    sessions: &[Session],
    conn: u64,
    transaction: &Transaction,
    pages: Vec<NumberedPage>,
) -> Result<Decision, AllocError>
    requires apart { AreApart sessions.now }
    requires term { view.now.term ≤ 4294967295 }
    requires some { no_pages pages.items ≡ false }
    ensures works { IfOk result (λ decision. (tx : Option TransactionValue) → work_in decision tx ≡ []) }
    ensures comes { (weight : ℕ) (s : RuleSession) (to : ImageValue) → LeadsTo pages.items to
        → IfOk result (MatchesOutcome view.now (machine_of machine.now) s
        (unless (limits.first_cause (limits.log_full view.now) LogFull
        (limits.change_refusal (machine_of machine.now) (table_of machine.now sessions.now weight) conn transaction.now.name transaction.now.mark pages.items to))
        (rules.Proposes (flying view.now s transaction.now.name (change_of view.now transaction.now.name pages.items) (page_count to) rules.Committing)
        (change_of view.now transaction.now.name pages.items) rules.Nothing))) }
{
    if log_full(view) {
        return Ok(Decision::Refused(Cause::LogFull));
    }
    match refused_commit(alloc, machine, sessions, conn, transaction, &pages)? {
        Err(cause) => Ok(Decision::Refused(cause)),
        Ok(count) => proposed(alloc, view, &transaction.name, pages, count),
    }
}

/// The outcome of COMMIT at a session of a node that serves: its transaction is over, if it never took the write lock or
/// has changed no page; else its changes are proposed, if nothing hinders them. If it took the write lock, the pages that its
/// statements changed are compared with those of the pinned image, for which both are copied, one at a time; those that differ
/// are kept. No other page is looked at but three.
#[tactic(auto, unfolding(session_spec::specs::Requests::does, session_spec::specs::Requests::committed))]
pub fn committing(
    alloc: Global,
    view: &View,
    machine: &Machine,
    sessions: &[Session],
    session: &Session,
) -> Result<Decision, AllocError>
    requires apart { AreApart sessions.now }
    requires term { view.now.serving ≡ true → view.now.term ≤ 4294967295 }
    requires served { IsServed view.now (session_of machine.now session.now) }
    requires live { AllByRecursion (IsPinned machine.now) (pin_of session.now.transaction) }
    requires listed { IsListed (session_of machine.now session.now).tx }
    ensures works { IfOk result (λ decision. (tx : Option TransactionValue) → work_in decision tx ≡ []) }
    ensures comes { (weight : ℕ) (answers : List Answer) → IfOk result
        (MatchesOutcome view.now (machine_of machine.now) (session_of machine.now session.now)
        (does view.now (machine_of machine.now) (table_of machine.now sessions.now weight) session.now.conn
        (session_of machine.now session.now) Commits answers)) }
{
    let Some(transaction) = &session.transaction else {
        return Ok(Decision::Refused(Cause::NoTransaction));
    };
    if !transaction.turn {
        return Ok(Decision::Ends);
    }
    let pages = pages_of(alloc, machine, transaction)?;
    if are_none(&pages) {
        return Ok(Decision::Ends);
    }
    commit(
        alloc,
        view,
        machine,
        sessions,
        session.conn,
        transaction,
        pages,
    )
}
