//! Requests that run no statement.

ghost use Rattle.std.specs.Prelude.{◌≡◌, ◌+◌, ◌∷◌, ◌<◌, [], ℕ, List, Option, true, false, None, IsSome, IfOk, OnOk};
ghost use Rattle.log_commands.specs.declared.command.Command.TheVariants.{OpenDb};
ghost use Rattle.database_state.specs.declared.database.Database.{Database};
ghost use Rattle.session_spec.specs.Asking as asking;
ghost use Rattle.session_spec.specs.Engines.{Answer};
ghost use Rattle.session_spec.specs.Entries.{Does, written};
ghost use Rattle.session_spec.specs.Limits as limits;
ghost use Rattle.session_spec.specs.Machine.{Machine as RuleMachine, machine_of};
ghost use Rattle.session_spec.specs.Requests.{does, flying, with_barriers};
ghost use Rattle.session_spec.specs.Seen.{HasSpelling};
ghost use Rattle.session_spec.specs.Sessions.{Session as RuleSession, View as RuleView, Gateway, Opening, Nothing, Proposes, in_tx};
ghost use Rattle.session_spec.specs.Statements as statements;
ghost use Rattle.session_table.specs.Table.{AreApart, session_of, table_of};
ghost use Rattle.session_table.specs.declared.session.Transaction.{Transaction as TransactionValue};
ghost use Rattle.session_outcomes.specs.Numbers.{work_in};
ghost use Rattle.session_outcomes.specs.Turning.{MatchesOutcome};

use crate::decision::Decision;
use database_state::Machine;
use dq_base::Name;
use log_commands::{Command, write_command};
use raft_messages::{Entries, Entry, EntryKind, SharedBytes};
use session_requests::{View, pages_full};
use session_table::{
    Cause, Change, PendingProposal, Prepared, ProposalKind, Reply, Session, free_id, name_of,
    other_holds,
};
use std::alloc::{AllocError, Global};
use wire_msgs::Response;

/// The entry that makes a new database, in a term.
fn opening_entry(alloc: Global, term: u64, name: &Name) -> Result<Entry, AllocError>
    ensures entry { IfOk result (λ entry. written term (Does (OpenDb name.now) ∷ []) ≡ entry ∷ []) }
    ensures spelled { OnOk result (HasSpelling (Does (OpenDb name.now))) }
{
    let command = Command::OpenDb {
        name: name.try_clone(alloc)?,
    };
    let bytes = write_command(alloc, &command)?;
    Ok(Entry {
        term,
        kind: EntryKind::Command,
        bytes: SharedBytes::new(alloc, bytes)?,
    })
}

/// The index after the last one of a log that has room.
fn next_index(view: &View) -> u64
    requires { limits.log_full view.now ≡ false }
    ensures { result ≡ view.now.last + 1 }
{
    view.last + 1
}

/// The proposal of a new database, with barrier reads or not, if the log has room.
fn opening(alloc: Global, view: &View, name: Name, barriers: bool) -> Result<Decision, AllocError>
    requires { limits.log_full view.now ≡ false }
    ensures works { IfOk result (λ decision. (tx : Option TransactionValue) → work_in decision tx ≡ []) }
    ensures comes { (m : RuleMachine) (s : RuleSession) → IfOk result
        (MatchesOutcome view.now m s (Proposes (flying view.now (with_barriers s barriers) name (Does (OpenDb name) ∷ []) 0 Opening)
        (Does (OpenDb name) ∷ []) Nothing)) }
{
    let entry = opening_entry(alloc, view.term, &name)?;
    let entries = Entries::new(vec![in alloc; entry]?);
    let index = next_index(view);
    let flight = PendingProposal {
        first: index,
        last: index,
        term: view.term,
        kind: ProposalKind::Opening { name },
    };
    Ok(Decision::Creates(flight, entries, barriers))
}

/// What comes of OPEN where a new database is wanted, and the log has room: a proposal, or a refusal where the pages of all
/// databases would be too many.
#[tactic(auto, unfolding(session_spec::specs::Requests::does))]
pub fn creating(
    alloc: Global,
    view: &View,
    machine: &Machine,
    sessions: &[Session],
    session: &Session,
    name: Name,
    barriers: bool,
) -> Result<Decision, AllocError>
    requires apart { AreApart sessions.now }
    requires room { limits.log_full view.now ≡ false }
    ensures works { IfOk result (λ decision. (tx : Option TransactionValue) → work_in decision tx ≡ []) }
    ensures comes { (weight conn : ℕ) (answers : List Answer) → IfOk result
        (MatchesOutcome view.now (machine_of machine.now) (session_of machine.now session.now)
        (does view.now (machine_of machine.now) (table_of machine.now sessions.now weight) conn (session_of machine.now session.now)
        (asking.Creates name barriers) answers)) }
{
    if pages_full(alloc, machine, sessions, name.as_str(), 1)? {
        return Ok(Decision::Refused(Cause::DatabaseFull));
    }
    opening(alloc, view, name, barriers)
}

/// What comes of a BEGIN where no transaction is open.
#[tactic(auto, unfolding(session_spec::specs::Requests::does))]
pub fn beginning(sessions: &[Session], conn: u64, session: &Session, at_once: bool) -> Decision
    requires apart { AreApart sessions.now }
    requires outside { (databases : List Database) → in_tx (session_of databases session.now) ≡ false }
    requires open { (databases : List Database) → asking.has_database (session_of databases session.now) ≡ true }
    ensures works { (tx : Option TransactionValue) → work_in result tx ≡ [] }
    ensures comes { (v : RuleView) (databases : List Database) (weight : ℕ) (answers : List Answer)
        → MatchesOutcome v (machine_of databases) (session_of databases session.now)
        (does v (machine_of databases) (table_of databases sessions.now weight) conn (session_of databases session.now)
        (asking.Begins at_once) answers) result }
{
    if !at_once {
        return Decision::Begins(false);
    }
    if other_holds(sessions, conn, name_of(&session.database)) {
        return Decision::Refused(Cause::Locked);
    }
    Decision::Begins(true)
}

/// What comes of PREPARE, if there is room for one more statement.
#[tactic(auto, unfolding(session_spec::specs::Requests::does))]
pub fn preparing(session: &Session, prepared: Prepared, tail: Option<u64>) -> Decision
    requires { statements.free_id session.now.statements.items < 64 }
    ensures works { (tx : Option TransactionValue) → work_in result tx ≡ [] }
    ensures comes { (v : RuleView) (m : RuleMachine) (g : Gateway) (conn : ℕ) (databases : List Database) (answers : List Answer)
        → MatchesOutcome v m (session_of databases session.now) (does v m g conn (session_of databases session.now) (asking.Prepares prepared tail) answers) result }
{
    let id = free_id(session.statements.as_slice()) as u32;
    let params = prepared.params;
    let reply = Reply::Single(Response::Stmt {
        db: 0,
        id,
        params,
        tail,
    });
    Decision::Answers(Change::Prepares(prepared), reply)
}

/// What comes of FINALIZE, if the statement is there.
#[tactic(auto, unfolding(session_spec::specs::Requests::does))]
pub fn finalizing(session: &Session, id: u32) -> Decision
    requires { IsSome (statements.prepared_at session.now.statements.items id) }
    ensures works { (tx : Option TransactionValue) → work_in result tx ≡ [] }
    ensures comes { (v : RuleView) (m : RuleMachine) (g : Gateway) (conn : ℕ) (databases : List Database) (answers : List Answer)
        → MatchesOutcome v m (session_of databases session.now) (does v m g conn (session_of databases session.now) (asking.Drops id) answers) result }
{
    let _ = &session.statements;
    Decision::Answers(Change::Drops(id), Reply::Single(Response::Empty))
}

/// What comes of OPEN where the database is there.
#[tactic(auto, unfolding(session_spec::specs::Requests::does))]
pub fn opened(name: Name, barriers: bool) -> Decision
    ensures works { (tx : Option TransactionValue) → work_in result tx ≡ [] }
    ensures comes { (v : RuleView) (m : RuleMachine) (g : Gateway) (conn : ℕ) (s : RuleSession) (answers : List Answer)
        → MatchesOutcome v m s (does v m g conn s (asking.Opens name barriers) answers) result }
{
    Decision::Answers(
        Change::Opens(name, barriers),
        Reply::Single(Response::Db { id: 0 }),
    )
}

/// What comes of a COMMIT or ROLLBACK that ends a lost transaction, and gets a response.
#[tactic(auto, unfolding(session_spec::specs::Requests::does))]
pub fn forgetting(response: Response) -> Decision
    ensures works { (tx : Option TransactionValue) → work_in result tx ≡ [] }
    ensures comes { (v : RuleView) (m : RuleMachine) (g : Gateway) (conn : ℕ) (s : RuleSession) (answers : List Answer)
        → MatchesOutcome v m s (does v m g conn s (asking.Forgets response) answers) result }
{
    Decision::Answers(Change::Forgets, Reply::Single(response))
}

/// What comes of a request that is told a response, and nothing else.
#[tactic(auto, unfolding(session_spec::specs::Requests::does))]
pub fn telling(response: Response) -> Decision
    ensures works { (tx : Option TransactionValue) → work_in result tx ≡ [] }
    ensures comes { (v : RuleView) (m : RuleMachine) (g : Gateway) (conn : ℕ) (s : RuleSession) (answers : List Answer)
        → MatchesOutcome v m s (does v m g conn s (asking.Tells response) answers) result }
{
    Decision::Answers(Change::Stays, Reply::Single(response))
}
