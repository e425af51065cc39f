//! Who is told what where proposals end.

ghost use Rattle.std.specs.Prelude.{◌≡◌, ⊤, ℕ, List, length, IfOk, OnOk, MatchOption};
ghost use Rattle.database_state.specs.declared.database.Database.{Database};
ghost use Rattle.session_spec.specs.Events as events;
ghost use Rattle.session_spec.specs.Events.{last_of};
ghost use Rattle.session_table.specs.declared.sweep.Event.TheVariants.{Applied};
ghost use Rattle.session_table.specs.Named.{kind_named};
ghost use Rattle.session_table.specs.Table.{table_of, AreApart};
ghost use Rattle.session_table.specs.Sweeping.{landed_responses, said, all_said, all_told};
ghost use Rattle.session_table.specs.Waiting.{is_due, waits, place_for, placed_in, with_waiting, waiting_in, told_lost_to};

use crate::cause::Cause;
use crate::session::{ProposalKind, Session, WaitingQuery};
use std::alloc::{AllocError, Global};
use wire_msgs::Response;

impl ProposalKind {
    /// In how many responses it learns that the proposal is done.
    fn response_count(&self) -> usize
        ensures { result ≡ length (landed_responses (events.landed_reply (kind_named self.now))) }
    {
        match self {
            ProposalKind::Opening { .. } | ProposalKind::Committing { .. } => 1,
            ProposalKind::Configuring { reply } => reply.response_count(),
            ProposalKind::Writing { reply, .. } => reply.response_count(),
            ProposalKind::Querying { .. } => 0,
        }
    }
}

impl Session {
    /// Whether its query is run next.
    fn is_due(&self) -> bool
        ensures { result ≡ is_due self.now.later }
    {
        match &self.later {
            Some(WaitingQuery::Due(_)) => true,
            Some(WaitingQuery::Lent(_)) => false,
            None => false,
        }
    }

    /// Whether its client waits for a proposal, or for a query that is run next.
    fn waits(&self) -> bool
        ensures { result ≡ waits self.now }
    {
        !self.hung && (self.flight.is_some() || self.is_due())
    }

    /// The index at which its proposal ends; 0 where none is pending.
    fn last_in_flight(&self) -> u64
        ensures { result ≡ last_of self.now.flight }
    {
        match &self.flight {
            Some(flight) => flight.last,
            None => 0,
        }
    }

    /// How many responses its client gets where the entry of an index is applied.
    fn responses_at(&self, index: u64) -> usize
        ensures { result ≡ length (said (Applied index) self.now) }
    {
        match &self.flight {
            Some(flight) => {
                if flight.last != index || self.hung {
                    0
                } else {
                    flight.kind.response_count()
                }
            }
            None => 0,
        }
    }
}

/// How many responses all clients get where the entry of an index is applied; none if the number doesn't fit.
pub(crate) fn responses_at(sessions: &[Session], index: u64) -> Option<usize>
    ensures { MatchOption result ⊤ (λ count. count ≡ length (all_said (Applied index) sessions.now)) }
{
    let mut count: usize = 0;
    for session in sessions {
        count = count.checked_add(session.responses_at(index))?;
    }
    Some(count)
}

/// The place of one whose proposal ends at an index: before the first that ends there or later.
fn place_for(last: u64, waiting: &[(u64, u64)]) -> usize
    ensures { result ≡ place_for last waiting.now }
{
    for (place, other) in waiting.iter().enumerate() {
        if last <= other.0 {
            return place;
        }
    }
    waiting.len()
}

/// Puts a client that waits at its place.
fn add_waiting(waiting: &mut Vec<(u64, u64)>, last: u64, conn: u64) -> Result<(), AllocError>
    ensures { OnOk result (waiting.new.items ≡ placed_in (last, conn) waiting.old.items) }
{
    let place = place_for(last, waiting.as_slice());
    waiting.insert(place, (last, conn))?;
    Ok(())
}

/// Adds the client of a session, if it waits for a proposal or for a query that is run next.
fn add_session(waiting: &mut Vec<(u64, u64)>, session: &Session) -> Result<(), AllocError>
    ensures { OnOk result (waiting.new.items ≡ with_waiting session.now waiting.old.items) }
{
    if session.waits() {
        add_waiting(waiting, session.last_in_flight(), session.conn)?;
    }
    Ok(())
}

/// The clients that wait, by the last index of their proposals and their connections, in the order of the indexes. A query that is
/// run next has no proposal, and 0 for its index.
fn waiting(alloc: Global, sessions: &[Session]) -> Result<Vec<(u64, u64)>, AllocError>
    ensures { IfOk result (λ waiting. waiting.items ≡ waiting_in sessions.now) }
{
    let mut waiting = Vec::new(alloc);
    let mut place = sessions.len();
    while place > 0 {
        place -= 1;
        add_session(&mut waiting, &sessions[place])?;
    }
    Ok(waiting)
}

/// That leadership is lost, to each of these.
fn tell_lost(alloc: Global, waiting: &[(u64, u64)]) -> Result<Vec<(u64, Response)>, AllocError>
    ensures { IfOk result (λ told. told.items ≡ told_lost_to waiting.now) }
{
    let mut told = Vec::with_capacity(alloc, waiting.len())?;
    for client in waiting {
        let response = Cause::LeadershipLost.failure(alloc)?;
        told.push((client.1, response))?;
    }
    Ok(told)
}

/// Each client that waits for a proposal is told that leadership is lost, ascending by the last index of the proposal.
pub(crate) fn told_lost(
    alloc: Global,
    sessions: &[Session],
) -> Result<Vec<(u64, Response)>, AllocError>
    ensures { IfOk result (λ told. told.items ≡ told_lost_to (waiting_in sessions.now)) }
{
    let waiting = waiting(alloc, sessions)?;
    tell_lost(alloc, waiting.as_slice())
}
