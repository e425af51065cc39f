//! How many bytes sessions keep of what their clients have said, and of what they are to be sent.

ghost use Rattle.std.specs.Prelude.{◌≡◌, ◌+◌, ◌<◌, ◌^◌};
ghost use Rattle.wire_rows.specs.Answering.{held};
ghost use Rattle.session_table.specs.Named.{kind_named};
ghost use Rattle.session_table.specs.SessionSizes.{prepared_size, all_prepared_size, kind_size, flight_size, later_size, session_size, kept_size, kept_size_at};

use crate::session::{PendingProposal, Prepared, ProposalKind, Session, WaitingQuery};

/// What a prepared statement counts; 0 without one.
fn prepared_size(statement: &Option<Prepared>) -> u64
    ensures { result ≡ held (prepared_size statement.now) }
{
    match statement {
        Some(prepared) => (prepared.text.as_str().len() as u64).saturating_add(128),
        None => 0,
    }
}

/// Those of all of them. The sum stops at the last number of 64 bits.
fn all_prepared_size(statements: &[Option<Prepared>]) -> u64
    ensures { result ≡ held (all_prepared_size statements.now) }
{
    let mut size: u64 = 0;
    for statement in statements {
        size = size.saturating_add(prepared_size(statement));
    }
    size
}

impl ProposalKind {
    /// What it keeps of the reply that waits for its entry, or of the query after a barrier.
    fn size(&self) -> u64
        ensures { result ≡ held (kind_size (kind_named self.now)) }
    {
        match self {
            ProposalKind::Opening { .. }
            | ProposalKind::Configuring { .. }
            | ProposalKind::Committing { .. } => 0,
            ProposalKind::Writing { reply, .. } => reply.size(),
            ProposalKind::Querying { query } => query.size(),
        }
    }
}

fn flight_size(flight: &Option<PendingProposal>) -> u64
    ensures { result ≡ held (flight_size flight.now) }
{
    match flight {
        Some(flight) => flight.kind.size(),
        None => 0,
    }
}

fn later_size(later: &Option<WaitingQuery>) -> u64
    ensures { result ≡ held (later_size later.now) }
{
    match later {
        Some(WaitingQuery::Due(query)) => query.size(),
        Some(WaitingQuery::Lent(query)) => query.size(),
        None => 0,
    }
}

impl Session {
    /// What it keeps of what its client has said, and of what it is to be sent. The sum stops at the last number of 64 bits.
    fn size(&self) -> u64
        ensures { result ≡ held (session_size self.now) }
    {
        let statements = all_prepared_size(self.statements.as_slice());
        let flight = flight_size(&self.flight);
        let later = later_size(&self.later);
        statements.saturating_add(flight).saturating_add(later)
    }
}

/// How many bytes sessions keep of what their clients have said, and of what they are to be sent: the texts of their prepared
/// statements, with 128 bytes for each; the queries that wait for a barrier, for their turn or for a reader, each value of a parameter with 32 bytes and those
/// of its text or blob; and the parts of rows that wait for the entry of their write. The sum stops at the last number of 64 bits.
///
/// Not counted is what the rules of sessions bound or what the databases' size does: names, the numbers of changed pages and the
/// working image of an open transaction, and the answer that was split into parts, of which a database has one pending at most.
///
/// Looks at each number of a statement.
pub fn kept_size(sessions: &[Session]) -> u64
    ensures { result ≡ kept_size sessions.now }
{
    let mut size: u64 = 0;
    for session in sessions {
        size = size.saturating_add(session.size());
    }
    size
}

/// How many bytes the session of one connection keeps; 0 without one. Looks at each session and at each number of a statement of that
/// one.
pub fn kept_size_at(sessions: &[Session], conn: u64) -> u64
    ensures { result ≡ kept_size_at conn sessions.now }
{
    for session in sessions {
        if session.conn == conn {
            return session.size();
        }
    }
    0
}
