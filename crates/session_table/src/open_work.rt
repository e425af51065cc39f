//! What one session's open work means for the others.

ghost use Rattle.std.specs.Prelude.{◌≡◌, ◌&&◌, ℕ, max, Some, List, bytes_eq};
ghost use Rattle.database_state.specs.declared.database.Database.{Database};
ghost use Rattle.session_spec.specs.Limits as limits;
ghost use Rattle.session_table.specs.Named.{kind_named, name_for, pages_for};
ghost use Rattle.session_table.specs.Table.{transaction_of, session_of, table_of, AreApart, holds_beside, flown_in};

use crate::session::{PendingProposal, ProposalKind, Session, Transaction};

impl ProposalKind {
    /// Whether the proposal changes the pages of its database.
    pub fn is_write(&self) -> bool
        ensures { result ≡ limits.is_write (kind_named self.now) }
    {
        match self {
            ProposalKind::Opening { .. }
            | ProposalKind::Configuring { .. }
            | ProposalKind::Querying { .. } => false,
            ProposalKind::Writing { .. } | ProposalKind::Committing { .. } => true,
        }
    }
}

impl ProposalKind {
    /// Whether the proposal changes the pages of the database of a name.
    fn writes_to(&self, name: &str) -> bool
        ensures { result ≡ (limits.is_write (kind_named self.now) && bytes_eq (name_for self.now) name.now) }
    {
        match self {
            ProposalKind::Opening { .. }
            | ProposalKind::Configuring { .. }
            | ProposalKind::Querying { .. } => false,
            ProposalKind::Writing { name: own, .. } => own.as_str() == name,
            ProposalKind::Committing { name: own, .. } => own.as_str() == name,
        }
    }

    /// How many pages the database has after it.
    fn pages(&self) -> u64
        ensures { result ≡ pages_for self.now }
    {
        match self {
            ProposalKind::Opening { .. }
            | ProposalKind::Configuring { .. }
            | ProposalKind::Querying { .. } => 0,
            ProposalKind::Writing { pages, .. } => *pages,
            ProposalKind::Committing { pages, .. } => *pages,
        }
    }
}

impl PendingProposal {
    /// Whether it changes the pages of the database of a name.
    pub fn writes_to(&self, name: &str) -> bool
        ensures { result ≡ limits.writes_to (Some self.now) name.now }
    {
        self.kind.writes_to(name)
    }

    /// How many pages it gives the database of a name.
    pub fn pages_of(&self, name: &str) -> u64
        ensures { result ≡ limits.flown_by (Some self.now) name.now }
    {
        if self.kind.writes_to(name) {
            self.kind.pages()
        } else {
            0
        }
    }
}

impl Transaction {
    /// Whether it has the write lock of the database of a name.
    fn has_turn(&self, name: &str) -> bool
        ensures { (databases : List Database) → result ≡ limits.holds_write_lock (Some (transaction_of databases self.now)) name.now }
    {
        self.turn && self.name.as_str() == name
    }
}

impl Session {
    /// Whether a proposal of it changes the pages of the database of a name.
    fn writes_to(&self, name: &str) -> bool
        ensures { result ≡ limits.writes_to self.now.flight name.now }
    {
        match &self.flight {
            Some(flight) => flight.writes_to(name),
            None => false,
        }
    }

    /// Whether its transaction has the write lock of the database of a name.
    fn has_turn(&self, name: &str) -> bool
        ensures { (databases : List Database) → result ≡ limits.holds_write_lock (session_of databases self.now).tx name.now }
    {
        match &self.transaction {
            Some(transaction) => transaction.has_turn(name),
            None => false,
        }
    }

    /// Whether it has the write lock of the database of a name, by its proposal or by its transaction.
    #[tactic(auto, unfolding(session_spec::specs::Limits::holds))]
    pub fn holds(&self, name: &str) -> bool
        ensures { (databases : List Database) → result ≡ limits.holds (session_of databases self.now) name.now }
    {
        self.writes_to(name) || self.has_turn(name)
    }

    /// Whether its connection is another one, and it has the write lock of the database of a name.
    fn holds_beside(&self, conn: u64, name: &str) -> bool
        ensures { (databases : List Database) → result ≡ holds_beside databases conn name.now self.now }
    {
        self.conn != conn && self.holds(name)
    }

    /// How many pages its proposal gives the database of a name.
    fn flown(&self, name: &str) -> u64
        ensures { result ≡ flown_in name.now self.now }
    {
        match &self.flight {
            Some(flight) => flight.pages_of(name),
            None => 0,
        }
    }
}

/// Whether the session of another connection has the write lock of the database of a name. Looks at each session.
pub fn other_holds(sessions: &[Session], conn: u64, name: &str) -> bool
    requires { AreApart sessions.now }
    ensures { (databases : List Database) (weight : ℕ) → result ≡ limits.other_holds (table_of databases sessions.now weight) conn name.now }
{
    for session in sessions {
        if session.holds_beside(conn, name) {
            return true;
        }
    }
    false
}

/// The greater one of two numbers.
fn greater(a: u64, b: u64) -> u64
    ensures { result ≡ max a b }
{
    a.max(b)
}

/// The most pages that a pending proposal gives the database of a name; 0 where none does. Looks at each session.
pub fn flown(sessions: &[Session], name: &str) -> u64
    requires { AreApart sessions.now }
    ensures { (databases : List Database) (weight : ℕ) → result ≡ limits.pending_pages (table_of databases sessions.now weight) name.now }
{
    let mut most = 0;
    for session in sessions {
        most = greater(most, session.flown(name));
    }
    most
}
