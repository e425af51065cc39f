//! The table: which session is whose.

ghost use Rattle.std.specs.Prelude.{◌≡◌, ◌==◌, ℕ, List, Some, None, OnErr, IfOk, MatchOption};
ghost use Rattle.std.specs.Option.{option_map};
ghost use Rattle.database_state.specs.declared.database.Database.{Database};
ghost use Rattle.session_table.specs.Table.{table_of, pins_of, AreApart, IsTable};
ghost use Rattle.session_table.specs.Changing.{IsAbsent, StandsAt, FreshFor, Joined};
ghost use Rattle.session_table.specs.Working.{works_of};
ghost use Rattle.session_table.specs.Named.{later_named};
ghost use Rattle.session_spec.specs.Sessions.{later_query};
ghost use Rattle.session_spec.specs.Requests.{without_later};

use crate::limits::MAX_SESSIONS;
use crate::query::Query;
use crate::session::{Session, WaitingQuery};
use std::alloc::{AllocError, Global};

impl Session {
    /// Whether it is that of a connection.
    fn is_of(&self, conn: u64) -> bool
        ensures { result ≡ (self.now.conn == conn) }
    {
        self.conn == conn
    }
}

/// Where the session of a connection stands, if there is one. Looks at each session.
pub fn find(sessions: &[Session], conn: u64) -> Option<usize>
    ensures { MatchOption result (IsAbsent conn sessions.now) (StandsAt conn sessions.now) }
{
    for (place, session) in sessions.iter().enumerate() {
        if session.is_of(conn) {
            return Some(place);
        }
    }
    None
}

/// A session of a connection that has just come.
fn fresh(alloc: Global, conn: u64) -> Session
    ensures { FreshFor conn result }
{
    Session {
        conn,
        hung: false,
        database: None,
        barriers: false,
        later: None,
        statements: Vec::new(alloc),
        transaction: None,
        lost: false,
        flight: None,
    }
}

/// Gives a connection that has no session one; false exactly if 64 are there. Nothing has changed then. `Err` means out
/// of memory; nothing has changed then either.
fn join_new(alloc: Global, sessions: &mut Vec<Session>, conn: u64) -> Result<bool, AllocError>
    requires table { IsTable sessions.old.items }
    requires absent { IsAbsent conn sessions.old.items }
    ensures table { IfOk result (λ new. (databases : List Database) (weight : ℕ) → Joined (table_of databases sessions.old.items weight) conn new
        (table_of databases sessions.new.items weight)) }
    ensures kept { OnErr result (sessions.new.items ≡ sessions.old.items) }
    ensures pins { pins_of sessions.new.items ≡ pins_of sessions.old.items }
    ensures works { works_of sessions.new.items ≡ works_of sessions.old.items }
    ensures fit { IsTable sessions.new.items }
{
    if sessions.len() >= MAX_SESSIONS {
        return Ok(false);
    }
    sessions.push(fresh(alloc, conn))?;
    Ok(true)
}

/// Gives a connection a session; false exactly if it has one, or where 64 are there. Nothing has changed then. `Err`
/// means out of memory; nothing has changed then either.
pub fn join(alloc: Global, sessions: &mut Vec<Session>, conn: u64) -> Result<bool, AllocError>
    requires { IsTable sessions.old.items }
    ensures table { IfOk result (λ new. (databases : List Database) (weight : ℕ) → Joined (table_of databases sessions.old.items weight) conn new
        (table_of databases sessions.new.items weight)) }
    ensures kept { OnErr result (sessions.new.items ≡ sessions.old.items) }
    ensures pins { pins_of sessions.new.items ≡ pins_of sessions.old.items }
    ensures works { works_of sessions.new.items ≡ works_of sessions.old.items }
    ensures fit { IsTable sessions.new.items }
{
    match find(sessions.as_slice(), conn) {
        Some(_place) => Ok(false),
        None => join_new(alloc, sessions, conn),
    }
}

impl WaitingQuery {
    /// The query itself.
    fn into_query(self) -> Query
        ensures { later_query (Some (later_named self)) ≡ Some result }
    {
        match self {
            WaitingQuery::Due(query) => query,
            WaitingQuery::Lent(query) => query,
        }
    }
}

impl Session {
    /// Takes the query that it has yet to answer.
    fn take_later(&mut self) -> Option<Query>
        ensures query { result ≡ later_query (option_map later_named self.old.later) }
        ensures left { self.new ≡ record self.old { later = None } }
    {
        match self.later.take() {
            Some(later) => Some(later.into_query()),
            None => None,
        }
    }
}

/// Takes the query that the session at a place, which is that of a connection, has yet to answer, if there is one: it is run now,
/// or a reader has given its reply.
pub fn take_later(sessions: &mut Vec<Session>, place: usize, conn: u64) -> Option<Query>
    requires apart { AreApart sessions.old.items }
    requires place { StandsAt conn sessions.old.items place }
    ensures query { (databases : List Database) (weight : ℕ) → result ≡ later_query ((table_of databases sessions.old.items weight).session conn).later }
    ensures table { (databases : List Database) (weight : ℕ) → table_of databases sessions.new.items weight ≡ without_later
        (table_of databases sessions.old.items weight) conn }
    ensures pins { pins_of sessions.new.items ≡ pins_of sessions.old.items }
    ensures works { works_of sessions.new.items ≡ works_of sessions.old.items }
    ensures fit { IsTable sessions.old.items → IsTable sessions.new.items }
{
    sessions[place].take_later()
}
