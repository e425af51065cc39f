//! One session.

use crate::query::Query;
use crate::reply::{ChangeReply, Reply};
use database_state::Pin;
use dq_base::{Image, ImageNumber, Name};
use sql_scan::WordKind;
use std::marker::Model;
use wire_words::WireText;

/// A prepared statement. Clauses see it as the rules' one.
#[derive(Drop)]
pub struct Prepared {
    /// Its text.
    pub text: WireText,
    /// What kind of statement it is.
    pub word: WordKind,
    /// How many parameters it has.
    pub params: u64,
}

impl Model for Prepared {
    ghost use Rattle.session_spec.specs.Sessions.{Prepared as RulePrepared};

    ghost Value = { RulePrepared };

    ghost view = { λ p. record { text = p.text; word = p.word; params = p.params } };
}

/// What a pending proposal is for.
#[derive(Drop)]
pub enum ProposalKind {
    /// A new database.
    Opening {
        /// Its name.
        name: Name,
    },
    /// Other servers of the cluster.
    Configuring {
        /// The reply to the change.
        reply: ChangeReply,
    },
    /// The write of statements outside a transaction.
    Writing {
        /// The database.
        name: Name,
        /// How many pages it has after the write.
        pages: u64,
        /// The reply that the statements get.
        reply: Reply,
    },
    /// The commit of the open transaction.
    Committing {
        /// Its database.
        name: Name,
        /// How many pages this has after the commit.
        pages: u64,
    },
    /// The barrier before a query.
    Querying {
        /// The query, which is run when the barrier is applied.
        query: Query,
    },
}

/// A query that its session has yet to answer, with nothing pending for it.
#[derive(Drop)]
pub enum WaitingQuery {
    /// Its barrier is applied, and it is run next.
    Due(Query),
    /// A reader runs it.
    Lent(Query),
}

/// A pending proposal. Clauses see it as the rules' one.
#[derive(Drop)]
pub struct PendingProposal {
    /// The index of its first entry.
    pub first: u64,
    /// That of its last one.
    pub last: u64,
    /// The term in which its entries were appended.
    pub term: u64,
    /// What it is for.
    pub kind: ProposalKind,
}

impl Model for PendingProposal {
    ghost use Rattle.session_spec.specs.Sessions.{Flight as RuleFlight};
    ghost use Rattle.session_table.specs.Named.{kind_named, name_for, pages_for};

    ghost Value = { RuleFlight };

    ghost view = { λ f. record { name = name_for f.kind; first = f.first; last = f.last; term = f.term; pages = pages_for f.kind; kind = kind_named f.kind } };
}

/// An open transaction of a session.
#[derive(Drop)]
pub struct Transaction {
    /// Its database.
    pub name: Name,
    /// How many commits the database had when it began.
    pub mark: u64,
    /// The read mark of the image at that time; none if the state machine didn't have the database, whose image is the empty one.
    pub pin: Option<Pin>,
    /// That image with the transaction's own changes.
    pub working: Image,
    /// The number of the working image: that of the database's newest image when it began, while it has changed nothing, and
    /// then the one that was drawn for it; none if the state machine didn't have the database.
    pub number: Option<ImageNumber>,
    /// Whether it has the write lock.
    pub turn: bool,
    /// The numbers above 1 of the pages that its statements changed, in the order in which they did.
    pub touched: Vec<u64>,
}

/// A session of a connection.
#[derive(Drop)]
pub struct Session {
    /// The connection's number.
    pub conn: u64,
    /// Whether its client has gone while its proposal is pending.
    pub hung: bool,
    /// The database that it has opened.
    pub database: Option<Name>,
    /// Whether it asked for barrier reads when it opened it.
    pub barriers: bool,
    /// A query that it has yet to answer, with nothing pending for it.
    pub later: Option<WaitingQuery>,
    /// The statements that it has prepared, by their numbers.
    pub statements: Vec<Option<Prepared>>,
    /// Its open transaction.
    pub transaction: Option<Transaction>,
    /// Whether its transaction was lost with leadership, and neither COMMIT nor ROLLBACK has ended it since.
    pub lost: bool,
    /// Its pending proposal.
    pub flight: Option<PendingProposal>,
}
