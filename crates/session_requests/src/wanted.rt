use dq_base::{Items, Name};
use raft_messages::Servers;
use session_table::{Cause, ChangeReply, Prepared};
use sql_scan::StatementSpan;
use wire_msgs::Response;
use wire_words::WireText;

/// The statements of a text, none or several.
#[derive(Drop)]
pub struct Script {
    /// The text.
    pub text: WireText,
    /// Where they are in it.
    pub pieces: Items<StatementSpan>,
}

/// What a request does outside the sessions. It is answered by EMPTY.
#[derive(Clone, Copy, Debug, PartialEq, Eq)]
pub enum ClusterEffect {
    /// Leadership is handed to the server of this id.
    HandsOver(u64),
    /// The connection carries the messages of the peer of this id from then on.
    JoinsPeer(u64),
    /// The node has this weight.
    Weighs(u64),
}

/// What a request wants of a session, once it has passed the refusals that come before the engine.
#[derive(Drop)]
pub enum RequestPlan {
    /// Nothing: it is refused.
    Never(Cause),
    /// A response, and nothing else.
    Tells(Response),
    /// Something outside the sessions.
    Sets(ClusterEffect),
    /// A database that is there, with barrier reads or not.
    Opens(Name, bool),
    /// A new database, with barrier reads or not.
    Creates(Name, bool),
    /// Other servers of the cluster, and the reply to the change.
    Changes(Servers, ChangeReply),
    /// A statement is to be prepared, with the place of the rest of its text where that is reported.
    Prepares(Prepared, Option<u64>),
    /// A prepared statement is to be let go.
    Drops(u32),
    /// A lost transaction ends, and its client gets this response.
    Forgets(Response),
    /// A transaction begins, at once with the write lock or not.
    Begins(bool),
    /// The transaction ends with its changes.
    Commits,
    /// The transaction ends without them.
    RollsBack,
    /// A statement runs with all parameters, and its rows are dropped.
    RunsOne(Prepared),
    /// Statements run one after another, and their rows are dropped.
    RunsAll(Script),
    /// A statement runs with all parameters, and its rows are reported.
    Reads(Prepared),
}
