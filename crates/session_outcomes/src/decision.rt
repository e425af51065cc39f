//! What comes of a request.

use crate::job::ReadJob;
use raft_messages::Entries;
use session_requests::ClusterEffect;
use session_table::{Cause, Change, PendingProposal, Query, Reply};

/// What comes of a request. Nothing has changed yet.
#[derive(Drop)]
pub enum Decision {
    /// It is refused, and nothing changes.
    Refused(Cause),
    /// The session changes so, and its client gets this reply.
    Answers(Change, Reply),
    /// A transaction begins, at once with the write lock or not, and its client gets an empty RESULT.
    Begins(bool),
    /// The transaction ends without its changes, and its client gets an empty RESULT.
    Ends,
    /// The session has this proposal pending, whose entries are to be appended.
    Proposes(PendingProposal, Entries),
    /// The session has this proposal of a new database pending, with barrier reads or not.
    Creates(PendingProposal, Entries, bool),
    /// The session's query is lent to a reader, as this job.
    Lends(Query, ReadJob),
    /// Something outside the sessions.
    Affects(ClusterEffect),
}
