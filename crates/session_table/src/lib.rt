//! The sessions of a node as a table: what each has opened, prepared and begun, what it has pending, and what that means
//! for the others.
#![tactic(auto)]

mod bases;
mod beginning;
mod cause;
mod change;
mod laws;
mod limits;
mod noted;
mod open_work;
mod query;
mod reply;
mod session;
mod sizes;
mod statements;
mod sweep;
mod table;
mod told;

pub use bases::{
    name_of, newest, newest_image, newest_image_of, newest_of, newest_shared, opened_name,
};
pub use beginning::begin;
pub use cause::Cause;
pub use change::{Change, make_change};
pub use laws::{commands_make_no_marks, marks_change_no_database, released_marks_are_spent};
pub use limits::{
    GREATEST_ID, HEARTBEAT_TIMEOUT, MAX_DATABASES, MAX_INDEX, MAX_PAGES, MAX_QUERY_ANSWER,
    MAX_SESSIONS, MAX_STATEMENTS, MAX_VOTER_LAG,
};
pub use open_work::{flown, other_holds};
pub use query::Query;
pub use reply::{ChangeReply, Reply, ToldRows};
pub use session::{PendingProposal, Prepared, ProposalKind, Session, Transaction, WaitingQuery};
pub use sizes::{kept_size, kept_size_at};
pub use statements::{finalize, free_id, prepare, prepared_at, prepared_count};
pub use sweep::{applied, ended, left, lost};
pub use table::{find, join, take_later};
