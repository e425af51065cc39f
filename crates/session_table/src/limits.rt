//! The limits of sessions. The definitions of the rules have each as a plain number, so code with another one isn't proved.

use wire_rows::MAX_ANSWER_BYTES;

/// How many sessions a node has at most, those that have hung up counted: one for each read mark that the state machine has at most.
pub const MAX_SESSIONS: usize = 64;

/// How many statements a session may have prepared.
pub const MAX_STATEMENTS: usize = 64;

/// How many databases there may be, those that are proposed counted.
pub const MAX_DATABASES: usize = 16;

/// How many pages all databases may have together, those of proposals counted.
pub const MAX_PAGES: u64 = 16_384;

/// From this index on, nothing more is appended to a log.
pub const MAX_INDEX: u64 = 4_294_900_000;

/// How many bytes the body of an answer may have.
pub const MAX_QUERY_ANSWER: u64 = MAX_ANSWER_BYTES;

/// How many of the last entries of the log a server may lack that becomes a voter.
pub const MAX_VOTER_LAG: u64 = 16;

/// The greatest id of a server.
pub const GREATEST_ID: u64 = 9;

/// For how many milliseconds a client may be silent.
pub const HEARTBEAT_TIMEOUT: u64 = 15_000;
