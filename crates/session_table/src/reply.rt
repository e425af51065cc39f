//! Replies to requests.

ghost use Rattle.std.specs.Prelude.{◌≡◌, ◌<◌, ◌≤◌, ◌+◌, ◌++◌, [], ◌∷◌, true, false, length, map, vec_len, vec_capacity, IfOk};
ghost use Rattle.wire_rows.specs.Spelling.{HaveNoNul, HaveWidth};
ghost use Rattle.wire_msgs.specs.declared.response.Response.TheVariants as responses;
ghost use Rattle.session_spec.specs.Sessions.{change_reply, responses_of};
ghost use Rattle.wire_rows.specs.Answering.{held};
ghost use Rattle.wire_rows.specs.Cut.{cut, bodies, total_size};
ghost use Rattle.session_table.specs.Named.{TellsRows, reply_named};
ghost use Rattle.session_table.specs.SessionSizes.{reply_size};
ghost use Rattle.session_table.specs.Sweeping.{told_in};

use crate::cause::Cause;
use crate::noted::GhostCopy;
use dq_base::Items;
use sql_engine::StatementResult;
use std::alloc::{AllocError, Global};
use std::collections::VecDeque;
use std::marker::Model;
use wire_msgs::Response;
use wire_rows::{RowFault, parts};
use wire_words::WireBytes;

/// Rows that are told: an answer that is split into parts. Clauses see the answer, which is not kept at run time.
#[derive(Drop)]
pub struct ToldRows {
    answer: GhostCopy<StatementResult>,
    told: Items<WireBytes>,
    // How many bytes the parts have.
    size: u64,
}

impl Model for ToldRows {
    ghost use Rattle.std.specs.Prelude.{◌≡◌};
    ghost use Rattle.wire_rows.specs.Cut.{cut, bodies, total_size};
    ghost use Rattle.wire_rows.specs.Answering.{held};
    ghost use Rattle.sql_engine.specs.declared.answer.StatementResult.{StatementResult};

    ghost Value = { StatementResult };

    ghost view = { λ r. r.answer.value };

    ghost invariant = { λ r. (r.told ≡ bodies r.answer.value.columns (cut r.answer.value.columns r.answer.value.rows)) × (r.size ≡ held (total_size r.told)) };
}

/// How many bytes parts have together. The sum stops at the last number of 64 bits.
fn total(parts: &[WireBytes]) -> u64
    ensures { result ≡ held (total_size parts.now) }
{
    let mut size: u64 = 0;
    for part in parts {
        size = size.saturating_add(part.len() as u64);
    }
    size
}

impl ToldRows {
    /// Cuts the rows of an answer into parts; or says why they can't be sent: a text holds a NUL, or all parts together are
    /// too big. No column's name holds a NUL, and each row has as many values as there are columns.
    pub fn cut(
        alloc: Global,
        answer: StatementResult,
    ) -> Result<Result<ToldRows, Cause>, AllocError>
        requires names { HaveNoNul answer.columns }
        requires widths { HaveWidth (length answer.columns) answer.rows }
        requires no_columns { length answer.columns ≡ 0 → answer.rows ≡ [] }
        ensures { IfOk result (TellsRows answer) }
    {
        match parts(alloc, answer.columns.as_slice(), answer.rows.as_slice()) {
            Ok(bodies) => {
                let size = total(bodies.as_slice());
                Ok(Ok(ToldRows {
                    answer: GhostCopy::of(&answer),
                    told: Items::new(bodies),
                    size,
                }))
            }
            Err(RowFault::Nul(_, _)) => Ok(Err(Cause::NulInText)),
            Err(RowFault::TooBig(_)) => Ok(Err(Cause::AnswerTooBig)),
            Err(RowFault::NoMemory) => Err(AllocError),
        }
    }

    /// How many bytes its parts have.
    fn size(&self) -> u64
        ensures { result ≡ held (total_size (bodies self.now.columns (cut self.now.columns self.now.rows))) }
    {
        self.size
    }
}

/// Puts a response to a connection after what was reported so far, if there is room.
fn tell_one(told: &mut Vec<(u64, Response)>, conn: u64, response: Response)
    requires { vec_len told.old < vec_capacity told.old }
    ensures items { told.new.items ≡ told.old.items ++ (conn, response) ∷ [] }
    ensures len { vec_len told.new ≡ vec_len told.old + 1 }
    ensures room { vec_capacity told.old ≤ vec_capacity told.new }
{
    told.push((conn, response)).unwrap();
}

/// Puts rows to a connection after what was reported so far, a response for each body, if there is room.
fn tell_rows(told: &mut Vec<(u64, Response)>, conn: u64, bodies: &mut VecDeque<WireBytes>)
    requires { vec_len told.old + length bodies.old.items ≤ vec_capacity told.old }
    ensures items { told.new.items ≡ told.old.items ++ map (λ body. (conn, responses.Rows body)) bodies.old.items }
    ensures len { vec_len told.new ≡ vec_len told.old + length bodies.old.items }
    ensures room { vec_capacity told.old ≤ vec_capacity told.new }
{
    while let Some(body) = bodies.pop_front() {
        tell_one(told, conn, Response::Rows { body });
    }
}

/// The reply to a change of the servers: EMPTY, or a refusal if a server was to be a voter and becomes a standby first. Clauses
/// see whether it falls short so.
#[derive(Drop)]
pub struct ChangeReply {
    response: Response,
    short: bool,
}

impl Model for ChangeReply {
    ghost use Rattle.std.specs.Prelude.{◌≡◌, Bool};
    ghost use Rattle.session_spec.specs.Sessions.{Single, change_reply};

    ghost Value = { Bool };

    ghost view = { λ r. r.short };

    ghost invariant = { λ r. Single r.response ≡ change_reply r.short };
}

impl ChangeReply {
    /// The servers are what they were to be.
    pub fn done() -> ChangeReply
        ensures { result ≡ false }
    {
        ChangeReply {
            response: Response::Empty,
            short: false,
        }
    }

    /// A server was to be a voter and becomes a standby first. `Err` means out of memory.
    pub fn short(alloc: Global) -> Result<ChangeReply, AllocError>
        ensures { IfOk result (λ reply. reply ≡ true) }
    {
        Ok(ChangeReply {
            response: Cause::TargetBehind.failure(alloc)?,
            short: true,
        })
    }

    /// In how many responses it is sent.
    #[tactic(auto, using(crate::proofs::ChangeReplies::one_response))]
    pub fn response_count(&self) -> usize
        ensures { result ≡ length (responses_of (change_reply self.now)) }
    {
        1
    }

    /// Puts it, to a connection, after what was reported so far, if there is room for it.
    pub fn tell(self, conn: u64, told: &mut Vec<(u64, Response)>)
        requires { vec_len told.old + length (responses_of (change_reply self)) ≤ vec_capacity told.old }
        ensures items { told.new.items ≡ told.old.items ++ told_in (conn, change_reply self) }
        ensures len { vec_len told.new ≡ vec_len told.old + length (responses_of (change_reply self)) }
        ensures room { vec_capacity told.old ≤ vec_capacity told.new }
    {
        Reply::Single(self.response).tell(conn, told);
    }
}

/// A reply to a request that isn't refused.
#[derive(Drop)]
pub enum Reply {
    /// One response.
    Single(Response),
    /// The rows of an answer.
    Rows(ToldRows),
}

impl Reply {
    /// In how many responses it is sent.
    pub fn response_count(&self) -> usize
        ensures { result ≡ length (responses_of (reply_named self.now)) }
    {
        match self {
            Reply::Single(_) => 1,
            Reply::Rows(rows) => rows.told.len(),
        }
    }

    /// How many bytes the parts have in which rows are reported; 0 for one response, which is small.
    pub fn size(&self) -> u64
        ensures { result ≡ held (reply_size (reply_named self.now)) }
    {
        match self {
            Reply::Single(_) => 0,
            Reply::Rows(rows) => rows.size(),
        }
    }

    /// Puts its responses, to a connection, after what was reported so far, if there is room for them.
    pub fn tell(self, conn: u64, told: &mut Vec<(u64, Response)>)
        requires { vec_len told.old + length (responses_of (reply_named self)) ≤ vec_capacity told.old }
        ensures items { told.new.items ≡ told.old.items ++ told_in (conn, reply_named self) }
        ensures len { vec_len told.new ≡ vec_len told.old + length (responses_of (reply_named self)) }
        ensures room { vec_capacity told.old ≤ vec_capacity told.new }
    {
        match self {
            Reply::Single(response) => tell_one(told, conn, response),
            Reply::Rows(rows) => {
                let mut bodies = VecDeque::from_vec(rows.told.into_vec());
                tell_rows(told, conn, &mut bodies);
            }
        }
    }
}
