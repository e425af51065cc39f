//! Rows that are to be sent.

ghost use Rattle.std.specs.Prelude.{IfOk};
ghost use Rattle.sql_engine.specs.Replies.{IsTable};
ghost use Rattle.session_outcomes.specs.Told.{TellsReply};

use session_table::{Cause, Reply, ToldRows};
use sql_engine::StatementResult;
use std::alloc::{AllocError, Global};
use wire_msgs::Response;

/// The reply to statements that ran with this answer of the last: its rows, if these are to be sent; or why they can't be.
pub(crate) fn told(
    alloc: Global,
    rows: bool,
    answer: StatementResult,
) -> Result<Result<Reply, Cause>, AllocError>
    requires { IsTable answer.columns answer.rows }
    ensures { IfOk result (TellsReply rows answer) }
{
    if !rows {
        let rows_affected = answer.affected;
        return Ok(Ok(Reply::Single(Response::Result {
            last_insert_id: 0,
            rows_affected,
        })));
    }
    match ToldRows::cut(alloc, answer)? {
        Ok(rows) => Ok(Ok(Reply::Rows(rows))),
        Err(cause) => Ok(Err(cause)),
    }
}
