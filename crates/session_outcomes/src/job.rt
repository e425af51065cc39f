//! Queries that readers run, beside the node.

ghost use Rattle.std.specs.Prelude.{◌≡◌, ◌∷◌, [], ℕ, IfOk, MatchResult};
ghost use Rattle.sql_engine.specs.Meanings.{Stays};
ghost use Rattle.sql_engine.specs.Replies.{IsTable};
ghost use Rattle.session_spec.specs.Engines as engines;
ghost use Rattle.session_spec.specs.Requests.{job_reply};
ghost use Rattle.session_spec.specs.Sessions.{Job};
ghost use Rattle.session_statements.specs.Running.{RanTo, Shows};
ghost use Rattle.session_outcomes.specs.Reading.{read_named, RowsTold, TellsJob, TellsOrBack};
ghost use Rattle.session_outcomes.specs.Runs.{IsWellFormed};
ghost use Rattle.session_outcomes.specs.declared.job.Read.TheVariants as reads;
ghost use Rattle.session_statements.specs.Calls.{call_on};

use crate::ran_changes::is_unchanged;
use dq_base::{Image, Name};
use session_statements::{Ending, RunOptions, run_unnumbered};
use session_table::{Cause, Query, ToldRows};
use sql_engine::{Engine, StatementResult};
use std::alloc::{AllocError, Global};
use std::marker::Model;
use std::sync::Arc;

/// A query that a reader runs: over this image, which was the newest one of the database of this name when the query was asked.
/// Image and query are shared by count with the node. Clauses see it as the rules' job.
#[derive(Drop)]
pub struct ReadJob {
    /// The name of the database.
    pub name: Name,
    /// Its image.
    pub image: Arc<Image, Global>,
    /// The query.
    pub query: Query,
    /// The most steps that it may take, if there is a limit. Clauses don't see it.
    pub limit: Option<u64>,
}

impl Model for ReadJob {
    ghost use Rattle.std.specs.Arc.{arc_value};
    ghost use Rattle.session_spec.specs.Sessions.{Job};

    ghost Value = { Job };

    ghost view = { λ j. record { name = j.name; image = arc_value j.image; statement = j.query } };
}

/// What a reader says of its job.
#[derive(Drop)]
pub enum Read {
    /// The rows that answer the query.
    Answers(ToldRows),
    /// Why there are none.
    Refused(Cause),
    /// Nothing: the query would change pages, and goes back to the node.
    GivenBack,
}

/// What an answer that changed no page is told as.
fn rows_told(alloc: Global, answer: StatementResult) -> Result<Read, AllocError>
    requires { IsTable answer.columns answer.rows }
    ensures { IfOk result (RowsTold answer) }
{
    match ToldRows::cut(alloc, answer)? {
        Ok(rows) => Ok(Read::Answers(rows)),
        Err(cause) => Ok(Read::Refused(cause)),
    }
}

/// Runs a query over an image, by an engine that forgets all numbers of images. Allocates nothing beside the
/// engine's.
fn run_query<E: Engine>(engine: &mut E, image: &Image, query: &Query, limit: Option<u64>) -> Ending
    ensures stays { Stays (E.kind engine.old) (E.kind engine.new) (E.refused_openings engine.old) (E.refused_openings engine.new) }
    ensures ran { RanTo (call_on E.meaning E.kind E.told engine.old engine.new) 0 image.now (query.now ∷ []) result }
{
    let options = RunOptions { tx: 0, limit };
    run_unnumbered(engine, image, query.text(), query.params(), options)
}

/// What is reported of a query that ended so.
fn read_of(alloc: Global, ending: Ending) -> Result<Read, AllocError>
    requires { IsWellFormed ending }
    ensures { (tx : ℕ) (job : Job) (ended : engines.Ending) → Shows tx job.image ended ending → IfOk result (λ read. job_reply job ended ≡ read_named read) }
{
    match ending {
        Ending::Stopped(fault) => Ok(Read::Refused(Cause::of_engine(fault))),
        Ending::TooLarge(_answer) => Ok(Read::GivenBack),
        Ending::Ended(ran) => {
            if !is_unchanged(&ran) {
                return Ok(Read::GivenBack);
            }
            rows_told(alloc, ran.answer)
        }
    }
}

/// Runs a job by an engine of the reader's own, which forgets all numbers of images: what is reported of it, or that the query goes
/// back to the node, if it would change pages. The image isn't copied. `Err` means out of memory; the job then stands.
fn run_job<E: Engine>(alloc: Global, job: &ReadJob, engine: &mut E) -> Result<Read, AllocError>
    ensures stays { Stays (E.kind engine.old) (E.kind engine.new) (E.refused_openings engine.old) (E.refused_openings engine.new) }
    ensures ran { IfOk result (TellsJob (E.meaning (E.kind engine.old)) (E.kind engine.old) job.now (E.told engine.old) (E.told engine.new)) }
{
    let image: &Image = &job.image;
    let ending = run_query(engine, image, &job.query, job.limit);
    read_of(alloc, ending)
}

/// What is reported of a query, which goes back to the node exactly if memory ran out.
fn or_back(told: Result<Read, AllocError>) -> Read
    ensures { MatchResult told (λ read. result ≡ read) (λ _. result ≡ reads.GivenBack) }
{
    match told {
        Ok(read) => read,
        Err(_) => Read::GivenBack,
    }
}

/// Runs a query over the image that goes with it, and tells its outcome there: rows, a refusal, or that the node is to run it, as it
/// would change pages. If memory runs out the node is to run it too. The image isn't copied.
///
/// The job's limit of steps bounds how long the query takes.
pub fn answer_read<E: Engine>(alloc: Global, job: &ReadJob, engine: &mut E) -> Read
    ensures stays { Stays (E.kind engine.old) (E.kind engine.new) (E.refused_openings engine.old) (E.refused_openings engine.new) }
    ensures told { TellsOrBack (E.meaning (E.kind engine.old)) (E.kind engine.old) job.now (E.told engine.old) (E.told engine.new) result }
{
    or_back(run_job(alloc, job, engine))
}
