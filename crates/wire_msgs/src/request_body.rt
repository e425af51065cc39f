//! Reading the body of a request.

ghost use Rattle.std.specs.Prelude.{false, IsErrOf, IsTrue};
ghost use Rattle.wire_words.specs.Reading.{Finds};
ghost use Rattle.wire_msgs.specs.Kinds.{takes_memory};
ghost use Rattle.wire_msgs.specs.Bodies.{pair_params, word_text_params, text_word_text, request_at};

use crate::items::{params, two_words, word_text};
use crate::request::{Request, RequestKind};
use dq_base::Items;
use std::alloc::Global;
use wire_words::{Value, WireText, WordFault, Words};

// What `Exec` and `Query` have: the database, the statement, and parameters.
fn pair_params(
    alloc: Global,
    wide: bool,
    words: &mut Words<'_>,
) -> Result<((u32, u32), Items<Value>), WordFault>
    ensures { Finds (λ x. x) (pair_params wide) words.old words.new result }
{
    let pair = words.u32_pair()?;
    let params = params(alloc, wide, words)?;
    Ok((pair, params))
}

// What `ExecSql` and `QuerySql` have: the database, the text, and parameters.
fn word_text_params(
    alloc: Global,
    wide: bool,
    words: &mut Words<'_>,
) -> Result<((u64, WireText), Items<Value>), WordFault>
    ensures { Finds (λ x. x) (word_text_params wide) words.old words.new result }
{
    let head = word_text(alloc, words)?;
    let params = params(alloc, wide, words)?;
    Ok((head, params))
}

// What `Open` has: the name, the flags, and the name of the VFS.
fn text_word_text(
    alloc: Global,
    words: &mut Words<'_>,
) -> Result<((WireText, u64), WireText), WordFault>
    ensures { Finds (λ x. x) text_word_text words.old words.new result }
{
    let name = words.text(alloc)?;
    let flags = words.u64()?;
    let vfs = words.text(alloc)?;
    Ok(((name, flags), vfs))
}

// The body of OPEN.
#[tactic(auto, unfolding(crate::specs::Bodies::request_at))]
fn open(alloc: Global, words: &mut Words<'_>) -> Result<Request, WordFault>
    ensures { Finds (λ x. x) (request_at RequestKind.Open false) words.old words.new result }
{
    let ((name, flags), vfs) = text_word_text(alloc, words)?;
    Ok(Request::Open { name, flags, vfs })
}

// The body of PREPARE.
#[tactic(auto, unfolding(crate::specs::Bodies::request_at))]
fn prepare(alloc: Global, wide: bool, words: &mut Words<'_>) -> Result<Request, WordFault>
    ensures { Finds (λ x. x) (request_at RequestKind.Prepare wide) words.old words.new result }
{
    let (db, sql) = word_text(alloc, words)?;
    Ok(Request::Prepare { db, sql, wide })
}

// The body of EXEC.
#[tactic(auto, unfolding(crate::specs::Bodies::request_at))]
fn exec(alloc: Global, wide: bool, words: &mut Words<'_>) -> Result<Request, WordFault>
    ensures { Finds (λ x. x) (request_at RequestKind.Exec wide) words.old words.new result }
{
    let ((db, statement), params) = pair_params(alloc, wide, words)?;
    Ok(Request::Exec {
        db,
        statement,
        params,
        wide,
    })
}

// The body of QUERY.
#[tactic(auto, unfolding(crate::specs::Bodies::request_at))]
fn query(alloc: Global, wide: bool, words: &mut Words<'_>) -> Result<Request, WordFault>
    ensures { Finds (λ x. x) (request_at RequestKind.Query wide) words.old words.new result }
{
    let ((db, statement), params) = pair_params(alloc, wide, words)?;
    Ok(Request::Query {
        db,
        statement,
        params,
        wide,
    })
}

// The body of EXEC_SQL.
#[tactic(auto, unfolding(crate::specs::Bodies::request_at))]
fn exec_sql(alloc: Global, wide: bool, words: &mut Words<'_>) -> Result<Request, WordFault>
    ensures { Finds (λ x. x) (request_at RequestKind.ExecSql wide) words.old words.new result }
{
    let ((db, sql), params) = word_text_params(alloc, wide, words)?;
    Ok(Request::ExecSql {
        db,
        sql,
        params,
        wide,
    })
}

// The body of QUERY_SQL.
#[tactic(auto, unfolding(crate::specs::Bodies::request_at))]
fn query_sql(alloc: Global, wide: bool, words: &mut Words<'_>) -> Result<Request, WordFault>
    ensures { Finds (λ x. x) (request_at RequestKind.QuerySql wide) words.old words.new result }
{
    let ((db, sql), params) = word_text_params(alloc, wide, words)?;
    Ok(Request::QuerySql {
        db,
        sql,
        params,
        wide,
    })
}

// The body of CONNECT.
#[tactic(auto, unfolding(crate::specs::Bodies::request_at))]
fn connect(alloc: Global, words: &mut Words<'_>) -> Result<Request, WordFault>
    ensures { Finds (λ x. x) (request_at RequestKind.Connect false) words.old words.new result }
{
    let (id, address) = word_text(alloc, words)?;
    Ok(Request::Connect { id, address })
}

// The body of ADD.
#[tactic(auto, unfolding(crate::specs::Bodies::request_at))]
fn add(alloc: Global, words: &mut Words<'_>) -> Result<Request, WordFault>
    ensures { Finds (λ x. x) (request_at RequestKind.Add false) words.old words.new result }
{
    let (id, address) = word_text(alloc, words)?;
    Ok(Request::Add { id, address })
}

// The body of DUMP.
#[tactic(auto, unfolding(crate::specs::Bodies::request_at))]
fn dump(alloc: Global, words: &mut Words<'_>) -> Result<Request, WordFault>
    ensures { Finds (λ x. x) (request_at RequestKind.Dump false) words.old words.new result }
{
    let name = words.text(alloc)?;
    Ok(Request::Dump { name })
}

/// Reads the body of a request of this type, in schema 1 where it is wide. Numbers allocate nothing; each text and
/// each value is copied once, out of the body.
#[tactic(auto, unfolding(crate::specs::Bodies::request_at))]
pub(crate) fn request(
    alloc: Global,
    kind: RequestKind,
    wide: bool,
    words: &mut Words<'_>,
) -> Result<Request, WordFault>
    ensures exact { Finds (λ x. x) (request_at kind wide) words.old words.new result }
    ensures memory { IsErrOf result WordFault.NoMemory → IsTrue (takes_memory kind) }
{
    match kind {
        RequestKind::Leader => {
            words.u64()?;
            Ok(Request::Leader)
        }
        RequestKind::Finalize => {
            let (db, statement) = words.u32_pair()?;
            Ok(Request::Finalize { db, statement })
        }
        RequestKind::Assign => {
            let (id, role) = two_words(words)?;
            Ok(Request::Assign { id, role })
        }
        RequestKind::Client => Ok(Request::Client { id: words.u64()? }),
        RequestKind::Interrupt => Ok(Request::Interrupt { db: words.u64()? }),
        RequestKind::Remove => Ok(Request::Remove { id: words.u64()? }),
        RequestKind::Cluster => Ok(Request::Cluster {
            format: words.u64()?,
        }),
        RequestKind::Transfer => Ok(Request::Transfer { id: words.u64()? }),
        RequestKind::Describe => Ok(Request::Describe {
            format: words.u64()?,
        }),
        RequestKind::Weight => Ok(Request::Weight {
            weight: words.u64()?,
        }),
        RequestKind::Open => open(alloc, words),
        RequestKind::Prepare => prepare(alloc, wide, words),
        RequestKind::Exec => exec(alloc, wide, words),
        RequestKind::Query => query(alloc, wide, words),
        RequestKind::ExecSql => exec_sql(alloc, wide, words),
        RequestKind::QuerySql => query_sql(alloc, wide, words),
        RequestKind::Connect => connect(alloc, words),
        RequestKind::Add => add(alloc, words),
        RequestKind::Dump => dump(alloc, words),
    }
}
