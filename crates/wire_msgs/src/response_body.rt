//! Reading the body of a response.

ghost use Rattle.std.specs.Prelude.{false, IsErrOf, IsTrue};
ghost use Rattle.wire_words.specs.Reading.{Finds};
ghost use Rattle.wire_msgs.specs.Kinds.{response_takes_memory};
ghost use Rattle.wire_msgs.specs.Bodies.{half_at, zero_at, optional_at, many_at, counted_at, server_at, file_at, rest_at, response_at};

use crate::items::{two_words, word_text};
use crate::response::{File, NodeInfo, Response, ResponseKind};
use dq_base::Items;
use std::alloc::Global;
use wire_words::{WireBytes, WordFault, Words};

// A number of 32 bits, and 32 bits that have to be zero.
fn half(words: &mut Words<'_>) -> Result<u32, WordFault>
    ensures exact { Finds (λ x. x) half_at words.old words.new result }
    ensures memory { IsErrOf result WordFault.NoMemory → ⊥ }
{
    let at = words.place();
    let (number, zero) = words.u32_pair()?;
    if zero != 0 {
        return Err(WordFault::Pad(at));
    }
    Ok(number)
}

// A word that has to be zero.
fn zero(words: &mut Words<'_>) -> Result<u64, WordFault>
    ensures exact { Finds (λ x. x) zero_at words.old words.new result }
    ensures memory { IsErrOf result WordFault.NoMemory → ⊥ }
{
    let at = words.place();
    let number = words.u64()?;
    if number != 0 {
        return Err(WordFault::Pad(at));
    }
    Ok(number)
}

// A number where it is to be there.
fn optional(there: bool, words: &mut Words<'_>) -> Result<Option<u64>, WordFault>
    ensures exact { Finds (λ x. x) (optional_at there) words.old words.new result }
    ensures memory { IsErrOf result WordFault.NoMemory → ⊥ }
{
    if !there {
        return Ok(None);
    }
    let number = words.u64()?;
    Ok(Some(number))
}

// A server of a list, with its role where roles are listed.
#[tactic(auto, unfolding(crate::specs::Bodies::server_at))]
fn server(alloc: Global, roles: bool, words: &mut Words<'_>) -> Result<NodeInfo, WordFault>
    ensures { Finds (λ x. x) (server_at roles) words.old words.new result }
{
    let (id, address) = word_text(alloc, words)?;
    let role = optional(roles, words)?;
    Ok(NodeInfo { id, address, role })
}

// This many servers. Takes memory for those that are there.
fn servers(
    alloc: Global,
    roles: bool,
    words: &mut Words<'_>,
    count: u64,
) -> Result<Vec<NodeInfo>, WordFault>
    ensures { Finds (λ servers. servers.items) (many_at (server_at roles) count) words.old words.new result }
{
    let mut servers = Vec::new(alloc);
    for _ in 0..count {
        let server = server(alloc, roles, words)?;
        servers.push(server)?;
    }
    Ok(servers)
}

// A list of servers after their number.
fn counted_servers(
    alloc: Global,
    roles: bool,
    words: &mut Words<'_>,
) -> Result<Items<NodeInfo>, WordFault>
    ensures { Finds (λ servers. servers) (counted_at (server_at roles)) words.old words.new result }
{
    let count = words.u64()?;
    let servers = servers(alloc, roles, words, count)?;
    Ok(Items::new(servers))
}

// A file: its name and its bytes.
#[tactic(auto, unfolding(crate::specs::Bodies::file_at))]
fn file(alloc: Global, words: &mut Words<'_>) -> Result<File, WordFault>
    ensures { Finds (λ x. x) file_at words.old words.new result }
{
    let name = words.text(alloc)?;
    let content = words.blob(alloc)?;
    Ok(File { name, content })
}

// This many files. Takes memory for those that are there.
fn files(alloc: Global, words: &mut Words<'_>, count: u64) -> Result<Vec<File>, WordFault>
    ensures { Finds (λ files. files.items) (many_at file_at count) words.old words.new result }
{
    let mut files = Vec::new(alloc);
    for _ in 0..count {
        let file = file(alloc, words)?;
        files.push(file)?;
    }
    Ok(files)
}

// A list of files after their number.
fn counted_files(alloc: Global, words: &mut Words<'_>) -> Result<Items<File>, WordFault>
    ensures { Finds (λ files. files) (counted_at file_at) words.old words.new result }
{
    let count = words.u64()?;
    let files = files(alloc, words, count)?;
    Ok(Items::new(files))
}

// The rest, up to a part of a word.
fn rest(alloc: Global, words: &mut Words<'_>) -> Result<WireBytes, WordFault>
    ensures { Finds (λ body. body) rest_at words.old words.new result }
{
    let size = words.left() / 8 * 8;
    words.raw(alloc, size)
}

// The body of STMT.
#[tactic(auto, unfolding(crate::specs::Bodies::response_at))]
fn stmt(wide: bool, words: &mut Words<'_>) -> Result<Response, WordFault>
    ensures exact { Finds (λ x. x) (response_at ResponseKind.Stmt false wide) words.old words.new result }
    ensures memory { IsErrOf result WordFault.NoMemory → ⊥ }
{
    let (db, id) = words.u32_pair()?;
    let params = words.u64()?;
    let tail = optional(wide, words)?;
    Ok(Response::Stmt {
        db,
        id,
        params,
        tail,
    })
}

/// Reads the body of a response of this type, with the roles of servers or not, in schema 1 where it is wide. Numbers
/// allocate nothing; each text, each file and the body of rows are copied once.
#[tactic(auto, unfolding(crate::specs::Bodies::response_at))]
pub(crate) fn response(
    alloc: Global,
    kind: ResponseKind,
    roles: bool,
    wide: bool,
    words: &mut Words<'_>,
) -> Result<Response, WordFault>
    ensures exact { Finds (λ x. x) (response_at kind roles wide) words.old words.new result }
    ensures memory { IsErrOf result WordFault.NoMemory → IsTrue (response_takes_memory kind) }
{
    match kind {
        ResponseKind::Failure => {
            let (code, message) = word_text(alloc, words)?;
            Ok(Response::Failure { code, message })
        }
        ResponseKind::Server => {
            let (id, address) = word_text(alloc, words)?;
            Ok(Response::Server { id, address })
        }
        ResponseKind::Welcome => Ok(Response::Welcome {
            heartbeat_timeout: words.u64()?,
        }),
        ResponseKind::Servers => Ok(Response::Servers {
            servers: counted_servers(alloc, roles, words)?,
        }),
        ResponseKind::Db => Ok(Response::Db { id: half(words)? }),
        ResponseKind::Stmt => stmt(wide, words),
        ResponseKind::Result => {
            let (last_insert_id, rows_affected) = two_words(words)?;
            Ok(Response::Result {
                last_insert_id,
                rows_affected,
            })
        }
        ResponseKind::Rows => Ok(Response::Rows {
            body: rest(alloc, words)?,
        }),
        ResponseKind::Empty => {
            zero(words)?;
            Ok(Response::Empty)
        }
        ResponseKind::Files => Ok(Response::Files {
            files: counted_files(alloc, words)?,
        }),
        ResponseKind::Metadata => {
            let (failure_domain, weight) = two_words(words)?;
            Ok(Response::Metadata {
                failure_domain,
                weight,
            })
        }
    }
}
