//! The requests of a client, as they are sent.

ghost use Rattle.std.specs.Prelude.{◌≡◌, ◌++◌, IfOk};
ghost use Rattle.wire_words.specs.Items.{HasNoNul};
ghost use Rattle.wire_words.specs.Stream.{version_word};
ghost use Rattle.wire_msgs.specs.Requests.{request_bytes, IsWritableRequest};
ghost use Rattle.client.specs.Sending.{leader_bytes, open_bytes, statement_bytes, opening_bytes, statement_request, volatile_name};

use dq_base::Items;
use std::alloc::{AllocError, Global};
use wire_msgs::{Request, write_request};
use wire_words::{WireBytes, WireText};

/// The word of the version with which a connection begins.
const VERSION_WORD: [u8; 8] = [1, 0, 0, 0, 0, 0, 0, 0];

/// A copy of a text.
pub(crate) fn copied(alloc: Global, text: &WireText) -> Result<WireText, AllocError>
    ensures { IfOk result (λ copy. copy ≡ text.now) }
{
    Ok(WireText::new(String::from_str(alloc, text.as_str())?))
}

/// The word of the version, and these bytes.
fn behind_version(alloc: Global, message: &WireBytes) -> Result<WireBytes, AllocError>
    ensures { IfOk result (λ bytes. bytes ≡ version_word ++ message.now) }
{
    let mut bytes = Vec::from_slice(alloc, &VERSION_WORD)?;
    bytes.extend_from_slice(message.as_slice())?;
    Ok(Items::new(bytes))
}

/// The word of the version and LEADER.
#[tactic(auto, unfolding(crate::specs::Sending::leader_bytes))]
pub(crate) fn leader(alloc: Global) -> Result<WireBytes, AllocError>
    ensures { IfOk result (λ bytes. bytes ≡ leader_bytes) }
{
    let message = write_request(alloc, &Request::Leader)?;
    behind_version(alloc, &message)
}

/// The name of the kind of files that OPEN asks for.
fn volatile(alloc: Global) -> Result<WireText, AllocError>
    ensures { IfOk result (λ name. name ≡ volatile_name) }
{
    Ok(WireText::new(String::from_str(alloc, "volatile")?))
}

fn open_request(alloc: Global, name: &WireText) -> Result<Request, AllocError>
    ensures { IfOk result (λ request. request ≡ Request.Open name.now 0 volatile_name) }
{
    let name = copied(alloc, name)?;
    let vfs = volatile(alloc)?;
    Ok(Request::Open {
        name,
        flags: 0,
        vfs,
    })
}

/// OPEN of a database.
#[tactic(auto, unfolding(crate::specs::Sending::open_bytes))]
pub(crate) fn opens(alloc: Global, name: &WireText) -> Result<WireBytes, AllocError>
    requires { HasNoNul name.now }
    ensures { IfOk result (λ bytes. bytes ≡ open_bytes name.now) }
{
    let request = open_request(alloc, name)?;
    write_request(alloc, &request)
}

/// The word of the version and OPEN of a database.
#[tactic(auto, unfolding(crate::specs::Sending::opening_bytes))]
pub(crate) fn opens_at_once(alloc: Global, name: &WireText) -> Result<WireBytes, AllocError>
    requires { HasNoNul name.now }
    ensures { IfOk result (λ bytes. bytes ≡ opening_bytes name.now) }
{
    let message = opens(alloc, name)?;
    behind_version(alloc, &message)
}

fn text_request(alloc: Global, query: bool, db: u32, sql: &WireText) -> Result<Request, AllocError>
    ensures { IfOk result (λ request. request ≡ statement_request query db sql.now) }
{
    let sql = copied(alloc, sql)?;
    let db = db as u64;
    let params = Items::new(Vec::new(alloc));
    let wide = false;
    if query {
        Ok(Request::QuerySql {
            db,
            sql,
            params,
            wide,
        })
    } else {
        Ok(Request::ExecSql {
            db,
            sql,
            params,
            wide,
        })
    }
}

/// The statement, in an open database.
#[tactic(auto, unfolding(crate::specs::Sending::statement_bytes))]
pub(crate) fn states(
    alloc: Global,
    query: bool,
    db: u32,
    sql: &WireText,
) -> Result<WireBytes, AllocError>
    requires { HasNoNul sql.now }
    ensures { IfOk result (λ bytes. bytes ≡ statement_bytes query db sql.now) }
{
    let request = text_request(alloc, query, db, sql)?;
    write_request(alloc, &request)
}
