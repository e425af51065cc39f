//! What the client sends.

ghost use Rattle.std.specs.Prelude.{◌≡◌, ◌++◌, IfOk, string_bytes};
ghost use Rattle.wire_words.specs.Stream.{version_word};
ghost use Rattle.script_generator.specs.Generated.{statement, open_request, set_request, opening_bytes, set_bytes};

use crate::numbers::{cell_of, value_of};
use dq_base::Items;
use std::alloc::{AllocError, Global};
use wire_msgs::{Request, write_request};
use wire_words::{WireBytes, WireText};

/// The word of the version with which a client's stream begins.
const VERSION_WORD: [u8; 8] = [1, 0, 0, 0, 0, 0, 0, 0];

/// OPEN of the database.
fn open_request(alloc: Global) -> Result<Request, AllocError>
    ensures { IfOk result (λ request. request ≡ open_request) }
{
    let name = WireText::new(String::from_str(alloc, "d")?);
    let vfs = WireText::new(String::from_str(alloc, "volatile")?);
    Ok(Request::Open {
        name,
        flags: 0,
        vfs,
    })
}

/// The word of the version, and these bytes.
fn behind_version(alloc: Global, message: &WireBytes) -> Result<WireBytes, AllocError>
    ensures { IfOk result (λ bytes. bytes ≡ version_word ++ message.now) }
{
    let mut bytes = Vec::from_slice(alloc, &VERSION_WORD)?;
    bytes.extend_from_slice(message.as_slice())?;
    Ok(Items::new(bytes))
}

/// The first bytes of the client: the word of the version, and OPEN.
#[tactic(auto, unfolding(crate::specs::Generated::opening_bytes))]
pub(crate) fn opening_bytes(alloc: Global) -> Result<WireBytes, AllocError>
    ensures { IfOk result (λ bytes. bytes ≡ opening_bytes) }
{
    let request = open_request(alloc)?;
    let message = write_request(alloc, &request)?;
    behind_version(alloc, &message)
}

/// The statement of the write of a number.
#[tactic(auto, unfolding(crate::specs::Generated::statement))]
fn statement(alloc: Global, number: u32) -> Result<String, AllocError>
    ensures { IfOk result (λ text. string_bytes text ≡ statement number) }
{
    let cell = cell_of(number);
    let value = value_of(number);
    format!(in alloc; "SET {cell} {value}")
}

/// EXEC_SQL of that statement.
fn set_request(alloc: Global, number: u32) -> Result<Request, AllocError>
    ensures { IfOk result (λ request. request ≡ set_request number) }
{
    let sql = WireText::new(statement(alloc, number)?);
    Ok(Request::ExecSql {
        db: 0,
        sql,
        params: Items::new(Vec::new(alloc)),
        wide: false,
    })
}

/// The bytes of the write of a number.
#[tactic(auto, unfolding(crate::specs::Generated::set_bytes))]
pub(crate) fn set_bytes(alloc: Global, number: u32) -> Result<WireBytes, AllocError>
    ensures { IfOk result (λ bytes. bytes ≡ set_bytes number) }
{
    let request = set_request(alloc, number)?;
    write_request(alloc, &request)
}
