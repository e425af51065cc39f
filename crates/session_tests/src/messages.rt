//! Messages as they are in a stream: what a client sends, and what it is told.

use std::alloc::{AllocError, Global};

/// The version of the protocol, with which a client begins.
pub(crate) const VERSION: &[u8] = b"\x01\0\0\0\0\0\0\0";

/// DB 0.
pub(crate) const OPENED: &[u8] = b"\x01\0\0\0\x04\0\0\0\0\0\0\0\0\0\0\0";

/// RESULT, 0 rows affected.
pub(crate) const NONE_AFFECTED: &[u8] = b"\x02\0\0\0\x06\0\0\0\0\0\0\0\0\0\0\0\0\0\0\0\0\0\0\0";

/// RESULT, 1 row affected.
pub(crate) const ONE_AFFECTED: &[u8] = b"\x02\0\0\0\x06\0\0\0\0\0\0\0\0\0\0\0\x01\0\0\0\0\0\0\0";

/// ROWS of the column `v`: none.
pub(crate) const NO_ROW: &[u8] =
    b"\x03\0\0\0\x07\0\0\0\x01\0\0\0\0\0\0\0v\0\0\0\0\0\0\0\xff\xff\xff\xff\xff\xff\xff\xff";

/// ROWS of the column `v`: the integer 9.
pub(crate) const ROW_OF_9: &[u8] =
    b"\x05\0\0\0\x07\0\0\0\x01\0\0\0\0\0\0\0v\0\0\0\0\0\0\0\x01\0\0\0\0\0\0\0\x09\0\0\0\0\0\0\0\xff\xff\xff\xff\xff\xff\xff\xff";

/// FAILURE 10250.
pub(crate) const NOT_LEADER: &[u8] =
    b"\x03\0\0\0\0\0\0\0\x0a\x28\0\0\0\0\0\0not leader\0\0\0\0\0\0";

/// FAILURE 10506.
pub(crate) const LOST: &[u8] = b"\x03\0\0\0\0\0\0\0\x0a\x29\0\0\0\0\0\0leadership lost\0";

/// FAILURE 5, for the write lock.
pub(crate) const LOCKED: &[u8] =
    b"\x04\0\0\0\0\0\0\0\x05\0\0\0\0\0\0\0database is locked\0\0\0\0\0\0";

/// FAILURE 517.
pub(crate) const OUT_OF_DATE: &[u8] =
    b"\x04\0\0\0\0\0\0\0\x05\x02\0\0\0\0\0\0snapshot is out of date\0";

/// FAILURE 1, for a COMMIT outside a transaction.
pub(crate) const NO_TRANSACTION: &[u8] = b"\x03\0\0\0\0\0\0\0\x01\0\0\0\0\0\0\0no transaction\0\0";

/// FAILURE 13, for pages.
pub(crate) const DATABASE_FULL: &[u8] =
    b"\x04\0\0\0\0\0\0\0\x0d\0\0\0\0\0\0\0database is full\0\0\0\0\0\0\0\0";

/// FAILURE 13, for the log.
pub(crate) const LOG_FULL: &[u8] = b"\x03\0\0\0\0\0\0\0\x0d\0\0\0\0\0\0\0log is full\0\0\0\0\0";

/// FAILURE 1, for a parameter's number.
pub(crate) const BAD_NUMBER: &[u8] =
    b"\x04\0\0\0\0\0\0\0\x01\0\0\0\0\0\0\0bad parameter number\0\0\0\0";

/// FAILURE 18.
pub(crate) const TOO_BIG: &[u8] = b"\x03\0\0\0\0\0\0\0\x12\0\0\0\0\0\0\0answer too big\0\0";

/// FAILURE 26.
pub(crate) const NOT_A_DATABASE: &[u8] =
    b"\x04\0\0\0\0\0\0\0\x1a\0\0\0\0\0\0\0file is not a database\0\0";

/// How many bytes a message with 16 MiB has.
const BULK_BYTES: usize = 16_777_224;

/// The head of a message of a type, with this many words.
fn head(alloc: Global, words: usize, kind: u8) -> Result<Vec<u8>, AllocError> {
    let mut bytes = Vec::new(alloc);
    bytes.extend_from_slice(&[(words % 256) as u8, 0, 0, 0, kind, 0, 0, 0])?;
    Ok(bytes)
}

/// Puts a text: its bytes, a NUL, and zeros to the next whole word.
fn put_text(bytes: &mut Vec<u8>, text: &str) -> Result<(), AllocError> {
    bytes.extend_from_slice(text.as_bytes())?;
    for _ in 0..8 - text.len() % 8 {
        bytes.push(0)?;
    }
    Ok(())
}

/// OPEN of a short name, which asks for barrier reads or doesn't, without a VFS.
pub(crate) fn opens(alloc: Global, name: &str, barriers: bool) -> Result<Vec<u8>, AllocError> {
    let mut bytes = head(alloc, name.len() / 8 + 3, 3)?;
    put_text(&mut bytes, name)?;
    bytes.extend_from_slice(&[0, 0, 0, 0, u8::from(barriers), 0, 0, 0])?;
    bytes.extend_from_slice(&[0; 8])?;
    Ok(bytes)
}

/// DUMP of a short name.
pub(crate) fn dumps(alloc: Global, name: &str) -> Result<Vec<u8>, AllocError> {
    let mut bytes = head(alloc, name.len() / 8 + 1, 15)?;
    put_text(&mut bytes, name)?;
    Ok(bytes)
}

/// A message of no type with a body of 16 MiB, which has the most words that a message may have.
pub(crate) fn bulk(alloc: Global) -> Result<Vec<u8>, AllocError> {
    let mut bytes = vec![in alloc; 0, 0, 32, 0, 255, 0, 0, 0]?;
    bytes.resize(BULK_BYTES, 0)?;
    Ok(bytes)
}

/// A request of a type that runs a short text in database 0, without parameters.
fn runs(alloc: Global, kind: u8, sql: &str) -> Result<Vec<u8>, AllocError> {
    let mut bytes = head(alloc, sql.len() / 8 + 2, kind)?;
    bytes.extend_from_slice(&[0; 8])?;
    put_text(&mut bytes, sql)?;
    Ok(bytes)
}

/// EXEC_SQL of a short text.
pub(crate) fn executes(alloc: Global, sql: &str) -> Result<Vec<u8>, AllocError> {
    runs(alloc, 8, sql)
}

/// QUERY_SQL of a short text.
pub(crate) fn queries(alloc: Global, sql: &str) -> Result<Vec<u8>, AllocError> {
    runs(alloc, 9, sql)
}
