//! Rows that are too big to be told are refused, whatever memory there is.

ghost use Rattle.std.specs.Prelude.{◌≡◌, [], ◌∷◌, length, codes, IfOk};
ghost use Rattle.wire_rows.specs.Spelling.{HaveWidth};

use dq_base::{Items, PageSet};
use session_table::{Cause, ToldRows};
use sql_engine::StatementResult;
use std::alloc::{AllocError, Global};
use std::test::Fail;
use wire_rows::Row;
use wire_words::{Value, WireBytes, WireText};

/// The bytes of a blob, and why the only row of an answer with it can't be sent.
const ROWS: &[(usize, Option<Cause>)] = &[(1, None), (16_777_216, Some(Cause::AnswerTooBig))];

/// The name of the only column.
fn columns(alloc: Global) -> Result<Vec<WireText>, AllocError>
    ensures { IfOk result (λ columns. columns.items ≡ codes "v" ∷ []) }
{
    let mut columns = Vec::new(alloc);
    columns.push(WireText::new(String::from_str(alloc, "v")?))?;
    Ok(columns)
}

/// A row with a blob of this many bytes.
fn row_of(alloc: Global, bytes: usize) -> Result<Row, AllocError>
    ensures { IfOk result (λ row. length row ≡ 1) }
{
    let blob = WireBytes::new(vec![in alloc; 7; bytes]?);
    let mut values = Vec::new(alloc);
    values.push(Value::Blob(blob))?;
    Ok(Row::new(values))
}

/// The only row, with a blob of this many bytes.
fn rows(alloc: Global, bytes: usize) -> Result<Vec<Row>, AllocError>
    ensures { IfOk result (λ rows. HaveWidth 1 rows.items) }
{
    let mut rows = Vec::new(alloc);
    rows.push(row_of(alloc, bytes)?)?;
    Ok(rows)
}

/// An answer of one row with a blob of this many bytes.
fn answer(alloc: Global, bytes: usize) -> Result<StatementResult, AllocError>
    ensures columns { IfOk result (λ ran. ran.columns ≡ codes "v" ∷ []) }
    ensures widths { IfOk result (λ ran. HaveWidth 1 ran.rows) }
{
    let columns = columns(alloc)?;
    let rows = rows(alloc, bytes)?;
    Ok(StatementResult {
        after: PageSet {
            tx: 0,
            pages: Items::new(Vec::new(alloc)),
        },
        affected: 0,
        columns: Items::new(columns),
        rows: Items::new(rows),
    })
}

/// Why the rows of an answer with a blob of this many bytes can't be sent.
fn hindrance(alloc: Global, bytes: usize) -> Result<Option<Cause>, AllocError> {
    let answer = answer(alloc, bytes)?;
    match ToldRows::cut(alloc, answer)? {
        Ok(_told) => Ok(None),
        Err(cause) => Ok(Some(cause)),
    }
}

#[test]
fn rows_of_more_than_16_mib_are_refused(rt: HostRuntime) -> Result<(), Fail> {
    for &(bytes, wanted) in ROWS {
        assert_eq!(rt; hindrance(rt.alloc(), bytes)?, wanted);
    }
    Ok(())
}
