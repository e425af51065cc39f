ghost use Rattle.std.specs.Prelude.{◌≡◌, IfOk};
ghost use Rattle.engine_recording.specs.Noting.{note_of};

use crate::recorded_item::RecordedItem;
use dq_base::{Items, PageSet};
use sql_engine::{EngineFault, StatementResult};
use std::alloc::{AllocError, Global};
use wire_rows::Row;
use wire_words::{Value, WireBytes, WireText};

fn copy_text(alloc: Global, text: &WireText) -> Result<WireText, AllocError>
    ensures { IfOk result (λ copy. copy ≡ text.now) }
{
    Ok(WireText::new(String::from_str(alloc, text.as_str())?))
}

fn copy_bytes(alloc: Global, bytes: &WireBytes) -> Result<WireBytes, AllocError>
    ensures { IfOk result (λ copy. copy ≡ bytes.now) }
{
    Ok(WireBytes::new(Vec::from_slice(alloc, bytes.as_slice())?))
}

fn copy_value(alloc: Global, value: &Value) -> Result<Value, AllocError>
    ensures { IfOk result (λ copy. copy ≡ value.now) }
{
    match value {
        Value::Integer(number) => Ok(Value::Integer(*number)),
        Value::Text(text) => Ok(Value::Text(copy_text(alloc, text)?)),
        Value::Blob(bytes) => Ok(Value::Blob(copy_bytes(alloc, bytes)?)),
        Value::Null => Ok(Value::Null),
    }
}

fn copy_row(alloc: Global, row: &Row) -> Result<Row, AllocError>
    ensures { IfOk result (λ copy. copy ≡ row.now) }
{
    let values = row.values();
    let mut copies = Vec::with_capacity(alloc, values.len())?;
    for value in values {
        copies.push(copy_value(alloc, value)?)?;
    }
    Ok(Row::new(copies))
}

fn copy_rows(alloc: Global, rows: &[Row]) -> Result<Items<Row>, AllocError>
    ensures { IfOk result (λ copy. copy ≡ rows.now) }
{
    let mut copies = Vec::with_capacity(alloc, rows.len())?;
    for row in rows {
        copies.push(copy_row(alloc, row)?)?;
    }
    Ok(Items::new(copies))
}

fn copy_names(alloc: Global, names: &[WireText]) -> Result<Items<WireText>, AllocError>
    ensures { IfOk result (λ copy. copy ≡ names.now) }
{
    let mut copies = Vec::with_capacity(alloc, names.len())?;
    for name in names {
        copies.push(copy_text(alloc, name)?)?;
    }
    Ok(Items::new(copies))
}

fn copy_set(alloc: Global, set: &PageSet) -> Result<PageSet, AllocError>
    ensures { IfOk result (λ copy. copy ≡ set.now) }
{
    Ok(PageSet {
        tx: set.tx,
        pages: Items::new(Vec::from_slice(alloc, set.pages.as_slice())?),
    })
}

fn copy_ran(alloc: Global, ran: &StatementResult) -> Result<StatementResult, AllocError>
    ensures { IfOk result (λ copy. copy ≡ ran.now) }
{
    Ok(StatementResult {
        after: copy_set(alloc, &ran.after)?,
        affected: ran.affected,
        columns: copy_names(alloc, ran.columns.as_slice())?,
        rows: copy_rows(alloc, ran.rows.as_slice())?,
    })
}

/// The item that keeps a copy of this answer. Each byte of the answer is copied once.
pub(crate) fn note(
    alloc: Global,
    answer: &Result<StatementResult, EngineFault>,
) -> Result<RecordedItem, AllocError>
    ensures { IfOk result (λ item. item ≡ note_of answer.now) }
{
    match answer {
        Ok(ran) => Ok(RecordedItem::Ran(copy_ran(alloc, ran)?)),
        Err(fault) => Ok(RecordedItem::Fault(*fault)),
    }
}
