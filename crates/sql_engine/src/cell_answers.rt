ghost use Rattle.std.specs.Prelude.{◌≡◌, ◌≤◌, ◌-◌, [], ◌∷◌, codes, IfOk, Some};
ghost use Rattle.std.specs.Int.{w64, cast_signed};
ghost use Rattle.dq_base.specs.Images.{page_at, pages_in};
ghost use Rattle.wire_words.specs.declared.value.Value.TheVariants.{Integer};
ghost use Rattle.sql_engine.specs.CellTexts.{IsCellPage, IsInRange};
ghost use Rattle.sql_engine.specs.Meanings.{IsShort};
ghost use Rattle.sql_engine.specs.Cells.{with_cell, wiped, cell_rows, told, read, cell_outcome, outcome_of};
ghost use Rattle.sql_engine.specs.CellChanges.{lengths_of};
ghost use Rattle.sql_engine.specs.CellAnswers.{TellsOutcome, Performs};

use crate::answer::StatementResult;
use crate::cell_changes::{lengths_of, set_changes, wipe_changes};
use crate::cell_statement::CellStatement;
use crate::cell_text::statement_of;
use crate::fault::EngineFault;
use crate::page_bytes::{number_of, pages_in};
use dq_base::{Image, Items, Lengths, NumberedPage, Page, PageSet, page_at};
use std::alloc::{AllocError, Global};
use wire_rows::Row;
use wire_words::{Value, WireText};

/// The greatest value that a cell may be set to.
const GREATEST_VALUE: u64 = 9_223_372_036_854_775_807;

/// An answer without columns.
fn told(pages: Vec<NumberedPage>, affected: u64, tx: u64, alloc: Global) -> StatementResult
    ensures after { result.after ≡ record { tx = tx; pages = pages.items } }
    ensures affected { result.affected ≡ affected }
    ensures columns { result.columns ≡ [] }
    ensures rows { result.rows ≡ [] }
{
    StatementResult {
        after: PageSet {
            tx,
            pages: Items::new(pages),
        },
        affected,
        columns: Items::new(Vec::new(alloc)),
        rows: Items::new(Vec::new(alloc)),
    }
}

/// Sets a cell.
fn set(
    alloc: Global,
    image: &Image,
    lengths: Lengths,
    page: u64,
    value: u64,
    tx: u64,
) -> Result<StatementResult, AllocError>
    requires page { IsCellPage page }
    requires short { IsShort image.now }
    requires lengths { lengths ≡ lengths_of image.now }
    ensures { IfOk result (TellsOutcome image.now tx (record { after = with_cell image.now page value; reply = told 1 })) }
{
    let pages = set_changes(alloc, image, lengths, page, value)?;
    Ok(told(pages, 1, tx, alloc))
}

/// Cuts the main file to this many pages.
fn wipe(
    alloc: Global,
    image: &Image,
    lengths: Lengths,
    pages: u64,
    tx: u64,
) -> Result<StatementResult, AllocError>
    requires pages { pages ≤ 8192 }
    requires short { IsShort image.now }
    requires lengths { lengths ≡ lengths_of image.now }
    ensures { IfOk result (TellsOutcome image.now tx (record { after = wiped image.now pages; reply = told (pages_in image.now.main - pages) })) }
{
    let affected = pages_in(lengths.main).saturating_sub(pages);
    let changes = wipe_changes(alloc, image, lengths, pages)?;
    Ok(told(changes, affected, tx, alloc))
}

/// The rows that a page gives: one with its number, if there is the page.
fn cell_rows(alloc: Global, page: Option<Page>) -> Result<Vec<Row>, AllocError>
    ensures { IfOk result (λ rows. rows.items ≡ cell_rows page) }
{
    let mut rows = Vec::new(alloc);
    if let Some(page) = page {
        rows.push(cell_row(alloc, number_of(&page))?)?;
    }
    Ok(rows)
}

/// A row with this number, as a signed one.
fn cell_row(alloc: Global, number: u64) -> Result<Row, AllocError>
    ensures { IfOk result (λ row. row ≡ Integer (cast_signed w64 number) ∷ []) }
{
    let mut values = Vec::new(alloc);
    values.push(Value::Integer(number.cast_signed()))?;
    Ok(Row::new(values))
}

/// The column of the values.
fn columns(alloc: Global) -> Result<Vec<WireText>, AllocError>
    ensures { IfOk result (λ columns. columns.items ≡ codes "v" ∷ []) }
{
    let mut columns = Vec::new(alloc);
    columns.push(WireText::new(String::from_str(alloc, "v")?))?;
    Ok(columns)
}

/// Reads a cell.
fn get(alloc: Global, image: &Image, page: u64, tx: u64) -> Result<StatementResult, AllocError>
    requires page { IsCellPage page }
    requires short { IsShort image.now }
    ensures { IfOk result (TellsOutcome image.now tx (read image.now page)) }
{
    let columns = columns(alloc)?;
    let rows = cell_rows(alloc, page_at(image, 2 * page))?;
    Ok(StatementResult {
        after: PageSet {
            tx,
            pages: Items::new(Vec::new(alloc)),
        },
        affected: 0,
        columns: Items::new(columns),
        rows: Items::new(rows),
    })
}

/// Does what a statement says.
fn perform(
    alloc: Global,
    image: &Image,
    lengths: Lengths,
    statement: CellStatement,
    tx: u64,
) -> Result<StatementResult, EngineFault>
    requires range { IsInRange statement }
    requires short { IsShort image.now }
    requires lengths { lengths ≡ lengths_of image.now }
    ensures { Performs image.now tx (cell_outcome image.now (Some statement)) result }
{
    match statement {
        CellStatement::Set { page, value } => {
            if value > GREATEST_VALUE {
                return Err(EngineFault::Constraint);
            }
            Ok(set(alloc, image, lengths, page, value, tx)?)
        }
        CellStatement::Get { page } => Ok(get(alloc, image, page, tx)?),
        CellStatement::Wipe { pages } => Ok(wipe(alloc, image, lengths, pages, tx)?),
    }
}

/// Runs a statement of cells.
pub(crate) fn run_statement(
    alloc: Global,
    image: &Image,
    text: &str,
    params: &[Value],
    tx: u64,
) -> Result<StatementResult, EngineFault>
    ensures { Performs image.now tx (outcome_of image.now (record { text = text.now; params = params.now })) result }
{
    if !params.is_empty() {
        return Err(EngineFault::Sql);
    }
    match statement_of(text.as_bytes()) {
        Some(statement) => perform(alloc, image, lengths_of(image), statement, tx),
        None => Err(EngineFault::Sql),
    }
}
