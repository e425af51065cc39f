ghost use Rattle.std.specs.Prelude.{◌≡◌, ◌^◌};
ghost use Rattle.dq_base.specs.Decimal.{number_below};
ghost use Rattle.dq_base.specs.Texts.{halves};
ghost use Rattle.sql_engine.specs.CellTexts.{is_cell_page, set_of, get_of, wipe_of, set_in, statement_of};

use crate::cell_statement::CellStatement;
use dq_base::{decimal_u64, halves_of};

/// Whether a page may hold a cell.
fn is_cell_page(page: u64) -> bool
    ensures { result ≡ is_cell_page page }
{
    1 <= page && page <= 8192
}

/// The statement that sets a cell, if the numbers are in range.
fn set_of(page: u64, value: u64) -> Option<CellStatement>
    ensures { result ≡ set_of (Some page) (Some value) }
{
    if is_cell_page(page) && value < 10_000_000_000_000_000_000 {
        Some(CellStatement::Set { page, value })
    } else {
        None
    }
}

/// What follows `SET `.
fn set_in(text: &[u8]) -> Option<CellStatement>
    ensures { result ≡ set_in (halves text.now) }
{
    let (page, value) = halves_of(text)?;
    let page = decimal_u64(page)?;
    let value = decimal_u64(value)?;
    set_of(page, value)
}

/// What follows `GET `.
fn get_in(text: &[u8]) -> Option<CellStatement>
    ensures { result ≡ get_of (number_below (2 ^ 64) text.now) }
{
    let page = decimal_u64(text)?;
    if is_cell_page(page) {
        Some(CellStatement::Get { page })
    } else {
        None
    }
}

/// What follows `WIPE `.
fn wipe_in(text: &[u8]) -> Option<CellStatement>
    ensures { result ≡ wipe_of (number_below (2 ^ 64) text.now) }
{
    let pages = decimal_u64(text)?;
    if pages <= 8192 {
        Some(CellStatement::Wipe { pages })
    } else {
        None
    }
}

/// The statement that a text is; `None` where it is none.
#[tactic(auto, unfolding(crate::specs::CellTexts::statement_of))]
pub(crate) fn statement_of(text: &[u8]) -> Option<CellStatement>
    ensures { result ≡ statement_of text.now }
{
    if let Some(rest) = text.strip_prefix(b"SET ") {
        return set_in(rest);
    }
    if let Some(rest) = text.strip_prefix(b"GET ") {
        return get_in(rest);
    }
    if let Some(rest) = text.strip_prefix(b"WIPE ") {
        return wipe_in(rest);
    }
    None
}
