//! Texts that are noted beside a connection.

ghost use Rattle.std.specs.Prelude.{◌≡◌, ◌⊎◌, IfOk, IfSome};
ghost use Rattle.std.specs.List.{All, Contains};
ghost use Rattle.sqlite_engine.specs.Looking.{IsNoted};

use crate::names::names_of;
use dq_base::{Bytes, Items};
use sqlite::types::Bytes as ColumnName;
use std::alloc::{AllocError, Global};
use wire_words::WireText;

/// A text that looks only, with the names of the columns that it shows.
#[derive(Drop)]
pub(crate) struct LookingText {
    pub(crate) text: Bytes,
    pub(crate) columns: Items<ColumnName>,
}

/// How many texts are noted at most.
const MAX_TEXTS: usize = 16;

/// The most bytes that a text has which is noted.
const MAX_TEXT_LENGTH: usize = 1_024;

/// The names that an answer gives the columns of a text that is one of these. `None` is that it isn't, or out of memory.
pub(crate) fn names_noted(
    alloc: Global,
    texts: &[LookingText],
    text: &str,
) -> Option<Items<WireText>>
    ensures { IfSome result (λ names. IsNoted texts.now text.now names) }
{
    for one in texts {
        if one.text.as_slice() == text.as_bytes() {
            return names_of(alloc, one.columns.as_slice()).ok();
        }
    }
    None
}

/// Notes a text with the names of its columns. If there are sixteen the first of them goes. A long text isn't noted, and none is if
/// memory runs out.
pub(crate) fn note_text(
    alloc: Global,
    texts: &mut Vec<LookingText>,
    text: &str,
    columns: &[ColumnName],
)
    ensures { All (λ it. Contains texts.old.items it ⊎ (it ≡ record { text = text.now; columns = columns.now })) texts.new.items }
{
    if text.len() > MAX_TEXT_LENGTH {
        return;
    }
    if let Ok(own) = own_text(alloc, text, columns) {
        add_text(texts, own);
    }
}

/// A copy of a text with the names of its columns. Fails if memory runs out.
fn own_text(alloc: Global, text: &str, columns: &[ColumnName]) -> Result<LookingText, AllocError>
    ensures { IfOk result (λ own. own ≡ record { text = text.now; columns = columns.now }) }
{
    Ok(LookingText {
        text: Bytes::new(Vec::from_slice(alloc, text.as_bytes())?),
        columns: own_columns(alloc, columns)?,
    })
}

/// A copy of the names of columns. Fails if memory runs out.
fn own_columns(alloc: Global, columns: &[ColumnName]) -> Result<Items<ColumnName>, AllocError>
    ensures { IfOk result (λ own. own ≡ columns.now) }
{
    let mut own = Vec::new(alloc);
    for column in columns {
        own.push(ColumnName::from_slice(alloc, column.as_slice())?)?;
    }
    Ok(Items::new(own))
}

/// Adds a text. Where there are sixteen the first of them goes, and this one if memory runs out.
fn add_text(texts: &mut Vec<LookingText>, own: LookingText)
    ensures { All (λ it. Contains texts.old.items it ⊎ (it ≡ own)) texts.new.items }
{
    make_room(texts);
    let _ = texts.push(own);
}

/// Takes the first away where there are sixteen.
fn make_room(texts: &mut Vec<LookingText>)
    ensures { All (Contains texts.old.items) texts.new.items }
{
    if texts.len() >= MAX_TEXTS {
        let _first = texts.remove(0);
    }
}
