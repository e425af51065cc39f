ghost use Rattle.std.specs.Prelude.{◌≡◌, None, Some, Ok, Err, IfSome, MatchOption, length};
ghost use Rattle.wire_words.specs.Reading.{Finds as FindsItems};
ghost use Rattle.wire_rows.specs.Reading.{Finds, Gives, names_at, end_at, end_here, next_at, rows_at, part_of};

use crate::fault::RowReadFault;
use crate::part::{More, Part};
use crate::row::Row;
use dq_base::Items;
use std::alloc::Global;
use wire_words::{WireText, WordFault, Words};

/// What comes next in the body of a part.
#[derive(Drop)]
pub(crate) enum Next {
    Row(Row),
    End(More),
}

/// The names of this many columns. Takes memory for those that are there.
fn names(alloc: Global, words: &mut Words<'_>, count: u64) -> Result<Vec<WireText>, WordFault>
    ensures { FindsItems (λ names. names.items) (names_at count) words.old words.new result }
{
    let mut names = Vec::new(alloc);
    for _ in 0..count {
        let name = words.text(alloc)?;
        names.push(name)?;
    }
    Ok(names)
}

/// The end word that comes next, which the reader then has passed, or none.
#[tactic(auto, unfolding(crate::specs::Reading::end_at))]
fn end_word(words: &mut Words<'_>) -> Option<More>
    ensures which { result ≡ end_at words.old }
    ensures passed { IfSome result (λ more. end_here more words.old ≡ Ok (Next.End more, words.new)) }
{
    match words.u64() {
        Ok(0xffff_ffff_ffff_ffff) => Some(More::Last),
        Ok(0xeeee_eeee_eeee_eeee) => Some(More::Follows),
        _ => None,
    }
}

/// The end word, or else this fault.
fn end_or(words: &mut Words<'_>, fault: RowReadFault) -> Result<Next, RowReadFault>
    ensures { MatchOption (end_at words.old) (result ≡ Err fault) (λ more. (result ≡ Ok (Next.End more)) × (end_here more words.old ≡ Ok (Next.End more, words.new))) }
{
    match end_word(words) {
        Some(more) => Ok(Next::End(more)),
        None => Err(fault),
    }
}

/// A row, or the end word, which no row begins as.
#[tactic(auto, unfolding(crate::specs::Reading::next_at), using(crate::proofs::Ends::row_not_end))]
fn row_or_end(alloc: Global, words: &mut Words<'_>, count: u64) -> Result<Next, RowReadFault>
    ensures { Finds (λ next. next) (next_at count) words.old words.new result }
{
    if count == 0 || words.left() == 0 {
        return end_or(words, RowReadFault::NoEnd);
    }
    match words.row(alloc, count) {
        Ok(values) => Ok(Next::Row(Row::new(values))),
        Err(fault) => end_or(words, RowReadFault::from(fault)),
    }
}

/// The rows up to the end word, and what it says. Each takes a byte at least.
fn rows(alloc: Global, words: &mut Words<'_>, count: u64) -> Result<(Vec<Row>, More), RowReadFault>
    ensures { Finds (λ rows. (rows.0.items, rows.1)) (rows_at (length words.old.bytes) count) words.old words.new result }
{
    let mut rows = Vec::new(alloc);
    let budget = words.left();
    for _ in 0..budget {
        let item = row_or_end(alloc, words, count)?;
        match item {
            Next::Row(row) => rows.push(row)?,
            Next::End(more) => return Ok((rows, more)),
        }
    }
    Err(RowReadFault::NoEnd)
}

/// Reads the body of a part: the number of columns, their names, and rows up to the end word, which says whether another
/// part follows. With columns no row begins as an end word does.
///
/// The first fault comes. `Word` names the first item that is at fault: the number, a name, the codes of a row, which are
/// one item, or a value. `NoEnd` comes where the body ends at a place where a row or the end word would begin, and, where
/// there are no columns, if something else than an end word follows the number. `Tail` has the number of words after
/// the end word, if a part of a word counts as one. `NoMemory` means out of memory. The names and the values are
/// copied once, and no room is taken ahead for the names that the number states.
#[tactic(auto, unfolding(crate::specs::Reading::part_of))]
pub fn read_part(alloc: Global, body: &[u8]) -> Result<(Part, More), RowReadFault>
    ensures { Gives (part_of body.now) result }
{
    let mut words = Words::new(body);
    let count = words.u64()?;
    let columns = names(alloc, &mut words, count)?;
    let (rows, more) = rows(alloc, &mut words, count)?;
    let left = words.left();
    if left != 0 {
        return Err(RowReadFault::Tail(left.div_ceil(8)));
    }
    let part = Part {
        columns: Items::new(columns),
        rows: Items::new(rows),
    };
    Ok((part, more))
}
