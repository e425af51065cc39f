ghost use Rattle.std.specs.Prelude.{◌≡◌, ◌≤◌, ◌<◌, ◌++◌, ℕ, [], length, IfOk, OnOk, IsErrOf};
ghost use Rattle.std.specs.List.{AllByRecursion};
ghost use Rattle.wire_words.specs.Items.{word};
ghost use Rattle.wire_words.specs.Values.{AreWritable};
ghost use Rattle.wire_rows.specs.Spelling.{names_bytes, rows_bytes, end_word, body_bytes, HaveNoNul, HaveWidth};
ghost use Rattle.wire_rows.specs.Cut.{cut, bodies, total_size};
ghost use Rattle.wire_rows.specs.Nuls.{IsFirstNul};
ghost use Rattle.wire_rows.specs.Answering.{Answers, parts_of, held};

use crate::columns::Columns;
use crate::fault::RowFault;
use crate::nuls::first_nul;
use crate::part::More;
use crate::row::Row;
use std::alloc::{AllocError, Global};
use wire_words::{WireBytes, WireText, Writer};

/// How many bytes the body of a part may have, unless it has one row alone.
pub const MAX_PART_BYTES: u64 = 65_536;

/// How many bytes all bodies of an answer may have together.
pub const MAX_ANSWER_BYTES: u64 = 16_777_216;

/// The end word as a number.
fn end_number(more: More) -> u64
    ensures { word result ≡ end_word more }
{
    match more {
        More::Last => 0xffff_ffff_ffff_ffff,
        More::Follows => 0xeeee_eeee_eeee_eeee,
    }
}

#[tactic(auto, using(crate::proofs::Spelled::next_name))]
fn put_names(out: &mut Writer, names: &[WireText]) -> Result<(), AllocError>
    requires { HaveNoNul names.now }
    ensures { OnOk result (out.new ≡ out.old ++ names_bytes names.now) }
{
    for name in names {
        out.text(name.as_str())?;
    }
    Ok(())
}

#[tactic(auto, using(crate::proofs::Spelled::next_row))]
fn put_rows(out: &mut Writer, rows: &[Row]) -> Result<(), AllocError>
    requires { AllByRecursion AreWritable rows.now }
    ensures { OnOk result (out.new ≡ out.old ++ rows_bytes rows.now) }
{
    for row in rows {
        out.row(row.values())?;
    }
    Ok(())
}

/// The body of a part with these rows. The memory for all of it is taken at once.
#[tactic(auto, using(crate::proofs::Spelled::in_turn))]
fn body(
    alloc: Global,
    columns: &Columns<'_>,
    rows: &[Row],
    more: More,
) -> Result<WireBytes, AllocError>
    requires names { HaveNoNul columns.now.names.now }
    requires rows { AllByRecursion AreWritable rows.now }
    ensures { IfOk result (λ bytes. bytes ≡ body_bytes columns.now.names.now rows.now more) }
{
    let mut out = Writer::with_capacity(alloc, columns.body_size(rows) as usize)?;
    out.word(columns.names.len() as u64)?;
    put_names(&mut out, columns.names)?;
    put_rows(&mut out, rows)?;
    out.word(end_number(more))?;
    Ok(out.finish())
}

/// The bodies of all parts.
#[tactic(auto, using(crate::proofs::Cutting::bodies_last, crate::proofs::Cutting::bodies_more, crate::proofs::Cutting::fewer_rows, crate::proofs::Spelled::take_writable, crate::proofs::Spelled::drop_writable))]
fn all_bodies(
    alloc: Global,
    columns: &Columns<'_>,
    rows: &[Row],
) -> Result<Vec<WireBytes>, AllocError>
    requires names { HaveNoNul columns.now.names.now }
    requires rows { AllByRecursion AreWritable rows.now }
    ensures { IfOk result (λ parts. parts.items ≡ bodies columns.now.names.now (cut columns.now.names.now rows.now)) }
{
    let mut parts = Vec::new(alloc);
    let mut left = rows;
    'parts: loop {
        let (part, rest) = columns.split(left);
        if rest.is_empty() {
            parts.push(body(alloc, columns, part, More::Last)?)?;
            return Ok(parts);
        }
        parts.push(body(alloc, columns, part, More::Follows)?)?;
        left = rest;
    }
}

/// Cuts an answer into parts, and gives their bodies in order. Each row must have as many values as there are columns, and
/// if there are no columns there can be no rows. No name of a column may hold a NUL.
///
/// The first part takes as many rows as have room in 65,536 bytes together with the number and the names of the columns and
/// the end word, or one row where none has room; the parts after it are cut from the rows after in the same way. An answer
/// without rows is one part.
///
/// `Nul` names the first text with a NUL, by rows and then columns. Else `TooBig` comes exactly if all bodies together
/// have more than 16,777,216 bytes, with their number, or 18,446,744,073,709,551,615 where it is above that. `NoMemory`
/// means out of memory.
///
/// The size is known before the first body is written. Each byte is written once, into the body that is sent, and no second
/// copy of a body is made; the time is in proportion to the bytes.
#[tactic(auto, unfolding(crate::specs::Answering::parts_of), using(crate::proofs::NulPlaces::first_found, crate::proofs::NulPlaces::all_writable))]
pub fn parts(alloc: Global, columns: &[WireText], rows: &[Row]) -> Result<Vec<WireBytes>, RowFault>
    requires names { HaveNoNul columns.now }
    requires widths { HaveWidth (length columns.now) rows.now }
    requires no_columns { length columns.now ≡ 0 → rows.now ≡ [] }
    ensures cut { IfOk result (λ parts. parts.items ≡ bodies columns.now (cut columns.now rows.now)) }
    ensures size { IfOk result (λ parts. total_size parts.items ≤ 16777216) }
    ensures nul { (row column : ℕ) → IsErrOf result (RowFault.Nul row column) → IsFirstNul rows.now row column }
    ensures exact { Answers (λ parts. parts.items) (parts_of columns.now rows.now) result }
{
    if let Some((row, column)) = first_nul(rows) {
        return Err(RowFault::Nul(row, column));
    }
    let columns = Columns::new(columns);
    let size = columns.total_size(rows);
    if size > MAX_ANSWER_BYTES {
        return Err(RowFault::TooBig(size));
    }
    let parts = all_bodies(alloc, &columns, rows)?;
    Ok(parts)
}
