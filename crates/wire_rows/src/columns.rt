ghost use Rattle.std.specs.Prelude.{◌≡◌, ◌+◌, ℕ, length, take, drop, min};
ghost use Rattle.wire_rows.specs.Spelling.{head_bytes, body_bytes};
ghost use Rattle.wire_rows.specs.declared.part.More.{More};
ghost use Rattle.wire_rows.specs.Cut.{first_count, cut, bodies, total_size};
ghost use Rattle.wire_rows.specs.Answering.{held};

use crate::row::Row;
use crate::sizes::{head_size, row_size, with_rows};
use crate::writing::MAX_PART_BYTES;
use wire_words::WireText;

/// The columns of an answer, and how many bytes their number and their names have in the body of each part.
#[derive(Drop)]
pub(crate) struct Columns<'a> {
    pub(crate) names: &'a [WireText],
    head_size: u64,
    ghost sized: { head_size ≡ held (length (head_bytes names.now)) },
}

/// How many bytes the end word has.
const END_SIZE: u64 = 8;

impl<'a> Columns<'a> {
    pub(crate) fn new(names: &'a [WireText]) -> Columns<'a>
        ensures { result.names.now ≡ names.now }
    {
        Columns {
            names,
            head_size: head_size(names),
        }
    }

    /// How many of the rows the first part takes: at least one, if there are any.
    #[tactic(auto, using(crate::proofs::Greedy::size_more, crate::proofs::Greedy::first_at, crate::proofs::Greedy::first_all))]
    fn first_count(&self, rows: &[Row]) -> usize
        ensures { result ≡ min (first_count self.now.names.now rows.now) (length rows.now) }
    {
        let mut size = self.head_size.saturating_add(END_SIZE);
        for (count, row) in rows.iter().enumerate() {
            size = size.saturating_add(row_size(row.values()));
            if size > MAX_PART_BYTES {
                return count.max(1);
            }
        }
        rows.len()
    }

    /// The rows of the first part, and the rows after it.
    pub(crate) fn split<'r>(&self, rows: &'r [Row]) -> (&'r [Row], &'r [Row])
        ensures first { result.0.now ≡ take (first_count self.now.names.now rows.now) rows.now }
        ensures rest { result.1.now ≡ drop (first_count self.now.names.now rows.now) rows.now }
    {
        rows.split_at(self.first_count(rows))
    }

    /// How many bytes the body of a part with these rows has.
    #[tactic(auto, using(crate::proofs::Greedy::body_sized))]
    pub(crate) fn body_size(&self, rows: &[Row]) -> u64
        ensures { (more : More) → result ≡ held (length (body_bytes self.now.names.now rows.now more)) }
    {
        with_rows(self.head_size.saturating_add(END_SIZE), rows)
    }

    /// How many bytes the bodies of all parts have together.
    #[tactic(auto, using(crate::proofs::Cutting::total_last, crate::proofs::Cutting::total_more, crate::proofs::Cutting::fewer_rows))]
    pub(crate) fn total_size(&self, rows: &[Row]) -> u64
        ensures { result ≡ held (total_size (bodies self.now.names.now (cut self.now.names.now rows.now))) }
    {
        let mut total = 0_u64;
        let mut left = rows;
        'parts: loop {
            let (part, rest) = self.split(left);
            total = total.saturating_add(self.body_size(part));
            if rest.is_empty() {
                return total;
            }
            left = rest;
        }
    }
}
