use dq_base::{Items, PageSet};
use wire_rows::Row;
use wire_words::WireText;

/// What a statement answered, with the pages that it changed.
#[derive(Debug, Drop)]
pub struct StatementResult {
    /// The pages that lead from the image before to the image after; none if the two are the same.
    pub after: PageSet,
    /// How many rows were inserted, changed or deleted.
    pub affected: u64,
    /// The names of the columns, none of them with a NUL.
    pub columns: Items<WireText>,
    /// The rows, each with as many values as there are columns. An answer without columns has none.
    pub rows: Items<Row>,
}
