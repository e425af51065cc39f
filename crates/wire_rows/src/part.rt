use crate::row::Row;
use dq_base::Items;
use wire_words::WireText;

/// A part of an answer: the names of its columns, and some of its rows, in order.
#[derive(Debug, Drop)]
pub struct Part {
    pub columns: Items<WireText>,
    pub rows: Items<Row>,
}

/// Whether another part of the answer follows.
#[derive(Clone, Copy, Debug, PartialEq, Eq)]
pub enum More {
    /// This is the last part.
    Last,
    /// Another part follows.
    Follows,
}
