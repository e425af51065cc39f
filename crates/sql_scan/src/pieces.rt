use crate::heading::WordKind;
use dq_base::Items;

/// One statement of a text. The places are in bytes.
#[derive(Clone, Copy, Debug, PartialEq, Eq)]
pub struct StatementSpan {
    /// Where it begins.
    pub start: u64,
    /// The place after its last byte.
    pub end: u64,
    /// What kind of statement its first words make it.
    pub word: WordKind,
    /// How many parameters it has: the greatest number among them.
    pub params: u64,
    /// Where the rest of the text begins: after the `;` that ends it, or at the text's end.
    pub after: u64,
}

/// The statements of a text, in order.
#[derive(Debug, Drop)]
pub struct Scan {
    /// One for each `;` and for the text's end, except if only space and comments are before it.
    pub statements: Items<StatementSpan>,
}
