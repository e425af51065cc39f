use crate::heading::StatementHead;

/// A statement as far as it was read.
#[derive(Clone, Copy, PartialEq, Eq)]
pub struct PartialStatement {
    pub start: u64,
    pub end: u64,
    pub params: u64,
    pub heading: StatementHead,
}
