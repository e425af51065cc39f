//! How statements run.

/// How statements run: for which transaction, and how far.
#[derive(Clone, Copy)]
pub struct RunOptions {
    /// The number of the transaction that their pages are told for.
    pub tx: u64,
    /// The most steps that one of them may take; none if none is ever interrupted.
    pub limit: Option<u64>,
}
