use sql_engine::{EngineFault, StatementResult};

/// An item of a journal.
#[derive(Drop)]
pub enum RecordedItem {
    /// An engine answered a statement so.
    Ran(StatementResult),
    /// An engine did not answer a statement, for this fault.
    Fault(EngineFault),
}
