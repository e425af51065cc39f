//! What state machines say.

/// Something that state machines say.
#[derive(Drop)]
pub enum MachineLine {
    /// Bytes were no command, or the list of commands could not take it.
    Refused,
    /// How a state machine stands: how many commands it has applied, and the SHA-256 of its files.
    Machine {
        number: u64,
        applied: u64,
        digest: [u8; 32],
    },
}
