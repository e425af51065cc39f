//! What functions that decide over statements are given together.

use database_state::Machine;
use session_requests::View;
use std::alloc::Global;

/// What statements of a request run with, and what comes of them is decided by.
#[derive(Clone, Copy)]
pub struct DecisionContext<'a> {
    /// Where memory is from.
    pub alloc: Global,
    /// What the node is for its sessions.
    pub view: &'a View,
    /// The node's state machine.
    pub machine: &'a Machine,
    /// The number that was drawn for the image that the statements leave.
    pub number: u64,
}
