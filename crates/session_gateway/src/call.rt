//! What the functions after a call of the gateway are given together.

use session_requests::View;
use std::alloc::Global;

/// What a call that may run statements works with.
#[derive(Clone, Copy)]
pub(crate) struct Call<'a> {
    /// Where its memory is from.
    pub alloc: Global,
    /// What the node is for its sessions.
    pub view: &'a View,
    /// The number that was drawn for the image that its statements leave.
    pub number: u64,
}

/// The session of a connection, by its place in the table.
#[derive(Clone, Copy)]
pub(crate) struct SessionPlace {
    /// The connection.
    pub conn: u64,
    /// The place.
    pub place: usize,
}
