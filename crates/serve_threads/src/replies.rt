//! Where replies go.

use wire_words::WireBytes;

/// Where replies to connections go, each by the number of its connection. No call waits.
pub trait Replies: Drop + Sized {
    /// Sends a reply after those that were sent before. A connection without room for it, or for which memory runs out, is closed.
    fn reply(&self, conn: u64, bytes: WireBytes);

    /// Closes a connection after its replies.
    fn close(&self, conn: u64);

    /// Closes a connection now: what waits for it is not written, and it is read no further.
    fn cut(&self, conn: u64);
}

/// Replies get lost.
#[derive(Drop)]
pub struct NoReplies;

impl Replies for NoReplies {
    fn reply(&self, _conn: u64, _bytes: WireBytes) {}

    fn close(&self, _conn: u64) {}

    fn cut(&self, _conn: u64) {}
}
