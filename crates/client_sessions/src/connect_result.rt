/// What became of a client that connects.
#[derive(Clone, Copy, Debug, PartialEq, Eq)]
pub enum ConnectResult {
    /// It has a session.
    Joined,
    /// There are 64 sessions already: the connection closes, with the reason `CloseReason::Limit`.
    Full,
    /// The number is that of a connection that is open, or of one that hung up while its proposal is pending. Nothing has
    /// changed.
    Taken,
}
