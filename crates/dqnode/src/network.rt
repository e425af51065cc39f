use client::Dialer;
use serve_node::Notes;
use serve_threads::Host;
use session_gateway::Read;

/// What the program has of the world beside its input, its output and its disk.
#[derive(Drop)]
pub struct Network<N: Dialer, H: Host<Read>, W: Notes> {
    /// What dials servers, for a statement.
    pub dialer: N,
    /// Where a served node listens, and what works concurrently with it.
    pub host: H,
    /// What takes the reports of a served node.
    pub notes: W,
}
