use dq_base::Items;
use raft_messages::Entries;
use session_outcomes::ReadJob;
use wire_msgs::Response;

/// What a node has to do for a request.
#[derive(Drop)]
pub enum Act {
    /// Tell the connection these responses.
    Reply(Items<Response>),
    /// Append these entries, which are of the node's term, in one step. The reply comes once they are applied, or lost.
    Propose(Entries),
    /// Have a reader run this job. What it tells goes to `on_read_done`; if it gives the query back, `on_later` runs it.
    Lend(ReadJob),
    /// Hand leadership to the server of this id, if it is another one, and tell the connection EMPTY.
    Transfer(u64),
    /// Tell the connection EMPTY; from then on it carries the messages of the peer of this id.
    Peer(u64),
}
