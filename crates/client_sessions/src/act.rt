use dq_base::Items;
use raft_messages::Entries;
use session_gateway::ReadJob;
use wire_words::WireBytes;

/// What a node has to do for a connection.
#[derive(Drop)]
pub enum Act {
    /// Send these messages to its client, in order.
    Reply {
        conn: u64,
        messages: Items<WireBytes>,
    },
    /// Append these entries, which are of the node's term, in one step. Its client is answered once they are applied, or
    /// lost.
    Propose {
        conn: u64,
        entries: Entries,
    },
    /// Have a reader run this query. What it tells goes to `Clients::on_read_done`; if it gives the query back,
    /// `Clients::on_later` runs it.
    Lend {
        conn: u64,
        job: ReadJob,
    },
    /// Hand leadership to the server of this id, if it is another one, and send this message to the client.
    Transfer {
        conn: u64,
        to: u64,
        reply: WireBytes,
    },
    /// Send this message to the client; from then on the connection carries the messages of the peer of this id, and
    /// `Clients::hand_over` gives its stream.
    Peer {
        conn: u64,
        id: u64,
        reply: WireBytes,
    },
}
