//! How much a node may hold of what its clients have said.

ghost use Rattle.std.specs.Prelude.{◌≡◌, ◌⊎◌, None};
ghost use Rattle.std.specs.Option.{option_map};
ghost use Rattle.serve_loop.specs.Watching.{speaker_of};

use node_core::Node;
use serve_traits::Event;
use session_gateway::Read;

/// The share of one connection, a 64th of what the node may hold: as many sessions as there are at most.
const SHARES: u64 = 64;

/// For how many bytes a piece counts at least, until the next look.
const PIECE: u64 = 4_096;

/// A piece of a client's stream.
#[derive(Clone, Copy)]
pub(crate) struct PieceCharge {
    conn: u64,
    size: u64,
}

/// How many bytes of what clients have said a node may hold, and for how many came some since it was last found to hold no more.
#[derive(Clone, Copy)]
pub(crate) struct HeldBytes {
    most: u64,
    unseen: u64,
}

/// The piece that an event brings, if it does.
pub(crate) fn piece_of(event: &Event<Read>) -> Option<PieceCharge>
    ensures { option_map (λ piece. piece.conn) result ≡ speaker_of event.now }
{
    match event {
        Event::Bytes(conn, bytes) => Some(PieceCharge {
            conn: *conn,
            size: bytes.len() as u64,
        }),
        _ => None,
    }
}

impl HeldBytes {
    /// A node may hold this many bytes, and none came so far.
    pub(crate) fn new(most: u64) -> HeldBytes {
        HeldBytes { most, unseen: 0 }
    }

    /// How many bytes one connection has of these.
    fn share(&self) -> u64 {
        self.most / SHARES
    }

    /// Whether the node is to be looked at after this many bytes more: once as many came as a share has. While it holds too much it
    /// is looked at after each piece.
    fn is_due(&mut self, size: u64) -> bool {
        self.unseen = self.unseen.saturating_add(size.max(PIECE));
        self.unseen >= self.share()
    }

    /// Whether the node holds too much, and more than its share of it for this connection.
    fn is_over(&mut self, node: &Node, conn: u64) -> bool {
        if node.held() <= self.most {
            self.unseen = 0;
            return false;
        }
        node.held_bytes_of(conn) > self.share()
    }

    /// The connection whose socket is to be shut after a step for this piece, if one is: the one on which the piece came.
    pub(crate) fn shuts(&mut self, node: &Node, piece: Option<PieceCharge>) -> Option<u64>
        ensures { (result ≡ None) ⊎ (result ≡ option_map (λ piece. piece.conn) piece) }
    {
        let Some(piece) = piece else {
            return None;
        };
        if self.is_due(piece.size) {
            if self.is_over(node, piece.conn) {
                return Some(piece.conn);
            }
        }
        None
    }
}
