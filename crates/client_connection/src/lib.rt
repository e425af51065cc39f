//! The connection of a client to a server, seen from the server: the stream that it sends, the requests that wait, and
//! why it closes.
#![tactic(auto)]

mod connection;
mod laws;
mod peer_stream;

pub use connection::{CloseReason, Connection};
pub use laws::{peer_pieces_are_joined, pieces_are_joined};
pub use peer_stream::PeerStream;
