//! The outside of a node that serves, as traits with their counts of faults: connections to peers and what dials them, what brings events and
//! if they are put, and what takes the output of a node. Over them the loop of a node.
#![tactic(auto)]

mod event;
mod inbox;
mod looping;
mod mem_inbox;
mod mem_post;
mod outbox;
mod peer_connection;
mod post;
mod server_set;
mod stepping;

pub use event::Event;
pub use inbox::Inbox;
pub use looping::{LoopEnd, core_loop};
pub use mem_inbox::MemInbox;
pub use mem_post::MemPost;
pub use outbox::Outbox;
pub use peer_connection::{PeerConnection, PeerDialer};
pub use post::Post;
pub use server_set::ServerSet;
pub use stepping::{Core, StepFault};
