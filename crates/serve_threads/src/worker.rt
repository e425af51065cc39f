//! Work for its own thread.

use crate::peer::Peer;
use crate::reader::{Reader, ReaderWorker};
use crate::ticker::Ticker;
use serve_traits::PeerDialer;
use std::sync::Wait;
use std::time::Clock;

/// Work that continues concurrently with the node, in its own thread.
#[derive(Drop)]
pub enum Worker<R: Wait + Clock + Copy + Drop, D: PeerDialer, Q: Reader> {
    /// Sends to a peer.
    Peer(Peer<R, D>),
    /// Tells the time.
    Ticker(Ticker<R, Q::Told>),
    /// Answers queries.
    Reader(ReaderWorker<R, Q>),
}

impl<R: Wait + Clock + Copy + Drop, D: PeerDialer, Q: Reader> Worker<R, D, Q> {
    /// Does the work, until what it works for is gone. It may wait for others.
    pub fn run(self) {
        match self {
            Worker::Peer(peer) => peer.run(),
            Worker::Ticker(ticker) => ticker.run(),
            Worker::Reader(reader) => reader.run(),
        }
    }
}
