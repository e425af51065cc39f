//! Replies over sockets.

use crate::ready_socket::ReadySocket;
use serve_places::Places;
use serve_threads::Replies;
use std::alloc::Global;
use std::sync::{Arc, Mutex, Wait};
use wire_words::WireBytes;

/// An end at which replies go to the connections of a host. Only the thread that takes the host's events should use it, since its calls
/// wait while another thread has the places.
#[derive(Drop)]
pub struct TcpReplies<R: Wait + Copy + Drop> {
    pub(crate) rt: R,
    pub(crate) places: Arc<Mutex<Places<ReadySocket>>, Global>,
}

impl<R: Wait + Copy + Drop> Replies for TcpReplies<R> {
    fn reply(&self, conn: u64, bytes: WireBytes) {
        let _ = self.places.lock(&self.rt).reply(conn, bytes);
    }

    fn close(&self, conn: u64) {
        self.places.lock(&self.rt).close(conn);
    }

    fn cut(&self, conn: u64) {
        self.places.lock(&self.rt).cut(conn);
    }
}
