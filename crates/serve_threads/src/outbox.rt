//! What a node says, handed to the threads that carry it.

use crate::leader_contact::LeaderContact;
use crate::peer_queue::PeerQueue;
use crate::reader::LentQuery;
use crate::replies::Replies;
use crossbeam_channel::Sender;
use raft_messages::RaftMessage;
use std::sync::Wait;
use wire_words::WireBytes;

/// The queues to all threads that carry what a node says. None of its calls waits for one of them except for the moment in which
/// that one touches the queue, and each queue is bounded.
///
/// Once it is dropped the threads of peers end, each after what waits.
pub struct Queues<R: Wait + Copy + Drop, L: Replies, J: Drop> {
    /// For its waits.
    pub rt: R,
    /// Where replies go.
    pub replies: L,
    /// The peers' ids and queues.
    pub peers: Vec<(u64, PeerQueue)>,
    /// The readers' queues.
    pub readers: Vec<Sender<LentQuery<J>>>,
    /// Where it is noted that the node answered a leader or gave its vote.
    pub heard: LeaderContact,
}

impl<R: Wait + Copy + Drop, L: Replies, J: Drop> Queues<R, L, J> {
    /// Sends a reply. A connection that reads too slowly, or for which memory runs out, is closed.
    pub fn reply(&self, conn: u64, bytes: WireBytes) {
        self.replies.reply(conn, bytes);
    }

    /// Closes a connection after its replies.
    pub fn close(&self, conn: u64) {
        self.replies.close(conn);
    }

    /// Closes a connection now: what waits of it isn't written, and its socket is read no further.
    pub fn cut(&self, conn: u64) {
        self.replies.cut(conn);
    }

    /// Notes for the threads of peers that the node has made one step more. It is called before what the step says is handed on.
    pub fn note_step(&self) {
        for (_, queue) in &self.peers {
            queue.note_step();
        }
    }

    /// Sends a message to the peer that it is for. It gets lost if too many wait, and if no peer has the id.
    pub fn send(&self, message: RaftMessage) {
        self.heard.note(&message);
        let to = message.to;
        if let Some((_, queue)) = self.peers.iter().find(|(id, _)| *id == to) {
            queue.put(&self.rt, message);
        }
    }

    /// Lends a query to a reader, to the same one for each query of a connection. If memory runs out, or there is no reader, the
    /// connection is closed.
    pub fn lend(&self, conn: u64, job: J) {
        let count = self.readers.len();
        if count > 0 {
            let place = (conn % count as u64) as usize;
            if let Some(reader) = self.readers.get(place) {
                if reader.send(&self.rt, LentQuery { conn, job }).is_ok() {
                    return;
                }
            }
        }
        self.cut(conn);
    }
}

impl<R: Wait + Copy + Drop, L: Replies, J: Drop> Drop for Queues<R, L, J> {
    fn drop(self) {
        let Queues {
            rt,
            replies: _,
            peers,
            readers: _,
            heard: _,
        } = self;
        for (_, peer) in &peers {
            peer.close(&rt);
        }
    }
}
