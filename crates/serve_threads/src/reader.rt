//! Queries that are answered concurrently with the node.

use crate::channel::ChannelPost;
use crossbeam_channel::Receiver;
use serve_traits::{Event, Post};
use std::sync::Wait;
use std::time::Clock;

/// What may be moved to another thread and dropped there. A type that is both is this too. This bound on an associated type carries to
/// the threads that it is moved to, where `Send + Drop` doesn't.
pub trait Moves: Send + Drop + Sized {}

impl<T: Send + Drop> Moves for T {}

/// What runs queries that the node lends.
pub trait Reader: Send + Drop + Sized {
    /// A query, with what it reads. It moves to the reader's thread.
    type Job: Moves + Send + 'static;

    /// What the node is told of it: an answer, a refusal, or that the node is to run it by itself, as it does also if memory runs
    /// out here.
    type Told: Moves + Send + 'static;

    /// Runs a query.
    fn read(&mut self, job: &Self::Job) -> Self::Told;
}

/// A query of the connection of this number.
#[derive(Drop)]
pub struct LentQuery<J> {
    /// The connection.
    pub conn: u64,
    /// The query.
    pub job: J,
}

/// Runs the queries that come, one after the other, and tells the node of each.
#[derive(Drop)]
pub struct ReaderWorker<R: Wait + Copy + Drop, Q: Reader> {
    /// For its waits.
    pub rt: R,
    /// What runs them.
    pub reader: Q,
    /// Where they come.
    pub jobs: Receiver<LentQuery<Q::Job>>,
    /// Where the node is told.
    pub post: ChannelPost<R, Q::Told>,
}

impl<R: Wait + Clock + Copy + Drop, Q: Reader> ReaderWorker<R, Q> {
    /// Runs queries until none can come any more, or the post fails.
    pub fn run(mut self) {
        for _ in 0..u64::MAX {
            let Ok(lent) = self.jobs.recv(&self.rt) else {
                return;
            };
            let told = self.reader.read(&lent.job);
            if self.post.put(Event::ReadDone(lent.conn, told)).is_err() {
                return;
            }
        }
    }
}
