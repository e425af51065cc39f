//! What answers queries concurrently with the node.

use serve_threads::Reader;
use session_gateway::{Read, ReadJob};
use session_outcomes::answer_read;
use sql_engine::Engine;
use std::alloc::Global;

/// Answers queries by its own engine.
#[derive(Drop)]
pub struct QueryReader<E: Engine> {
    /// For what it tells.
    pub alloc: Global,
    /// Its engine.
    pub engine: E,
}

impl<E: Engine + Send + Drop + 'static> Reader for QueryReader<E> {
    type Job = ReadJob;

    type Told = Read;

    fn read(&mut self, job: &ReadJob) -> Read {
        answer_read(self.alloc, job, &mut self.engine)
    }
}
