//! What takes the output of a node in a life.

ghost use Rattle.std.specs.Prelude.{None};

use crate::feed::Feed;
use serve_loop::StepReport;
use serve_traits::{Event, Outbox};
use session_outcomes::answer_read;
use sql_engine::Engine;
use std::alloc::Global;
use std::sync::Wait;

/// Notes what is said, two letters for each thing: a connection's digit and what it hears, or `x` where it is to be shut; has lent queries answered at
/// once, by its own engine, so that what is reported of them is the last event so far.
#[derive(Drop)]
pub(crate) struct Desk<R: Wait + Copy + Drop, E: Engine + Drop> {
    pub(crate) alloc: Global,
    pub(crate) feed: Feed<R>,
    pub(crate) engine: E,
    pub(crate) heard: Vec<u8>,
}

/// The digit of a small number; `?` for others.
pub(crate) fn digit(number: u64) -> u8 {
    if number < 10 {
        return b'0' + number as u8;
    }
    b'?'
}

/// What a message is to a client: `d` a database, `s` a statement, `r` a result, `w` rows, `e` empty, a digit for the code of a failure.
pub(crate) fn letter(message: &[u8]) -> u8 {
    let code = message.get(8).copied().unwrap_or(0);
    match message.get(4).copied().unwrap_or(b'?') {
        0 => digit(code as u64),
        4 => b'd',
        5 => b's',
        6 => b'r',
        7 => b'w',
        8 => b'e',
        _ => b'?',
    }
}

impl<R: Wait + Copy + Drop, E: Engine + Drop> Desk<R, E> {
    fn note(&mut self, conn: u64, what: u8) {
        let _ = self.heard.push(digit(conn));
        let _ = self.heard.push(what);
    }
}

impl<R: Wait + Copy + Drop, E: Engine + Drop> Outbox<StepReport> for Desk<R, E> {
    ghost said = { λ _. None };

    fn put(&mut self, said: StepReport) {
        let outs = said.outs;
        for (conn, message) in &outs.replies {
            self.note(*conn, letter(message.as_slice()));
        }
        for (conn, reason) in &outs.closed {
            self.note(*conn, b'!');
            self.note(*conn, digit(reason.number()));
        }
        if let Some(conn) = said.shut {
            self.note(conn, b'x');
        }
        for (conn, job) in &outs.reads {
            self.note(*conn, b'q');
            let told = answer_read(self.alloc, job, &mut self.engine);
            self.feed.add(Event::ReadDone(*conn, told));
        }
    }
}
