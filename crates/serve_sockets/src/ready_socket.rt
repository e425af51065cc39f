//! A socket whose calls never wait.

ghost use Rattle.std.specs.Prelude.{None};

use crate::stream::{MAX_RETRIES, read_some};
use mio::net::TcpStream;
use serve_places::{ReadOutcome, ReadyStream};
use std::io::{ErrorKind, Write};
use std::net::Shutdown;

/// A connection of the operating system that was accepted. It says nothing of content. An interrupted call is tried again, up to 1,000
/// times in a row.
#[derive(Drop)]
pub struct ReadySocket {
    stream: TcpStream,
}

impl ReadySocket {
    /// This connection.
    pub(crate) fn new(stream: TcpStream) -> ReadySocket {
        ReadySocket { stream }
    }
}

impl ReadyStream for ReadySocket {
    ghost left = { λ _. None };

    ghost written = { λ _. None };

    #[tactic(auto, using(crate::proofs::Moved::moves))]
    fn read(&mut self, into: &mut [u8]) -> ReadOutcome {
        match read_some(&mut self.stream, into) {
            Ok(count) if count > 0 => ReadOutcome::Bytes(count),
            Err(error) if error.kind() == ErrorKind::WouldBlock => ReadOutcome::Nothing,
            _ => ReadOutcome::Ended,
        }
    }

    #[tactic(auto, using(crate::proofs::Moved::takes, crate::proofs::Moved::takes_none))]
    fn write(&mut self, bytes: &[u8]) -> Option<usize> {
        for _ in 0..MAX_RETRIES {
            match self.stream.write(bytes) {
                Ok(count) => return Some(count),
                Err(error) if error.kind() == ErrorKind::WouldBlock => return Some(0),
                Err(error) if error.kind() == ErrorKind::Interrupted => {}
                Err(_) => return None,
            }
        }
        None
    }

    fn shut(&mut self) {
        let _ = self.stream.shutdown(Shutdown::Both);
    }
}
