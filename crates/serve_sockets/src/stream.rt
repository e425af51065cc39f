//! Calls of one stream of bytes: a dial, a read, writes, each tried again if it is interrupted, and a look for its end.

ghost use Rattle.std.specs.Prelude.{◌≡◌, ◌≤◌, length, IfOk};

use std::io;
use std::io::{ErrorKind, Read, Write};
use std::net::{Net, TcpStream, ToSocketAddrs};
use std::time::Duration;

/// How long a dial of one address may take, in seconds.
const DIAL_SECONDS: u64 = 10;

/// How many bytes one read of what is dropped takes at most, and how many of these reads there are in a row.
const DROPPED_BYTES: usize = 512;

const MAX_DROPPED_READS: u32 = 16;

/// How many times in a row an interrupted call is tried.
pub(crate) const MAX_RETRIES: u32 = 1_000;

/// A stream to the first address that answers in time, of those that a name and a port have.
pub(crate) fn connect<R: Net>(rt: &R, address: &str) -> io::Result<R::Stream> {
    let time = Duration::from_secs(DIAL_SECONDS);
    for found in address.to_socket_addrs(rt)? {
        if let Ok(stream) = TcpStream::connect_timeout(rt, &found, time) {
            return Ok(stream);
        }
    }
    Err(ErrorKind::NotConnected.into())
}

/// Reads some bytes.
pub(crate) fn read_some<S: Read>(stream: &mut S, into: &mut [u8]) -> io::Result<usize>
    ensures fits { IfOk result (λ count. count ≤ length into.new) }
    ensures room { length into.new ≡ length into.old }
{
    for _ in 0..MAX_RETRIES {
        match stream.read(into) {
            Ok(count) => return Ok(count),
            Err(error) if error.kind() == ErrorKind::Interrupted => {}
            Err(error) => return Err(error),
        }
    }
    Err(ErrorKind::Interrupted.into())
}

/// Writes bytes in one write. If the system took only the first of them, the time is over and the write has failed.
pub(crate) fn write_whole<S: Write>(stream: &mut S, bytes: &[u8]) -> io::Result<()> {
    for _ in 0..MAX_RETRIES {
        match stream.write(bytes) {
            Ok(count) if count == bytes.len() => return Ok(()),
            Ok(_) => return Err(ErrorKind::TimedOut.into()),
            Err(error) if error.kind() == ErrorKind::Interrupted => {}
            Err(error) => return Err(error),
        }
    }
    Err(ErrorKind::Interrupted.into())
}

/// Writes bytes, by as many writes as it takes. It fails if one of them moves nothing within the stream's limit on time.
pub(crate) fn write_on<S: Write>(stream: &mut S, bytes: &[u8]) -> io::Result<()> {
    let mut at = 0;
    for _ in 0..u64::MAX {
        if at >= bytes.len() {
            return Ok(());
        }
        match stream.write(&bytes[at..]) {
            Ok(0) => return Err(ErrorKind::WriteZero.into()),
            Ok(count) => at += count,
            Err(error) if error.kind() == ErrorKind::Interrupted => {}
            Err(error) => return Err(error),
        }
    }
    Err(ErrorKind::Interrupted.into())
}

/// Whether a stream whose reads do not wait is at its end, or has failed. What is there is dropped, up to 8 KiB.
fn drop_read<S: Read>(stream: &mut S) -> bool {
    let mut buffer = [0u8; DROPPED_BYTES];
    for _ in 0..MAX_DROPPED_READS {
        match read_some(stream, &mut buffer) {
            Ok(0) => return true,
            Ok(_) => {}
            Err(error) => return error.kind() != ErrorKind::WouldBlock,
        }
    }
    false
}

/// Whether the other side has ended a stream, or it has failed, by a look that does not wait. What came is dropped, up to 8 KiB.
pub(crate) fn is_at_end(stream: &TcpStream) -> bool {
    if stream.set_nonblocking(true).is_err() {
        return true;
    }
    let is_ended = drop_read(&mut &*stream);
    stream.set_nonblocking(false).is_err() || is_ended
}
