//! A connection to a peer with what was written on it.

ghost use Rattle.std.specs.Prelude.{◌≡◌, ◌<◌, ◌-◌, IsSome, None, true};
ghost use Rattle.serve_threads.specs.Repeating.{install_in, mark_after};

use raft_messages::{MessageBody, RaftMessage};
use serve_traits::PeerConnection;

/// How long a connection may be idle until the next message goes over a new one, in milliseconds.
const MAX_IDLE_MS: u64 = 1_000;

/// For how long an Install is not sent again over the connection, in milliseconds.
const MIN_INSTALL_MS: u64 = 5_000;

/// After how long without a write the last Append is sent again, in milliseconds.
pub(crate) const REPEAT_MS: u64 = 200;

/// Which Install it is: the sender's term, and the place at which its snapshot ends.
#[derive(Clone, Copy, Debug, PartialEq, Eq)]
struct InstallMark {
    term: u64,
    last_index: u64,
    last_term: u64,
}

/// Which Install a message is, if it is one.
fn install_of(message: &RaftMessage) -> Option<InstallMark>
    ensures { result ≡ install_in message.now.term message.now.what }
{
    match &message.what {
        MessageBody::Install { snapshot } => Some(InstallMark {
            term: message.term,
            last_index: snapshot.index,
            last_term: snapshot.term,
        }),
        _ => None,
    }
}

/// A connection, the moment of the last write on it, and the last Install on it.
#[derive(Drop)]
pub(crate) struct PeerLink<C: PeerConnection> {
    connection: C,
    written_at: u64,
    install: Option<InstallMark>,
    installed_at: u64,
}

impl<C: PeerConnection> PeerLink<C> {
    /// A connection on which nothing but the greeting was written.
    pub(crate) fn new(connection: C, now: u64) -> PeerLink<C>
        ensures { result.install ≡ None }
    {
        PeerLink {
            connection,
            written_at: now,
            install: None,
            installed_at: 0,
        }
    }

    /// Whether the peer has ended the connection.
    pub(crate) fn is_ended(&mut self) -> bool {
        self.connection.is_ended()
    }

    /// Whether it is idle for so long that the next message goes over another one.
    pub(crate) fn is_stale(&self, now: u64) -> bool {
        now.saturating_sub(self.written_at) > MAX_IDLE_MS
    }

    /// Whether nothing was written for the time after which an Append is sent again.
    pub(crate) fn is_quiet(&self, now: u64) -> bool {
        now.saturating_sub(self.written_at) >= REPEAT_MS
    }

    /// Whether a message is the Install that was written last, and too little time has passed to write it again.
    pub(crate) fn has_just_sent(&self, message: &RaftMessage, now: u64) -> bool
        ensures install { result ≡ true → IsSome (install_in message.now.term message.now.what) }
        ensures same { result ≡ true → self.now.install ≡ install_in message.now.term message.now.what }
        ensures time { result ≡ true → now - self.now.installed_at < 5000 }
    {
        let Some(mark) = install_of(message) else {
            return false;
        };
        self.install == Some(mark) && now.saturating_sub(self.installed_at) < MIN_INSTALL_MS
    }

    /// Writes bytes, and says whether all of them were.
    pub(crate) fn write(&mut self, bytes: &[u8]) -> bool {
        self.connection.write_all(bytes).is_ok()
    }

    /// Bytes were written by this moment.
    pub(crate) fn note_write(&mut self, now: u64) {
        self.written_at = now;
    }

    /// This message was written by this moment.
    pub(crate) fn note_message(&mut self, message: &RaftMessage, now: u64)
        ensures { self.new.install ≡ mark_after self.old.install (install_in message.now.term message.now.what) }
    {
        if let Some(mark) = install_of(message) {
            self.install = Some(mark);
            self.installed_at = now;
        }
    }
}
