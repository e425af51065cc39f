//! What is sent to a peer again while nothing comes from the node.

ghost use Rattle.std.specs.Prelude.{◌≡◌, ◌≤◌, ◌-◌, None, true};
ghost use Rattle.std.specs.Option.{option_map};
ghost use Rattle.serve_threads.specs.Repeating.{bytes_after, is_append, is_small};

use raft_messages::{MessageBody, RaftMessage};
use wire_words::WireBytes;

/// How many bytes an Append has at most that is sent again.
const MAX_REPEATED_BYTES: usize = 4_096;

/// For how long after the last message of the node an Append is sent again, in milliseconds.
const MAX_REPEAT_MS: u64 = 5_000;

/// The last small Append, which is sent again while the node is in a long step: a message may come twice. It is one of the term of the last
/// message that was sent, since a node of another term does not lead in that of the Append.
#[derive(Drop)]
pub(crate) struct Repeats {
    append: Option<WireBytes>,
    term: u64,
    came_at: u64,
    step_count: u64,
}

/// Whether a message is an Append.
fn is_append(message: &RaftMessage) -> bool
    ensures { result ≡ is_append message.now.what }
{
    matches!(message.what, MessageBody::Append { .. })
}

/// Whether a message is an Append of at most 4,096 bytes.
fn is_small(message: &RaftMessage, bytes: &[u8]) -> bool
    ensures { result ≡ is_small message.now bytes.now }
{
    is_append(message) && bytes.len() <= MAX_REPEATED_BYTES
}

impl Repeats {
    /// Nothing is to be sent again.
    pub(crate) fn new() -> Repeats
        ensures { result.append ≡ None }
    {
        Repeats {
            append: None,
            term: 0,
            came_at: 0,
            step_count: 0,
        }
    }

    /// A message of the node came at this moment, in milliseconds, when it had made this many steps.
    pub(crate) fn begin(&mut self, now: u64, steps: u64)
        ensures append { self.new.append ≡ self.old.append }
        ensures term { self.new.term ≡ self.old.term }
    {
        self.came_at = now;
        self.step_count = steps;
    }

    /// Whether the Append is to be sent again at this moment, when the node has made this many steps: it made none since the last call, and
    /// its last message is at most five seconds old. A node that makes steps and sends nothing does not lead.
    pub(crate) fn is_due(&mut self, now: u64, steps: u64) -> bool
        ensures append { self.new.append ≡ self.old.append }
        ensures term { self.new.term ≡ self.old.term }
        ensures in_time { result ≡ true → now - self.old.came_at ≤ 5000 }
        ensures in_step { result ≡ true → steps ≡ self.old.step_count }
    {
        let is_in_step = steps == self.step_count;
        self.step_count = steps;
        is_in_step && now.saturating_sub(self.came_at) <= MAX_REPEAT_MS
    }

    /// Keeps the bytes of a message that is sent, if it is a small Append. If it isn't, the Append before it is kept if it has the message's
    /// term.
    pub(crate) fn keep(&mut self, message: &RaftMessage, bytes: WireBytes)
        ensures append { self.new.append ≡ bytes_after self.old.append self.old.term message.now bytes }
        ensures term { self.new.term ≡ message.now.term }
    {
        let is_small = is_small(message, bytes.as_slice());
        if is_small {
            self.append = Some(bytes);
        } else if self.term != message.term {
            self.append = None;
        }
        self.term = message.term;
    }

    /// The bytes of the Append.
    pub(crate) fn bytes(&self) -> Option<&[u8]>
        ensures { option_map (λ bytes. bytes.now) result ≡ self.now.append }
    {
        match &self.append {
            Some(bytes) => Some(bytes.as_slice()),
            None => None,
        }
    }
}
