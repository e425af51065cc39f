//! How much of what a script may have was used.

ghost use Rattle.std.specs.Prelude.{◌≡◌};
ghost use Rattle.script_grammar.specs.Usage.{no_usage, with_event, with_messages};

/// How many events a script may have. Mode lines, comments, empty lines and `show` are none; a `settle` is as many as messages arrive
/// by it.
pub const MAX_EVENTS: u64 = 20_000;

/// How many bytes of messages between nodes a script may make, their headers included.
pub const MAX_MESSAGE_BYTES: u64 = 268_435_456;

/// How many events a script had so far, and how many bytes of messages between nodes it made.
#[derive(Clone, Copy, Debug)]
pub struct Usage {
    /// Its events.
    pub events: u64,
    /// The bytes of its messages, which count when a message is made.
    pub message_bytes: u64,
}

impl Usage {
    /// Nothing was used.
    pub fn none() -> Usage
        ensures { result ≡ no_usage }
    {
        Usage {
            events: 0,
            message_bytes: 0,
        }
    }

    /// With one event more; `None` where a script has no more.
    pub fn with_event(self) -> Option<Usage>
        ensures { result ≡ with_event self }
    {
        if self.events >= MAX_EVENTS {
            return None;
        }
        Some(Usage {
            events: self.events + 1,
            message_bytes: self.message_bytes,
        })
    }

    /// With this many bytes of messages more; `None` where a script doesn't make as many.
    pub fn with_messages(self, bytes: u64) -> Option<Usage>
        ensures { result ≡ with_messages self bytes }
    {
        let message_bytes = self.message_bytes.checked_add(bytes)?;
        if message_bytes > MAX_MESSAGE_BYTES {
            return None;
        }
        Some(Usage {
            events: self.events,
            message_bytes,
        })
    }
}
