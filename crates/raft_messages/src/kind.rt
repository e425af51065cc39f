//! The types of message, by their numbers.
ghost use Rattle.std.specs.Prelude.{◌≡◌};
ghost use Rattle.raft_messages.specs.Reading.{may_mark, message_kind};

/// The types of message.
#[derive(Clone, Copy, PartialEq, Eq)]
pub(crate) enum MessageKind {
    AskVote,
    Vote,
    Append,
    Ack,
    Install,
    TimeoutNow,
}

impl MessageKind {
    /// The type that a message's number represents.
    pub(crate) fn of(number: u8) -> Option<MessageKind>
        ensures { result ≡ message_kind number }
    {
        match number {
            1 => Some(MessageKind::AskVote),
            2 => Some(MessageKind::Vote),
            3 => Some(MessageKind::Append),
            4 => Some(MessageKind::Ack),
            5 => Some(MessageKind::Install),
            6 => Some(MessageKind::TimeoutNow),
            _ => None,
        }
    }

    /// Whether a message of this type may have the mark of a transfer.
    pub(crate) fn may_mark(self) -> bool
        ensures { result ≡ may_mark self }
    {
        match self {
            MessageKind::AskVote => true,
            MessageKind::Vote
            | MessageKind::Append
            | MessageKind::Ack
            | MessageKind::Install
            | MessageKind::TimeoutNow => false,
        }
    }
}
