//! The messages of a step: an Install has the bytes of the kept snapshot.
ghost use Rattle.std.specs.Prelude.{◌≡◌, IfOk, map};
ghost use Rattle.raft_on_disk.specs.Letters.{letter};

use raft_core::{Outgoing, OutgoingList};
use raft_messages::{MessageBody, RaftMessage, Snapshot};
use std::alloc::{AllocError, Global};

// The message of what the node of this id sends, with its kept snapshot, whose bytes it shares.
fn message_of(me: u64, kept: &Snapshot, sending: Outgoing) -> Result<RaftMessage, AllocError>
    ensures { IfOk result (λ message. message ≡ letter me kept.now sending) }
{
    match sending {
        Outgoing::Message(message) => Ok(message),
        Outgoing::Install { to, term, .. } => Ok(RaftMessage {
            from: me,
            to,
            term,
            what: MessageBody::Install {
                snapshot: kept.share()?,
            },
        }),
    }
}

/// The messages of all that the node of this id sends, in order. Snapshots share their bytes with the kept one.
pub(crate) fn letters(
    alloc: Global,
    me: u64,
    kept: &Snapshot,
    sends: OutgoingList,
) -> Result<Vec<RaftMessage>, AllocError>
    ensures { IfOk result (λ messages. messages.items ≡ map (letter me kept.now) sends) }
{
    let mut messages = Vec::new(alloc);
    for sending in sends.into_vec() {
        messages.push(message_of(me, kept, sending)?)?;
    }
    Ok(messages)
}
