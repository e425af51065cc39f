//! Reading a message of a peer.
ghost use Rattle.std.specs.Prelude.{◌≡◌, IfOk, Ok};
ghost use Rattle.raft_messages.specs.declared.message.RaftMessage.{RaftMessage};
ghost use Rattle.raft_messages.specs.Messages.{Reads};
ghost use Rattle.raft_messages.specs.Reading.{Gives, mark_in, peer_message_of};

use crate::fault::PeerFault;
use crate::items::items;
use crate::kind::MessageKind;
use crate::message::{MAX_RECEIVER, RaftMessage, TRANSFER_MARK};
use std::alloc::Global;
use wire_words::{Message, Words};

// Whether a message of this type to the node `to` has the mark of a transfer, by its schema byte; nothing if it is for another
// node.
fn mark_of(to: u64, kind: MessageKind, schema: u8) -> Option<bool>
    ensures { result ≡ mark_in to kind schema }
{
    if to > MAX_RECEIVER {
        return None;
    }
    let schema = u64::from(schema);
    if schema == to {
        return Some(false);
    }
    if schema == to + u64::from(TRANSFER_MARK) && kind.may_mark() {
        return Some(true);
    }
    None
}

#[tactic(auto, unfolding(crate::specs::Reading::peer_message_of))]
fn whole_message(
    alloc: Global,
    number: u8,
    schema: u8,
    body: &[u8],
    to: u64,
) -> Result<RaftMessage, PeerFault>
    ensures { Gives (peer_message_of to (record { kind = number; schema = schema; body = body.now })) result }
{
    let Some(kind) = MessageKind::of(number) else {
        return Err(PeerFault::Kind);
    };
    let Some(mark) = mark_of(to, kind, schema) else {
        return Err(PeerFault::Kind);
    };
    let mut words = Words::new(body);
    let (message, flag_fits) = items(alloc, to, kind, mark, &mut words)?;
    if !flag_fits || !message.numbers_fit() {
        return Err(PeerFault::Range);
    }
    if words.left() != 0 {
        return Err(PeerFault::Tail);
    }
    Ok(message)
}

/// Reads a message of a peer to the node `to`. The first fault comes: `Kind` if no message has this type, if the message is for
/// another node, if the id of this one is above 127, or if another message than an AskVote has the mark of a transfer; `Word` at
/// the first item that isn't there, an entry's kind that isn't 1 to 3 being `BadCode`; `Range` if a
/// term or an index is above 4,294,967,295, a flag above 1, or there are more than 16 entries; `Tail` where bytes follow.
/// `NoMemory` means out of memory. The bytes of entries and of a snapshot are copied once, into the message.
pub fn read_message(alloc: Global, message: &Message, to: u64) -> Result<RaftMessage, PeerFault>
    // What is read is what the message represents, to this node.
    ensures found { IfOk result (λ peer. Reads message.now peer × (peer.to ≡ to)) }
    // What the message represents is read, unless memory runs out.
    ensures only { (peer : RaftMessage) → Reads message.now peer → peer.to ≡ to → Gives (Ok peer) result }
    // Which fault it is.
    ensures exact { Gives (peer_message_of to message.now) result }
{
    let body = message.body.as_slice();
    whole_message(alloc, message.kind, message.schema, body, to)
}
