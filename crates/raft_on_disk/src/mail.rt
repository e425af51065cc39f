//! The messages of one event of a node, of which one Append or Install a peer is sent.
ghost use Rattle.std.specs.Prelude.{◌≡◌, ◌==◌, ◌++◌, ◌∷◌, [], not, IfOk, OnOk};
ghost use Rattle.raft_on_disk.specs.Mails.{sends_log, place_for, placed, not_to, posted, all_posted, no_mail, sent};

use raft_messages::{MessageBody, RaftMessage};
use std::alloc::{AllocError, Global};
use std::marker::Model;

/// The messages of one event of a node. Of several Appends and Installs to one peer the last one is sent: it says what the
/// node's log and commit index are at the end.
#[derive(Drop)]
pub struct Outgoing {
    others: Vec<RaftMessage>,
    logs: Vec<RaftMessage>,
}

impl Model for Outgoing {
    ghost use Rattle.raft_on_disk.specs.Mails.{MailValue};

    ghost Value = { MailValue };

    ghost view = { λ m. record { others = m.others.items; logs = m.logs.items } };
}

// Whether it is an Append or an Install.
fn sends_log(what: &MessageBody) -> bool
    ensures { result ≡ sends_log what.now }
{
    match what {
        MessageBody::Append { .. } | MessageBody::Install { .. } => true,
        MessageBody::AskVote { .. }
        | MessageBody::Vote { .. }
        | MessageBody::Ack { .. }
        | MessageBody::TimeoutNow => false,
    }
}

// The place of a message to a peer: before the first that is to it or to a greater one.
fn place_for(to: u64, logs: &[RaftMessage]) -> usize
    ensures { result ≡ place_for to logs.now }
{
    for (place, other) in logs.iter().enumerate() {
        if to <= other.to {
            return place;
        }
    }
    logs.len()
}

// The messages to other peers.
fn keep_others(logs: &mut Vec<RaftMessage>, to: u64)
    ensures { logs.new.items ≡ not_to to logs.old.items }
{
    logs.retain(|message| message.to != to);
}

// Puts a message at its place.
fn place(logs: &mut Vec<RaftMessage>, message: RaftMessage) -> Result<(), AllocError>
    ensures { OnOk result (logs.new.items ≡ placed message logs.old.items) }
{
    let place = place_for(message.to, logs.as_slice());
    logs.insert(place, message)?;
    Ok(())
}

impl Outgoing {
    /// A mail without a message.
    pub fn new(alloc: Global) -> Outgoing
        ensures { result ≡ no_mail }
    {
        Outgoing {
            others: Vec::new(alloc),
            logs: Vec::new(alloc),
        }
    }

    // One more message.
    fn post(&mut self, message: RaftMessage) -> Result<(), AllocError>
        ensures { OnOk result (self.new ≡ posted self.old message) }
    {
        if sends_log(&message.what) {
            keep_others(&mut self.logs, message.to);
            place(&mut self.logs, message)?;
        } else {
            self.others.push(message)?;
        }
        Ok(())
    }

    /// The messages of one more step, in their order. An Append or Install takes the place of an earlier one to its peer.
    /// `Err` means out of memory; the mail has some of them then, and is to be dropped.
    pub fn post_all(&mut self, messages: Vec<RaftMessage>) -> Result<(), AllocError>
        ensures { OnOk result (self.new ≡ all_posted self.old messages.items) }
    {
        for message in messages {
            self.post(message)?;
        }
        Ok(())
    }

    /// What is sent: first the others as they were made, then Appends and Installs, ascending by peer.
    pub fn into_messages(self) -> Result<Vec<RaftMessage>, AllocError>
        ensures { IfOk result (λ messages. messages.items ≡ sent self) }
    {
        let Outgoing {
            mut others,
            mut logs,
        } = self;
        others.append(&mut logs)?;
        Ok(others)
    }
}
