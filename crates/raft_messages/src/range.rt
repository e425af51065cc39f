//! Which numbers a message may carry.
ghost use Rattle.std.specs.Prelude.{◌≡◌, ◌&&◌};
ghost use Rattle.raft_spec.specs.Receiving.{fits_the_wire, terms_fit_the_wire, what_in_range};
ghost use Rattle.raft_messages.specs.Messages.{what_value, numbers_fit};

use crate::entry::{Entry, LogEnd};
use crate::message::{MessageBody, RaftMessage};

/// The greatest term and the greatest index that a message may carry.
const MAX_NUMBER: u64 = 4_294_967_295;

/// The most entries of one Append.
const MAX_ENTRIES: usize = 16;

fn fits(number: u64) -> bool
    ensures { result ≡ fits_the_wire number }
{
    number <= MAX_NUMBER
}

fn end_fits(end: &LogEnd) -> bool
    ensures { result ≡ (fits_the_wire end.now.index && fits_the_wire end.now.term) }
{
    fits(end.index) && fits(end.term)
}

fn term_fits(entry: &Entry) -> bool
    ensures { result ≡ fits_the_wire entry.now.term }
{
    fits(entry.term)
}

fn terms_fit(entries: &[Entry]) -> bool
    ensures { result ≡ terms_fit_the_wire entries.now }
{
    for entry in entries {
        if !term_fits(entry) {
            return false;
        }
    }
    true
}

fn what_fits(what: &MessageBody) -> bool
    ensures { result ≡ what_in_range (what_value what.now) }
{
    match what {
        MessageBody::AskVote { last, .. } => end_fits(last),
        MessageBody::Vote { .. } | MessageBody::TimeoutNow => true,
        MessageBody::Append {
            prev,
            commit,
            entries,
        } => {
            end_fits(prev)
                && fits(*commit)
                && entries.len() <= MAX_ENTRIES
                && terms_fit(entries.as_slice())
        }
        MessageBody::Ack { index, .. } => fits(*index),
        MessageBody::Install { snapshot } => fits(snapshot.index) && fits(snapshot.term),
    }
}

impl RaftMessage {
    /// Whether no number of the message is out of range: terms and indexes are at most 4,294,967,295, and there are at
    /// most 16 entries.
    pub fn numbers_fit(&self) -> bool
        ensures { result ≡ numbers_fit self.now }
    {
        fits(self.term) && what_fits(&self.what)
    }
}
