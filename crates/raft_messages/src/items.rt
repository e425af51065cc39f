//! The items of a message, by its type.
ghost use Rattle.wire_words.specs.Reading.{Finds};
ghost use Rattle.raft_messages.specs.Reading.{log_end_at, entries_at, ask_vote_at, vote_at, append_at, ack_at, install_at, said_at, items_at};

use crate::entries::{read_entry_contents, read_entry_heads};
use crate::entry::{Entries, LogEnd};
use crate::kind::MessageKind;
use crate::message::{MessageBody, RaftMessage, Snapshot};
use crate::shared::SharedBytes;
use std::alloc::Global;
use wire_words::{WordFault, Words};

/// What a message says, before its numbers are looked at.
#[derive(Drop)]
pub(crate) struct UncheckedBody {
    pub(crate) what: MessageBody,
    /// Whether a number in place of a yes or a no is 0 or 1.
    pub(crate) flag_fits: bool,
}

#[tactic(auto, unfolding(crate::specs::Reading::log_end_at))]
fn log_end(words: &mut Words<'_>) -> Result<LogEnd, WordFault>
    ensures { Finds (λ end. end) log_end_at words.old words.new result }
{
    let index = words.u64()?;
    let term = words.u64()?;
    Ok(LogEnd { index, term })
}

#[tactic(auto, unfolding(crate::specs::Reading::entries_at))]
fn entries(alloc: Global, words: &mut Words<'_>) -> Result<Entries, WordFault>
    ensures { Finds (λ entries. entries) entries_at words.old words.new result }
{
    let count = words.u64()?;
    let heads = read_entry_heads(alloc, words, count)?;
    let entries = read_entry_contents(alloc, words, &heads)?;
    Ok(Entries::new(entries))
}

#[tactic(auto, unfolding(crate::specs::Reading::ask_vote_at))]
fn ask_vote(transfer: bool, words: &mut Words<'_>) -> Result<UncheckedBody, WordFault>
    ensures { Finds (λ said. said) (ask_vote_at transfer) words.old words.new result }
{
    let last = log_end(words)?;
    Ok(UncheckedBody {
        what: MessageBody::AskVote { last, transfer },
        flag_fits: true,
    })
}

#[tactic(auto, unfolding(crate::specs::Reading::vote_at))]
fn vote(words: &mut Words<'_>) -> Result<UncheckedBody, WordFault>
    ensures { Finds (λ said. said) vote_at words.old words.new result }
{
    let granted = words.u64()?;
    Ok(UncheckedBody {
        what: MessageBody::Vote {
            granted: granted == 1,
        },
        flag_fits: granted <= 1,
    })
}

#[tactic(auto, unfolding(crate::specs::Reading::append_at))]
fn append(alloc: Global, words: &mut Words<'_>) -> Result<UncheckedBody, WordFault>
    ensures { Finds (λ said. said) append_at words.old words.new result }
{
    let prev = log_end(words)?;
    let commit = words.u64()?;
    let entries = entries(alloc, words)?;
    Ok(UncheckedBody {
        what: MessageBody::Append {
            prev,
            commit,
            entries,
        },
        flag_fits: true,
    })
}

#[tactic(auto, unfolding(crate::specs::Reading::ack_at))]
fn ack(words: &mut Words<'_>) -> Result<UncheckedBody, WordFault>
    ensures { Finds (λ said. said) ack_at words.old words.new result }
{
    let good = words.u64()?;
    let index = words.u64()?;
    Ok(UncheckedBody {
        what: MessageBody::Ack {
            good: good == 1,
            index,
        },
        flag_fits: good <= 1,
    })
}

#[tactic(auto, unfolding(crate::specs::Reading::install_at))]
fn install(alloc: Global, words: &mut Words<'_>) -> Result<UncheckedBody, WordFault>
    ensures { Finds (λ said. said) install_at words.old words.new result }
{
    let last = log_end(words)?;
    let bytes = words.blob(alloc)?;
    let bytes = SharedBytes::new(alloc, bytes)?;
    let snapshot = Snapshot {
        index: last.index,
        term: last.term,
        bytes,
    };
    Ok(UncheckedBody {
        what: MessageBody::Install { snapshot },
        flag_fits: true,
    })
}

/// What a message of this type says, with the mark or without.
fn said_by_kind(
    alloc: Global,
    kind: MessageKind,
    mark: bool,
    words: &mut Words<'_>,
) -> Result<UncheckedBody, WordFault>
    ensures { Finds (λ said. said) (said_at kind mark) words.old words.new result }
{
    match kind {
        MessageKind::AskVote => ask_vote(mark, words),
        MessageKind::Vote => vote(words),
        MessageKind::Append => append(alloc, words),
        MessageKind::Ack => ack(words),
        MessageKind::Install => install(alloc, words),
        MessageKind::TimeoutNow => Ok(UncheckedBody {
            what: MessageBody::TimeoutNow,
            flag_fits: true,
        }),
    }
}

/// The message to this node, and whether a flag in it is 0 or 1.
#[tactic(auto, unfolding(crate::specs::Reading::items_at))]
pub(crate) fn items(
    alloc: Global,
    to: u64,
    kind: MessageKind,
    mark: bool,
    words: &mut Words<'_>,
) -> Result<(RaftMessage, bool), WordFault>
    ensures { Finds (λ items. items) (items_at to kind mark) words.old words.new result }
{
    let from = words.u64()?;
    let term = words.u64()?;
    let said = said_by_kind(alloc, kind, mark, words)?;
    let message = RaftMessage {
        from,
        to,
        term,
        what: said.what,
    };
    Ok((message, said.flag_fits))
}
