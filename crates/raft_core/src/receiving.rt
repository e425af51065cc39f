//! What a node does with a message, by its term.
ghost use Rattle.std.specs.Prelude.{◌≡◌, ◌-◌, nat_le, nat_lt, cond, true, IfOk, []};
ghost use Rattle.raft_spec.specs.Node.{Follower};
ghost use Rattle.raft_spec.specs.NodeValues.{node_of};
ghost use Rattle.raft_spec.specs.Receiving.{in_range, what_in_range, on_older_term, on_own_term, on_message};
ghost use Rattle.raft_messages.specs.Messages.{message_value, what_value};
ghost use Rattle.raft_core.specs.Effects.{Does, ChangesLog};
ghost use Rattle.raft_core.specs.Nodes.{told};
ghost use Rattle.raft_core.specs.Steps.{Ends};

use crate::effects::{Effects, Say};
use crate::node::RaftNode;
use raft_messages::{LogEnd, MessageBody, RaftMessage};
use std::alloc::{AllocError, Global};

/// The most by which a message's term may be above the receiver's. A message of a term further above counts as lost: one faulty
/// message must not raise the terms of a cluster towards the last one.
const MAX_TERM_JUMP: u64 = 1_000_000;

/// Whether a message of this term isn't too far above a node of the term `own` to be taken.
pub fn is_near(own: u64, term: u64) -> bool
    ensures { result ≡ nat_le (term - own) 1000000 }
{
    term.saturating_sub(own) <= MAX_TERM_JUMP
}

// Whether a node of the term `own` looks at a message: its term isn't too far above, it has a term and a sender, and its numbers
// are in range.
fn is_in_range(own: u64, message: &RaftMessage) -> bool
    ensures { result ≡ in_range own (message_value message.now) }
{
    if !is_near(own, message.term) {
        return false;
    }
    if message.term == 0 {
        return false;
    }
    if message.from == 0 {
        return false;
    }
    message.numbers_fit()
}

impl RaftNode {
    // A greater term than the own one is taken.
    fn hear_term(&mut self, term: u64)
        ensures { self.new ≡ cond (nat_lt self.old.term term) (record self.old { term = term; vote = 0; role = Follower; leader = 0; grants = [] }) self.old }
    {
        if self.term() < term {
            self.take_term(term);
        }
    }

    // A message of a smaller term.
    fn on_older_term(&self, from: u64, what: &MessageBody) -> Effects
        ensures { Does self.now (on_older_term self.now.id (node_of self.now) from (what_value what.now)) self.now result }
    {
        match what {
            MessageBody::AskVote { .. } => Effects::says(Say::Vote {
                to: from,
                granted: false,
            }),
            MessageBody::Append { .. } | MessageBody::Install { .. } => Effects::says(Say::Ack {
                to: from,
                good: false,
                index: self.last_index(),
            }),
            MessageBody::Vote { .. } | MessageBody::Ack { .. } | MessageBody::TimeoutNow =>
                Effects::says(Say::Nothing),
        }
    }

    // A message of the own term.
    fn on_own_term(
        &mut self,
        alloc: Global,
        from: u64,
        what: MessageBody,
    ) -> Result<Effects, AllocError>
        requires { what_in_range (what_value what) ≡ true }
        ensures outcome { IfOk result (λ effects. Ends self.old (on_own_term (told self.old) self.old.id (node_of self.old) from (what_value what)) self.new effects) }
        ensures log { IfOk result (λ effects. ChangesLog (node_of self.old) (node_of self.new) effects.change) }
    {
        match what {
            MessageBody::AskVote { last, .. } => Ok(self.on_ask_vote(from, last)),
            MessageBody::Vote { granted } => self.on_vote(alloc, from, granted),
            MessageBody::Append {
                prev,
                commit,
                entries,
            } => self.on_append(from, prev, commit, entries.into_vec()),
            MessageBody::Ack { good, index } => Ok(self.on_ack(from, good, index)),
            MessageBody::Install { snapshot } => Ok(self.on_install(
                alloc,
                from,
                LogEnd {
                    index: snapshot.index,
                    term: snapshot.term,
                },
            )),
            MessageBody::TimeoutNow => self.start_election(alloc, true),
        }
    }

    /// A message comes. The entries of an Append are moved into the log.
    pub(crate) fn on_message(
        &mut self,
        alloc: Global,
        message: RaftMessage,
    ) -> Result<Effects, AllocError>
        ensures outcome { IfOk result (λ effects. Ends self.old (on_message (told self.old) self.old.id (node_of self.old) (message_value message)) self.new effects) }
        ensures log { IfOk result (λ effects. ChangesLog (node_of self.old) (node_of self.new) effects.change) }
    {
        let own = self.term();
        if !is_in_range(own, &message) {
            return Ok(Effects::says(Say::Nothing));
        }
        if message.term < own {
            return Ok(self.on_older_term(message.from, &message.what));
        }
        self.hear_term(message.term);
        self.on_own_term(alloc, message.from, message.what)
    }
}
