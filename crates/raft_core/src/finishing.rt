//! The end of a step: a leader moves its commit index, and sends.
ghost use Rattle.std.specs.Prelude.{◌≡◌, ◌++◌, ◌-◌, ◌∷◌, [], false, nat_lt, cond, suc, IfOk, map, take, drop};
ghost use Rattle.raft_spec.specs.Commitment.{commit_index};
ghost use Rattle.raft_spec.specs.Compaction.{compact_message};
ghost use Rattle.raft_spec.specs.Log.{term_at};
ghost use Rattle.raft_spec.specs.Node.{others, voters};
ghost use Rattle.raft_spec.specs.Node as rules;
ghost use Rattle.raft_spec.specs.NodeValues.{node_of};
ghost use Rattle.raft_spec.specs.Snapshots.{needs_snapshot};
ghost use Rattle.raft_spec.specs.Steps.{message_to, receivers, finish};
ghost use Rattle.raft_core.specs.Effects.{said, message_in, recipients_value, outcome_of};
ghost use Rattle.raft_core.specs.Messages.{sent_message, sent_value, sent_what, sents_value};
ghost use Rattle.raft_core.specs.Nodes.{told};
ghost use Rattle.raft_core.specs.Steps.{compact_outcome};

use crate::effects::{LogChange, Recipients, Say};
use crate::node::RaftNode;
use crate::sending::Outgoing;
use raft_log::Compact;
use raft_messages::{LogEnd, MessageBody, RaftMessage};
use std::alloc::{AllocError, Global};

/// The most entries that are sent at once.
const MAX_ENTRIES: usize = 16;

// To whom the log is sent: to all if the commit index moved.
fn recipients_where(moved: bool, recipients: Recipients) -> Recipients
    ensures { recipients_value result ≡ cond moved rules.Everyone (recipients_value recipients) }
{
    if moved {
        return Recipients::Everyone;
    }
    recipients
}

impl RaftNode {
    // A leader's commit index moves; true if it did.
    fn advance(&mut self) -> bool
        ensures node { self.new ≡ record self.old { commit = commit_index (told self.old) self.old.id (node_of self.old) } }
        ensures moved { result ≡ nat_lt self.old.commit self.new.commit }
    {
        let term = self.votes.term();
        let commit = self.progress.commit_index(&self.log, term, self.commit);
        let moved = self.commit < commit;
        self.commit = commit;
        moved
    }

    // A message of the node.
    fn message(&self, to: u64, what: MessageBody) -> Outgoing
        ensures { sent_value self.now.id result ≡ message_in self.now.id self.now.term to (sent_what what) }
    {
        Outgoing::Message(RaftMessage {
            from: self.id(),
            to,
            term: self.term(),
            what,
        })
    }

    // Asks a voter for its vote, if it is another one.
    #[tactic(auto, unfolding(raft_spec::specs::Node::others))]
    fn ask_voter(
        &self,
        out: &mut Vec<Outgoing>,
        voter: u64,
        last: LogEnd,
        transfer: bool,
    ) -> Result<(), AllocError>
        ensures { IfOk result (λ done. sents_value self.now.id out.new.items ≡ sents_value self.now.id out.old.items ++ map (λ to. message_in self.now.id self.now.term to (rules.AskVote last transfer)) (others (voter ∷ []) self.now.id)) }
    {
        if voter == self.id() {
            return Ok(());
        }
        out.push(self.message(voter, MessageBody::AskVote { last, transfer }))?;
        Ok(())
    }

    // Asks every other voter for its vote.
    fn ask_voters(
        &self,
        out: &mut Vec<Outgoing>,
        last: LogEnd,
        transfer: bool,
    ) -> Result<(), AllocError>
        ensures { IfOk result (λ done. sents_value self.now.id out.new.items ≡ sents_value self.now.id out.old.items ++ map (λ to. message_in self.now.id self.now.term to (rules.AskVote last transfer)) (others (voters self.now.servers) self.now.id)) }
    {
        let voters = self.voters();
        for voter in voters {
            self.ask_voter(out, *voter, last, transfer)?;
        }
        Ok(())
    }

    // What the node says by itself.
    fn said(&self, alloc: Global, say: Say) -> Result<Vec<Outgoing>, AllocError>
        ensures { IfOk result (λ out. sents_value self.now.id out.items ≡ said self.now say) }
    {
        let mut out = Vec::new(alloc);
        match say {
            Say::Nothing => {}
            Say::AskVotes { last, transfer } => self.ask_voters(&mut out, last, transfer)?,
            Say::Vote { to, granted } => out.push(self.message(to, MessageBody::Vote { granted }))?,
            Say::Ack { to, good, index } => out.push(self.message(
                to,
                MessageBody::Ack { good, index },
            ))?,
            Say::TimeoutNow { to } => out.push(self.message(to, MessageBody::TimeoutNow))?,
        }
        Ok(out)
    }

    // Whether a peer needs the snapshot, by its next entry.
    fn needs_snapshot(&self, next: u64, first: u64) -> bool
        requires { first ≡ suc self.now.base }
        ensures { result ≡ needs_snapshot (node_of self.now) next }
    {
        Compact::new(self.snapshot).needs_snapshot(next, first)
    }

    // The Append for a peer, by its next entry.
    fn append_for(&self, alloc: Global, peer: u64, next: u64) -> Result<RaftMessage, AllocError>
        requires { needs_snapshot (node_of self.now) next ≡ false }
        ensures { IfOk result (λ message. sent_message message ≡ message_in self.now.id self.now.term peer (rules.Append (record { index = next - 1; term = term_at (node_of self.now).log (next - 1) }) self.now.commit (take 16 (drop (next - 1) (node_of self.now).log)))) }
    {
        let index = next.saturating_sub(1);
        let entries = self.log.copied(alloc, index, MAX_ENTRIES)?;
        Ok(RaftMessage {
            from: self.id(),
            to: peer,
            term: self.term(),
            what: MessageBody::Append {
                prev: LogEnd {
                    index,
                    term: self.log_term(index),
                },
                commit: self.commit,
                entries,
            },
        })
    }

    // The one message for a peer: the snapshot where it needs that, else entries.
    fn message_to(&self, alloc: Global, peer: u64) -> Result<Outgoing, AllocError>
        ensures { IfOk result (λ sending. sent_value self.now.id sending ≡ compact_message (message_to self.now.id (node_of self.now) peer)) }
    {
        let next = self.next_of(peer);
        let first = self.first_index()?;
        if self.needs_snapshot(next, first) {
            return Ok(Outgoing::Install {
                to: peer,
                term: self.term(),
                last: self.snapshot(),
            });
        }
        Ok(Outgoing::Message(self.append_for(alloc, peer, next)?))
    }

    /// Sends the log to these peers.
    pub(crate) fn send(
        &self,
        alloc: Global,
        out: &mut Vec<Outgoing>,
        peers: &[u64],
    ) -> Result<(), AllocError>
        ensures { IfOk result (λ done. sents_value self.now.id out.new.items ≡ sents_value self.now.id out.old.items ++ map (λ peer. compact_message (message_to self.now.id (node_of self.now) peer)) peers.now) }
    {
        for peer in peers {
            out.push(self.message_to(alloc, *peer)?)?;
        }
        Ok(())
    }

    // Sends the log to the recipients.
    fn send_to(
        &self,
        alloc: Global,
        out: &mut Vec<Outgoing>,
        recipients: Recipients,
    ) -> Result<(), AllocError>
        ensures { IfOk result (λ done. sents_value self.now.id out.new.items ≡ sents_value self.now.id out.old.items ++ map (λ peer. compact_message (message_to self.now.id (node_of self.now) peer)) (receivers self.now.id (node_of self.now) (recipients_value recipients))) }
    {
        match recipients {
            Recipients::Nobody => Ok(()),
            Recipients::Everyone => self.send(alloc, out, self.peers()),
            Recipients::Only(peer) => self.send(alloc, out, &[peer]),
        }
    }

    /// The end of a step: all that the node sends. A leader first moves its commit index.
    pub(crate) fn finish(
        &mut self,
        alloc: Global,
        say: Say,
        recipients: Recipients,
    ) -> Result<Vec<Outgoing>, AllocError>
        ensures node { IfOk result (λ out. node_of self.new ≡ (compact_outcome (finish (told self.old) self.old.id (outcome_of self.old (record { say = say; recipients = recipients; change = LogChange.Nothing })))).node) }
        ensures sends { IfOk result (λ out. sents_value self.old.id out.items ≡ (compact_outcome (finish (told self.old) self.old.id (outcome_of self.old (record { say = say; recipients = recipients; change = LogChange.Nothing })))).out) }
        ensures rest { self.new ≡ record self.old { commit = self.new.commit } }
    {
        let mut out = self.said(alloc, say)?;
        if !self.leads() {
            return Ok(out);
        }
        let moved = self.advance();
        self.send_to(alloc, &mut out, recipients_where(moved, recipients))?;
        Ok(out)
    }
}
