//! A look at a message before Raft takes it.
ghost use Rattle.std.specs.Prelude.{◌≡◌, ◌&&◌, nat_lt, None, MatchOption};
ghost use Rattle.raft_spec.specs.NodeValues.{node_of};
ghost use Rattle.raft_spec.specs.Receiving.{fits_the_wire};
ghost use Rattle.raft_messages.specs.Messages.{snapshot_end};
ghost use Rattle.raft_core.specs.Events.{brought};
ghost use Rattle.raft_on_disk.specs.Looking.{end_fits, is_looked_at, puts_snapshot, takes_install};
ghost use Rattle.raft_on_disk.specs.Replicas.{IsWhole};

use crate::replica::Replica;
use raft_core::is_near;
use raft_messages::{MessageBody, RaftMessage, Snapshot};

/// The greatest term and the greatest index that a message may carry.
const MAX_NUMBER: u64 = 4_294_967_295;

fn fits(number: u64) -> bool
    ensures { result ≡ fits_the_wire number }
{
    number <= MAX_NUMBER
}

// Whether the end of a snapshot can be carried.
fn end_fits(snapshot: &Snapshot) -> bool
    ensures { result ≡ end_fits (snapshot_end snapshot.now) }
{
    fits(snapshot.index) && fits(snapshot.term)
}

// Whether a node of the term `own` looks at an Install: its term isn't too far above, it has a term and a sender, and its
// numbers are in range.
fn is_looked_at(own: u64, from: u64, term: u64, snapshot: &Snapshot) -> bool
    ensures { result ≡ is_looked_at own from term (snapshot_end snapshot.now) }
{
    is_near(own, term) && 0 < term && 0 < from && fits(term) && end_fits(snapshot)
}

// The snapshot that a message brings.
fn brought(what: &MessageBody) -> Option<&Snapshot>
    ensures { MatchOption result (brought what.now ≡ None) (λ snapshot. what.now ≡ MessageBody.Install snapshot.now) }
{
    match what {
        MessageBody::Install { snapshot } => Some(snapshot),
        MessageBody::AskVote { .. }
        | MessageBody::Vote { .. }
        | MessageBody::Append { .. }
        | MessageBody::Ack { .. }
        | MessageBody::TimeoutNow => None,
    }
}

impl Replica {
    // Whether an Install reaches a node that isn't past its term, doesn't lead it, and has committed less.
    fn takes_install(&self, from: u64, term: u64, snapshot: &Snapshot) -> bool
        ensures { result ≡ takes_install (node_of self.now.raft) from term (snapshot_end snapshot.now) }
    {
        let view = self.raft.view();
        is_looked_at(view.term, from, term, snapshot)
            && view.term <= term
            && (view.term < term || !view.role.leads())
            && view.commit < snapshot.index
    }

    /// Whether a step of this message would put the snapshot that it brings in the place of entries. Only then are the
    /// snapshot's bytes read: a node that can't read them drops the message, and then nothing changes, not even the term.
    /// An Install that ends at or below the commit index is taken, and acked, without its bytes being read. Looks at no
    /// byte and allocates nothing.
    #[tactic(auto, using(crate::proofs::Looks::none_puts, crate::proofs::Looks::some_puts))]
    pub fn takes_snapshot(&self, message: &RaftMessage) -> bool
        requires { IsWhole self.now }
        ensures { result ≡ puts_snapshot self.now message.now }
    {
        match brought(&message.what) {
            Some(snapshot) => self.takes_install(message.from, message.term, snapshot),
            None => false,
        }
    }
}
