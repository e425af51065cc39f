//! Elections: standing, granting votes, and winning.
ghost use Rattle.std.specs.Prelude.{◌≡◌, ◌&&◌, nat_lt, suc, IfOk, [], ◌∷◌, length};
ghost use Rattle.raft_spec.specs.Elections.{may_start_election, start_election, on_yield, on_grants, on_ask_vote, on_vote};
ghost use Rattle.raft_spec.specs.Node.{among, is_leader, majority, voters};
ghost use Rattle.raft_spec.specs.NodeValues.{node_of};
ghost use Rattle.raft_spec.specs.Outcomes.{barrier};
ghost use Rattle.raft_core.specs.Effects.{said, Does};
ghost use Rattle.raft_core.specs.Nodes.{told};

use crate::effects::{Effects, LogChange, Recipients, Say};
use crate::node::RaftNode;
use raft_messages::{Entry, EntryKind, LogEnd, SharedBytes};
use std::alloc::{AllocError, Global};
use wire_words::WireBytes;

/// At the last term no node stands for election.
const MAX_TERM: u64 = 4_294_967_295;

/// From this many entries on a node doesn't stand for election.
const MAX_INDEX: u64 = 4_294_900_000;

// The entry that a new leader appends first.
fn barrier_of(alloc: Global, term: u64) -> Result<Entry, AllocError>
    ensures { IfOk result (λ entry. entry ≡ barrier term) }
{
    let bytes = WireBytes::new(Vec::new(alloc));
    Ok(Entry {
        term,
        kind: EntryKind::Barrier,
        bytes: SharedBytes::new(alloc, bytes)?,
    })
}

impl RaftNode {
    // Whether the node may stand for election.
    #[tactic(auto, unfolding(raft_spec::specs::Elections::may_start_election))]
    fn may_stand(&self) -> bool
        ensures { result ≡ may_start_election (told self.now) self.now.id (node_of self.now) }
    {
        self.is_voter()
            && 0 < self.id()
            && !self.leads()
            && self.term() < MAX_TERM
            && self.last_index() < MAX_INDEX
    }

    // A candidate has counted its votes: with those of a majority it leads, and appends a barrier.
    fn after_count(&mut self, alloc: Global, won: bool, say: Say) -> Result<Effects, AllocError>
        requires { won ≡ majority (voters self.old.servers) (among self.old.grants) }
        ensures { IfOk result (λ effects. Does self.old (on_grants (told self.old) self.old.id (node_of self.old) (said self.old say)) self.new effects) }
    {
        if !won {
            return Ok(Effects::says(say));
        }
        let first = self.next_index()?;
        self.lead(first);
        let barrier = barrier_of(alloc, self.term())?;
        self.push(barrier)?;
        Ok(Effects {
            say,
            recipients: Recipients::Everyone,
            change: LogChange::From(first),
        })
    }

    /// A timeout, or a leader's `transfer` of its leadership: who may stand does, and asks every other voter.
    pub(crate) fn start_election(
        &mut self,
        alloc: Global,
        transfer: bool,
    ) -> Result<Effects, AllocError>
        ensures { IfOk result (λ effects. Does self.old (start_election (told self.old) self.old.id (node_of self.old) transfer) self.new effects) }
    {
        if !self.may_stand() {
            return Ok(Effects::says(Say::Nothing));
        }
        self.stand();
        let last = self.end();
        let own = self.id();
        let won = self.count(own);
        self.after_count(alloc, won, Say::AskVotes { last, transfer })
    }

    // Whether the node leads, below the last term.
    fn may_yield(&self) -> bool
        ensures { result ≡ (is_leader self.now.role && nat_lt self.now.term 4294967295) }
    {
        self.leads() && self.term() < MAX_TERM
    }

    /// A leader gives up its leadership: it takes the next term, as if it had heard of it. At the last term, and at other nodes, nothing
    /// happens.
    pub(crate) fn give_up(&mut self) -> Effects
        ensures { Does self.old (on_yield (node_of self.old)) self.new result }
    {
        if self.may_yield() {
            let next = self.term() + 1;
            self.take_term(next);
            return Effects::says(Say::Nothing);
        }
        Effects::says(Say::Nothing)
    }

    /// A node asks for the vote in the own term.
    pub(crate) fn on_ask_vote(&mut self, from: u64, last: LogEnd) -> Effects
        ensures { Does self.old (on_ask_vote self.old.id (node_of self.old) from last) self.new result }
    {
        let granted = self.ask(from, last);
        Effects::says(Say::Vote { to: from, granted })
    }

    /// The answer of a node that was asked comes.
    pub(crate) fn on_vote(
        &mut self,
        alloc: Global,
        from: u64,
        granted: bool,
    ) -> Result<Effects, AllocError>
        ensures { IfOk result (λ effects. Does self.old (on_vote (told self.old) self.old.id (node_of self.old) from granted) self.new effects) }
    {
        if !granted {
            return Ok(Effects::says(Say::Nothing));
        }
        if !self.stands() {
            return Ok(Effects::says(Say::Nothing));
        }
        let won = self.count(from);
        self.after_count(alloc, won, Say::Nothing)
    }
}
