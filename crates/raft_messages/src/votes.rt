//! The votes of one node: those that it gives, and those that it gets.
ghost use Rattle.std.specs.Prelude.{◌≡◌, ◌<◌, ◌≤◌, nat_lt, [], ◌∷◌, ◌++◌, length, false};
ghost use Rattle.raft_spec.specs.Node.{among, majority};
ghost use Rattle.raft_spec.specs.Votes.{after_term, after_timeout, after_request, grants_request, after_grant, wins_with};
ghost use Rattle.raft_messages.specs.Grants.{AreDistinct, AreAmong};

use crate::entry::LogEnd;
use arrayvec::ArrayVec;
use std::marker::Model;

/// The greatest term.
pub const MAX_TERM: u64 = 4_294_967_295;

/// The most voters of a cluster.
pub const MAX_VOTERS: usize = 7;

/// The votes of one node: its term, to whom it gave its vote in that term, and whose votes it got. Ids are at least 1,
/// and a vote of 0 is for no node. Clauses see the rules' record of these. No call takes memory: the grants are in a
/// table of seven.
#[derive(Drop)]
pub struct VoteCore {
    id: u64,
    term: u64,
    vote: u64,
    grants: ArrayVec<u64, MAX_VOTERS>,
}

impl Model for VoteCore {
    ghost use Rattle.raft_spec.specs.Votes.{Votes};

    ghost Value = { Votes };

    ghost use Rattle.raft_messages.specs.Grants.{AreDistinct};

    ghost view = { λ v. record { id = v.id; term = v.term; vote = v.vote; grants = v.grants.items } };

    ghost invariant = { λ v. AreDistinct v.grants.items };
}

/// Whether the id is one of these.
fn contains(ids: &[u64], id: u64) -> bool
    ensures { result ≡ among ids.now id }
{
    ids.iter().any(|other| *other == id)
}

/// Whether more than half of the voters granted.
#[tactic(auto, unfolding(raft_spec::specs::Node::majority))]
fn is_majority(voters: &[u64], grants: &[u64]) -> bool
    requires { length voters.now ≤ 7 }
    ensures { result ≡ majority voters.now (among grants.now) }
{
    let mut granted = 0;
    for voter in voters {
        if contains(grants, *voter) {
            granted += 1;
        }
    }
    voters.len() < 2 * granted
}

impl VoteCore {
    /// The votes of the node of this id, at a term with the vote that it gave in it.
    pub fn new(id: u64, term: u64, vote: u64) -> VoteCore
        ensures { result ≡ record { id = id; term = term; vote = vote; grants = [] } }
    {
        VoteCore {
            id,
            term,
            vote,
            grants: ArrayVec::new(),
        }
    }

    /// The node's id.
    pub fn id(&self) -> u64
        ensures { result ≡ self.now.id }
    {
        self.id
    }

    /// The node's term.
    pub fn term(&self) -> u64
        ensures { result ≡ self.now.term }
    {
        self.term
    }

    /// To whom the node gave its vote in its term; 0 for no node.
    pub fn vote(&self) -> u64
        ensures { result ≡ self.now.vote }
    {
        self.vote
    }

    /// The node stands for election: the next term begins, and it gives itself its vote. At the last term, 4,294,967,295,
    /// or past it the answer is false and nothing changes.
    pub fn on_timeout(&mut self) -> bool
        ensures votes { self.new ≡ after_timeout self.old }
        ensures answer { result ≡ nat_lt self.old.term 4294967295 }
    {
        if self.term >= MAX_TERM {
            return false;
        }
        self.term += 1;
        self.vote = self.id;
        self.grants.clear();
        self.grants.push(self.id);
        true
    }

    /// The node hears of a term. A greater one than its own is taken, with no vote given or got; else the answer is false
    /// and nothing changes.
    pub fn on_term(&mut self, term: u64) -> bool
        ensures votes { self.new ≡ after_term self.old term }
        ensures answer { result ≡ nat_lt self.old.term term }
    {
        if term <= self.term {
            return false;
        }
        self.term = term;
        self.vote = 0;
        self.grants.clear();
        true
    }

    /// A node asks for the vote in its term, with the ends of its log and of the own one. A greater term is taken first.
    /// The vote is granted exactly if the term isn't below the own one, no other node has the vote of that term, and
    /// the asker's log is at least as up to date: its last term is greater, or the same and its last index isn't smaller.
    /// A granted vote is noted.
    #[tactic(auto, unfolding(raft_spec::specs::Elections::may_grant, raft_spec::specs::Log::is_up_to_date))]
    pub fn on_request(&mut self, from: u64, term: u64, last: LogEnd, own: LogEnd) -> bool
        ensures votes { self.new ≡ after_request self.old from term last own }
        ensures answer { result ≡ grants_request self.old from term last own }
    {
        if term < self.term {
            return false;
        }
        self.on_term(term);
        if self.vote != 0 && self.vote != from {
            return false;
        }
        if last.term < own.term || last.term == own.term && last.index < own.index {
            return false;
        }
        self.vote = from;
        true
    }

    /// A node grants its vote in the own term. It is counted once, and only of a voter. True exactly if a majority of
    /// the voters has granted then. Within one term the voters are to be the same at each call, the own id among them
    /// after a timeout: so each grant so far is one of theirs.
    #[tactic(auto, unfolding(raft_spec::specs::Elections::grants_with), using(crate::proofs::Grants::room, crate::proofs::Grants::among_more))]
    pub fn on_grant(&mut self, from: u64, voters: &[u64]) -> bool
        requires few { length voters.now ≤ 7 }
        requires same { AreAmong self.old.grants voters.now }
        ensures votes { self.new ≡ after_grant self.old from voters.now }
        ensures answer { result ≡ wins_with self.old from voters.now }
        ensures same { AreAmong self.new.grants voters.now }
    {
        if contains(voters, from) && !self.has_grant(from) {
            self.add_grant(from);
        }
        self.has_majority(voters)
    }

    /// Whether the node of this id is among those whose votes it got.
    fn has_grant(&self, id: u64) -> bool
        ensures answer { result ≡ among self.now.grants id }
        ensures distinct { AreDistinct self.now.grants }
    {
        contains(self.grants.as_slice(), id)
    }

    /// Whether more than half of the voters granted.
    fn has_majority(&self, voters: &[u64]) -> bool
        requires { length voters.now ≤ 7 }
        ensures { result ≡ majority voters.now (among self.now.grants) }
    {
        is_majority(voters, self.grants.as_slice())
    }

    /// Puts one grant more after the others.
    #[tactic(auto, using(crate::proofs::Grants::distinct_more))]
    fn add_grant(&mut self, from: u64)
        requires other { among self.old.grants from ≡ false }
        requires room { length self.old.grants < 7 }
        ensures { self.new ≡ record self.old { grants = self.old.grants ++ from ∷ [] } }
    {
        self.grants.push(from);
    }
}
