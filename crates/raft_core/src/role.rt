//! What a node is in its term.
ghost use Rattle.std.specs.Prelude.{◌≡◌};
ghost use Rattle.raft_spec.specs.Node.{is_leader, is_candidate};
ghost use Rattle.raft_core.specs.Roles.{role_value};

/// What a node is in its term.
#[derive(Clone, Copy, Debug, PartialEq, Eq)]
pub enum RaftRole {
    /// It leads the term.
    Leader,
    /// It stands for election.
    Candidate,
    /// It follows, whether or not it knows a leader.
    Follower,
}

impl RaftRole {
    /// Whether it leads.
    pub fn leads(self) -> bool
        ensures { result ≡ is_leader (role_value self) }
    {
        match self {
            RaftRole::Leader => true,
            RaftRole::Candidate | RaftRole::Follower => false,
        }
    }

    /// Whether it stands for election.
    pub fn stands(self) -> bool
        ensures { result ≡ is_candidate (role_value self) }
    {
        match self {
            RaftRole::Candidate => true,
            RaftRole::Leader | RaftRole::Follower => false,
        }
    }
}
