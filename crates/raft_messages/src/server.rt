//! The servers of a configuration.
ghost use Rattle.std.specs.Prelude.{◌≡◌, ◌==◌, nat_le, true, false, IfOk, MatchOption};
ghost use Rattle.raft_messages.specs.Kinds.{role_number, role_with};

use dq_base::Items;
use std::alloc::{AllocError, Global};
use std::marker::Model;
use wire_words::WireText;

/// What a server does in the cluster.
#[derive(Clone, Copy, Debug, PartialEq, Eq)]
pub enum ServerRole {
    /// It votes, and gets the log.
    Voter,
    /// It gets the log, and doesn't vote.
    Standby,
    /// It neither votes nor gets the log.
    Spare,
}

impl ServerRole {
    /// The number that represents the role.
    pub fn number(self) -> u64
        ensures { result ≡ role_number self }
    {
        match self {
            ServerRole::Voter => 0,
            ServerRole::Standby => 1,
            ServerRole::Spare => 2,
        }
    }

    /// Whether a server of this role votes.
    pub fn votes(self) -> bool
        ensures { result ≡ (role_number self == 0) }
    {
        match self {
            ServerRole::Voter => true,
            ServerRole::Standby | ServerRole::Spare => false,
        }
    }

    /// The role that a number represents, if any.
    pub fn with_number(number: u64) -> Option<ServerRole>
        ensures role { result ≡ role_with number }
        ensures number { MatchOption result (nat_le number 2 ≡ false) (λ role. (role_number role ≡ number) × (nat_le number 2 ≡ true)) }
    {
        match number {
            0 => Some(ServerRole::Voter),
            1 => Some(ServerRole::Standby),
            2 => Some(ServerRole::Spare),
            _ => None,
        }
    }
}

/// A server of a configuration. Clauses see it as the rules' server, whose role is a number.
#[derive(Debug, Drop)]
pub struct Server {
    /// Its number, at least 1.
    pub id: u64,
    /// Where other nodes and clients reach it.
    pub address: WireText,
    /// What it does.
    pub role: ServerRole,
}

impl Model for Server {
    ghost use Rattle.raft_spec.specs.Node.{Server as ServerValue};

    ghost Value = { ServerValue };

    ghost use Rattle.raft_messages.specs.Kinds.{role_number};

    ghost view = { λ s. record { id = s.id; address = s.address; role = role_number s.role } };
}

/// The servers of a configuration, ascending by id. Clauses see them as a list.
pub type Servers = Items<Server>;

impl Server {
    /// Whether it votes.
    pub fn votes(&self) -> bool
        ensures { result ≡ (self.now.role == 0) }
    {
        self.role.votes()
    }

    /// A copy of the server, which copies its address. Fails where memory runs out.
    pub fn copied(&self, alloc: Global) -> Result<Server, AllocError>
        ensures { IfOk result (λ copy. copy ≡ self.now) }
    {
        let address = String::from_str(alloc, self.address.as_str())?;
        Ok(Server {
            id: self.id,
            address: WireText::new(address),
            role: self.role,
        })
    }
}
