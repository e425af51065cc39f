//! What a node is for its sessions.

ghost use Rattle.std.specs.Prelude.{◌≡◌};
ghost use Rattle.session_spec.specs.Limits as limits;

use dq_base::Items;
use raft_messages::Servers;
use session_table::MAX_INDEX;
use std::marker::Model;

/// How many steps statements may take, if there is a limit; an engine gives up one that would take more. Clauses see none of
/// it: which answers an engine may give they say for any limit.
#[derive(Clone, Copy)]
pub struct StepLimits {
    /// A query outside a transaction, if a reader can take it over.
    pub query: Option<u64>,
    /// Any other statement.
    pub statement: Option<u64>,
    /// A query at a reader.
    pub reader: Option<u64>,
}

impl StepLimits {
    /// No limits: nothing is ever given up.
    pub fn none() -> StepLimits {
        StepLimits {
            query: None,
            statement: None,
            reader: None,
        }
    }
}

/// What a node is at the moment, as its sessions see it. Clauses see it as the rules' one.
#[derive(Drop)]
pub struct View {
    /// The node's id.
    pub id: u64,
    /// The id of the leader that it knows in its term.
    pub leader: Option<u64>,
    /// Whether it leads its term, has applied its own first entry of it, and has undone each transaction that was pending
    /// then.
    pub serving: bool,
    /// Its term.
    pub term: u64,
    /// The last index of its log.
    pub last: u64,
    /// The servers of the applied configuration, ascending by id.
    pub servers: Servers,
    /// Whether it has peer connections to other nodes.
    pub links: bool,
    /// Whether readers answer queries concurrently with it.
    pub readers: bool,
    /// At a leader, the peers whose log is known to reach its last index.
    pub even: Items<u64>,
    /// At a leader, the peers whose log is known to lack at most the last `MAX_VOTER_LAG` entries.
    pub near: Items<u64>,
    /// How many steps statements may take.
    pub steps: StepLimits,
}

impl Model for View {
    ghost use Rattle.session_spec.specs.Sessions.{View as RuleView};

    ghost Value = { RuleView };

    ghost view = { λ v. record {
      id = v.id;
      leader = v.leader;
      serving = v.serving;
      term = v.term;
      last = v.last;
      servers = v.servers;
      links = v.links;
      readers = v.readers;
      even = v.even;
      near = v.near;
    } };
}

/// Whether nothing more is appended to the node's log for its sessions.
pub fn log_full(view: &View) -> bool
    ensures { result ≡ limits.log_full view.now }
{
    view.last >= MAX_INDEX
}
