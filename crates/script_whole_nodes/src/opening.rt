//! The servers with which the cluster of a script is opened.

ghost use Rattle.std.specs.Prelude.{◌≡◌, ◌<◌, IfOk};
ghost use Rattle.raft_messages.specs.Servers.{IsConfiguration};
ghost use Rattle.script_cluster.specs.Voters.{voter, voters_from};

use dq_base::Items;
use raft_messages::{Server, ServerRole, Servers};
use script_cluster::VoterCount;
use std::alloc::{AllocError, Global};
use wire_words::WireText;

/// The voter of a number, at the address of its number.
fn voter(alloc: Global, id: u64) -> Result<Server, AllocError>
    ensures { IfOk result (λ server. server ≡ voter id) }
{
    Ok(Server {
        id,
        address: WireText::new(format!(in alloc; "n{id}")?),
        role: ServerRole::Voter,
    })
}

/// The servers with which a cluster of this many voters is opened: those of the lowest numbers, each at the address of its number.
#[tactic(auto, using(crate::proofs::Voting::one_more, crate::proofs::Voting::is_configuration))]
pub(crate) fn opening_servers(alloc: Global, voters: VoterCount) -> Result<Servers, AllocError>
    ensures servers { IfOk result (λ servers. servers ≡ voters_from voters 1) }
    ensures configuration { IfOk result IsConfiguration }
{
    let count = u64::from(voters.number());
    let mut servers = Vec::new(alloc);
    for place in 0..count {
        servers.push(voter(alloc, place + 1)?)?;
    }
    Ok(Items::new(servers))
}
