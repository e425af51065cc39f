//! What a line of a script has said.

use script_cluster::ClusterLine as NodeSaid;
use script_machines::MachineLine as MachineSaid;
use std::alloc::Global;

/// What was said by a line.
#[derive(Drop)]
pub(crate) enum LineSaid {
    /// By nodes, and to their clients.
    Nodes(Vec<NodeSaid>),
    /// By state machines.
    Machines(Vec<MachineSaid>),
}

impl LineSaid {
    ghost use Rattle.std.specs.Prelude.{◌≡◌, []};
    ghost use Rattle.script_runner.specs.Scenes.{said_in};

    /// Nothing was said so far.
    pub(crate) fn nothing(alloc: Global) -> LineSaid
        ensures { said_in result ≡ [] }
    {
        LineSaid::Nodes(Vec::new(alloc))
    }
}
