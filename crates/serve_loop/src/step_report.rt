use node_core::{NodeState, StepOutputs};
use serve_traits::ServerSet;

/// What a step says, and how the node is then.
#[derive(Drop)]
pub struct StepReport {
    /// Replies, connections that are closed, messages to other nodes, and queries for readers.
    pub outs: StepOutputs,
    /// How the node is after the step.
    pub state: NodeState,
    /// The voters of the last configuration of the node's whole log.
    pub voters: ServerSet,
    /// The connection whose socket is to be shut, if one is, since the node holds too much of what its clients have said: the one whose
    /// bytes were taken for the step. The node hears of it as of any other connection that ends.
    pub shut: Option<u64>,
}
