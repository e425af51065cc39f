//! What a loop's core and a node name differently.

ghost use Rattle.std.specs.Prelude.{◌≡◌, ◌≢◌};
ghost use Rattle.node_core.specs.declared.fault.NodeFault.TheVariants as node;
ghost use Rattle.serve_loop.specs.Bridge.{event_of, fault_of};

use node_core::{Event, NodeFault};
use serve_traits::StepFault;
use session_gateway::Read;

/// What happens at a node, for an event of its loop. What the event brings is moved.
pub(crate) fn event_of(event: serve_traits::Event<Read>) -> Event
    ensures { result ≡ event_of event }
{
    match event {
        serve_traits::Event::Timeout => Event::Timeout,
        serve_traits::Event::Beat => Event::Beat,
        serve_traits::Event::Yield => Event::Yield,
        serve_traits::Event::Connect(conn) => Event::Connect(conn),
        serve_traits::Event::Bytes(conn, bytes) => Event::Bytes(conn, bytes),
        serve_traits::Event::Hangup(conn) => Event::Hangup(conn),
        serve_traits::Event::Peer(message) => Event::Peer(message),
        serve_traits::Event::ReadDone(conn, read) => Event::ReadDone(conn, read),
    }
}

/// The fault of a step, for that of a node that was up.
pub(crate) fn fault_of(fault: NodeFault) -> StepFault
    requires { fault ≢ node.Down }
    ensures { result ≡ fault_of fault }
{
    match fault {
        NodeFault::DiskFault => StepFault::DiskFault,
        NodeFault::NoMemory => StepFault::NoMemory,
        NodeFault::Unfit => StepFault::Unfit,
        NodeFault::Down => unreachable!(),
    }
}
