ghost use Rattle.std.specs.Prelude.{◌≡◌};
ghost use Rattle.serve_node.specs.Ending.{end_of_start, end_of_crew, end_of_loop};

use crate::fault::CrewFault;
use node_core::StartFault;
use serve_traits::LoopEnd;

/// Why a node is served no more.
#[derive(Clone, Copy, Debug, PartialEq, Eq)]
pub enum ServeEnd {
    /// The files aren't those of a node: they have a fault, or the kept snapshot reads as none.
    Files,
    /// The disk failed, and has counted it.
    DiskFault,
    /// The host failed, and has counted it: it could not listen, or have a worker, or no event came any more.
    HostFault,
    /// There was not enough memory to continue.
    NoMemory,
    /// A step failed for a cause that is a bug of the program (`Unfit` of `node_core`), which isn't shown never to come.
    Internal,
    /// As many events were taken as were asked for.
    Spent,
}

/// The end by a fault of the start.
pub(crate) fn end_of_start(fault: StartFault) -> ServeEnd
    ensures { result ≡ end_of_start fault }
{
    match fault {
        StartFault::DiskFault => ServeEnd::DiskFault,
        StartFault::Damaged(_) => ServeEnd::Files,
        StartFault::Snapshot(_) => ServeEnd::Files,
        StartFault::NoMemory => ServeEnd::NoMemory,
    }
}

/// The end by a fault of the workers.
pub(crate) fn end_of_crew(fault: CrewFault) -> ServeEnd
    ensures { result ≡ end_of_crew fault }
{
    match fault {
        CrewFault::Host => ServeEnd::HostFault,
        CrewFault::NoMemory => ServeEnd::NoMemory,
    }
}

/// The end by that of the loop.
pub(crate) fn end_of_loop(end: LoopEnd) -> ServeEnd
    ensures { result ≡ end_of_loop end }
{
    match end {
        LoopEnd::Closed => ServeEnd::HostFault,
        LoopEnd::DiskFault => ServeEnd::DiskFault,
        LoopEnd::Spent(_) => ServeEnd::Spent,
        LoopEnd::NoMemory => ServeEnd::NoMemory,
        LoopEnd::Unfit => ServeEnd::Internal,
    }
}
