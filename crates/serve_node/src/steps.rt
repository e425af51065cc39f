//! How many steps statements may take, and how much a node may hold of what clients say.

use session_gateway::StepLimits;

/// How many bytes of what its clients have said a node holds before it shuts connections: 32 MiB, as much as one connection may have.
/// `docs/operating.md` has the sum of which this is a part.
pub(crate) const MAX_HELD_BYTES: u64 = 33_554_432;

/// The limits of steps of a served node. An engine visits some 1,000 to 2,000 rows in a millisecond, each of which is a step, and if it
/// has to keep them a row of few columns and few bytes takes it 30 to 300 bytes.
///
/// - A query that a reader can take over has 40,000, some 20 milliseconds: so long all other clients wait at most for a query that is then
///   run again at a reader.
/// - What has to run at the node has 2,000,000, some second. A follower stands for election after one to two seconds without a heartbeat,
///   which a leader sends between two steps.
/// - A query at a reader has 2,000,000 too. Ten times as many would be some ten seconds, as long as a client waits; but a reader would take
///   600 MiB and more for them, of which four can run at once.
///
/// They bound no bytes: a row counts for one step, whatever its columns hold. What bounds these is the system's limit of the process.
pub fn step_limits() -> StepLimits {
    StepLimits {
        query: Some(40_000),
        statement: Some(2_000_000),
        reader: Some(2_000_000),
    }
}
