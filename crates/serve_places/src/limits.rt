//! How many connections there may be, how much may wait for them, and how long they may take.

/// How many connections there are at most, peers' included.
pub const MAX_CONNECTIONS: usize = 72;

/// How many of these clients have at most, so that 16 are left for peers, and 8 of a node's 64 sessions.
pub const MAX_CLIENTS: usize = 56;

/// How many sockets there are at most: the connections, and 256 that have not said their first bytes or wait for a place.
pub const MAX_SOCKETS: usize = 328;

/// How many bytes one read of a connection takes at most.
pub(crate) const MAX_READ_BYTES: usize = 65_536;

/// How many bytes one read of a socket takes at most that is no connection yet.
pub(crate) const MAX_FRONT_READ_BYTES: usize = 512;

/// How many bytes may wait to be written to one connection: 32 MiB.
pub const MAX_PLACE_BYTES: u64 = 33_554_432;

/// How many of these each connection has by its own right: 1 MiB.
pub(crate) const OWN_BYTES: u64 = 1_048_576;

/// How many bytes may wait beyond the first 1 MiB of each connection, at all connections together: 96 MiB.
pub const MAX_COMMON_BYTES: u64 = 100_663_296;

/// What a reply counts for in addition to its bytes.
pub(crate) const REPLY_OVERHEAD: u64 = 256;

/// How many bytes the version and a CONNECT have at most. A node's own have 352 at most: an address of 255, two ids, and 64 digits.
pub(crate) const MAX_GREETING_BYTES: u64 = 512;

/// How many bytes a peer's message has at least to count as a large one: 1 MiB.
pub(crate) const LARGE_BYTES: u64 = 1_048_576;

/// How many bytes the large messages of all peers have together that are under way: 288 MiB, which is the greatest message that a peer may
/// send, of 256 MiB, and some others.
pub const MAX_UNDER_WAY_BYTES: u64 = 301_989_888;

/// How long a socket has to say who speaks, in milliseconds: its first 16 bytes, and of a peer the whole CONNECT.
pub(crate) const MAX_FRONT_MS: u64 = 5_000;

/// How long a client may say nothing, in milliseconds.
pub(crate) const MAX_CLIENT_SILENCE_MS: u64 = 600_000;

/// How long a peer may say nothing, in milliseconds.
pub(crate) const MAX_PEER_SILENCE_MS: u64 = 60_000;

/// How long a connection may take nothing of what waits for it, in milliseconds.
pub(crate) const MAX_STUCK_MS: u64 = 30_000;
