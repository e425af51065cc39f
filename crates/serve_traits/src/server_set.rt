//! A set of servers.

/// Servers by their ids. It holds ids below 64 alone, of which a cluster has at most nine.
#[derive(Clone, Copy, Debug, PartialEq, Eq)]
pub struct ServerSet {
    bits: u64,
}

impl ServerSet {
    /// No server.
    pub fn new() -> ServerSet {
        ServerSet { bits: 0 }
    }

    /// The set that `bits` gave.
    pub fn from_bits(bits: u64) -> ServerSet {
        ServerSet { bits }
    }

    /// The set as one word, in which each id has its bit.
    pub fn bits(self) -> u64 {
        self.bits
    }

    /// With this server too. One whose id is 64 or more is left out.
    pub fn with(self, id: u64) -> ServerSet {
        if id >= 64 {
            return self;
        }
        ServerSet {
            bits: self.bits | 1 << id,
        }
    }

    /// Whether it has no server.
    pub fn is_empty(self) -> bool {
        self.bits == 0
    }

    /// Whether it has more than half of these servers.
    pub fn has_majority_of(self, all: ServerSet) -> bool {
        2 * (self.bits & all.bits).count_ones() > all.bits.count_ones()
    }
}
