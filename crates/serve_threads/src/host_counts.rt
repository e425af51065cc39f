ghost use Rattle.std.specs.Prelude.{◌≡◌};

/// How many times a host listened, and how many workers it took.
#[derive(Clone, Copy, Debug, PartialEq, Eq)]
pub struct HostCounts {
    /// The listens that succeeded.
    pub listens: u64,
    /// The workers that were taken.
    pub workers: u64,
}

impl HostCounts {
    /// Nothing was done.
    pub fn new() -> HostCounts
        ensures { result ≡ record { listens = 0; workers = 0 } }
    {
        HostCounts {
            listens: 0,
            workers: 0,
        }
    }
}
