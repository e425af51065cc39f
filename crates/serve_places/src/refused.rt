//! Connections that were not taken.

/// How many connections were closed before they were any, by their cause.
#[derive(Clone, Copy, Debug, PartialEq, Eq)]
pub struct Refused {
    /// Of clients, as many being there as there may be.
    pub clients: u64,
    /// With a CONNECT that is too long, or not one of those that are taken.
    pub strangers: u64,
}

impl Refused {
    /// None was closed.
    pub(crate) fn new() -> Refused {
        Refused {
            clients: 0,
            strangers: 0,
        }
    }

    /// A client more was closed.
    pub(crate) fn count_client(&mut self) {
        self.clients = self.clients.saturating_add(1);
    }

    /// A stranger more was closed.
    pub(crate) fn count_stranger(&mut self) {
        self.strangers = self.strangers.saturating_add(1);
    }
}
