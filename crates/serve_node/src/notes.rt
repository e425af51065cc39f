//! What is reported of a served node to whoever runs it.

use node_core::StartFault;

/// What there is to tell.
#[derive(Clone, Copy, Debug, PartialEq, Eq)]
pub enum Note<'a> {
    /// The node of this id listens at an address.
    Listens {
        /// Its id.
        id: u64,
        /// The address.
        address: &'a str,
    },
    /// The node leads.
    Leads {
        /// Its term.
        term: u64,
    },
    /// The node follows.
    Follows {
        /// Its term.
        term: u64,
        /// The leader's id.
        leader: u64,
    },
    /// Nine tenths of the indexes that a log may have are used up.
    FillsUp {
        /// The last index of the node's log.
        last: u64,
    },
    /// The node doesn't start, since its files aren't those of a node.
    Unread {
        /// Why.
        fault: StartFault,
    },
}

/// Where notes go. Nothing of a node depends on what becomes of them.
pub trait Notes: Drop {
    /// Takes a note.
    fn note(&mut self, note: Note<'_>);
}
