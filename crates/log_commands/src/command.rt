use dq_base::{Items, Name, NumberedPage};

/// A replicated command: what a log entry does to the databases of a node.
#[derive(Debug, Drop)]
pub enum Command {
    /// Makes an empty database of this name, unless there is one.
    OpenDb {
        name: Name,
    },
    /// Pages of a transaction. They are with the transaction's earlier ones until the last of its commands commits
    /// them all. The fields may hold any numbers; `numbers_fit` says whether they are those of a command.
    Frames {
        name: Name,
        /// The number of the transaction.
        tx: u64,
        /// With `commit` the page count of the image after, the sizes page included; else to be 0.
        truncate: u32,
        /// Whether the transaction ends with these pages.
        commit: bool,
        /// To be 1 to 64 pages in ascending order; with `commit` the sizes page comes last, else there is none.
        pages: Items<NumberedPage>,
    },
    /// Drops the pages of this transaction that wait for its last ones, in whichever database.
    Undo {
        tx: u64,
    },
    /// Moves what no reader of the database still looks past into its base. No image changes.
    Checkpoint {
        name: Name,
    },
}
