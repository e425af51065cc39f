/// A statement of cells. Pages are those of the main file, from 1 on.
#[derive(Clone, Copy, Debug, PartialEq, Eq)]
pub enum CellStatement {
    /// `SET page value`: the cell of the page holds the value.
    Set { page: u64, value: u64 },
    /// `GET page`: the value of the cell.
    Get { page: u64 },
    /// `WIPE pages`: the main file is truncated to this many pages.
    Wipe { pages: u64 },
}
