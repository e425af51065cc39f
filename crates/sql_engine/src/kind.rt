/// A kind of engine. What a statement means is up to the kind alone.
#[derive(Clone, Copy, Debug, PartialEq, Eq)]
pub enum EngineKind {
    /// Statements are SQL, and the image is the pair of files of SQLite.
    Sqlite,
    /// Statements set, read and wipe cells, of which each page of the main file holds one.
    Cells,
}
