use crate::segment_log::Damage;
use thiserror::Error;

/// Why the files of a node represent no state. Of several causes the first one here that holds is answered.
#[derive(Clone, Copy, Debug, PartialEq, Eq, Error)]
pub enum FilesFault {
    /// A batch or a snapshot is without valid metadata.
    #[error("a batch or a snapshot stands without metadata")]
    NoMeta,
    /// A segment that isn't the last one doesn't read to its end.
    #[error("a segment is damaged")]
    Damaged(Damage),
    /// The log begins at the first number, which is past the snapshot's index, the second, and one more.
    #[error("entries are missing between the snapshot and the log")]
    Gap(u64, u64),
}
