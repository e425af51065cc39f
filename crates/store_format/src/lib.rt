//! How the files of a node are encoded, in each of their formats: their sums, metadata, snapshots and batches; and what the files
//! represent, read one after another.
#![tactic(auto)]

mod batch_reading;
mod batch_writing;
mod fault;
mod files;
mod kept;
mod log;
mod metadata;
mod segment;
mod segment_log;
mod snapshot;
mod sums;
mod word_sums;
mod words;

ghost use Rattle.store_format.specs.BatchesWritten.{BatchesReadBack};
ghost use Rattle.store_format.specs.Files.{ReadsLawfully};
ghost use Rattle.store_format.specs.NodeFormat.{IsLawful};
ghost use Rattle.store_format.specs.SegmentLog.{SegmentsAreRead};
ghost use Rattle.store_format.specs.Sums.{FindsChangedWords};
ghost use Rattle.store_format.specs.Written.{MetadataReadsBack, SnapshotReadsBack};

pub use batch_reading::{FoundBatch, read_batch};
pub use batch_writing::batch_bytes;
pub use fault::FilesFault;
pub use files::FilesRead;
pub use kept::Kept;
pub use metadata::{Metadata, metadata_bytes, read_metadata};
pub use segment_log::{Damage, LastSegment};
pub use snapshot::{SnapshotFile, read_snapshot, snapshot_head, snapshot_tail};
pub use sums::{crc32, sum8};
pub use word_sums::word_sum;
pub use words::format_in;

/// With any lawful way of reading batches, the files of a node are read lawfully: a front of a file that is long enough
/// says the same as the file, a metadata file and a snapshot are read whole or not at all, and versions go to their
/// files by parity.
#[tactic(auto, using(crate::proofs::Lawfully::reads_lawfully))]
pub fn reads_lawfully()
    ensures { ReadsLawfully }
{}

/// The sum over words differs wherever bytes differ from as many others within one aligned word alone: no changed bits of
/// one word, and no word that was written in part, is missed.
#[tactic(auto, using(crate::proofs::ChangedWords::finds_changed_words))]
pub fn finds_changed_words()
    ensures { FindsChangedWords }
{}

/// Metadata that is written has 40 bytes, and the file of its version's parity reads as it.
pub fn metadata_reads_back()
    ensures { MetadataReadsBack }
{}

/// A snapshot that is written reads as it, in the file of its index.
pub fn snapshot_reads_back()
    ensures { SnapshotReadsBack }
{}

/// The files of a node are read lawfully, batches included: a batch lies within the bytes, and its own bytes read as it,
/// whatever follows.
#[tactic(auto, using(crate::proofs::BatchesLawful::is_lawful))]
pub fn is_lawful()
    ensures { IsLawful }
{}

/// A batch that is written reads as it, after the first word of a segment.
pub fn batches_read_back()
    ensures { BatchesReadBack }
{}

/// What is read of segments, in turn, is what their files represent: the log, the first damage with its place, and the
/// last one.
pub fn segments_are_read()
    ensures { SegmentsAreRead }
{}
