//! What the files of a node represent, and what a crash at any moment of a call leaves of it. Nothing here runs: a law is
//! the promise of an empty function, over plain data and any way of reading bytes that is lawful.
#![tactic(auto)]

ghost use Rattle.disk_model.specs.SyncAll.{SyncAll};
ghost use Rattle.store_laws.specs.Names.{Name};
ghost use Rattle.store_laws.specs.Damage.{DamagePlaces};
ghost use Rattle.store_laws.specs.Laws.{SetMeta, SetMetaLong, Append, EmptyStale, MoreRoom};
ghost use Rattle.store_laws.specs.Load.{CutTail, RemoveBad, RemoveOlder, Load};
ghost use Rattle.store_laws.specs.Seen.{Seen};
ghost use Rattle.store_laws.specs.Snapshots.{KeepSnapshot, SnapshotLog, OlderLog};
ghost use Rattle.store_laws.specs.WholeLoad.{WholeLoad, WholeLoadSeen};
ghost use Rattle.store_laws.specs.Written.{MetaWritten, BatchWritten};

/// At any moment of keeping a term and a vote, each crash leaves the state before or the new one; after the last call
/// the disk is at rest, and each crash leaves the new one.
pub fn set_meta()
    ensures { SetMeta }
{}

/// A term and a vote in a metadata file that is longer than a block: it is written, synced, and only then truncated, so that nothing
/// old comes alive.
pub fn set_meta_long()
    ensures { SetMetaLong }
{}

/// At any moment of adding a batch, to a segment that is there or in a new one, each crash leaves the log before or the
/// new one; after the last call the new one.
pub fn append()
    ensures { Append }
{}

/// While a load syncs all files and the names, a crash leaves only what it might have left before; then all is at rest,
/// and reads as before.
pub fn sync_all()
    ensures { SyncAll Name }
{}

/// While a torn tail is truncated, and after it, each crash leaves what the files represented.
#[tactic(auto, using(crate::proofs::Repairs::cut_tail_holds))]
pub fn cut_tail()
    ensures { CutTail }
{}

/// This holds while a last segment without its first word is removed.
#[tactic(auto, using(crate::proofs::Removes::remove_bad_holds))]
pub fn remove_bad()
    ensures { RemoveBad }
{}

/// A log that the snapshot's term drops whole is emptied by a batch without entries in a new segment: the files stand
/// for the same at each moment, and a later batch then becomes the whole log.
pub fn empty_stale()
    ensures { EmptyStale }
{}

/// At any moment of a load, its syncs and then its repairs, a crash leaves what a load of some files that a crash might
/// have left before gives; after it each crash leaves what was read.
pub fn load()
    ensures { Load }
{}

/// The log while a snapshot is kept, over batches alone: after the new snapshot it is the log that stays, with at most
/// a longer old part, before the new batch, with it, and with older batches gone.
pub fn snapshot_log()
    ensures { SnapshotLog }
{}

/// Older segments go one by one, ascending: at any moment a crash leaves what the files without some of the oldest stand
/// for; then all of them are gone.
pub fn remove_older()
    ensures { RemoveOlder }
{}

/// Meanwhile the files represent the new snapshot and the log that stays, with at most a longer old part.
pub fn older_log()
    ensures { OlderLog }
{}

/// At any moment of keeping a snapshot, from the first write of its file to the removal of the last older one, each
/// crash leaves the state before, or the new snapshot and the log that stays with at most a longer old part; after the
/// last call exactly the new snapshot and that log.
pub fn keep_snapshot()
    ensures { KeepSnapshot }
{}

/// If no segment has a number or a greater one, a greater bound on the numbers says the same.
pub fn more_room()
    ensures { MoreRoom }
{}

/// While metadata is written, a batch added or a snapshot kept, what is read is at each moment what a crash may leave: so
/// if a call failed and no crash came, the disk may be loaded again.
pub fn calls_seen()
    ensures { Seen }
{}

/// This holds while a whole load continues, if it was so before.
pub fn load_seen()
    ensures { WholeLoadSeen }
{}

/// Where files are damaged, the damage has a place: a segment but the last, and in it the place from which nothing reads.
pub fn damage_places()
    ensures { DamagePlaces }
{}

/// After a term and a vote were kept, over a file of any length, their file holds what was written, which is the newest
/// metadata; the other files are as they were.
pub fn metadata_written()
    ensures { MetaWritten }
{}

/// After a batch was added it is at the end of its segment, after the format word where that is new; the other files
/// are as they were.
pub fn batch_written()
    ensures { BatchWritten }
{}

/// At any moment of a whole load, its syncs, its repairs, and the batch without entries where the snapshot drops the log,
/// a crash leaves what a load of some files that a crash might have left before gives; after it the disk is settled with
/// what was read, which each crash leaves.
pub fn whole_load()
    ensures { WholeLoad }
{}
