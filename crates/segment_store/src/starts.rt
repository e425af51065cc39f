//! What a start finds, wherever a call of the store or an earlier start was stopped or failed.
//!
//! Each law speaks of a disk as that call left it, with this many starts after it whose loads were stopped or failed, each of
//! them maybe after a crash, and of one load more. No checksum matches by chance in what these loads read.
ghost use Rattle.segment_store.specs.Restarts.{OldOrNewStarts, OldOrKeptStarts, KeptStarts, LoadStarts};

/// After a failed or stopped `set_meta` or `append` a start finds the state before the call or the new one. If its own
/// load fails or is stopped a later start does; it never reports damage, a gap or missing metadata.
pub fn old_or_new_starts()
    ensures { OldOrNewStarts }
{}

/// After a failed or stopped `keep_snapshot` a start finds the state before the call, or the new snapshot with the log that
/// was given or with a longer old part of it. If its own load fails or is stopped a later start does; it never reports
/// damage, a gap or missing metadata.
pub fn old_or_kept_starts()
    ensures { OldOrKeptStarts }
{}

/// Between two calls of an open store, and after its last one, a start finds exactly what is kept.
pub fn kept_starts()
    ensures { KeptStarts }
{}

/// After loads alone that failed or were stopped a start answers what it would have answered before the first of them, or
/// what one of the crashes in between could have made of that.
pub fn load_starts()
    ensures { LoadStarts }
{}
