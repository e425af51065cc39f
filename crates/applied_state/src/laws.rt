//! What holds of leaderships in every life, and of snapshots.

ghost use Rattle.applied_state.specs.Laws.{LivesAreShown, OfficesGoOn, OfficesStay, SnapshotsRead, SnapshotsAreSpelled, BothFormsAreSpelled};

use sql_engine::Engine;

/// What a node has applied of its log shows the databases of its life, except for what counts lack since it began at a
/// snapshot.
pub fn lives_are_shown()
    ensures { LivesAreShown }
{}

/// What a leader owes fits its life: if its life is that of a leader in a leadership, and it has applied an entry, then the
/// events by which it appends what it owes and begins to serve may happen, and its life is that of a leader in the leadership
/// after them. So it serves only if its barrier is applied, all of its log with it, and no page is pending.
pub fn offices_go_on<E: Engine>()
    ensures { (kind : _) → OfficesGoOn (E.meaning kind) kind }
{}

/// Requests, connections that come and go, and entries that are applied leave a leader in its leadership: one that doesn't serve
/// appends nothing by them.
pub fn offices_stay()
    ensures { OfficesStay }
{}

/// Bytes are read as a node's snapshot exactly if they are one, with a format word or without.
pub fn snapshots_read_back()
    ensures read { SnapshotsRead }
    ensures spelled { SnapshotsAreSpelled }
    ensures forms { BothFormsAreSpelled }
{}
