//! The rules of one Raft node as definitions: logs, messages, the state of a node, its step, and the account of its
//! steps. The contracts of the code cite them, and so do the laws over all runs. Nothing here runs: a law is the
//! promise of an empty function.
#![tactic(auto)]

ghost use Rattle.raft_spec.specs.Laws.{AcceptTakes, CommitIsGreatest, CutTermsStayShort, SnapshotsCome, TermsStayShort};

/// A log that takes an Append's entries stays as it was up to the previous index, and has each of these entries after
/// it. If none of them conflicts with an old entry, all old entries stay, whatever follows; if one does, nothing
/// follows those that came.
pub fn accept_takes()
    ensures { AcceptTakes }
{}

/// A leader's commit index is exactly the greatest index that a majority of the voters has with an entry of the
/// leader's term; if none is greater than the old one, it stays.
#[tactic(auto, using(crate::proofs::Meanings::commit_is_greatest_holds))]
pub fn commit_is_greatest()
    ensures { CommitIsGreatest }
{}

/// Each step leaves to a node that leads or stands for election a term of at most 4,294,967,295.
pub fn terms_stay_short()
    ensures whole { TermsStayShort }
    ensures cut { CutTermsStayShort }
{}

/// Each step keeps the snapshot's end, or has that of the Install that came or of the snapshot that the owner kept.
pub fn snapshots_come()
    ensures { SnapshotsCome }
{}
