//! What holds of the configurations of every log.
ghost use Rattle.raft_membership.specs.Members.{OthersStay, ChangesAreWithin};

/// The configurations of a log are those of the log with one more entry that isn't a change that reads; and no change of
/// them is past the log's end, so that one at the next index may be pushed.
pub fn members_follow_logs()
    ensures others { OthersStay }
    ensures within { ChangesAreWithin }
{}
