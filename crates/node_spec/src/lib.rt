//! What a whole node is, as a value, and what its step, its start and its stop have to show, so that runs of nodes are clusters
//! whose acts fit. Nothing here runs.
#![tactic(auto)]

ghost use Rattle.node_spec.specs.Accounts.{BeginsOn, GoesBegins, GoesOn, GoesToEnd, NothingGoes, SentOn, StopsBetween, StopsWithin};
ghost use Rattle.node_spec.specs.Changes.{ChangesAreProposed, JoinsStand, LeavesStand, RolesStand, VotersAreNear};
ghost use Rattle.node_spec.specs.ClientTurns.{ApplyingGoes, ConnectingGoes, EndedStay, HangingGoes, HearingGoes, ReadingBegins, ResumingGoes, ServingGoes, StayingGoes};
ghost use Rattle.node_spec.specs.Nodes.{FirstStands};
ghost use Rattle.node_spec.specs.RaftTurns.{AllIsKept, EndsOn, FollowingGoes, InstallGoes, LeavingGoes, ProposalsTaken, RestingServers, SnapshotGoes, StopLeaves};
ghost use Rattle.node_spec.specs.Snapshots.{SnapshotsCome, SnapshotsStay, SnapshotsTaken};
ghost use Rattle.node_spec.specs.Steps.{FixedCounts, FixedTells, MembersKnown, StartsFit, StepsFit, StopsFit};
ghost use Rattle.node_spec.specs.Turns.{HandlingGoes, LatersMayPropose, OwingGoes, ProposalGoes, RequestsMayPropose};
ghost use Rattle.node_spec.specs.Voting.{ChangeStops, ChangeTells, CompactTells, FollowTells, InstallTells, LeadersOwn, PlainStops, RestTells, StartCounts, TellsOn, TellsToEnd, TellsToStop};

use sql_engine::Engine;

/// A node that has kept nothing represents Raft's first node and a life that begins.
pub fn first_nodes_stand()
    ensures { FirstStands }
{}

/// If a node's step shows its clauses, its events are acts that fit, and what it represents continues: an event that ended
/// well, one that failed or was stopped, and a start.
pub fn nodes_make_acts<E: Engine>()
    ensures steps { (kind : _) → StepsFit (E.meaning kind) kind }
    ensures stops { (kind : _) → StopsFit (E.meaning kind) kind }
    ensures starts { (kind : _) → StartsFit (E.meaning kind) kind }
{}

/// With fixed voters the clauses on voters hold of each event in which the node gives itself no others. With voters that change
/// the configuration of a whole log is known from the snapshot's and the entries that the node holds.
pub fn voters_are_told()
    ensures tells { FixedTells }
    ensures counts { FixedCounts }
    ensures members { MembersKnown }
{}

/// Stretches of an event in which a node is given its voters join, and show what is asked of a whole event, or of one that is
/// stopped in further steps.
pub fn told_voters_join()
    ensures on { TellsOn }
    ensures ends { TellsToEnd }
    ensures stops { TellsToStop }
{}

/// Each turn of a node is a stretch of an event, with voters that change: one without a step of Raft; a step after which the
/// configurations follow the log; a change that a leader tells and then proposes; a snapshot that comes; and an own one.
pub fn turns_tell_voters()
    ensures rest { RestTells }
    ensures follow { FollowTells }
    ensures change { ChangeTells }
    ensures install { InstallTells }
    ensures compact { CompactTells }
{}

/// A turn that is stopped in one of its steps was told its voters too: by what was before it alone.
pub fn stopped_turns_tell_voters()
    ensures plain { PlainStops }
    ensures change { ChangeStops }
{}

/// A leader moves its commit index to entries of its own term alone. So one that has committed past the log with which it was elected
/// owns the entry at its commit index while it leads that term, as has to be so if it proposes a change.
pub fn leaders_own_commits()
    ensures { LeadersOwn }
{}

/// A node that starts counts by the configurations of the log after its snapshot, and was given the current one.
pub fn starts_tell_voters()
    ensures { StartCounts }
{}

/// Where servers may stand together and one change was let pass, those after it may, and their voters differ in one at most, so
/// that a leader may propose it if its node has applied every earlier change and the barrier of its term. That the address of a
/// server that joins holds no NUL is asked of the request.
pub fn one_change_stands()
    ensures joins { JoinsStand }
    ensures roles { RolesStand }
    ensures leaves { LeavesStand }
    ensures near { VotersAreNear }
    ensures proposed { ChangesAreProposed }
{}

/// After each step of an event it is known of which front of the log a node's snapshot is, and by which bytes: those that it had,
/// if the step leaves the snapshot, those that came, if a message has one put in place, and those of an own snapshot, which is
/// of the log up to an applied index. So its configuration is known.
pub fn snapshots_are_known()
    ensures stay { SnapshotsStay }
    ensures come { SnapshotsCome }
    ensures taken { SnapshotsTaken }
{}

/// Stretches of an event join: if each turn of a node shows its own, so does the whole. A reader may have told a reply in the
/// first one.
pub fn stretches_join<E: Engine>()
    ensures on { (kind : _) → GoesOn (E.meaning kind) kind }
    ensures nothing { (kind : _) → NothingGoes (E.meaning kind) kind }
    ensures begins { (kind : _) → GoesBegins (E.meaning kind) kind }
    ensures further { (kind : _) → BeginsOn (E.meaning kind) kind }
    ensures sent { SentOn }
{}

/// What happened up to a moment is what an event shows that ends there, or that is stopped there or in the step of one input more.
pub fn stretches_end<E: Engine>()
    ensures ends { (kind : _) → GoesToEnd (E.meaning kind) kind }
    ensures between { (kind : _) → StopsBetween (E.meaning kind) kind }
    ensures within { (kind : _) → StopsWithin (E.meaning kind) kind }
{}

/// What a node does for its clients are stretches: a request that is handled, a query that is answered later, connections that come
/// and go, and what they ask.
pub fn clients_turn<E: Engine>()
    ensures stays { (kind : _) → StayingGoes (E.meaning kind) kind }
    ensures connects { (kind : _) → ConnectingGoes (E.meaning kind) kind }
    ensures leaves { (kind : _) → HangingGoes (E.meaning kind) kind }
    ensures hears { (kind : _) → HearingGoes (E.meaning kind) kind }
    ensures handles { (kind : _) → HandlingGoes (E.meaning kind) kind }
    ensures resumes { (kind : _) → ResumingGoes (E.meaning kind) kind }
    ensures reads { (kind : _) → ReadingBegins (E.meaning kind) kind }
{
    session_spec::counts_restart();
}

/// The outcome of a request, or of a query that is run later than it was asked, may be proposed by a leader, and who serves is one: it is numbered by
/// the log's end, which has room, or has no pages.
pub fn proposals_fit()
    ensures requests { RequestsMayPropose }
    ensures later { LatersMayPropose }
{}

/// An entry that is applied is a stretch; without a leadership it changes nothing at the sessions. What a leader then does is one too: it takes
/// the first proposal that is due into its log, owes its own entries, and begins to serve.
pub fn logs_turn<E: Engine>()
    ensures applies { (kind : _) → ApplyingGoes (E.meaning kind) kind }
    ensures ended { EndedStay }
    ensures proposes { (kind : _) → ProposalGoes (E.meaning kind) kind }
    ensures owes { (kind : _) → OwingGoes (E.meaning kind) kind }
    ensures serves { (kind : _) → ServingGoes (E.meaning kind) kind }
{}

/// Raft's turns are stretches too: a step that leaves the log, as one in which Raft is given servers; a message, a timeout or a heartbeat, by
/// which term and leadership may change and others change the log; a snapshot that comes; and an own one.
pub fn raft_turns<E: Engine>()
    ensures leaves { (kind : _) → LeavingGoes (E.meaning kind) kind }
    ensures follows { (kind : _) → FollowingGoes (E.meaning kind) kind }
    ensures installs { (kind : _) → InstallGoes (E.meaning kind) kind }
    ensures snapshots { (kind : _) → SnapshotGoes (E.meaning kind) kind }
{
    applied_state::snapshots_read_back();
}

/// What is kept of Raft's part is what a moment asks; a node at rest that counts by its configurations has the applied one, as an own
/// snapshot wants it; a leader's step of what is due is a proposal that is taken; and what a stop within a step leaves is one of three
/// states: that before it, that with the new term and vote, or that after it.
pub fn raft_steps_are_kept()
    ensures kept { AllIsKept }
    ensures servers { RestingServers }
    ensures proposals { ProposalsTaken }
    ensures stops { StopLeaves }
{
    applied_state::snapshots_read_back();
}

/// Sessions in which nothing is open nor pending, so that a lost leadership changes nothing at them and is told nobody: at a start,
/// after a lost leadership, and while the node doesn't serve.
pub fn ended_sessions_stay()
    ensures { EndsOn }
{}
