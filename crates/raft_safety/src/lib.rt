//! The safety of Raft over every list of events, while the voters change one at a time: timeouts, heartbeats, requests,
//! transfers, snapshots, other servers, takings of any message ever made, as often as one likes, crashes and starts,
//! and stops at any act of an event. Nothing here runs: each law is the promise of an empty function.
#![tactic(auto)]

ghost use Rattle.std.specs.Prelude.{List};
ghost use Rattle.raft_spec.specs.Log.{Entry};
ghost use Rattle.raft_safety.specs.Chosen.{CutsApplied, WholeLogs, AppliedChosen, ChosenGrows, SnapshotsChosen};
ghost use Rattle.raft_safety.specs.Commits.{LeaderCommit, CurrentVotersCommit, OtherCommit, AloneCommits};
ghost use Rattle.raft_safety.specs.Cuts.{ForgetsNothing, CutSteps, FixedTold};
ghost use Rattle.raft_safety.specs.Examples.{LeaderCommits, FourthJoins, InstallServes, OlderEntryWaits, OlderEntryGoes, OlderTermsDontCount, OfficePasses, StopsKeep, LeadsMidway};
ghost use Rattle.raft_safety.specs.Laws.{OneLeader, LogsAgree, LeadersComplete, AppliedAgree, NextVoters};
ghost use Rattle.raft_safety.specs.Lost.{NoneLost};
ghost use Rattle.raft_safety.specs.Midways.{OneLeaderThen, OneLeaderMidway, LeadersShort, LeadersShortMidway};
ghost use Rattle.raft_safety.specs.Members.{FixedServers, FixedProposals};
ghost use Rattle.raft_safety.specs.Properties.{LogsHave, LogsMidwayHave, AppliedHas};
ghost use Rattle.raft_safety.specs.Sources.{EntriesLed, MessagesLed, LeadersAdd, LeadersKeep, SnapshotFronts, AppliedKept};
ghost use Rattle.raft_safety.specs.Stages.{WholeAccount, StopsBefore, StopsAtMeta, StopsAtLog};
ghost use Rattle.raft_safety.specs.Standing.{AppliedStays, AnsweredStays, EventsChosen, BarrierPast};

/// At most one node ever leads a term: at any two moments between events, and after any steps of an event that are
/// kept, and any of a later one.
pub fn one_leader()
    ensures between { OneLeader }
    ensures then { OneLeaderThen }
    ensures midway { OneLeaderMidway }
{}

/// A leader's term is at most 4,294,967,295, between the steps of an event too.
pub fn leaders_short()
    ensures between { LeadersShort }
    ensures midway { LeadersShortMidway }
{}

/// Two logs that have the same term at an index, at any two moments, agree up to it.
#[tactic(auto, using(crate::proofs::Laws::logs_agree_holds))]
pub fn logs_agree()
    ensures { LogsAgree }
{}

/// What a node applied is in the log of every later leader of its term or a greater one.
pub fn leaders_complete()
    ensures { LeadersComplete }
{}

/// What a node applied in an event, also in a stopped one, is in the log of every later leader of its term then
/// or a greater one.
pub fn applied_stays()
    ensures { AppliedStays }
{}

/// What a leader has applied is in the log of every later leader of its term or a greater one: so do the commits
/// that it answers.
pub fn answers_stay()
    ensures { AnsweredStays }
{}

/// What two nodes have applied is the same, as far as both have.
#[tactic(auto, using(crate::proofs::Laws::applied_agree_holds))]
pub fn applied_agree()
    ensures { AppliedAgree }
{}

/// What a node has applied is the front of the chosen entries, which only grow.
#[tactic(auto, using(crate::proofs::Chosens::applied_chosen_holds, crate::proofs::Chosens::chosen_grows_holds))]
pub fn one_list()
    ensures applied { AppliedChosen }
    ensures grows { ChosenGrows }
{}

/// What an event applied, also a stopped one, is the front of the chosen entries.
pub fn events_chosen()
    ensures { EventsChosen }
{}

/// The chosen entries up to an applied index, as its snapshot's, and then the node's entries, are its whole log.
pub fn whole_logs()
    ensures logs { WholeLogs }
    ensures cuts { CutsApplied }
{}

/// Each snapshot, kept or in a message, represents a front of the chosen entries, so an Install applies no entry first.
pub fn snapshots_chosen()
    ensures { SnapshotsChosen }
{}

/// Each snapshot, kept or in a message, represents that very front of the chosen entries: so its state is that of the
/// list.
pub fn snapshot_fronts()
    ensures { SnapshotFronts }
{}

/// Each step of an event keeps the entries that its node had applied.
pub fn applied_kept()
    ensures { AppliedKept }
{}

/// After each step a leader's commit index is exactly the greatest that a majority of the voters has with an entry of
/// its term, or stays: whatever gives the voters by a log, and so in the world, by the last configuration in its log.
/// Only a step that gives it other servers leaves it in any case. Another node's is moved by an Append or an Install
/// alone, and a leader that is the only voter commits what it proposes in the same step.
pub fn exact_commit()
    ensures leader { LeaderCommit }
    ensures current { CurrentVotersCommit }
    ensures other { OtherCommit }
    ensures alone { AloneCommits }
{}

/// A barrier that its leader applies is past all that any node had applied before it was appended.
pub fn barrier_past()
    ensures { BarrierPast }
{}

/// No message ever made is one that the rules don't provide for: an Append or Install at a leader of its term, an Append
/// that replaces an entry at or below the commit index, a good Ack past the leader's log.
pub fn none_lost()
    ensures { NoneLost }
{}

/// Each entry in a node's log or in a message, and all before it, was in the log of a leader of its term, after an
/// earlier step of the run.
#[tactic(auto, using(crate::proofs::Leds::entries_led_hold, crate::proofs::Leds::messages_led_hold))]
pub fn entries_led()
    ensures logs { EntriesLed }
    ensures messages { MessagesLed }
{}

/// A step after which a node leads only adds its own entries at the end of its log: a barrier, or what is proposed.
#[tactic(auto, using(crate::proofs::Leds::leaders_keep_hold))]
pub fn leaders_add()
    ensures adds { LeadersAdd }
    ensures keeps { LeadersKeep }
{}

/// A property of logs.
pub trait LogProperty {
    /// The logs that have it.
    ghost holds: { List Entry → Type 0 };
}

/// A property that every front of a log with it has too, and that each proposal at a leader keeps, is had by every log
/// of every node, after each event and after each step of one, and by all that was applied.
#[tactic(auto, using(crate::proofs::Properties::logs_have_holds, crate::proofs::Properties::logs_midway_have_holds, crate::proofs::Properties::applied_has_holds))]
pub fn properties_stay<P: LogProperty>()
    ensures logs { LogsHave P.holds }
    ensures midway { LogsMidwayHave P.holds }
    ensures applied { AppliedHas P.holds }
{}

/// The voters before and after each entry of a log are the same, or one has one more.
pub fn next_voters()
    ensures { NextVoters }
{}

/// If no configuration reads, the opening one is that of every log, and every proposal may be made: so each law
/// speaks of fixed voters too.
pub fn fixed_voters()
    ensures servers { FixedServers }
    ensures proposals { FixedProposals }
    ensures told { FixedTold }
{}

/// A node that has compacted its log makes the steps of the one that has not: the rules read nothing that is compacted.
pub fn cut_steps()
    ensures nothing_lost { ForgetsNothing }
    ensures same_steps { CutSteps }
{}

/// The whole account of an event leaves what its node has stored; a stop between two steps leaves what the first left,
/// one after a step's metadata the new term and vote over the old log, one after its batch or snapshot the new log.
pub fn stop_stages()
    ensures whole { WholeAccount }
    ensures before { StopsBefore }
    ensures meta { StopsAtMeta }
    ensures log { StopsAtLog }
{}

/// A run: a leader is elected and commits its barrier and a request, a fourth voter joins, and after a snapshot the
/// fourth gets an Install, with which it is counted; then the leader hands its leadership over. So no law is empty.
pub fn a_run_is_made()
    ensures elected { LeaderCommits }
    ensures joined { FourthJoins }
    ensures installed { InstallServes }
    ensures passed { OfficePasses }
{}

/// Five nodes, of which three have an entry of an older term: its leader has committed nothing by that, and a later
/// leader replaces the entry.
pub fn older_terms_wait()
    ensures waits { OlderEntryWaits }
    ensures goes { OlderEntryGoes }
    ensures counts { OlderTermsDontCount }
{}

/// Stops inside a step: what was kept by then stands, and a node may lead between two steps of an event alone.
pub fn stops_are_made()
    ensures kept { StopsKeep }
    ensures midway { LeadsMidway }
{}
