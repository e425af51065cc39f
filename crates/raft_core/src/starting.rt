//! A node that starts with what its owner has kept.
ghost use Rattle.std.specs.Prelude.{◌≡◌, ◌<◌, ◌≤◌, ◌+◌, ◌-◌, [], true, suc, IfOk, length};
ghost use Rattle.raft_spec.specs.Account.{loaded};
ghost use Rattle.raft_spec.specs.Node.{others};
ghost use Rattle.raft_spec.specs.NodeValues.{IsCoherent, node_of};
ghost use Rattle.raft_spec.specs.Laws.{HasShortTerm};
ghost use Rattle.raft_spec.specs.Progress.{rows_for};
ghost use Rattle.raft_messages.specs.Servers.{IsConfiguration};
ghost use Rattle.raft_core.specs.Starting.{snapshot_in, stored_in};

use crate::event::StoredRaft;
use crate::membership::{copied, peer_ids, voter_ids};
use crate::node::RaftNode;
use crate::role::RaftRole;
use raft_log::{Log, Progress};
use raft_messages::{Entry, LogEnd, Server, Servers, VoteCore};
use std::alloc::{AllocError, Global};

// The end of a snapshot, if there is one; else 0 and 0.
fn end_of(snapshot: Option<LogEnd>) -> LogEnd
    ensures { result ≡ snapshot_in snapshot }
{
    match snapshot {
        Some(end) => end,
        None => LogEnd { index: 0, term: 0 },
    }
}

// The place before the first entry, if the log is compacted. Its term is described by the snapshot alone.
fn cut_before(first: u64, snapshot: LogEnd) -> LogEnd
    requires { 0 < first }
    ensures { result ≡ record { index = first - 1; term = snapshot.term } }
{
    LogEnd {
        index: first - 1,
        term: snapshot.term,
    }
}

// A log of these entries, compacted at a place.
fn log_of(alloc: Global, cut: LogEnd, entries: Vec<Entry>) -> Result<Log, AllocError>
    ensures { IfOk result (λ log. log ≡ record { first = cut; entries = entries.items }) }
{
    let mut log = Log::new(alloc, cut);
    log.append(entries)?;
    Ok(log)
}

// What a node knows of these servers at first.
fn progress_of(own: u64, voters: &[u64], peers: &[u64]) -> Progress
    requires few { length voters.now ≤ 7 }
    requires peers { length peers.now ≤ 9 }
    ensures { result ≡ record { own = own; voters = voters.now; rows = rows_for (others peers.now own) 1 [] } }
{
    let mut progress = Progress::new(&[], own, 1);
    progress.set_peers(voters, peers, 1);
    progress
}

impl RaftNode {
    /// The node of this id that starts with what its owner has kept: a follower that has applied its snapshot alone, with
    /// these servers. The kept entries are moved into it.
    ///
    /// Conditions: the servers may stand together; the log begins at 1 or later, at most one past the snapshot's end, and
    /// reaches at least that far.
    pub fn new(
        alloc: Global,
        id: u64,
        servers: &[Server],
        kept: StoredRaft,
    ) -> Result<RaftNode, AllocError>
        requires config { IsConfiguration servers.now }
        requires first { 0 < kept.first }
        requires low { kept.first ≤ suc (snapshot_in kept.snapshot).index }
        requires within { (snapshot_in kept.snapshot).index < kept.first + length kept.entries }
        ensures id { IfOk result (λ node. node.id ≡ id) }
        ensures coherent { IfOk result (λ node. IsCoherent node) }
        ensures short { IfOk result (λ node. HasShortTerm (node_of node)) }
        ensures node { IfOk result (λ node. node_of node ≡ loaded true servers.now (stored_in kept)) }
    {
        let snapshot = end_of(kept.snapshot);
        let commit = snapshot.index;
        let log = log_of(
            alloc,
            cut_before(kept.first, snapshot),
            kept.entries.into_vec(),
        )?;
        let voters = voter_ids(alloc, servers)?;
        let peers = peer_ids(alloc, servers, id)?;
        let servers = Servers::new(copied(alloc, servers)?);
        let progress = progress_of(id, voters.as_slice(), peers.as_slice());
        let votes = VoteCore::new(id, kept.term, kept.vote);
        let node = RaftNode {
            votes,
            log,
            role: RaftRole::Follower,
            leader: 0,
            commit,
            servers,
            voters,
            peers,
            progress,
            snapshot,
        };
        // It shows the prover what holds of the node.
        node.coherent();
        Ok(node)
    }
}
