//! A node starts over its disk.

ghost use Rattle.std.specs.Prelude.{◌≡◌, ◌<◌, ◌≤◌, ◌+◌, ◌-◌, ◌++◌, suc, List, [], Some};
ghost use Rattle.std.specs.Prelude.{IfErr, IfOk, length, drop};
ghost use Rattle.segment_store.specs.Open.{Open};
ghost use Rattle.store_format.specs.FilesRead.{snap_kept, HasIndex};
ghost use Rattle.raft_spec.specs.Log.{Entry as EntryValue};
ghost use Rattle.raft_spec.specs.Node.{Server as ServerValue};
ghost use Rattle.raft_messages.specs.Servers.{IsConfiguration};
ghost use Rattle.raft_safety.specs.Members.{configuration};
ghost use Rattle.raft_membership.specs.Members.{AllStand, IsOf, all_changed, first_of, read_setup};
ghost use Rattle.store_format.specs.Starts.{CanStart};
ghost use Rattle.raft_on_disk.specs.Replicas.{kept_of};
ghost use Rattle.applied_state.specs.Applied.{HasNoPins};
ghost use Rattle.applied_state.specs.Snapshot.{IsRestored, snapshot_in, snapshot_value};
ghost use Rattle.node_spec.specs.Steps.{CompletesStart};
ghost use Rattle.node_core.specs.Conns.{HasNoPeers};
ghost use Rattle.node_core.specs.Core.{core_of};
ghost use Rattle.node_core.specs.ExactStart.{AppliesExactly, StartsExactly, kept_members};
ghost use Rattle.node_core.specs.Starting.{AppliesKept, HasStarted, IsUnread, ShowsFront};
ghost use Rattle.node_core.specs.Values.{seen};
ghost use Rattle.client_sessions.specs.Seen.{Agrees};
ghost use Rattle.node_core.specs.Whole.{Rests};

use crate::event::NodeSpec;
use crate::fault::StartFault;
use crate::laws::starts_stand;
use crate::links::Links;
use crate::outs::StepOutputs;
use crate::running::{Running, one_more};
use crate::view::{copied, starting_view};
use applied_state::Applied;
use client_sessions::Clients;
use raft_membership::Members;
use raft_messages::{Entry, Servers, Snapshot};
use raft_on_disk::{Outgoing, Replica};
use segment_store::{Kept, Store};
use session_gateway::View;
use std::alloc::{AllocError, Global};
use std::collections::VecDeque;

/// How many of Raft's events there is room for from the start.
const DUE_ROOM: usize = 4;

/// What the bytes of a node's snapshot up to an index bring; a fault if they are none.
fn restored(alloc: Global, index: u64, bytes: &[u8]) -> Result<Applied, StartFault>
    requires some { 0 < index }
    ensures restored { IfOk result (IsRestored index bytes.now) }
    ensures servers { IfOk result (λ applied. IsConfiguration applied.servers) }
    ensures unpinned { IfOk result (λ applied. HasNoPins applied.machine) }
    ensures front { IfOk result (ShowsFront index bytes.now) }
    ensures exact { IfOk result (λ applied. snapshot_in bytes.now ≡ Some (snapshot_value applied)) }
    ensures unread { IfErr result (IsUnread index bytes.now) }
{
    match Applied::from_snapshot(alloc, index, bytes)? {
        Some(applied) => Ok(applied),
        None => Err(StartFault::Snapshot(index)),
    }
}

/// What is applied of what was kept: the snapshot, or nothing.
#[tactic(auto, using(crate::proofs::ExactStarts::restored_applies, crate::proofs::ExactStarts::none_applies))]
fn applied_at_start(
    alloc: Global,
    opening: Servers,
    snapshot: &Option<Snapshot>,
) -> Result<Applied, StartFault>
    requires opening { IsConfiguration opening }
    requires index { HasIndex snapshot.now }
    ensures applies { IfOk result (AppliesKept opening (snap_kept snapshot.now)) }
    ensures exact { IfOk result (AppliesExactly opening (snap_kept snapshot.now)) }
    ensures unread { IfErr result (IsUnread (snap_kept snapshot.now).index (snap_kept snapshot.now).bytes) }
{
    match snapshot {
        Some(snapshot) => restored(alloc, snapshot.index, snapshot.bytes.as_slice()),
        None => Ok(Applied::new(alloc, opening)),
    }
}

/// The configurations of a log that is applied up to an index with these servers. Of its entries the first has the index
/// `first`, which is at most one more.
fn members_of(
    alloc: Global,
    servers: Servers,
    at: u64,
    first: u64,
    entries: &[Entry],
) -> Result<Members, AllocError>
    requires low { first ≤ suc at }
    requires within { at < first + length entries.now }
    ensures at { IfOk result (λ members. members.at ≡ at) }
    ensures stand { IsConfiguration servers → IfOk result AllStand }
    ensures exact { IfOk result (λ members. members ≡ all_changed (first_of servers at) (suc at) (drop (suc at - first) entries.now)) }
    ensures is { (opening : List ServerValue) (front : List EntryValue) → length front ≡ at → configuration (read_setup opening) front ≡ servers →
        IfOk result (IsOf (read_setup opening) (front ++ drop (suc at - first) entries.now)) }
{
    let mut members = Members::new(alloc, servers, at);
    let index = one_more(at)?;
    members.take_all(alloc, index, &entries[(index - first) as usize..])?;
    Ok(members)
}

/// The configurations of the log that was kept, of which this is applied.
fn members_at_start(alloc: Global, applied: &Applied, kept: &Kept) -> Result<Members, AllocError>
    requires log { CanStart kept.now }
    requires index { applied.now.index ≡ kept.now.snap.index }
    requires servers { IsConfiguration applied.now.servers }
    ensures at { IfOk result (λ members. members.at ≡ applied.now.index) }
    ensures stand { IfOk result AllStand }
    ensures exact { IfOk result (λ members. members ≡ kept_members applied.now.servers kept.now) }
    ensures is { (opening : List ServerValue) (front : List EntryValue) → length front ≡ kept.now.snap.index →
        configuration (read_setup opening) front ≡ applied.now.servers →
        IfOk result (IsOf (read_setup opening) (front ++ drop (suc kept.now.snap.index - kept.now.log.first) kept.now.log.entries)) }
{
    let servers = copied(alloc, applied.servers.as_slice())?;
    let entries = kept.entries.as_slice();
    members_of(alloc, servers, applied.index, kept.first, entries)
}

impl Running {
    /// A node over what was loaded.
    pub(crate) fn over(
        alloc: Global,
        spec: NodeSpec,
        store: Store,
        kept: Kept,
    ) -> Result<Running, StartFault>
        requires opening { IsConfiguration spec.servers }
        requires log { CanStart kept }
        ensures stands { IfOk result (λ node. CompletesStart (read_setup spec.servers) kept (seen node) node.replica.raft.servers) }
        ensures kept { IfOk result (λ node. kept_of node.replica ≡ kept) }
        ensures store { IfOk result (λ node. node.replica.store ≡ store) }
        ensures id { IfOk result (λ node. node.replica.raft.id ≡ spec.id) }
        ensures rests { IfOk result Rests }
        ensures agrees { IfOk result (λ node. Agrees [] node.clients node.applied.machine) }
        ensures keeps { IfOk result (λ node. node.replica.keeps ≡ 0) }
        ensures links { IfOk result (λ node. node.has_links ≡ spec.links) }
        ensures peers { IfOk result (HasNoPeers spec.links) }
        ensures exact { IfOk result (λ node. StartsExactly spec.id spec.links spec.readers spec.servers kept (core_of node)) }
        ensures unread { IfErr result (IsUnread kept.snap.index kept.snap.bytes) }
    {
        let NodeSpec {
            id,
            servers,
            links,
            readers,
            steps,
        } = spec;
        let mut applied = applied_at_start(alloc, servers, &kept.snapshot)?;
        applied.keep_whole()?;
        let members = members_at_start(alloc, &applied, &kept)?;
        let replica = Replica::start(alloc, id, members.current(), store, kept)?;
        let servers = copied(alloc, applied.servers.as_slice())?;
        let view = starting_view(alloc, id, servers, links, readers, steps, replica.view());
        starts_stand();
        Ok(Running::of_parts(alloc, replica, members, applied, view)?)
    }

    /// A node of these parts, to which no client has come.
    fn of_parts(
        alloc: Global,
        replica: Replica,
        members: Members,
        applied: Applied,
        view: View,
    ) -> Result<Running, AllocError>
        requires unpinned { HasNoPins applied.machine }
        ensures started { IfOk result (HasStarted replica members applied view) }
        ensures links { IfOk result (λ node. node.has_links ≡ view.links) }
        ensures peers { IfOk result (HasNoPeers view.links) }
    {
        let due = VecDeque::with_capacity(alloc, DUE_ROOM)?;
        let _databases = applied.machine.databases();
        Ok(Running {
            alloc,
            replica,
            members,
            applied,
            clients: Clients::new(alloc),
            links: Links::new(alloc),
            has_links: view.links,
            has_readers: view.readers,
            lent: Vec::new(alloc),
            view,
            office: None,
            due,
            heard: None,
            outs: StepOutputs::new(alloc),
            mail: Outgoing::new(alloc),
        })
    }
}
