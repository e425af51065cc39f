//! A node's snapshot, both ways.

ghost use Rattle.std.specs.Prelude.{◌≡◌, ◌++◌, ℕ, List, drop, length, Some, IfOk};
ghost use Rattle.std.specs.Option.{option_map};
ghost use Rattle.database_state.specs.Databases.{contents_of};
ghost use Rattle.database_state.specs.Machines.{names_of};
ghost use Rattle.database_state.specs.Restoring.{snapshot_of};
ghost use Rattle.database_state.specs.Snapshot.{snapshot_text};
ghost use Rattle.raft_spec.specs.Log.{Entry as EntryValue};
ghost use Rattle.raft_spec.specs.Node.{Server as ServerValue};
ghost use Rattle.raft_messages.specs.Servers.{IsConfiguration, servers_bytes, WritesServers};
ghost use Rattle.session_spec.specs.Machine.{machine_of};
ghost use Rattle.applied_state.specs.Applied.{HasApplied};
ghost use Rattle.applied_state.specs.Reading.{contents_read};
ghost use Rattle.wire_words.specs.Items.{word};
ghost use Rattle.applied_state.specs.Snapshot.{snapshot_value, SpellsSnapshot, snapshot_format, has_format, snapshot_body, snapshot_bytes, snapshot_in, with_databases, IsBehind, IsRestoredIf, IsSameIf, HasNoPinsIf, HasAppliedIf, contents_in, offered_to, made_by, commits_of};

use crate::applied::Applied;
use crate::reading::{machine_in, servers_in};
use byteorder::{ByteOrder, LittleEndian};
use database_state::Machine;
use raft_messages::{Server, Servers, write_servers};
use std::alloc::{AllocError, Global};
use wire_words::{WireBytes, Writer};

/// The first word of a node's snapshot. A snapshot without it begins with the number of its servers, at most 9.
const SNAPSHOT_FORMAT: u64 = 258;

/// What is left of bytes after this many; nothing if there are fewer.
fn rest(bytes: &[u8], count: u64) -> &[u8]
    ensures { result.now ≡ drop count bytes.now }
{
    let count = count as usize;
    &bytes[count.min(bytes.len())..]
}

/// Whether bytes begin with the format word.
fn has_format(bytes: &[u8]) -> bool
    ensures { result ≡ has_format bytes.now }
{
    bytes.len() >= 8 && LittleEndian::read_u64(bytes) == SNAPSHOT_FORMAT
}

/// What follows the format word, if there is one.
#[tactic(auto, unfolding(crate::specs::Snapshot::snapshot_body))]
fn body(bytes: &[u8]) -> &[u8]
    ensures { result.now ≡ snapshot_body bytes.now }
{
    if has_format(bytes) {
        rest(bytes, 8)
    } else {
        bytes
    }
}

fn format_word(alloc: Global) -> Result<Vec<u8>, AllocError>
    ensures { IfOk result (λ bytes. bytes.items ≡ word snapshot_format) }
{
    let mut out = Writer::new(alloc);
    out.word(SNAPSHOT_FORMAT)?;
    Ok(out.finish().into_vec())
}

/// What is applied at the index of a snapshot of these servers, if the bytes after them are a state machine's snapshot.
fn behind(
    alloc: Global,
    index: u64,
    servers: Servers,
    bytes: &[u8],
) -> Result<Option<Applied>, AllocError>
    ensures exact { IfOk result (λ read. option_map snapshot_value read ≡ with_databases servers (contents_read (snapshot_of bytes.now))) }
    ensures found { IfOk result (IsBehind index servers bytes.now) }
{
    match machine_in(alloc, bytes)? {
        Some(machine) => Ok(Some(Applied {
            machine,
            servers,
            index,
        })),
        None => Ok(None),
    }
}

/// A configuration as bytes, which are one.
#[tactic(auto, using(crate::proofs::Snapshots::writes_itself))]
fn configuration(alloc: Global, servers: &[Server]) -> Result<WireBytes, AllocError>
    requires { IsConfiguration servers.now }
    ensures bytes { IfOk result (λ bytes. bytes ≡ servers_bytes servers.now) }
    ensures writes { IfOk result (λ _. WritesServers servers.now (servers_bytes servers.now)) }
{
    write_servers(alloc, servers)
}

/// The format word and a configuration.
fn front(alloc: Global, servers: &[Server]) -> Result<Vec<u8>, AllocError>
    requires { IsConfiguration servers.now }
    ensures bytes { IfOk result (λ bytes. bytes.items ≡ word snapshot_format ++ servers_bytes servers.now) }
    ensures writes { IfOk result (λ _. WritesServers servers.now (servers_bytes servers.now)) }
{
    let mut bytes = format_word(alloc)?;
    let servers = configuration(alloc, servers)?;
    bytes.extend_from_slice(servers.as_slice())?;
    Ok(bytes)
}

/// The snapshot of these servers and databases.
#[tactic(auto, using(crate::proofs::Snapshots::joined_bytes, crate::proofs::Snapshots::joined_spelled))]
fn spelled(alloc: Global, machine: &Machine, servers: &[Server]) -> Result<WireBytes, AllocError>
    requires { IsConfiguration servers.now }
    ensures spelled { IfOk result (SpellsSnapshot (record { servers = servers.now; contents = contents_of machine.now })) }
    ensures exact { IfOk result (λ bytes. bytes ≡ snapshot_bytes servers.now (contents_of machine.now)) }
{
    let mut bytes = front(alloc, servers)?;
    machine.snapshot_into(&mut bytes)?;
    Ok(WireBytes::new(bytes))
}

impl Applied {
    /// What a node has applied at a snapshot of this index, of which these are the bytes: servers, and databases that had no
    /// commits since and have no live marks. `None` exactly if the bytes are no node's snapshot, which is a format
    /// word, a configuration and the snapshot of the databases, and nothing else; older ones lack the word.
    ///
    /// Each log in it is read once, and its pages are written once more to be compared.
    #[tactic(auto, using(crate::proofs::Snapshots::reads_parts, crate::proofs::Snapshots::reads_nothing))]
    pub fn from_snapshot(
        alloc: Global,
        index: u64,
        bytes: &[u8],
    ) -> Result<Option<Applied>, AllocError>
        ensures exact { IfOk result (λ read. option_map snapshot_value read ≡ snapshot_in bytes.now) }
        ensures found { IfOk result (IsRestoredIf index bytes.now) }
        ensures unpinned { IfOk result HasNoPinsIf }
        // A snapshot of the front of a log gives what is applied there.
        ensures front { (opening : List ServerValue) (front : List EntryValue) → length front ≡ index → SpellsSnapshot (made_by opening front) bytes.now → IfOk result (HasAppliedIf opening (commits_of front) front) }
    {
        let body = body(bytes);
        let read = servers_in(alloc, body)?;
        match read {
            Some(read) => behind(alloc, index, read.0, rest(body, read.1)),
            None => Ok(None),
        }
    }

    /// What another node's snapshot would bring in place of this. `None` exactly if it is to be taken as lost: its bytes
    /// are no node's snapshot, or it lacks a database that the node has. Costs what `from_snapshot` costs.
    pub fn offered(
        &self,
        alloc: Global,
        index: u64,
        bytes: &[u8],
    ) -> Result<Option<Applied>, AllocError>
        ensures exact { IfOk result (λ read. option_map snapshot_value read ≡ offered_to (names_of self.now.machine) (snapshot_in bytes.now)) }
        ensures found { IfOk result (IsRestoredIf index bytes.now) }
        ensures unpinned { IfOk result HasNoPinsIf }
        ensures front { (opening : List ServerValue) (front : List EntryValue) → length front ≡ index → SpellsSnapshot (made_by opening front) bytes.now → IfOk result (HasAppliedIf opening (commits_of front) front) }
    {
        let read = Applied::from_snapshot(alloc, index, bytes)?;
        match read {
            Some(offer) => Ok(self.accepted(offer)),
            None => Ok(None),
        }
    }

    /// What is offered, if it has each database of this.
    fn accepted(&self, offer: Applied) -> Option<Applied>
        ensures exact { option_map snapshot_value result ≡ offered_to (names_of self.now.machine) (Some (snapshot_value offer)) }
        ensures same { IsSameIf offer result }
    {
        if offer.has_all(self) {
            Some(offer)
        } else {
            None
        }
    }

    /// The node's snapshot at the applied index, as bytes. Costs one buffer: each page of the newest images is looked up once
    /// and copied into it once, and no image is made in between.
    pub fn snapshot(&self, alloc: Global) -> Result<WireBytes, AllocError>
        requires { IsConfiguration self.now.servers }
        ensures spelled { IfOk result (SpellsSnapshot (snapshot_value self.now)) }
        // It is that of the front of a log that was applied.
        ensures front { IfOk result (λ bytes. (opening : List ServerValue) (lacks : List ℕ → ℕ) (front : List EntryValue) → HasApplied opening lacks front self.now → SpellsSnapshot (made_by opening front) bytes) }
        // Marks, and the order in which the databases were opened, decide nothing of it.
        ensures exact { IfOk result (λ bytes. bytes ≡ snapshot_bytes self.now.servers (contents_in (machine_of self.now.machine))) }
    {
        let _databases = self.machine.databases();
        spelled(alloc, &self.machine, self.servers.as_slice())
    }
}
