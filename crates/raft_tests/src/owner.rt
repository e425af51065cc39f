//! The owner of a node in random runs: it keeps what a step hands over, applies what is committed, follows the configurations
//! of the log, and tells them to the node.
ghost use Rattle.std.specs.Prelude.{◌≡◌};
ghost use Rattle.raft_core.specs.Starting.{snapshot_in};

use crate::nodes::{configuration, step};
use raft_core::{Outgoing, RaftEvent, RaftNode, RaftRole, StoredRaft, Todo};
use raft_membership::Members;
use raft_messages::{
    Entries, Entry, EntryKind, LogEnd, Server, SharedBytes, Snapshot, read_servers,
};
use std::alloc::{AllocError, Global};
use std::test::Fail;
use wire_words::WireBytes;

/// What a node has kept: its term, its vote, its snapshot, and its log from an index on.
#[derive(Drop)]
pub struct Disk {
    pub term: u64,
    pub vote: u64,
    pub snapshot: Option<Snapshot>,
    pub first: u64,
    pub log: Vec<Entry>,
}

impl Disk {
    // Keeps term and vote.
    fn keep_meta(&mut self, meta: Option<(u64, u64)>) {
        if let Some((term, vote)) = meta {
            self.term = term;
            self.vote = vote;
        }
    }

    // Keeps the node's entries from an index on, in place of all from there.
    fn keep_batch(&mut self, node: &RaftNode, batch: Option<u64>) -> Result<(), AllocError> {
        let Some(first) = batch else {
            return Ok(());
        };
        self.log.truncate(first.saturating_sub(self.first) as usize);
        for index in first..=node.view().last.index {
            if let Some(entry) = node.entry(index) {
                self.log.push(entry.copied()?)?;
            }
        }
        Ok(())
    }

    // Keeps a snapshot, with the entries that the node still has.
    fn keep_snapshot(&mut self, node: &RaftNode, snapshot: Snapshot) -> Result<(), AllocError> {
        self.first = snapshot.index.saturating_add(1);
        self.snapshot = Some(snapshot);
        self.log.clear();
        for _ in 0..17 {
            let earlier = self.first.saturating_sub(1);
            if node.entry(earlier).is_some() {
                self.first = earlier;
            }
        }
        let first = self.first;
        self.keep_batch(node, Some(first))
    }

    // A copy of the log that it has kept.
    fn copied(&self, alloc: Global) -> Result<Entries, AllocError> {
        let mut log = Vec::new(alloc);
        for entry in &self.log {
            log.push(entry.copied()?)?;
        }
        Ok(Entries::new(log))
    }

    // The end of its snapshot.
    fn end(&self) -> Option<LogEnd> {
        match &self.snapshot {
            Some(snapshot) => Some(LogEnd {
                index: snapshot.index,
                term: snapshot.term,
            }),
            None => None,
        }
    }
}

/// A node, what it has kept, a byte for each entry that it has applied, the configurations of its log, and how many changes
/// of these it has applied and how many were truncated.
#[derive(Drop)]
pub struct Owner {
    pub node: RaftNode,
    pub disk: Disk,
    pub applied: Vec<u8>,
    pub members: Members,
    pub changed: usize,
    pub undone: usize,
}

// The byte of an entry.
fn byte_of(entry: &Entry) -> u8 {
    let mut sum = (entry.term & 0xff) as u8;
    for byte in entry.bytes.as_slice() {
        sum = sum.wrapping_mul(31).wrapping_add(*byte);
    }
    sum
}

/// The roles of servers.
pub fn roles_of(alloc: Global, servers: &[Server]) -> Result<Vec<u64>, AllocError> {
    let mut roles = Vec::new(alloc);
    for server in servers {
        roles.push(server.role.number())?;
    }
    Ok(roles)
}

/// The configurations of a log that ends at an index, if the servers have these roles.
pub fn members_at(alloc: Global, roles: &[u64], index: u64) -> Result<Members, Fail> {
    let bytes = configuration(alloc, roles)?;
    let (servers, _) = read_servers(alloc, bytes.as_slice())?;
    Ok(Members::new(alloc, servers, index))
}

// The index of a snapshot's end.
fn end_index(snapshot: Option<LogEnd>) -> u64
    ensures { result ≡ (snapshot_in snapshot).index }
{
    match snapshot {
        Some(end) => end.index,
        None => 0,
    }
}

// A node that starts with what was kept, among servers of these roles.
fn started(alloc: Global, id: u64, roles: &[u64], kept: StoredRaft) -> Result<RaftNode, Fail> {
    let bytes = configuration(alloc, roles)?;
    let (servers, _) = read_servers(alloc, bytes.as_slice())?;
    let index = end_index(kept.snapshot);
    if kept.first == 0 || kept.first - 1 > index {
        return Err(Fail::from("a gap behind the snapshot"));
    }
    if index - (kept.first - 1) > kept.entries.len() as u64 {
        return Err(Fail::from("a log before the snapshot"));
    }
    Ok(RaftNode::new(alloc, id, servers.as_slice(), kept)?)
}

/// An entry joins the configurations of a log; true if it is a change that reads.
pub fn joins(
    alloc: Global,
    members: &mut Members,
    index: u64,
    entry: &Entry,
) -> Result<bool, Fail> {
    if index <= members.last_index() {
        return Err(Fail::from("an entry below a change"));
    }
    Ok(members.take_in(alloc, index, entry)?)
}

/// Entries from an index on are gone; true where changes were among them.
pub fn leaves(members: &mut Members, index: u64) -> Result<bool, Fail> {
    if index <= members.applied_index() {
        return Err(Fail::from("an applied entry is cut off"));
    }
    Ok(members.cut_from(index))
}

/// The log is applied up to an index.
pub fn settles_at(members: &mut Members, applied: u64) -> Result<(), Fail> {
    if applied < members.applied_index() {
        return Err(Fail::from("an applied index that falls"));
    }
    members.settle(applied);
    Ok(())
}

// The node is given servers of these roles. Answers what it sends.
fn is_told(alloc: Global, node: &mut RaftNode, roles: &[u64]) -> Result<Vec<Outgoing>, Fail> {
    let bytes = configuration(alloc, roles)?;
    let (servers, _) = read_servers(alloc, bytes.as_slice())?;
    if node.view().role == RaftRole::Candidate {
        return Err(Fail::from("a candidate"));
    }
    let todo = node.step(alloc, RaftEvent::Servers(servers))?;
    Ok(todo.sends.into_vec())
}

impl Owner {
    /// A node that has kept nothing, among servers of these roles.
    pub fn fresh(alloc: Global, node: RaftNode, roles: &[u64]) -> Result<Owner, Fail> {
        let disk = Disk {
            term: 0,
            vote: 0,
            snapshot: None,
            first: 1,
            log: Vec::new(alloc),
        };
        Ok(Owner {
            node,
            disk,
            applied: Vec::new(alloc),
            members: members_at(alloc, roles, 0)?,
            changed: 0,
            undone: 0,
        })
    }

    /// Whether its node leads.
    pub fn leads(&self) -> bool {
        self.node.view().role == RaftRole::Leader
    }

    // The entries of the node from an index on join the configurations; true if a change is among them.
    fn takes(&mut self, alloc: Global, first: u64) -> Result<bool, Fail> {
        let mut told = false;
        for index in first..=self.node.view().last.index {
            let Some(entry) = self.node.entry(index) else {
                return Err(Fail::from("no entry"));
            };
            if joins(alloc, &mut self.members, index, entry)? {
                told = true;
            }
        }
        Ok(told)
    }

    // The log is another one from an index on; true if other servers count.
    fn follows(&mut self, alloc: Global, batch: Option<u64>) -> Result<bool, Fail> {
        let Some(first) = batch else {
            return Ok(false);
        };
        let left = leaves(&mut self.members, first)?;
        if left {
            self.undone = self.undone.saturating_add(1);
        }
        let came = self.takes(alloc, first)?;
        Ok(left || came)
    }

    // A snapshot has come: it is kept, and what it says counts as applied; true if one has.
    fn installs(&mut self, alloc: Global, came: Option<Snapshot>) -> Result<bool, Fail> {
        let Some(snapshot) = came else {
            return Ok(false);
        };
        let index = snapshot.index;
        self.loads(alloc, snapshot.bytes.as_slice(), index)?;
        self.disk.keep_snapshot(&self.node, snapshot)?;
        self.takes(alloc, index.saturating_add(1))?;
        Ok(true)
    }

    // What is applied is what a snapshot says that ends at an index.
    fn loads(&mut self, alloc: Global, bytes: &[u8], index: u64) -> Result<(), Fail> {
        let (servers, place) = read_servers(alloc, bytes)?;
        let rest = bytes.get(place as usize..).unwrap_or(&[]);
        self.members = Members::new(alloc, servers, index);
        self.applied = Vec::from_slice(alloc, rest)?;
        Ok(())
    }

    // What is committed is applied.
    fn applies(&mut self, commit: u64) -> Result<(), Fail> {
        for index in self.applied.len() as u64..commit {
            if let Some(entry) = self.node.entry(index.saturating_add(1)) {
                self.applied.push(byte_of(entry))?;
                let changes = usize::from(entry.kind == EntryKind::Change);
                self.changed = self.changed.saturating_add(changes);
            }
        }
        settles_at(&mut self.members, self.applied.len() as u64)
    }

    /// The node takes an event; what it is to keep is kept, what is committed is applied, and if other servers count in
    /// its log and it doesn't lead it is given them. Answers what it sends.
    pub fn happens(&mut self, alloc: Global, event: RaftEvent) -> Result<Vec<Outgoing>, Fail> {
        let todo = step(alloc, &mut self.node, event)?;
        let Todo {
            meta,
            batch,
            install,
            sends,
            commit,
        } = todo;
        self.disk.keep_meta(meta);
        self.disk.keep_batch(&self.node, batch)?;
        let follows = self.follows(alloc, batch)?;
        let installs = self.installs(alloc, install)?;
        self.applies(commit)?;
        if (follows || installs) && !self.leads() {
            let roles = roles_of(alloc, self.members.current())?;
            is_told(alloc, &mut self.node, roles.as_slice())?;
        }
        Ok(sends.into_vec())
    }

    // Whether the node leads, and has applied its barrier and every earlier change.
    fn may_change(&self) -> bool {
        let applied = self.applied.len() as u64;
        let view = self.node.view();
        self.leads()
            && self.node.term_at(applied) == Some(view.term)
            && self.members.last_index() <= applied
    }

    /// A leader that may proposes that another server has this role; one that is to vote has all of the log. It is told the
    /// new servers before. Answers what it sends.
    pub fn changes(&mut self, alloc: Global, id: u64, role: u64) -> Result<Vec<Outgoing>, Fail> {
        if !self.may_change() || role == 0 && !self.node.is_caught_up(id) {
            return Ok(Vec::new(alloc));
        }
        let mut roles = roles_of(alloc, self.members.current())?;
        let Some(old) = roles.get_mut(id.saturating_sub(1) as usize) else {
            return Ok(Vec::new(alloc));
        };
        *old = role;
        let mut sends = is_told(alloc, &mut self.node, roles.as_slice())?;
        let change = entry_of(
            alloc,
            EntryKind::Change,
            configuration(alloc, roles.as_slice())?,
        )?;
        let mut more = self.happens(alloc, proposal(alloc, change)?)?;
        sends.append(&mut more)?;
        Ok(sends)
    }

    // A snapshot of what is applied, past the last one: the servers, and then a byte for each entry.
    fn snapshot(&self, alloc: Global) -> Result<Option<Snapshot>, Fail> {
        let index = self.applied.len() as u64;
        let Some(term) = self.node.term_at(index) else {
            return Ok(None);
        };
        if index <= end_index(self.disk.end()) {
            return Ok(None);
        }
        let roles = roles_of(alloc, self.members.applied())?;
        let mut bytes = configuration(alloc, roles.as_slice())?;
        bytes.extend_from_slice(self.applied.as_slice())?;
        Ok(Some(Snapshot {
            index,
            term,
            bytes: SharedBytes::new(alloc, WireBytes::new(bytes))?,
        }))
    }

    /// It takes a snapshot of what it has applied, and keeps it.
    pub fn snaps(&mut self, alloc: Global) -> Result<(), Fail> {
        let Some(snapshot) = self.snapshot(alloc)? else {
            return Ok(());
        };
        let at = LogEnd {
            index: snapshot.index,
            term: snapshot.term,
        };
        self.happens(alloc, RaftEvent::Snapped { at })?;
        self.disk.keep_snapshot(&self.node, snapshot)?;
        Ok(())
    }

    // What is applied and the configurations are those of the kept snapshot and the entries after it; the opening roles
    // without one.
    fn recalls(&mut self, alloc: Global, opening: &[u64]) -> Result<(), Fail> {
        let index = end_index(self.disk.end());
        let bytes = match &self.disk.snapshot {
            Some(snapshot) => Vec::from_slice(alloc, snapshot.bytes.as_slice())?,
            None => configuration(alloc, opening)?,
        };
        self.loads(alloc, bytes.as_slice(), index)?;
        let behind = index.saturating_add(1).saturating_sub(self.disk.first) as usize;
        for n in behind..self.disk.log.len() {
            let at = self.disk.first.saturating_add(n as u64);
            let Some(entry) = self.disk.log.get(n) else {
                return Err(Fail::from("no entry"));
            };
            joins(alloc, &mut self.members, at, entry)?;
        }
        Ok(())
    }

    /// It stops, and starts with what it has kept; the servers of the cluster had these roles at first.
    pub fn restarts(&mut self, alloc: Global, id: u64, opening: &[u64]) -> Result<(), Fail> {
        let kept = StoredRaft {
            term: self.disk.term,
            vote: self.disk.vote,
            snapshot: self.disk.end(),
            first: self.disk.first,
            entries: self.disk.copied(alloc)?,
        };
        self.recalls(alloc, opening)?;
        let roles = roles_of(alloc, self.members.current())?;
        self.node = started(alloc, id, roles.as_slice(), kept)?;
        Ok(())
    }
}

/// An entry of this kind and these bytes; the leader that appends it gives it its term.
pub fn entry_of(alloc: Global, kind: EntryKind, bytes: Vec<u8>) -> Result<Entry, AllocError> {
    Ok(Entry {
        term: 0,
        kind,
        bytes: SharedBytes::new(alloc, WireBytes::new(bytes))?,
    })
}

/// A leader is to append the entry.
pub fn proposal(alloc: Global, entry: Entry) -> Result<RaftEvent, AllocError> {
    let mut entries = Vec::new(alloc);
    entries.push(entry)?;
    Ok(RaftEvent::Propose(Entries::new(entries)))
}
