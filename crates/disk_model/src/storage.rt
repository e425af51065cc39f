ghost use Rattle.std.specs.Prelude.{◌≡◌, ◌<◌, ◌≤◌, ◌^◌, ◌∷◌, ◌++◌, [], cond, true, false, length, IfOk, OnOk, OnErr};
ghost use Rattle.std.specs.Str.{bytes_eq};
ghost use Rattle.dq_base.specs.Names.{IsName};
ghost use Rattle.disk_model.specs.Disk.{missing};
ghost use Rattle.disk_model.specs.Memory.{no_memory, wrote, truncated, removed, synced, names_synced, crashed, noted, kept, done_to, after_file_sync, after_names_sync, left_by_file_sync, left_by_names_sync, each_left, first_half, whole_calls, keeps_half};
ghost use Rattle.disk_model.specs.Folder.{tables_of, replayed, ListsFiles};
ghost use Rattle.disk_model.specs.Trait.{Reads};
ghost use Rattle.disk_model.specs.Stored.{memory_of};

use crate::folder::Folder;
use crate::open_calls::{UnsyncedCall, UnsyncedEffect};
use dq_base::{Bytes, Name};
use std::alloc::{AllocError, Global};
use std::marker::Model;
use std::mem;

/// Files over memory with the calls that no sync covers yet.
#[derive(Drop)]
pub struct Storage {
    alloc: Global,
    folder: Folder,
    uncovered: Vec<UnsyncedCall>,
}

impl Model for Storage {
    ghost use Rattle.disk_model.specs.Stored.{Contents};

    ghost Value = { Contents };

    ghost view = { λ a. record { files = a.folder; uncovered = a.uncovered.items } };
}

fn copied(alloc: Global, bytes: &[u8]) -> Result<Bytes, AllocError>
    ensures { IfOk result (λ copy. copy ≡ bytes.now) }
{
    let mut copy = Vec::new(alloc);
    copy.extend_from_slice(bytes)?;
    Ok(Bytes::new(copy))
}

fn joined(alloc: Global, head: &[u8], body: &[u8], tail: &[u8]) -> Result<Bytes, AllocError>
    ensures { IfOk result (λ copy. copy ≡ head.now ++ body.now ++ tail.now) }
{
    let mut copy = Vec::new(alloc);
    copy.extend_from_slice(head)?;
    copy.extend_from_slice(body)?;
    copy.extend_from_slice(tail)?;
    Ok(Bytes::new(copy))
}

fn named(alloc: Global, name: &str) -> Result<Name, AllocError>
    requires { IsName name.now }
    ensures { IfOk result (λ own. own ≡ name.now) }
{
    match Name::new(String::from_str(alloc, name)?) {
        Some(own) => Ok(own),
        None => Err(AllocError),
    }
}

impl UnsyncedCall {
    /// A sync of the file of a name covers the call. Answers whether something of it is still uncovered.
    fn survives_file_sync(&mut self, name: &str) -> bool
        ensures { left_by_file_sync name.now self.old ≡ cond result (self.new ∷ []) [] }
    {
        if self.name.as_str() != name {
            return true;
        }
        match self.effect {
            UnsyncedEffect::Creation { .. } | UnsyncedEffect::Naming => {
                self.effect = UnsyncedEffect::Naming;
                true
            }
            UnsyncedEffect::Removal => true,
            UnsyncedEffect::Write { .. }
            | UnsyncedEffect::Truncation { .. }
            | UnsyncedEffect::Nothing => false,
        }
    }

    /// A sync of the names covers the call. Answers whether something of it is still uncovered.
    fn survives_names_sync(&mut self, folder: &Folder) -> bool
        ensures { left_by_names_sync (tables_of folder.now).read self.old ≡ cond result (self.new ∷ []) [] }
    {
        let is_there = match folder.read(self.name.as_str()) {
            Some(file) => file.is_there(),
            None => false,
        };
        if is_there {
            self.effect.survives_naming()
        } else {
            self.effect.survives_vanishing()
        }
    }
}

impl UnsyncedEffect {
    /// The name of the file is sure.
    fn survives_naming(&mut self) -> bool
        ensures { after_names_sync true self.old ≡ cond result (self.new ∷ []) [] }
    {
        match mem::replace(self, UnsyncedEffect::Nothing) {
            UnsyncedEffect::Creation { bytes } => {
                *self = UnsyncedEffect::Write { at: 0, bytes };
                true
            }
            UnsyncedEffect::Naming | UnsyncedEffect::Removal => false,
            UnsyncedEffect::Write { at, bytes } => {
                *self = UnsyncedEffect::Write { at, bytes };
                true
            }
            UnsyncedEffect::Truncation { length } => {
                *self = UnsyncedEffect::Truncation { length };
                true
            }
            UnsyncedEffect::Nothing => true,
        }
    }

    /// The file is gone certainly.
    fn survives_vanishing(&mut self) -> bool
        ensures { after_names_sync false self.old ≡ cond result (self.new ∷ []) [] }
    {
        match self {
            UnsyncedEffect::Naming | UnsyncedEffect::Removal => false,
            UnsyncedEffect::Creation { .. }
            | UnsyncedEffect::Write { .. }
            | UnsyncedEffect::Truncation { .. }
            | UnsyncedEffect::Nothing => {
                *self = UnsyncedEffect::Nothing;
                true
            }
        }
    }
}

/// A sync of the file of a name covers calls.
#[tactic(auto, using(crate::proofs::Replaying::left_kept, crate::proofs::Replaying::left_gone))]
fn cover_file(calls: &mut Vec<UnsyncedCall>, name: &str)
    ensures { calls.new.items ≡ each_left (left_by_file_sync name.now) calls.old.items }
{
    let mut place = 0;
    while place < calls.len() {
        if calls[place].survives_file_sync(name) {
            place += 1;
        } else {
            calls.remove(place);
        }
    }
}

/// A sync of the names covers calls.
#[tactic(auto, using(crate::proofs::Replaying::left_kept, crate::proofs::Replaying::left_gone))]
fn cover_names(calls: &mut Vec<UnsyncedCall>, folder: &Folder)
    ensures { calls.new.items ≡ each_left (left_by_names_sync (tables_of folder.now).read) calls.old.items }
{
    let mut place = 0;
    while place < calls.len() {
        if calls[place].survives_names_sync(folder) {
            place += 1;
        } else {
            calls.remove(place);
        }
    }
}

/// Does the calls again, in turn, to what is durable.
fn replay(folder: &mut Folder, calls: &[UnsyncedCall]) -> Result<(), AllocError>
    ensures { OnOk result (tables_of folder.new ≡ replayed calls.now (tables_of folder.old)) }
{
    for call in calls {
        folder.change_base(call.name.as_str(), &call.effect)?;
    }
    Ok(())
}

/// Does half of the first call again.
#[tactic(auto, using(crate::proofs::Replaying::half_replayed, crate::proofs::Replaying::no_half))]
fn replay_half(folder: &mut Folder, calls: &[UnsyncedCall]) -> Result<(), AllocError>
    ensures { OnOk result (tables_of folder.new ≡ replayed (first_half calls.now) (tables_of folder.old)) }
{
    match calls {
        [call, ..] => folder.change_base_by_half(call.name.as_str(), &call.effect),
        [] => Ok(()),
    }
}

/// How many calls a pick keeps whole, of this many.
fn whole_calls(pick: u64, count: usize) -> usize
    requires { count < 2 ^ 63 }
    ensures whole { result ≡ whole_calls pick count }
    ensures within { result ≤ count }
{
    (pick % (count as u64 + 1)) as usize
}

/// Whether a pick keeps half of the call after these.
fn keeps_half(pick: u64, count: usize) -> bool
    requires { count < 2 ^ 63 }
    ensures { result ≡ keeps_half pick count }
{
    pick / (count as u64 + 1) % 2 == 1
}

/// Does the calls again that a pick keeps.
#[tactic(auto, using(crate::proofs::Replaying::picked_whole))]
fn replay_picked(folder: &mut Folder, calls: &[UnsyncedCall], pick: u64) -> Result<(), AllocError>
    ensures { OnOk result (tables_of folder.new ≡ replayed (kept pick calls.now) (tables_of folder.old)) }
{
    let count = calls.len();
    let (whole, dropped) = calls.split_at(whole_calls(pick, count));
    replay(folder, whole)?;
    if keeps_half(pick, count) {
        replay_half(folder, dropped)?;
    }
    Ok(())
}

/// Moves bytes from a place on to the front of a buffer, as many as there are and fit.
#[tactic(auto, using(crate::proofs::Replaying::read_past))]
fn read_from(bytes: &[u8], at: u64, into: &mut [u8]) -> usize
    ensures { Reads bytes.now at into.old into.new result }
{
    if at >= bytes.len() as u64 {
        return 0;
    }
    let rest = &bytes[at as usize..];
    let count = rest.len().min(into.len());
    into[..count].copy_from_slice(&rest[..count]);
    count
}

impl Storage {
    /// No files.
    pub(crate) fn new(alloc: Global) -> Storage
        ensures { memory_of result ≡ no_memory }
    {
        Storage {
            alloc,
            folder: Folder::new(alloc),
            uncovered: Vec::new(alloc),
        }
    }

    /// The names of the files that are there, each once.
    pub(crate) fn names(&self) -> Result<Vec<Name>, AllocError>
        ensures { IfOk result (λ names. ListsFiles self.now.files names.items) }
    {
        self.folder.names()
    }

    /// Reads bytes of a file.
    pub(crate) fn read_at(&self, name: &str, at: u64, into: &mut [u8]) -> usize
        ensures { Reads ((memory_of self.now).read name.now).bytes at into.old into.new result }
    {
        match self.folder.read(name) {
            Some(file) => read_from(file.bytes(), at, into),
            None => 0,
        }
    }

    fn is_there(&self, name: &str) -> bool
        ensures { result ≡ ((memory_of self.now).read name.now).there }
    {
        match self.folder.read(name) {
            Some(file) => file.is_there(),
            None => false,
        }
    }

    fn length(&self, name: &str) -> usize
        ensures { result ≡ length ((memory_of self.now).read name.now).bytes }
    {
        match self.folder.read(name) {
            Some(file) => file.bytes().len(),
            None => 0,
        }
    }

    /// Does a call to a file, and notes it.
    fn note(&mut self, name: &str, effect: UnsyncedEffect) -> Result<(), AllocError>
        requires { IsName name.now }
        ensures ok { OnOk result (memory_of self.new ≡ noted name.now effect (done_to effect) (memory_of self.old)) }
        ensures err { OnErr result (memory_of self.new ≡ memory_of self.old) }
    {
        let own = named(self.alloc, name)?;
        self.uncovered.reserve(1)?;
        self.folder.change_read(name, &effect)?;
        self.uncovered.push(UnsyncedCall { name: own, effect })?;
        Ok(())
    }

    // Writes bytes to a file, and keeps them.
    fn put(&mut self, name: &str, at: u64, bytes: Bytes) -> Result<(), AllocError>
        requires { IsName name.now }
        ensures ok { OnOk result (memory_of self.new ≡ wrote name.now at bytes (memory_of self.old)) }
        ensures err { OnErr result (memory_of self.new ≡ memory_of self.old) }
    {
        if !self.is_there(name) {
            return self.note(name, UnsyncedEffect::Creation { bytes });
        }
        if bytes.is_empty() {
            return Ok(());
        }
        self.note(name, UnsyncedEffect::Write { at, bytes })
    }

    /// Writes bytes to a file. Copies them twice.
    pub(crate) fn write(&mut self, name: &str, at: u64, bytes: &[u8]) -> Result<(), AllocError>
        requires { IsName name.now }
        ensures ok { OnOk result (memory_of self.new ≡ wrote name.now at bytes.now (memory_of self.old)) }
        ensures err { OnErr result (memory_of self.new ≡ memory_of self.old) }
    {
        let bytes = copied(self.alloc, bytes)?;
        self.put(name, at, bytes)
    }

    /// Writes bytes in three parts to a file. Copies them twice.
    pub(crate) fn write_parts(
        &mut self,
        name: &str,
        at: u64,
        head: &[u8],
        body: &[u8],
        tail: &[u8],
    ) -> Result<(), AllocError>
        requires { IsName name.now }
        ensures ok { OnOk result (memory_of self.new ≡ wrote name.now at (head.now ++ body.now ++ tail.now) (memory_of self.old)) }
        ensures err { OnErr result (memory_of self.new ≡ memory_of self.old) }
    {
        let bytes = joined(self.alloc, head, body, tail)?;
        self.put(name, at, bytes)
    }

    /// Keeps the first bytes of a file.
    pub(crate) fn cut(&mut self, name: &str, length: u64) -> Result<(), AllocError>
        requires { IsName name.now }
        ensures ok { OnOk result (memory_of self.new ≡ truncated name.now length (memory_of self.old)) }
        ensures err { OnErr result (memory_of self.new ≡ memory_of self.old) }
    {
        if length < self.length(name) as u64 {
            return self.note(name, UnsyncedEffect::Truncation { length });
        }
        Ok(())
    }

    /// Removes a file.
    pub(crate) fn remove(&mut self, name: &str) -> Result<(), AllocError>
        requires { IsName name.now }
        ensures ok { OnOk result (memory_of self.new ≡ removed name.now (memory_of self.old)) }
        ensures err { OnErr result (memory_of self.new ≡ memory_of self.old) }
    {
        if !self.is_there(name) {
            return Ok(());
        }
        let own = named(self.alloc, name)?;
        self.uncovered.push(UnsyncedCall {
            name: own,
            effect: UnsyncedEffect::Removal,
        })?;
        self.folder.discard_unsynced(name);
        Ok(())
    }

    /// Puts the bytes of a file down. Copies those that were written since they last were put down.
    pub(crate) fn sync(&mut self, name: &str) -> Result<(), AllocError>
        requires { IsName name.now }
        ensures ok { OnOk result (memory_of self.new ≡ synced name.now (memory_of self.old)) }
        ensures err { OnErr result (memory_of self.new ≡ memory_of self.old) }
    {
        if !self.is_there(name) {
            return Ok(());
        }
        self.folder.commit_synced(name)?;
        cover_file(&mut self.uncovered, name);
        Ok(())
    }

    /// Puts the names down.
    pub(crate) fn sync_names(&mut self)
        ensures { memory_of self.new ≡ names_synced (memory_of self.old) }
    {
        cover_names(&mut self.uncovered, &self.folder);
        self.folder.put_names_down();
    }

    /// The outcome of a crash by a pick.
    pub(crate) fn crash(&mut self, pick: u64) -> Result<(), AllocError>
        ensures ok { OnOk result (memory_of self.new ≡ crashed pick (memory_of self.old)) }
        ensures err { OnErr result (memory_of self.new ≡ memory_of self.old) }
    {
        let mut folder = self.folder.try_clone()?;
        replay_picked(&mut folder, self.uncovered.as_slice(), pick)?;
        self.folder = folder.settled()?;
        self.uncovered.clear();
        Ok(())
    }
}
