ghost use Rattle.std.specs.Prelude.{◌≡◌, ◌≤◌, ◌++◌, true, length, is_some, IfOk, OnOk, OnErr};
ghost use Rattle.dq_base.specs.Faults.{one_more};
ghost use Rattle.dq_base.specs.Names.{IsName};
ghost use Rattle.disk_model.specs.Disk.{no_files};
ghost use Rattle.disk_model.specs.Calls.{WriteAt, CutTo, Sync, Remove, SyncNames, MayWrite};
ghost use Rattle.disk_model.specs.Trait.{Known, Steps, Looks, Lists, Reads, HasCause, HasWant, Crashes};
ghost use Rattle.disk_model.specs.Memory.{no_memory, wrote, truncated, removed, synced, names_synced, crashed};
ghost use Rattle.disk_model.specs.Armed.{armed_with, disarmed, unarmed, is_idle_next, after_call, after_whole, Counted};
ghost use Rattle.disk_model.specs.Stored.{memory_of, states_of, pick_of};

use crate::armed::{FaultInjector, Stop};
use crate::disk::Disk;
use crate::faults::DiskFault;
use crate::storage::Storage;
use dq_base::{Items, Name};
use std::alloc::{AllocError, Global};
use std::marker::Model;

/// A disk over memory, which stops, fails and crashes where it is told to.
///
/// A crash picks one outcome by a number. Let n be the number of writes, cuts and removals, of all files, that no sync
/// covers yet: a write or a cut is covered by a later sync of its file, a removal by a later sync of the names, and the
/// first write of a name by both. A call that changes nothing isn't counted, nor one that failed. Pick p keeps the first
/// p mod (n + 1) of these calls whole, in order, and drops the rest; where p div (n + 1) is odd and the first dropped
/// call is a write that no sync of its file came after, the first half of its bytes, rounded down, is kept too. If the
/// first write of a name is dropped and no half of it is kept, nothing that was written to the file stands and the name
/// isn't there; but if a sync of the names after that write found the name there, the file is there and empty, unless
/// a removal that isn't dropped came later. After a crash what is left lasts: no call is uncovered any more.
#[derive(Drop)]
pub struct MemDisk {
    storage: Storage,
    calls: FaultInjector,
}

impl Model for MemDisk {
    ghost use Rattle.disk_model.specs.Stored.{OverMemory};

    ghost Value = { OverMemory };

    ghost view = { λ a. record { contents = a.storage; calls = a.calls } };
}

impl MemDisk {
    /// A disk without files, of which no call fails. It takes memory from `alloc` as it grows, and none here.
    #[tactic(auto, using(crate::proofs::Stepping::holds_none, crate::proofs::Told::new_told))]
    pub fn new(alloc: Global) -> MemDisk
        ensures empty { memory_of result.contents ≡ no_memory }
        ensures told { states_of result no_files }
        ensures calls { result.calls ≡ unarmed }
    {
        MemDisk {
            storage: Storage::new(alloc),
            calls: FaultInjector::unarmed(),
        }
    }

    /// Counts the calls from here on, from 1. The call with the number `fail` does nothing and answers `Failed`. The
    /// call of the stop, and all later ones up to `crash`, answer `Failed`: the call of the stop counts as made, but a
    /// sync that stops counts as not made, and later calls do nothing. A call that is to stop and to fail does nothing.
    pub fn arm(&mut self, stop: Option<Stop>, fail: Option<u64>)
        ensures { self.new ≡ record { contents = self.old.contents; calls = armed_with stop fail self.old.calls } }
    {
        self.calls.arm(stop, fail);
    }

    /// Whether the disk is stopped.
    pub fn stopped(&self) -> bool
        ensures { result ≡ is_some self.now.calls.stopped }
    {
        self.calls.stopped.is_some()
    }

    /// How many times a call failed.
    pub fn faults(&self) -> u64
        ensures { result ≡ self.now.calls.faults }
    {
        self.calls.faults
    }

    /// The outcome of a crash by a pick: by that of the stop, if one came, else by `pick`. It is one of those that a
    /// crash may leave, and lasts. The disk is disarmed. Copies each file twice. `Err` means out of memory, and the
    /// disk is then as it was.
    pub fn crash(&mut self, pick: u64) -> Result<(), AllocError>
        ensures outcome { OnOk result (memory_of self.new.contents ≡ crashed (pick_of self.old.calls pick) (memory_of self.old.contents)) }
        ensures told { OnOk result (Crashes (states_of self.old) (states_of self.new)) }
        ensures calls { OnOk result (self.new.calls ≡ disarmed self.old.calls) }
        ensures err { OnErr result (memory_of self.new.contents ≡ memory_of self.old.contents) }
        ensures kept { OnErr result (self.new.calls ≡ self.old.calls) }
    {
        let pick = self.calls.pick_of(pick);
        self.storage.crash(pick)?;
        self.calls.disarm();
        Ok(())
    }
}

impl Disk for MemDisk {
    ghost tells = { true };

    ghost states = { λ disk. states_of disk };

    ghost faults = { λ disk. disk.calls.faults };

    ghost wants = { λ disk. disk.calls.wants };

    ghost made = { λ disk. disk.calls.made };

    #[tactic(auto, using(crate::proofs::Told::list_told, crate::proofs::Told::looks_none))]
    fn list(&mut self) -> Result<Items<Name>, DiskFault>
        ensures told { Looks (states_of self.old) (states_of self.new) result Lists }
        ensures cause { HasCause self.old.calls.faults self.new.calls.faults result }
        ensures want { HasWant self.old.calls.wants self.new.calls.wants result }
        ensures counted { Counted self.old.calls self.new.calls }
        ensures count { self.new.calls.made ≡ one_more self.old.calls.made }
        ensures contents { memory_of self.new.contents ≡ memory_of self.old.contents }
    {
        self.calls.start_whole()?;
        match self.storage.names() {
            Ok(names) => Ok(Items::new(names)),
            Err(_) => Err(self.calls.want()),
        }
    }

    #[tactic(auto, using(crate::proofs::Told::read_told, crate::proofs::Told::looks_none))]
    fn read_at(&mut self, name: &str, at: u64, into: &mut [u8]) -> Result<usize, DiskFault>
        requires { IsName name.now }
        ensures bound { IfOk result (λ count. count ≤ length into.new) }
        ensures told { Looks (states_of self.old) (states_of self.new) result (λ d. Reads (d.read name.now).bytes at into.old into.new) }
        ensures cause { HasCause self.old.calls.faults self.new.calls.faults result }
        ensures want { HasWant self.old.calls.wants self.new.calls.wants result }
        ensures counted { Counted self.old.calls self.new.calls }
        ensures count { self.new.calls.made ≡ one_more self.old.calls.made }
        ensures contents { memory_of self.new.contents ≡ memory_of self.old.contents }
    {
        self.calls.start_whole()?;
        Ok(self.storage.read_at(name, at, into))
    }

    /// Copies the bytes twice.
    #[tactic(auto, using(crate::proofs::Told::ended_cause_at, crate::proofs::Told::ended_want_at))]
    fn write_at(&mut self, name: &str, at: u64, bytes: &[u8]) -> Result<(), DiskFault>
        requires { IsName name.now }
        ensures told { Known true (states_of self.old) (MayWrite name.now at) → Steps (WriteAt name.now at bytes.now) (states_of self.old) (states_of self.new) result }
        ensures cause { HasCause self.old.calls.faults self.new.calls.faults result }
        ensures want { HasWant self.old.calls.wants self.new.calls.wants result }
        ensures counted { Counted self.old.calls self.new.calls }
        ensures count { self.new.calls.made ≡ one_more self.old.calls.made }
        ensures contents { memory_of self.new.contents ≡ after_call (is_idle_next self.old.calls) result (memory_of self.old.contents) (wrote name.now at bytes.now (memory_of self.old.contents)) }
    {
        let turn = self.calls.start()?;
        let done = self.storage.write(name, at, bytes);
        self.calls.finish(turn, done)
    }

    /// Copies the bytes twice.
    #[tactic(auto, using(crate::proofs::Told::ended_cause_at, crate::proofs::Told::ended_want_at))]
    fn write_parts(
        &mut self,
        name: &str,
        at: u64,
        head: &[u8],
        body: &[u8],
        tail: &[u8],
    ) -> Result<(), DiskFault>
        requires { IsName name.now }
        ensures told { Known true (states_of self.old) (MayWrite name.now at) → Steps (WriteAt name.now at (head.now ++ body.now ++ tail.now)) (states_of self.old) (states_of self.new) result }
        ensures cause { HasCause self.old.calls.faults self.new.calls.faults result }
        ensures want { HasWant self.old.calls.wants self.new.calls.wants result }
        ensures counted { Counted self.old.calls self.new.calls }
        ensures count { self.new.calls.made ≡ one_more self.old.calls.made }
        ensures contents { memory_of self.new.contents ≡ after_call (is_idle_next self.old.calls) result (memory_of self.old.contents) (wrote name.now at (head.now ++ body.now ++ tail.now) (memory_of self.old.contents)) }
    {
        let turn = self.calls.start()?;
        let done = self.storage.write_parts(name, at, head, body, tail);
        self.calls.finish(turn, done)
    }

    #[tactic(auto, using(crate::proofs::Told::cut_told, crate::proofs::Told::cut_idle, crate::proofs::Told::ended_cause_at, crate::proofs::Told::ended_want_at))]
    fn cut(&mut self, name: &str, length: u64) -> Result<(), DiskFault>
        requires { IsName name.now }
        ensures told { Steps (CutTo name.now length) (states_of self.old) (states_of self.new) result }
        ensures cause { HasCause self.old.calls.faults self.new.calls.faults result }
        ensures want { HasWant self.old.calls.wants self.new.calls.wants result }
        ensures counted { Counted self.old.calls self.new.calls }
        ensures count { self.new.calls.made ≡ one_more self.old.calls.made }
        ensures contents { memory_of self.new.contents ≡ after_call (is_idle_next self.old.calls) result (memory_of self.old.contents) (truncated name.now length (memory_of self.old.contents)) }
    {
        let turn = self.calls.start()?;
        let done = self.storage.cut(name, length);
        self.calls.finish(turn, done)
    }

    /// Copies the bytes that were written since the last sync.
    #[tactic(auto, using(crate::proofs::Told::sync_told, crate::proofs::Told::sync_idle))]
    fn sync(&mut self, name: &str) -> Result<(), DiskFault>
        requires { IsName name.now }
        ensures told { Steps (Sync name.now) (states_of self.old) (states_of self.new) result }
        ensures cause { HasCause self.old.calls.faults self.new.calls.faults result }
        ensures want { HasWant self.old.calls.wants self.new.calls.wants result }
        ensures counted { Counted self.old.calls self.new.calls }
        ensures count { self.new.calls.made ≡ one_more self.old.calls.made }
        ensures contents { memory_of self.new.contents ≡ after_whole result (memory_of self.old.contents) (synced name.now (memory_of self.old.contents)) }
    {
        self.calls.start_whole()?;
        match self.storage.sync(name) {
            Ok(()) => Ok(()),
            Err(_) => Err(self.calls.want()),
        }
    }

    #[tactic(auto, using(crate::proofs::Told::remove_told, crate::proofs::Told::remove_idle, crate::proofs::Told::ended_cause_at, crate::proofs::Told::ended_want_at))]
    fn remove(&mut self, name: &str) -> Result<(), DiskFault>
        requires { IsName name.now }
        ensures told { Steps (Remove name.now) (states_of self.old) (states_of self.new) result }
        ensures cause { HasCause self.old.calls.faults self.new.calls.faults result }
        ensures want { HasWant self.old.calls.wants self.new.calls.wants result }
        ensures counted { Counted self.old.calls self.new.calls }
        ensures count { self.new.calls.made ≡ one_more self.old.calls.made }
        ensures contents { memory_of self.new.contents ≡ after_call (is_idle_next self.old.calls) result (memory_of self.old.contents) (removed name.now (memory_of self.old.contents)) }
    {
        let turn = self.calls.start()?;
        let done = self.storage.remove(name);
        self.calls.finish(turn, done)
    }

    #[tactic(auto, using(crate::proofs::Told::names_told, crate::proofs::Told::names_idle))]
    fn sync_names(&mut self) -> Result<(), DiskFault>
        ensures told { Steps SyncNames (states_of self.old) (states_of self.new) result }
        ensures cause { HasCause self.old.calls.faults self.new.calls.faults result }
        ensures want { HasWant self.old.calls.wants self.new.calls.wants result }
        ensures counted { Counted self.old.calls self.new.calls }
        ensures count { self.new.calls.made ≡ one_more self.old.calls.made }
        ensures contents { memory_of self.new.contents ≡ after_whole result (memory_of self.old.contents) (names_synced (memory_of self.old.contents)) }
    {
        self.calls.start_whole()?;
        self.storage.sync_names();
        Ok(())
    }
}
