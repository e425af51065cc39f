//! A disk over memory that holds a sync.

ghost use Rattle.std.specs.Prelude.{false};

use crate::gate::{ANSWERED, Gate, HELD};
use disk_model::{Disk, DiskFault, MemDisk};
use dq_base::{Items, Name};
use std::time::Clock;

/// A disk that holds the first sync after the moment at which a query was lent, until that is answered. It says nothing.
#[derive(Drop)]
pub(crate) struct HeldDisk<R: Clock + Copy + Drop> {
    pub(crate) rt: R,
    pub(crate) disk: MemDisk,
    pub(crate) gate: Gate,
}

impl<R: Clock + Copy + Drop> HeldDisk<R> {
    fn hold(&self) {
        if self.gate.reach(HELD) {
            self.gate.wait(&self.rt, ANSWERED);
        }
    }
}

impl<R: Clock + Copy + Drop> Disk for HeldDisk<R> {
    ghost tells = { false };

    ghost states = { λ _ _. ⊥ };

    ghost faults = { λ disk. disk.disk.calls.faults };

    ghost wants = { λ disk. disk.disk.calls.wants };

    ghost made = { λ disk. disk.disk.calls.made };

    fn list(&mut self) -> Result<Items<Name>, DiskFault> {
        self.disk.list()
    }

    fn read_at(&mut self, name: &str, at: u64, into: &mut [u8]) -> Result<usize, DiskFault> {
        self.disk.read_at(name, at, into)
    }

    fn write_at(&mut self, name: &str, at: u64, bytes: &[u8]) -> Result<(), DiskFault> {
        self.disk.write_at(name, at, bytes)
    }

    fn write_parts(
        &mut self,
        name: &str,
        at: u64,
        head: &[u8],
        body: &[u8],
        tail: &[u8],
    ) -> Result<(), DiskFault> {
        self.disk.write_parts(name, at, head, body, tail)
    }

    fn cut(&mut self, name: &str, length: u64) -> Result<(), DiskFault> {
        self.disk.cut(name, length)
    }

    fn sync(&mut self, name: &str) -> Result<(), DiskFault> {
        self.hold();
        self.disk.sync(name)
    }

    fn remove(&mut self, name: &str) -> Result<(), DiskFault> {
        self.disk.remove(name)
    }

    fn sync_names(&mut self) -> Result<(), DiskFault> {
        self.disk.sync_names()
    }
}
