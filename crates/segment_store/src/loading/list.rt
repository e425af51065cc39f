// The files of a node that a folder lists.
ghost use Rattle.std.specs.Prelude.{◌≡◌, ◌≤◌, ◌<◌, cond, length, OnOk, IfOk};
ghost use Rattle.dq_base.specs.Faults.{one_more};
ghost use Rattle.segment_store.specs.FileNames.{name_of, number_of};
ghost use Rattle.segment_store.specs.Faults.{DiskCause};
ghost use Rattle.segment_store.specs.Keeps.{folder};
ghost use Rattle.segment_store.specs.Listed.{place_for, with_number, added, lists, nothing_listed, FilesBelow, Below, SortedOut, TakesName, IsListed};
ghost use Rattle.segment_store.specs.Loading.{Sees};

use crate::fault::StoreFault;
use crate::loading::names::file_named;
use crate::names::File;
use disk_model::Disk;
use dq_base::Name;
use std::alloc::{AllocError, Global};
use std::marker::Model;

/// The files of a node that a folder lists: all of them, in turn; which files of metadata are there; and the numbers of
/// its segments and snapshots, ascending.
#[derive(Drop)]
pub(crate) struct FolderList {
    files: Vec<File>,
    first: bool,
    second: bool,
    segments: Vec<u64>,
    snapshots: Vec<u64>,
}

impl Model for FolderList {
    ghost use Rattle.segment_store.specs.Listed.{FolderList as FolderListValue, Below, FilesBelow};

    ghost Value = { FolderListValue };

    ghost view = { λ l. record { files = l.files.items; first = l.first; second = l.second; segments = l.segments.items; snapshots = l.snapshots.items } };

    // All numbers have sixteen digits.
    ghost invariant = { λ l. FilesBelow l.files.items × (Below l.segments.items × Below l.snapshots.items) };
}

fn place_for(numbers: &[u64], number: u64) -> usize
    ensures place { result ≡ place_for number numbers.now }
    ensures within { result ≤ length numbers.now }
{
    let mut place = 0;
    while place < numbers.len() && numbers[place] < number {
        place += 1;
    }
    place
}

// Puts a number at its place among ascending ones.
#[tactic(auto, unfolding(crate::specs::Listed::with_number))]
fn add_number(numbers: &mut Vec<u64>, number: u64) -> Result<(), AllocError>
    ensures ok { OnOk result (numbers.new.items ≡ with_number number numbers.old.items) }
    ensures below { number < 10000000000000000 → Below numbers.old.items → Below numbers.new.items }
{
    if numbers.contains(&number) {
        return Ok(());
    }
    let place = place_for(numbers.as_slice(), number);
    numbers.insert(place, number)?;
    Ok(())
}

impl FolderList {
    fn new(alloc: Global) -> FolderList
        ensures { result ≡ nothing_listed }
    {
        FolderList {
            files: Vec::new(alloc),
            first: false,
            second: false,
            segments: Vec::new(alloc),
            snapshots: Vec::new(alloc),
        }
    }

    /// The files that were listed, in turn.
    pub(crate) fn files(&self) -> &[File]
        ensures files { result.now ≡ self.now.files }
        ensures digits { FilesBelow result.now }
    {
        self.files.as_slice()
    }

    /// Whether the first file of metadata is there, or the second.
    pub(crate) fn has_metadata(&self, first: bool) -> bool
        ensures { result ≡ cond first self.now.first self.now.second }
    {
        if first { self.first } else { self.second }
    }

    /// The numbers of segments.
    pub(crate) fn segments(&self) -> &[u64]
        ensures numbers { result.now ≡ self.now.segments }
        ensures digits { Below result.now }
    {
        self.segments.as_slice()
    }

    /// The indices of snapshots.
    pub(crate) fn snapshots(&self) -> &[u64]
        ensures numbers { result.now ≡ self.now.snapshots }
        ensures digits { Below result.now }
    {
        self.snapshots.as_slice()
    }

    /// The numbers of segments, and the indices of snapshots.
    pub(crate) fn into_numbers(self) -> (Vec<u64>, Vec<u64>)
        ensures segments { result.0.items ≡ self.segments }
        ensures snapshots { result.1.items ≡ self.snapshots }
        ensures digits { Below self.segments × Below self.snapshots }
    {
        (self.segments, self.snapshots)
    }

    fn has(&self, file: File) -> bool
        ensures { result ≡ lists self.now (name_of file) }
    {
        match file {
            File::First => self.first,
            File::Second => self.second,
            File::Segment(number) => self.segments.contains(&number),
            File::Snapshot(index) => self.snapshots.contains(&index),
        }
    }

    // Lists a file, unless it is listed already.
    fn add(&mut self, file: File) -> Result<(), AllocError>
        requires { number_of file < 10000000000000000 }
        ensures { OnOk result (self.new ≡ added file self.old) }
    {
        if self.has(file) {
            return Ok(());
        }
        self.files.push(file)?;
        match file {
            File::First => {
                self.first = true;
                Ok(())
            }
            File::Second => {
                self.second = true;
                Ok(())
            }
            File::Segment(number) => add_number(&mut self.segments, number),
            File::Snapshot(index) => add_number(&mut self.snapshots, index),
        }
    }
}

// Lists the file of a name, if it is one of a node.
fn take_name(list: &mut FolderList, name: &str) -> Result<(), AllocError>
    ensures { OnOk result (TakesName name.now list.old list.new) }
{
    match file_named(name) {
        Some(file) => list.add(file),
        None => Ok(()),
    }
}

fn sorted_out(alloc: Global, names: &[Name]) -> Result<FolderList, AllocError>
    ensures { IfOk result (λ l. SortedOut names.now l) }
{
    let mut list = FolderList::new(alloc);
    for name in names {
        take_name(&mut list, name.as_str())?;
    }
    Ok(list)
}

/// The files of a node that a disk lists. Other names are left alone.
pub(crate) fn list_files<D: Disk>(alloc: Global, disk: &mut D) -> Result<FolderList, StoreFault>
    ensures told { Sees (D.states disk.old) (D.states disk.new) result (λ d l. IsListed l (folder d)) }
    ensures count { D.made disk.new ≡ one_more (D.made disk.old) }
    ensures cause { DiskCause (D.faults disk.old) (D.faults disk.new) result }
{
    let names = disk.list()?;
    let list = sorted_out(alloc, names.as_slice())?;
    Ok(list)
}
