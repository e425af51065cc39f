//! How a node ends that is served over memory, and what its files represent then.

use crate::silent::Silent;
use crate::words::named;
use disk_model::{Disk, MemDisk};
use dq_base::{Items, MemSink};
use folder_check::{CheckEnd, check};
use raft_messages::{Entry, EntryKind, SharedBytes};
use segment_store::Store;
use serve_node::{ServeEnd, serve};
use serve_sockets::ListHost;
use serve_traits::Event;
use sql_engine::CellEngine;
use std::alloc::Global;
use std::sync::Wait;
use std::test::*;
use std::thread::Threads;
use std::time::Clock;

/// One voter over cells that takes one event.
const LONE: &[&str] = &["1", "localhost:9001", "--engine", "cells", "--events", "1"];

/// What a disk is before a node is started over it.
#[derive(Clone, Copy)]
enum Folder {
    /// It has no files.
    Empty,
    /// It has none, and its first call fails.
    Failing,
    /// It has two segments, of which the first is truncated in its batch.
    Faulty,
    /// Its metadata has the last version that there is, so that none can be written.
    Last,
}

/// Metadata of format 2 and version 18,446,744,073,709,551,615, with term 1 and vote 1, and the first eight bytes of their SHA-256.
const LAST: &[u8; 40] =
    b"\x02\0\0\0\0\0\0\0\xff\xff\xff\xff\xff\xff\xff\xff\x01\0\0\0\0\0\0\0\x01\0\0\0\0\0\0\0\
    \x58\x28\xe3\x7f\x33\x81\x64\xa9";

/// What a start over no files leaves, and a voter's first timeout; a folder that doesn't load tells nothing.
const NOTHING: &str = "term 0 vote 0\nsnapshot none\nlog none\n";

const ELECTED: &str = "term 1 vote 1\nsnapshot none\nlog 1 1\n";

/// What the last metadata represents.
const VOTED: &str = "term 1 vote 1\nsnapshot none\nlog none\n";

/// A folder, how many timeouts the host brings, how serving ends, and the first lines of what the files represent.
const ROWS: &[(Folder, u64, ServeEnd, &str)] = &[
    (Folder::Empty, 1, ServeEnd::Spent, ELECTED),
    (Folder::Empty, 2, ServeEnd::Spent, ELECTED),
    (Folder::Empty, 0, ServeEnd::HostFault, NOTHING),
    (Folder::Failing, 1, ServeEnd::DiskFault, NOTHING),
    (Folder::Faulty, 1, ServeEnd::Files, ""),
    (Folder::Last, 1, ServeEnd::NoMemory, VOTED),
];

/// Adds the entry of a new leader of term 1 in its own segment.
fn add(alloc: Global, disk: &mut MemDisk, index: u64) -> Option<()> {
    let (mut store, _kept) = Store::load(alloc, disk).ok()?;
    store.set_meta(disk, 1, 1).ok()?;
    let entry = Entry {
        term: 1,
        kind: EntryKind::Barrier,
        bytes: SharedBytes::new(alloc, Items::new(Vec::new(alloc))).ok()?,
    };
    store.append(disk, index, &[entry]).ok()
}

/// The disk of a folder.
fn disk_of(alloc: Global, folder: Folder) -> Option<MemDisk> {
    let mut disk = MemDisk::new(alloc);
    match folder {
        Folder::Empty => {}
        Folder::Failing => disk.arm(None, Some(1)),
        Folder::Faulty => {
            add(alloc, &mut disk, 1)?;
            add(alloc, &mut disk, 2)?;
            disk.cut("segment-0000000000000001", 40).ok()?;
        }
        Folder::Last => disk.write_at("metadata1", 0, LAST).ok()?,
    }
    Some(disk)
}

/// A host that brings this many timeouts.
fn host_of<R: Wait + Copy + Drop>(
    rt: R,
    alloc: Global,
    timeouts: u64,
) -> Option<ListHost<R, session_gateway::Read>> {
    let mut events = Vec::new(alloc);
    for _ in 0..timeouts {
        events.push(Event::Timeout).ok()?;
    }
    ListHost::new(rt, alloc, events).ok()
}

/// Serves the node over a disk.
fn serve_over<R: Threads + Wait + Clock + Copy + Drop + Send + 'static>(
    rt: R,
    alloc: Global,
    timeouts: u64,
    disk: &mut MemDisk,
) -> Option<ServeEnd> {
    let words = named(alloc, LONE)?;
    let mut host = host_of(rt, alloc, timeouts)?;
    let mut engine = CellEngine::new(alloc);
    Some(serve(alloc, &words, &mut host, disk, &mut engine, &mut Silent))
}

/// Whether the files of a disk load, and begin so in words; of those that don't, the words are none.
fn stands_for(alloc: Global, disk: &mut MemDisk, wanted: &str) -> bool {
    let mut sink = MemSink::new(alloc, Vec::new(alloc));
    let is_read = check(alloc, disk, &mut sink) == CheckEnd::Done;
    is_read == !wanted.is_empty() && sink.bytes().starts_with(wanted.as_bytes())
}

/// Whether serving ends so over a folder, whose files then represent this.
fn ends_so<R: Threads + Wait + Clock + Copy + Drop + Send + 'static>(
    rt: R,
    alloc: Global,
    row: &(Folder, u64, ServeEnd, &str),
) -> Option<bool> {
    let mut disk = disk_of(alloc, row.0)?;
    let end = serve_over(rt, alloc, row.1, &mut disk)?;
    Some(end == row.2 && stands_for(alloc, &mut disk, row.3))
}

#[test]
fn serving_ends_with_its_cause(rt: HostRuntime) -> Result<(), Fail> {
    for (place, row) in ROWS.iter().enumerate() {
        assert!(rt; ends_so(rt, rt.alloc(), row) == Some(true), "row {place}");
    }
    Ok(())
}
