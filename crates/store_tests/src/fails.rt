use crate::stops::add;
use disk_model::{MemDisk, Stop};
use segment_store::{Kept, Store};
use std::alloc::Global;

/// Which states the loads found: that before the batch, and that with it.
type Outcomes = [bool; 2];

const OLD: Outcomes = [true, false];

const NEW: Outcomes = [false, true];

const BOTH: Outcomes = [true, true];

/// A batch that is added, whether it begins a segment, whether a call of it fails or stops, and whether a crash follows;
/// and what the loads found, by the number of that call from 1.
const BATCHES: &[(bool, Aim, bool, [Outcomes; 6])] = &[
    (false, Aim::Stop, true, [BOTH, BOTH, NEW, NEW, NEW, NEW]),
    (false, Aim::Fail, true, [OLD, BOTH, NEW, NEW, NEW, NEW]),
    (false, Aim::Fail, false, [OLD, NEW, NEW, NEW, NEW, NEW]),
    (true, Aim::Stop, true, [OLD, OLD, OLD, BOTH, BOTH, NEW]),
    (true, Aim::Fail, true, [OLD, OLD, OLD, OLD, BOTH, NEW]),
    (true, Aim::Fail, false, [OLD, OLD, OLD, OLD, NEW, NEW]),
];

/// What becomes of a call: the disk stops in it, or it fails.
#[derive(Clone, Copy)]
enum Aim {
    Stop,
    Fail,
}

fn arm(disk: &mut MemDisk, aim: Aim, call: u64, pick: u64) {
    match aim {
        Aim::Stop => disk.arm(Some(Stop { call, pick }), None),
        Aim::Fail => disk.arm(None, Some(call)),
    }
}

/// A crash, or else a disk of which no call fails any more.
fn end(disk: &mut MemDisk, crashes: bool, pick: u64) -> Option<()> {
    if crashes {
        return disk.crash(pick).ok();
    }
    disk.arm(None, None);
    Some(())
}

/// A term, a vote and the entries 1 and 2.
fn prepared(alloc: Global, disk: &mut MemDisk) -> Option<Store> {
    let (mut store, _kept) = Store::load(alloc, disk).ok()?;
    store.set_meta(disk, 1, 3).ok()?;
    add(alloc, disk, &mut store, 1, 3)?;
    Some(store)
}

/// The number of entries, if their bytes are those that were added.
fn entries_in(kept: &Kept) -> Option<usize> {
    let mut index: u64 = 1;
    for entry in kept.entries.as_slice() {
        if entry.bytes.as_slice().first().copied().map(u64::from) != Some(index) {
            return None;
        }
        index = index.saturating_add(1);
    }
    Some(kept.entries.len())
}

/// The place among the outcomes of what a load finds, if it is one of them.
fn found(alloc: Global, disk: &mut MemDisk) -> Option<usize> {
    let (_store, kept) = Store::load(alloc, disk).ok()?;
    if kept.term != 1 || kept.vote != 3 || kept.first != 1 {
        return None;
    }
    match entries_in(&kept)? {
        2 => Some(0),
        4 => Some(1),
        _ => None,
    }
}

/// What is found where the entries 3 and 4 were added and a call of that failed or stopped. After `Ok` it is the new one.
fn after_batch(
    alloc: Global,
    begins: bool,
    aim: Aim,
    crashes: bool,
    call: u64,
    pick: u64,
) -> Option<usize> {
    let mut disk = MemDisk::new(alloc);
    let mut store = prepared(alloc, &mut disk)?;
    if begins {
        let (loaded, _kept) = Store::load(alloc, &mut disk).ok()?;
        store = loaded;
    }
    arm(&mut disk, aim, call, pick);
    let done = add(alloc, &mut disk, &mut store, 3, 5).is_some();
    end(&mut disk, crashes, pick)?;
    let found = found(alloc, &mut disk)?;
    if done && found != 1 {
        return None;
    }
    Some(found)
}

/// How many picks of a crash are tried. Without a crash one is enough.
fn picks(crashes: bool) -> u64 {
    if crashes { 4 } else { 1 }
}

/// What is found over some picks.
fn batch_outcomes(
    alloc: Global,
    begins: bool,
    aim: Aim,
    crashes: bool,
    call: u64,
) -> Option<Outcomes> {
    let mut found = [false; 2];
    for pick in 0..picks(crashes) {
        match after_batch(alloc, begins, aim, crashes, call, pick)? {
            0 => found[0] = true,
            _ => found[1] = true,
        }
    }
    Some(found)
}

#[test]
fn each_stop_or_failure_of_a_batch_leaves_the_log_before_or_after(rt: HostRuntime) {
    for (begins, aim, crashes, wanted) in BATCHES {
        let mut call: u64 = 0;
        for outcomes in wanted {
            call = call.saturating_add(1);
            let found = batch_outcomes(rt.alloc(), *begins, *aim, *crashes, call);
            assert_eq!(rt; found, Some(*outcomes));
        }
    }
}

/// How many calls of a load are tried, which is more than it makes.
const LOAD_CALLS: u64 = 12;

/// What is found where the sync of a batch failed, then a call of a load failed or stopped, and then a crash came or none.
fn after_load(alloc: Global, aim: Aim, crashes: bool, call: u64, pick: u64) -> Option<usize> {
    let mut disk = MemDisk::new(alloc);
    let mut store = prepared(alloc, &mut disk)?;
    arm(&mut disk, Aim::Fail, 2, 0);
    let _done = add(alloc, &mut disk, &mut store, 3, 5);
    arm(&mut disk, aim, call, pick);
    let _loaded = Store::load(alloc, &mut disk).is_ok();
    end(&mut disk, crashes, pick)?;
    found(alloc, &mut disk)
}

/// What is found over all calls of a load and some picks.
fn load_outcomes(alloc: Global, aim: Aim, crashes: bool) -> Option<Outcomes> {
    let mut found = [false; 2];
    for call in 1..LOAD_CALLS {
        for pick in 0..picks(crashes) {
            match after_load(alloc, aim, crashes, call, pick)? {
                0 => found[0] = true,
                _ => found[1] = true,
            }
        }
    }
    Some(found)
}

#[test]
fn each_stop_or_failure_of_a_load_leaves_a_folder_that_loads(rt: HostRuntime) {
    assert_eq!(rt; load_outcomes(rt.alloc(), Aim::Stop, true), Some(BOTH));
    assert_eq!(rt; load_outcomes(rt.alloc(), Aim::Fail, true), Some(BOTH));
    assert_eq!(rt; load_outcomes(rt.alloc(), Aim::Fail, false), Some(NEW));
}
