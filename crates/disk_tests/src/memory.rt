ghost use Rattle.dq_base.specs.Names.{IsName};

use disk_model::*;
use std::alloc::Global;
use std::test::Fail;

/// One of two files.
#[derive(Clone, Copy)]
enum File {
    A,
    B,
}

fn name(file: File) -> &'static str
    ensures { IsName result.now }
{
    match file {
        File::A => "a",
        File::B => "b",
    }
}

/// A call of a row.
#[derive(Clone, Copy)]
enum Step {
    Write(File, u64, &'static [u8]),
    Cut(File, u64),
    Sync(File),
    Remove(File),
    SyncNames,
    /// Writes the file whole, if it isn't there yet.
    Make(File, &'static [u8]),
    Arm(Stop, Option<u64>),
}

const A: File = File::A;

const B: File = File::B;

fn make(disk: &mut MemDisk, step: Step) -> Result<(), DiskFault> {
    match step {
        Step::Write(file, at, bytes) => disk.write_at(name(file), at, bytes),
        Step::Cut(file, length) => disk.cut(name(file), length),
        Step::Sync(file) => disk.sync(name(file)),
        Step::Remove(file) => disk.remove(name(file)),
        Step::SyncNames => disk.sync_names(),
        Step::Make(file, bytes) => replace(disk, name(file), bytes, false),
        Step::Arm(stop, fail) => {
            disk.arm(Some(stop), fail);
            Ok(())
        }
    }
}

/// Makes calls, of which none is to fail.
fn run(disk: &mut MemDisk, steps: &[Step]) -> Result<(), DiskFault> {
    for step in steps {
        make(disk, *step)?;
    }
    Ok(())
}

/// Whether a file is there.
fn is_listed(disk: &mut MemDisk, file: File) -> Result<bool, DiskFault> {
    for own in disk.list()?.as_slice() {
        if own.as_str() == name(file) {
            return Ok(true);
        }
    }
    Ok(false)
}

/// Whether a file is there with these bytes, or else isn't there.
fn is_left(
    disk: &mut MemDisk,
    file: File,
    wanted: Option<&[u8]>,
    buffer: &mut [u8],
) -> Result<bool, DiskFault> {
    let is_there = is_listed(disk, file)?;
    let count = disk.read_at(name(file), 0, buffer)?;
    match wanted {
        Some(bytes) => Ok(is_there && &buffer[..count] == bytes),
        None => Ok(!is_there && count == 0),
    }
}

/// What is left of `a` and of `b`.
#[derive(Clone, Copy)]
struct Left {
    a: Option<&'static [u8]>,
    b: Option<&'static [u8]>,
}

/// Whether a crash by a pick leaves the files so.
fn leaves(disk: &mut MemDisk, pick: u64, left: Left) -> Result<bool, DiskFault> {
    let mut buffer = [0; 64];
    disk.crash(pick)?;
    Ok(is_left(disk, A, left.a, &mut buffer)? && is_left(disk, B, left.b, &mut buffer)?)
}

/// Calls, the pick of the crash after them, and what it leaves.
struct Row {
    steps: &'static [Step],
    pick: u64,
    left: Left,
}

/// Two files, whose names no sync covers.
const TWO: &[Step] = &[Step::Write(A, 0, b"abcd"), Step::Write(B, 0, b"xyz")];

/// A file whose bytes are synced and whose name isn't.
const UNNAMED: &[Step] = &[Step::Write(A, 0, b"abcd"), Step::Sync(A)];

/// A file whose bytes are synced and whose name isn't, with a write after that.
const LONGER: &[Step] = &[
    Step::Write(A, 0, b"abcd"),
    Step::Sync(A),
    Step::Write(A, 4, b"ef"),
];

/// A file whose name is synced, and whose bytes aren't.
const NAMED: &[Step] = &[Step::Write(A, 0, b"abcd"), Step::SyncNames];

/// A cut that changes nothing, and one that does.
const CUT: &[Step] = &[
    Step::Write(A, 0, b"abcd"),
    Step::Sync(A),
    Step::SyncNames,
    Step::Cut(A, 9),
    Step::Cut(A, 1),
];

const REMOVED: &[Step] = &[
    Step::Write(A, 0, b"abcd"),
    Step::Sync(A),
    Step::SyncNames,
    Step::Remove(A),
];

/// A write of a file that is gone certainly, which is still counted.
const GONE: &[Step] = &[
    Step::Write(A, 0, b"abcd"),
    Step::Remove(A),
    Step::SyncNames,
    Step::Write(B, 0, b"xyz"),
];

/// A name that is made between two syncs of the names; no bytes are synced.
const BETWEEN: &[Step] = &[
    Step::Write(A, 0, b"abcd"),
    Step::SyncNames,
    Step::Write(B, 0, b"xyz"),
    Step::SyncNames,
];

const ROWS: &[Row] = &[
    Row {
        steps: BETWEEN,
        pick: 0,
        left: Left {
            a: Some(b""),
            b: Some(b""),
        },
    },
    Row {
        steps: BETWEEN,
        pick: 4,
        left: Left {
            a: Some(b"abcd"),
            b: Some(b"x"),
        },
    },
    Row {
        steps: TWO,
        pick: 0,
        left: Left { a: None, b: None },
    },
    Row {
        steps: TWO,
        pick: 1,
        left: Left {
            a: Some(b"abcd"),
            b: None,
        },
    },
    Row {
        steps: TWO,
        pick: 2,
        left: Left {
            a: Some(b"abcd"),
            b: Some(b"xyz"),
        },
    },
    Row {
        steps: TWO,
        pick: 3,
        left: Left {
            a: Some(b"ab"),
            b: None,
        },
    },
    Row {
        steps: TWO,
        pick: 4,
        left: Left {
            a: Some(b"abcd"),
            b: Some(b"x"),
        },
    },
    Row {
        steps: TWO,
        pick: 6,
        left: Left { a: None, b: None },
    },
    Row {
        steps: UNNAMED,
        pick: 0,
        left: Left { a: None, b: None },
    },
    Row {
        steps: UNNAMED,
        pick: 2,
        left: Left { a: None, b: None },
    },
    Row {
        steps: LONGER,
        pick: 4,
        left: Left {
            a: Some(b"abcde"),
            b: None,
        },
    },
    Row {
        steps: NAMED,
        pick: 0,
        left: Left {
            a: Some(b""),
            b: None,
        },
    },
    Row {
        steps: NAMED,
        pick: 2,
        left: Left {
            a: Some(b"ab"),
            b: None,
        },
    },
    Row {
        steps: CUT,
        pick: 0,
        left: Left {
            a: Some(b"abcd"),
            b: None,
        },
    },
    Row {
        steps: CUT,
        pick: 1,
        left: Left {
            a: Some(b"a"),
            b: None,
        },
    },
    Row {
        steps: REMOVED,
        pick: 2,
        left: Left {
            a: Some(b"abcd"),
            b: None,
        },
    },
    Row {
        steps: REMOVED,
        pick: 1,
        left: Left { a: None, b: None },
    },
    Row {
        steps: GONE,
        pick: 1,
        left: Left { a: None, b: None },
    },
    Row {
        steps: GONE,
        pick: 2,
        left: Left {
            a: None,
            b: Some(b"xyz"),
        },
    },
];

fn leaves_so(disk: &mut MemDisk, row: &Row) -> Result<bool, DiskFault> {
    run(disk, row.steps)?;
    leaves(disk, row.pick, row.left)
}

#[test]
fn a_pick_keeps_the_first_calls_and_maybe_half_of_the_next(rt: HostRuntime) {
    for row in ROWS {
        let mut disk = MemDisk::new(rt.alloc());
        assert_eq!(rt; leaves_so(&mut disk, row), Ok(true));
    }
}

const FAILED: Result<(), DiskFault> = Err(DiskFault::Failed);

/// Two blocks of metadata, as far as the disk sees them.
const OLD: &[u8] = b"1111111111222222222233333333334444444444";

const NEW: &[u8] = b"aaaaaaaaaabbbbbbbbbbccccccccccdddddddddd";

/// Calls with their answers, of which two fail and one of them stops the disk, and what a crash then leaves.
struct StoppedRow {
    calls: &'static [(Step, Result<(), DiskFault>)],
    left: Left,
}

const STOPPED_ROWS: &[StoppedRow] = &[
    StoppedRow {
        calls: &[
            (Step::Make(A, OLD), Ok(())),
            (Step::Arm(Stop { call: 1, pick: 0 }, None), Ok(())),
            (Step::Make(B, NEW), FAILED),
            (Step::SyncNames, FAILED),
        ],
        left: Left {
            a: Some(OLD),
            b: None,
        },
    },
    StoppedRow {
        calls: &[
            (Step::Make(A, OLD), Ok(())),
            (Step::Arm(Stop { call: 1, pick: 1 }, None), Ok(())),
            (Step::Make(B, NEW), FAILED),
            (Step::SyncNames, FAILED),
        ],
        left: Left {
            a: Some(OLD),
            b: Some(NEW),
        },
    },
    StoppedRow {
        calls: &[
            (Step::Make(A, OLD), Ok(())),
            (Step::Arm(Stop { call: 1, pick: 2 }, None), Ok(())),
            (Step::Make(B, NEW), FAILED),
            (Step::SyncNames, FAILED),
        ],
        left: Left {
            a: Some(OLD),
            b: Some(b"aaaaaaaaaabbbbbbbbbb"),
        },
    },
    // A call that fails does nothing, and a stopped sync is not made.
    StoppedRow {
        calls: &[
            (Step::Arm(Stop { call: 4, pick: 0 }, Some(2)), Ok(())),
            (Step::Write(A, 0, b"abcd"), Ok(())),
            (Step::Remove(A), FAILED),
            (Step::SyncNames, Ok(())),
            (Step::Sync(A), FAILED),
        ],
        left: Left {
            a: Some(b""),
            b: None,
        },
    },
];

/// Whether calls answer so.
fn answers(disk: &mut MemDisk, calls: &[(Step, Result<(), DiskFault>)]) -> bool {
    for (step, answer) in calls {
        if make(disk, *step) != *answer {
            return false;
        }
    }
    true
}

/// Whether the disk stops in the calls of a row, and is left so by the pick of the stop and not by that of the crash.
fn stops_so(disk: &mut MemDisk, row: &StoppedRow) -> Result<bool, DiskFault> {
    let stops = answers(disk, row.calls) && disk.stopped();
    let left = leaves(disk, 5, row.left)?;
    Ok(stops && left && !disk.stopped() && disk.faults() == 2)
}

#[test]
fn a_stop_leaves_what_its_pick_says(rt: HostRuntime) {
    for row in STOPPED_ROWS {
        let mut disk = MemDisk::new(rt.alloc());
        assert_eq!(rt; stops_so(&mut disk, row), Ok(true));
    }
}

#[test]
fn faults_say_why(rt: HostRuntime) -> Result<(), Fail> {
    for (fault, text) in [
        (DiskFault::Failed, "the disk failed"),
        (DiskFault::NoMemory, "out of memory"),
    ] {
        assert_eq!(rt; format!(in rt.alloc(); "{fault}")?.as_str(), text);
    }
    Ok(())
}
