ghost use Rattle.dq_base.specs.Names.{IsName};

use disk_model::{Disk, DiskFault};
use folder_disk::DirDisk;
use std::fs;
use std::os::unix::fs::{PermissionsExt, symlink};
use std::test::Fail;

const FOLDER: &str = "dir_disk_test";

/// A file of the folder; `Away` would be none of it.
#[derive(Clone, Copy)]
enum Place {
    A,
    B,
    Away,
}

fn name(place: Place) -> &'static str
    ensures { IsName result.now }
{
    match place {
        Place::A => "a",
        Place::B => "b",
        Place::Away => "../a",
    }
}

/// A call, or what one shows.
#[derive(Clone, Copy)]
enum Step {
    Write(Place, u64, &'static [u8]),
    Cut(Place, u64),
    Sync(Place),
    Remove(Place),
    SyncNames,
    /// These bytes are read from a place on, into a buffer of four.
    Reads(Place, u64, &'static [u8]),
    /// This many files are listed.
    Lists(usize),
}

/// Makes a call, and answers whether it shows what it is to show.
fn make(disk: &mut DirDisk<HostRuntime>, step: Step) -> Result<bool, DiskFault> {
    match step {
        Step::Write(place, at, bytes) => disk.write_at(name(place), at, bytes)?,
        Step::Cut(place, length) => disk.cut(name(place), length)?,
        Step::Sync(place) => disk.sync(name(place))?,
        Step::Remove(place) => disk.remove(name(place))?,
        Step::SyncNames => disk.sync_names()?,
        Step::Reads(place, at, wanted) => {
            let mut buffer = [0; 4];
            let count = disk.read_at(name(place), at, &mut buffer)?;
            return Ok(&buffer[..count] == wanted);
        }
        Step::Lists(count) => return Ok(disk.list()?.len() == count),
    }
    Ok(true)
}

/// `a` is written, and `b` written and removed. A missing name is truncated, synced and removed without a change.
const STEPS: &[(Step, Result<bool, DiskFault>)] = &[
    (Step::Write(Place::A, 0, b"abcdef"), Ok(true)),
    (Step::Write(Place::A, 4, b"EFGH"), Ok(true)),
    (Step::Write(Place::B, 0, b"x"), Ok(true)),
    (Step::Lists(2), Ok(true)),
    (Step::Cut(Place::A, 7), Ok(true)),
    (Step::Cut(Place::A, 9), Ok(true)),
    (Step::Sync(Place::A), Ok(true)),
    (Step::Remove(Place::B), Ok(true)),
    (Step::Cut(Place::B, 0), Ok(true)),
    (Step::Sync(Place::B), Ok(true)),
    (Step::Remove(Place::B), Ok(true)),
    (Step::SyncNames, Ok(true)),
    (Step::Reads(Place::A, 1, b"bcdE"), Ok(true)),
    (Step::Reads(Place::A, 5, b"FG"), Ok(true)),
    (Step::Reads(Place::B, 0, b""), Ok(true)),
    (Step::Lists(1), Ok(true)),
    (Step::Remove(Place::Away), Err(DiskFault::Failed)),
];

#[test]
fn a_folder_keeps_files_under_flat_names(rt: HostRuntime) -> Result<(), Fail> {
    let _ = fs::remove_dir_all(&rt, FOLDER);
    fs::create_dir(&rt, FOLDER)?;
    let mut disk = DirDisk::in_folder(rt.clone()?, FOLDER)?;
    for (step, answer) in STEPS {
        assert_eq!(rt; make(&mut disk, *step), *answer);
    }
    assert_eq!(rt; disk.faults(), 1);
    fs::remove_dir_all(&rt, FOLDER)?;
    Ok(())
}

const LOCKED: &str = "dir_disk_locked";

#[test]
fn a_folder_is_one_disk_at_a_time(rt: HostRuntime) -> Result<(), Fail> {
    let _ = fs::remove_dir_all(&rt, LOCKED);
    fs::create_dir(&rt, LOCKED)?;
    let mut first = DirDisk::in_folder(rt.clone()?, LOCKED)?;
    let mut second = DirDisk::in_folder(rt.clone()?, LOCKED)?;
    assert_eq!(rt; make(&mut first, Step::Lists(0)), Ok(true));
    assert_eq!(rt; make(&mut second, Step::Lists(0)), Err(DiskFault::Failed));
    drop(first);
    assert_eq!(rt; make(&mut second, Step::Lists(0)), Ok(true));
    fs::remove_dir_all(&rt, LOCKED)?;
    Ok(())
}

const LINKED: &str = "dir_disk_linked";

/// Calls that a symlink refuses.
const ON_FILES: &[Step] = &[
    Step::Reads(Place::A, 0, b"kept"),
    Step::Write(Place::A, 0, b"x"),
    Step::Cut(Place::A, 0),
    Step::Sync(Place::A),
];

/// A symlink is listed, and no call reads, writes, truncates or syncs the file that it leads to.
#[test]
fn a_link_is_not_a_file(rt: HostRuntime) -> Result<(), Fail> {
    let _ = fs::remove_dir_all(&rt, LINKED);
    fs::create_dir(&rt, LINKED)?;
    fs::write(&rt, "dir_disk_linked/kept", "kept")?;
    symlink(&rt, "kept", "dir_disk_linked/a")?;
    let mut disk = DirDisk::in_folder(rt.clone()?, LINKED)?;
    assert_eq!(rt; make(&mut disk, Step::Lists(2)), Ok(true));
    for step in ON_FILES {
        assert_eq!(rt; make(&mut disk, *step), Err(DiskFault::Failed));
    }
    let kept = fs::read_to_string(&rt, "dir_disk_linked/kept")?;
    assert!(rt; kept.as_str() == "kept");
    fs::remove_dir_all(&rt, LINKED)?;
    Ok(())
}

const PRIVATE: &str = "dir_disk_private";

#[test]
fn a_new_file_is_its_owner_alone(rt: HostRuntime) -> Result<(), Fail> {
    let _ = fs::remove_dir_all(&rt, PRIVATE);
    fs::create_dir(&rt, PRIVATE)?;
    let mut disk = DirDisk::in_folder(rt.clone()?, PRIVATE)?;
    assert_eq!(rt; make(&mut disk, Step::Write(Place::A, 0, b"x")), Ok(true));
    let mode = fs::metadata(&rt, "dir_disk_private/a")?
        .permissions()
        .mode();
    assert_eq!(rt; mode & 0o777, 0o600);
    fs::remove_dir_all(&rt, PRIVATE)?;
    Ok(())
}
