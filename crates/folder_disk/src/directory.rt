ghost use Rattle.std.specs.Prelude.{◌≡◌, ◌≤◌, false, length, IfOk};
ghost use Rattle.dq_base.specs.Faults.{one_more, Rose};
ghost use Rattle.disk_model.specs.declared.faults.DiskFault;
ghost use Rattle.folder_disk.specs.Untold.{no_states};

use disk_model::{Disk, DiskFault};
use dq_base::{Items, Name};
use std::alloc::AllocError;
use std::fs::{File, OpenOptions};
use std::io::ErrorKind;
use std::marker::Model;
use std::os::unix::fs::{FileExt, OpenOptionsExt};
use std::rt::Files;
use std::{fs, io};

/// The mode of a file that a disk makes: its owner alone reads and writes it.
const FILE_MODE: u32 = 0o600;

/// The file that was written last, by its name.
#[derive(Drop)]
struct Written {
    name: String,
    file: File,
}

/// A call of a disk that failed, with the system's error.
#[derive(Drop)]
pub struct CallFault {
    /// What was called for: `list`, `read`, `write`, `cut`, `sync`, `remove` or `sync the folder`.
    pub call: &'static str,
    /// What the system said.
    pub error: io::Error,
}

/// A disk over the files of a folder of the operating system.
///
/// It says nothing of what is on it: that real files follow what the trait says is trusted, and with it that an `Ok` of
/// a sync after one that failed makes all sure, which some systems break. A name that has a `/`, or is `.` or `..`, is
/// none of the folder: each call with it answers `Failed` and does nothing. So does each read, write, truncation and sync of a
/// name at which a symlink is, or another thing that isn't a file. A new file is read and written by its owner alone.
///
/// The first call opens the folder and locks it, by a lock on the folder itself that ends with the disk: no file is made
/// for it. While another disk has the folder that call answers `Failed` and does nothing, and so does each call until the
/// other one is gone.
///
/// The file that was written last stays open until another one is written, or it is removed: a sync is then of the handle
/// that wrote, and no error of the system is lost between a close and an open. Each other call opens its file again and
/// makes its path, which takes memory in the order of its name. Its count of faults rises at each `Failed`, that of wants
/// at each `NoMemory`, and that of calls at each call; all stay at 18,446,744,073,709,551,615.
#[derive(Drop)]
pub struct DirDisk<R: Files<File = File> + AllocGlobal + Clone + Drop> {
    rt: R,
    folder: String,
    // the folder, from the first call on, locked
    locked: Option<File>,
    written: Option<Written>,
    // whether each call fails from now on
    is_refused: bool,
    last: Option<CallFault>,
    faults: u64,
    wants: u64,
    made: u64,
}

impl<R: Files<File = File> + AllocGlobal + Clone + Drop> Model for DirDisk<R> {
    ghost use Rattle.folder_disk.specs.Untold.{Counts};

    ghost Value = { Counts };

    ghost view = { λ a. record { faults = a.faults; wants = a.wants; made = a.made } };
}

/// Refuses a name that isn't one of a flat folder.
fn check_flat(name: &str) -> io::Result<()> {
    if name.contains('/') || name == "." || name == ".." {
        return Err(ErrorKind::InvalidFilename.into());
    }
    Ok(())
}

/// Refuses a path at which something is that isn't a file, as a symlink.
fn check_file<R: Files + AllocGlobal>(rt: &R, path: &str) -> io::Result<()> {
    let found = match fs::symlink_metadata(rt, path) {
        Ok(found) => found,
        Err(error) if error.kind() == ErrorKind::NotFound => return Ok(()),
        Err(error) => return Err(error),
    };
    if found.is_file() {
        return Ok(());
    }
    let what = if found.is_symlink() {
        "a symbolic link"
    } else {
        "not a file"
    };
    let text = format!(in rt.alloc(); "{path} is {what}")?;
    Err(io::Error::other(text.as_str()))
}

/// Opens a file where there is one.
fn opened<R: Files<File = File> + AllocGlobal>(
    rt: &R,
    options: &OpenOptions,
    path: &str,
) -> io::Result<Option<File>> {
    check_file(rt, path)?;
    match options.open(rt, path) {
        Ok(file) => Ok(Some(file)),
        Err(error) if error.kind() == ErrorKind::NotFound => Ok(None),
        Err(error) => Err(error),
    }
}

/// Whether no entry can be made of a name of the folder, as it isn't UTF-8.
fn is_other(error: &io::Error) -> bool {
    error.kind() == ErrorKind::InvalidFilename
}

/// Fills a buffer with the bytes of a file from a place on, as many as there are and fit.
fn fill(file: &File, at: u64, into: &mut [u8]) -> io::Result<usize>
    ensures { IfOk result (λ count. count ≤ length into.new) }
{
    let mut count = 0;
    'reads: for _ in 0..u64::MAX {
        if count >= into.len() {
            break;
        }
        match file.read_at(&mut into[count..], at.saturating_add(count as u64)) {
            Ok(0) => break,
            Ok(more) => count += more,
            Err(error) if error.kind() == ErrorKind::Interrupted => {}
            Err(error) => return Err(error),
        }
    }
    Ok(count)
}

impl<R: Files<File = File> + AllocGlobal + Clone + Drop> DirDisk<R> {
    /// A disk over the working folder, with no fault so far.
    pub fn new(rt: R) -> Result<DirDisk<R>, AllocError>
        ensures { IfOk result (λ disk. disk ≡ record { faults = 0; wants = 0; made = 0 }) }
    {
        DirDisk::in_folder(rt, ".")
    }

    /// A disk over the folder of a path, which is there.
    pub fn in_folder(rt: R, folder: &str) -> Result<DirDisk<R>, AllocError>
        ensures { IfOk result (λ disk. disk ≡ record { faults = 0; wants = 0; made = 0 }) }
    {
        let folder = String::from_str(rt.alloc(), folder)?;
        Ok(DirDisk {
            rt,
            folder,
            locked: None,
            written: None,
            is_refused: false,
            last: None,
            faults: 0,
            wants: 0,
            made: 0,
        })
    }

    /// How many times a call answered `Failed`.
    pub fn faults(&self) -> u64
        ensures { result ≡ self.now.faults }
    {
        self.faults
    }

    /// The last call that answered `Failed` or `NoMemory`, if there is one. If the disk was refused it is the last one before that.
    pub fn last_fault(&self) -> Option<&CallFault> {
        self.last.as_ref()
    }

    /// Whether it was refused.
    pub fn is_refused(&self) -> bool {
        self.is_refused
    }

    /// From now on each call answers `Failed` and does nothing, as where the folder is another one's.
    pub fn refuse(&mut self)
        ensures { self.new ≡ self.old }
    {
        self.is_refused = true;
    }

    /// Counts a call.
    fn count(&mut self)
        ensures made { self.new.made ≡ one_more self.old.made }
        ensures faults { self.new.faults ≡ self.old.faults }
        ensures wants { self.new.wants ≡ self.old.wants }
    {
        self.made = self.made.saturating_add(1);
    }

    /// Counts a fault or a out of memory of a call, and keeps the last one.
    fn fault(&mut self, call: &'static str, error: io::Error) -> DiskFault
        ensures never_falls { self.old.faults ≤ self.new.faults }
        ensures rose { result ≡ DiskFault.Failed → Rose self.old.faults self.new.faults }
        ensures wants_never_fall { self.old.wants ≤ self.new.wants }
        ensures wanted { result ≡ DiskFault.NoMemory → Rose self.old.wants self.new.wants }
        ensures made { self.new.made ≡ self.old.made }
    {
        let is_want = error.kind() == ErrorKind::OutOfMemory;
        if !self.is_refused {
            self.last = Some(CallFault { call, error });
        }
        if is_want {
            self.wants = self.wants.saturating_add(1);
            return DiskFault::NoMemory;
        }
        self.faults = self.faults.saturating_add(1);
        DiskFault::Failed
    }

    /// Locks the folder, if that wasn't done yet.
    fn lock(&mut self) -> io::Result<()>
        ensures { self.new ≡ self.old }
    {
        if self.is_refused {
            return Err(ErrorKind::PermissionDenied.into());
        }
        if self.locked.is_some() {
            return Ok(());
        }
        let folder = File::open(&self.rt, self.folder.as_str())?;
        folder.try_lock()?;
        self.locked = Some(folder);
        Ok(())
    }

    fn path(&self, name: &str) -> io::Result<String> {
        check_flat(name)?;
        let mut path = String::from_str(self.rt.alloc(), self.folder.as_str())?;
        path.push('/')?;
        path.push_str(name)?;
        Ok(path)
    }

    fn names(&mut self) -> io::Result<Vec<Name>>
        ensures { self.new ≡ self.old }
    {
        self.lock()?;
        let mut names = Vec::new(self.rt.alloc());
        for entry in fs::read_dir(&self.rt, self.folder.as_str())? {
            let entry = match entry {
                Err(error) if is_other(&error) => continue,
                entry => entry?,
            };
            let found = entry.metadata()?;
            if !found.is_file() && !found.is_symlink() {
                continue;
            }
            let text = String::from_str(self.rt.alloc(), entry.file_name())?;
            if let Some(name) = Name::new(text) {
                names.push(name)?;
            }
        }
        Ok(names)
    }

    fn read_from(&mut self, name: &str, at: u64, into: &mut [u8]) -> io::Result<usize>
        ensures bound { IfOk result (λ count. count ≤ length into.new) }
        ensures same { self.new ≡ self.old }
    {
        self.lock()?;
        let path = self.path(name)?;
        match opened(&self.rt, OpenOptions::new().read(true), path.as_str())? {
            Some(file) => fill(&file, at, into),
            None => Ok(0),
        }
    }

    /// Whether the file of this name is the one that was written last.
    fn is_open(&self, name: &str) -> bool {
        match &self.written {
            Some(written) => written.name.as_str() == name,
            None => false,
        }
    }

    /// Opens the file of a name to write to it, if it isn't the one that was written last.
    fn open(&mut self, name: &str) -> io::Result<()>
        ensures { self.new ≡ self.old }
    {
        if self.is_open(name) {
            return Ok(());
        }
        let path = self.path(name)?;
        check_file(&self.rt, path.as_str())?;
        let own = String::from_str(self.rt.alloc(), name)?;
        let file = OpenOptions::new()
            .read(true)
            .write(true)
            .create(true)
            .mode(FILE_MODE)
            .open(&self.rt, path.as_str())?;
        self.written = Some(Written { name: own, file });
        Ok(())
    }

    /// Writes parts after each other. The file stays open, also if a write failed.
    fn write_to(&mut self, name: &str, at: u64, parts: [&[u8]; 3]) -> io::Result<()>
        ensures { self.new ≡ self.old }
    {
        self.lock()?;
        self.open(name)?;
        let Some(written) = &self.written else {
            return Err(ErrorKind::NotFound.into());
        };
        let mut place = at;
        for part in &parts {
            if !part.is_empty() {
                written.file.write_all_at(part, place)?;
            }
            place = place.saturating_add(part.len() as u64);
        }
        Ok(())
    }

    fn cut_to(&mut self, name: &str, length: u64) -> io::Result<()>
        ensures { self.new ≡ self.old }
    {
        self.lock()?;
        let path = self.path(name)?;
        if let Some(file) = opened(&self.rt, OpenOptions::new().write(true), path.as_str())? {
            if file.metadata()?.len() > length {
                file.set_len(length)?;
            }
        }
        Ok(())
    }

    fn sync_file(&mut self, name: &str) -> io::Result<()>
        ensures { self.new ≡ self.old }
    {
        self.lock()?;
        if let Some(written) = &self.written {
            if written.name.as_str() == name {
                return written.file.sync_data();
            }
        }
        let path = self.path(name)?;
        if let Some(file) = opened(&self.rt, OpenOptions::new().read(true), path.as_str())? {
            file.sync_data()?;
        }
        Ok(())
    }

    fn remove_file(&mut self, name: &str) -> io::Result<()>
        ensures { self.new ≡ self.old }
    {
        self.lock()?;
        let path = self.path(name)?;
        if self.is_open(name) {
            self.written = None;
        }
        match fs::remove_file(&self.rt, path.as_str()) {
            Err(error) if error.kind() != ErrorKind::NotFound => Err(error),
            _ => Ok(()),
        }
    }

    fn sync_folder(&mut self) -> io::Result<()>
        ensures { self.new ≡ self.old }
    {
        self.lock()?;
        match &self.locked {
            Some(folder) => folder.sync_all(),
            None => Err(ErrorKind::NotFound.into()),
        }
    }
}

impl<R: Files<File = File> + AllocGlobal + Clone + Drop> Disk for DirDisk<R> {
    ghost tells = { false };

    ghost states = { λ disk. no_states };

    ghost faults = { λ disk. disk.faults };

    ghost wants = { λ disk. disk.wants };

    ghost made = { λ disk. disk.made };

    /// The files and symlinks of the folder whose names are names of a `Name`; folders and names that aren't UTF-8 aren't listed.
    /// A symlink is listed so that a read of it fails, and the file isn't taken for one that isn't there.
    #[tactic(auto, using(crate::proofs::Telling::looks_untold))]
    fn list(&mut self) -> Result<Items<Name>, DiskFault> {
        self.count();
        match self.names() {
            Ok(names) => Ok(Items::new(names)),
            Err(error) => Err(self.fault("list", error)),
        }
    }

    #[tactic(auto, using(crate::proofs::Telling::looks_untold))]
    fn read_at(&mut self, name: &str, at: u64, into: &mut [u8]) -> Result<usize, DiskFault> {
        self.count();
        match self.read_from(name, at, into) {
            Ok(count) => Ok(count),
            Err(error) => Err(self.fault("read", error)),
        }
    }

    /// One positioned write of all bytes.
    #[tactic(auto, using(crate::proofs::Telling::steps_untold))]
    fn write_at(&mut self, name: &str, at: u64, bytes: &[u8]) -> Result<(), DiskFault> {
        self.count();
        match self.write_to(name, at, [bytes, &[], &[]]) {
            Ok(()) => Ok(()),
            Err(error) => Err(self.fault("write", error)),
        }
    }

    /// Up to three positioned writes, one for each part that isn't empty.
    #[tactic(auto, using(crate::proofs::Telling::steps_untold))]
    fn write_parts(
        &mut self,
        name: &str,
        at: u64,
        head: &[u8],
        body: &[u8],
        tail: &[u8],
    ) -> Result<(), DiskFault> {
        self.count();
        match self.write_to(name, at, [head, body, tail]) {
            Ok(()) => Ok(()),
            Err(error) => Err(self.fault("write", error)),
        }
    }

    #[tactic(auto, using(crate::proofs::Telling::steps_untold))]
    fn cut(&mut self, name: &str, length: u64) -> Result<(), DiskFault> {
        self.count();
        match self.cut_to(name, length) {
            Ok(()) => Ok(()),
            Err(error) => Err(self.fault("cut", error)),
        }
    }

    /// An `fdatasync`.
    #[tactic(auto, using(crate::proofs::Telling::steps_untold))]
    fn sync(&mut self, name: &str) -> Result<(), DiskFault> {
        self.count();
        match self.sync_file(name) {
            Ok(()) => Ok(()),
            Err(error) => Err(self.fault("sync", error)),
        }
    }

    #[tactic(auto, using(crate::proofs::Telling::steps_untold))]
    fn remove(&mut self, name: &str) -> Result<(), DiskFault> {
        self.count();
        match self.remove_file(name) {
            Ok(()) => Ok(()),
            Err(error) => Err(self.fault("remove", error)),
        }
    }

    /// An `fsync` of the folder.
    #[tactic(auto, using(crate::proofs::Telling::steps_untold))]
    fn sync_names(&mut self) -> Result<(), DiskFault> {
        self.count();
        match self.sync_folder() {
            Ok(()) => Ok(()),
            Err(error) => Err(self.fault("sync the folder", error)),
        }
    }
}
