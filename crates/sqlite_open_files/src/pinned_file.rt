ghost use Rattle.std.specs.Prelude.{◌≡◌, ◌+◌, ◌<◌, Bool, Option, None, length, take, drop, true, false, IsOk, Ok, OnOk, OnErr, refl};
ghost use Rattle.sqlite_disk.specs.Disk.{Holds, Torn, Cut, CountsFault};
ghost use Rattle.sqlite_disk.specs.Digest.{digest};
ghost use Rattle.sqlite_disk.specs.Refusal.{finds_no_room};
ghost use Rattle.sqlite_files.specs.Recording.{PastFile};
ghost use Rattle.sqlite_open_files.specs.Pins.{IsPinned};

use sqlite_disk::{Disk, Files, Tally};
use sqlite_files::{PageFile, PairFiles};
use std::io;
use std::marker::{Brand, Model, PhantomData};

/// What is known of files, by whether one is a log: what it was after an earlier call.
pub trait Pin {
    ghost pinned: { Bool → Option PastFile };
}

/// Nothing is known.
pub struct Loose;

impl Pin for Loose {
    ghost pinned = { λ _. None };
}

impl Pin for Brand {
    ghost pinned = { λ _. None };
}

/// A file in memory of which it is known what it was after an earlier call. What is known has no bytes, and each call keeps it.
#[derive(Drop)]
pub struct PinnedFile<K: Pin> {
    file: PageFile,
    of: PhantomData<K>,
}

impl<K: Pin> Model for PinnedFile<K> {
    ghost use Rattle.sqlite_files.specs.Recording.{Recorded};
    ghost use Rattle.sqlite_open_files.specs.Pins.{IsPinned};

    ghost Value = { Recorded };

    ghost view = { λ a. a.file };

    ghost invariant = { λ a. IsPinned K.pinned a.file };
}

impl PinnedFile<Loose> {
    /// A file of which nothing is known.
    pub(crate) fn loose(file: PageFile) -> PinnedFile<Loose>
        ensures { result ≡ file }
    {
        PinnedFile {
            file,
            of: PhantomData,
        }
    }
}

impl<K: Pin> PinnedFile<K> {
    /// The file alone.
    pub(crate) fn into_file(self) -> PageFile
        ensures { result ≡ self }
    {
        self.file
    }

    /// What is known of it. Nothing runs.
    pub fn tells(&self)
        ensures { IsPinned K.pinned self.now }
    {
        let _is_log = self.file.is_log();
    }

    /// The bytes that it has.
    pub fn bytes(&self) -> &[u8]
        ensures { result.now ≡ self.now.after }
    {
        self.file.bytes()
    }

    /// For each page the number of the last call that touched it, up to the last that one has touched.
    pub fn stamps(&self) -> &[u64]
        ensures { result.now ≡ self.now.stamps }
    {
        self.file.stamps()
    }

    /// The number of the last call that wrote, cut or grew it. It stays at 18,446,744,073,709,551,615.
    pub fn writes(&self) -> u64
        ensures { result ≡ self.now.writes }
    {
        self.file.writes()
    }

    /// Whether it is the log of its pair.
    pub fn is_log(&self) -> bool
        ensures { result ≡ self.now.is_log }
    {
        self.file.is_log()
    }
}

/// The two files of a pair, of which nothing is known.
pub fn loose_files(files: PairFiles) -> Files<PinnedFile<Loose>>
    ensures log { result.log ≡ files.log }
    ensures db { result.db ≡ files.db }
{
    let Files { log, db } = files;
    Files {
        log: PinnedFile::loose(log),
        db: PinnedFile::loose(db),
    }
}

/// The two files of a pair alone.
pub fn pair_files(files: Files<PinnedFile<Loose>>) -> PairFiles
    ensures log { result.log ≡ files.log }
    ensures db { result.db ≡ files.db }
{
    let Files { log, db } = files;
    Files {
        log: log.into_file(),
        db: db.into_file(),
    }
}

impl<K: Pin> Disk for PinnedFile<K> {
    ghost seen = { λ m. m.after };

    ghost may_leave = { λ m c. c ≡ m.after };

    ghost is_usable = { λ _. true };

    ghost faults = { λ m. m.faults };

    ghost is_clean = { λ _. true };

    ghost tally_of = { λ _. record { caught = 0; refused = 0 } };

    ghost key_of = { λ _. 0 };

    ghost is_fair = { λ _ _. true };

    ghost fair_if_clean = { λ _ _ _. refl };

    ghost seen_may_stay = { λ m. refl };

    fn mixes(&self) -> bool {
        false
    }

    fn key(&self) -> u64 {
        0
    }

    fn tally(&self) -> Tally {
        Tally {
            caught: 0,
            refused: 0,
        }
    }

    fn may_be_used(&self) -> bool {
        true
    }

    fn len(&mut self) -> io::Result<usize>
        ensures len { result ≡ Ok (length self.old.after) }
        ensures same { self.new ≡ self.old }
    {
        self.file.len()
    }

    fn read_at(&mut self, at: usize, buf: &mut [u8]) -> io::Result<()>
        ensures read { OnOk result (Holds self.old.after at buf.new) }
        ensures short { OnErr result (length self.old.after < at + length buf.old) }
        ensures same { self.new ≡ self.old }
    {
        self.file.read_at(at, buf)
    }

    fn read_checked(&mut self, key: u64, want: u64, at: usize, buf: &mut [u8]) -> io::Result<()>
        requires want { want ≡ digest key (take (length buf.old) (drop at self.old.after)) }
        ensures read { OnOk result (Holds self.old.after at buf.new) }
        ensures tested { OnOk result (digest key buf.new ≡ want) }
        ensures short { OnErr result (length self.old.after < at + length buf.old) }
        ensures same { self.new ≡ self.old }
    {
        self.file.read_checked(key, want, at, buf)
    }

    fn write_at(&mut self, at: usize, bytes: &[u8]) -> io::Result<()>
        ensures written { OnOk result (Holds self.new.after at bytes.now) }
        ensures others { Torn at (length bytes.now) self.old.after self.new.after }
        ensures faults { CountsFault result self.old.faults self.new.faults }
        ensures room { finds_no_room result ≡ false }
    {
        self.file.write_at(at, bytes)
    }

    fn set_len(&mut self, len: usize) -> io::Result<()>
        ensures len { OnOk result (length self.new.after ≡ len) }
        ensures others { Cut len self.old.after self.new.after }
        ensures faults { CountsFault result self.old.faults self.new.faults }
        ensures room { finds_no_room result ≡ false }
    {
        self.file.set_len(len)
    }

    fn sync(&mut self) -> io::Result<()>
        ensures ok { IsOk result }
        ensures same { self.new ≡ self.old }
    {
        Ok(())
    }
}
