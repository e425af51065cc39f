ghost use Rattle.std.specs.Prelude.{◌≡◌, ◌+◌, ◌≤◌, ◌^◌, ◌<◌, [], ℕ, List, length, take, drop, min, max, is_ok, true, false, IsOk, Ok, IfOk, OnOk, OnErr, refl};
ghost use Rattle.sqlite_disk.specs.Disk.{Holds, Torn, Cut, CountsFault};
ghost use Rattle.sqlite_disk.specs.Digest.{digest};
ghost use Rattle.sqlite_disk.specs.Refusal.{finds_no_room};
ghost use Rattle.sqlite_files.specs.Recording.{since, touched_count, pages_between, IsRecorded, KeepsPast};
ghost use Rattle.std.specs.Str.{bytes_eq};

use crate::original_image::FileBefore;
use crate::stamps::touch;
use crate::writes::{set_length, write};
use dq_base::Bytes;
use sqlite_disk::{Disk, Tally};
use std::alloc::{AllocError, Global};
use std::io;
use std::marker::Model;

/// A file in memory as `sqlite` wants its disks: what is written is there at once, a crash leaves just that, and no
/// read lies. It keeps the file before, and for each page the number of the last call that wrote, cut or grew it.
#[derive(Drop)]
pub struct PageFile {
    before: FileBefore,
    bytes: Vec<u8>,
    stamps: Vec<u64>,
    writes: u64,
    is_log: bool,
    faults: u64,
}

impl Model for PageFile {
    ghost use Rattle.sqlite_files.specs.Recording.{Recorded, IsSince};

    ghost Value = { Recorded };

    ghost view = { λ a. record { before = a.before; after = a.bytes.items; stamps = a.stamps.items; writes = a.writes; is_log = a.is_log; faults = a.faults } };

    ghost invariant = { λ a. IsSince (record { bytes = a.before; mark = 0 }) a.bytes.items a.stamps.items a.writes };
}

impl PageFile {
    /// A file of these bytes, of which the first are kept and the second, their copy, may change.
    #[tactic(auto, using(crate::proofs::StampedPages::copy_is_since))]
    pub(crate) fn new(alloc: Global, before: Bytes, bytes: Bytes, is_log: bool) -> PageFile
        requires { before ≡ bytes }
        ensures { result ≡ record { before = before; after = bytes; stamps = []; writes = 0; is_log = is_log; faults = 0 } }
    {
        PageFile {
            before: FileBefore::new(before),
            bytes: bytes.into_vec(),
            stamps: Vec::new(alloc),
            writes: 0,
            is_log,
            faults: 0,
        }
    }

    /// A file of these bytes that was empty before, so that each page of it is noted. Fails where memory runs out.
    #[tactic(auto, using(crate::proofs::StampedPages::grown_is_since))]
    pub(crate) fn grown_to(
        alloc: Global,
        bytes: Bytes,
        is_log: bool,
    ) -> Result<PageFile, AllocError>
        ensures before { IfOk result (λ file. file.before ≡ []) }
        ensures after { IfOk result (λ file. file.after ≡ bytes) }
    {
        let mut stamps = Vec::new(alloc);
        touch(&mut stamps, 0, bytes.len(), 1)?;
        Ok(PageFile {
            before: FileBefore::new(Bytes::new(Vec::new(alloc))),
            bytes: bytes.into_vec(),
            stamps,
            writes: 1,
            is_log,
            faults: 0,
        })
    }

    /// The bytes that it has.
    pub fn bytes(&self) -> &[u8]
        ensures { result.now ≡ self.now.after }
    {
        self.bytes.as_slice()
    }

    /// For each page the number of the last call that touched it, up to the last that one has touched.
    pub fn stamps(&self) -> &[u64]
        ensures { result.now ≡ self.now.stamps }
    {
        self.stamps.as_slice()
    }

    /// The number of the last call that wrote, cut or grew it. It stays at 18,446,744,073,709,551,615.
    pub fn writes(&self) -> u64
        ensures { result ≡ self.now.writes }
    {
        self.writes
    }

    /// Whether it is the log of its pair.
    pub fn is_log(&self) -> bool
        ensures { result ≡ self.now.is_log }
    {
        self.is_log
    }

    /// Whether these are the bytes before.
    pub(crate) fn was(&self, bytes: &[u8]) -> bool
        ensures { result ≡ bytes_eq self.now.before bytes.now }
    {
        self.before.is(bytes)
    }

    /// The bytes that it has, as its own.
    pub(crate) fn into_bytes(self) -> Bytes
        ensures { result ≡ self.after }
    {
        Bytes::new(self.bytes)
    }

    /// The file before, the file after, and the stamps of the pages.
    pub(crate) fn into_parts(self) -> (FileBefore, Bytes, Vec<u64>)
        ensures before { result.0 ≡ self.before }
        ensures after { result.1 ≡ self.after }
        ensures stamps { result.2.items ≡ self.stamps }
        ensures recorded { IsRecorded self.before self.after (since 0 self.stamps) }
    {
        (self.before, Bytes::new(self.bytes), self.stamps)
    }
}

impl Disk for PageFile {
    ghost seen = { λ m. m.after };

    ghost may_leave = { λ m c. c ≡ m.after };

    ghost is_usable = { λ _. true };

    ghost faults = { λ m. m.faults };

    ghost is_clean = { λ _. true };

    ghost tally_of = { λ _. record { caught = 0; refused = 0 } };

    ghost key_of = { λ _. 0 };

    ghost is_fair = { λ _ _. true };

    ghost fair_if_clean = { λ _ _ _. refl };

    ghost seen_may_stay = { λ m. refl };

    fn mixes(&self) -> bool {
        false
    }

    fn key(&self) -> u64 {
        0
    }

    fn tally(&self) -> Tally {
        Tally {
            caught: 0,
            refused: 0,
        }
    }

    fn may_be_used(&self) -> bool {
        true
    }

    fn len(&mut self) -> io::Result<usize>
        ensures len { result ≡ Ok (length self.old.after) }
        ensures same { self.new ≡ self.old }
    {
        Ok(self.bytes.len())
    }

    fn read_at(&mut self, at: usize, buf: &mut [u8]) -> io::Result<()>
        ensures read { OnOk result (Holds self.old.after at buf.new) }
        ensures short { OnErr result (length self.old.after < at + length buf.old) }
        ensures same { self.new ≡ self.old }
    {
        if at > self.bytes.len() || buf.len() > self.bytes.len() - at {
            return Err(io::ErrorKind::UnexpectedEof.into());
        }
        buf.copy_from_slice(&self.bytes[at..at + buf.len()]);
        Ok(())
    }

    /// It fails only if the file ends before. No digest is computed: memory gives back what was written, so what is
    /// there has the wanted one.
    fn read_checked(&mut self, _key: u64, _want: u64, at: usize, buf: &mut [u8]) -> io::Result<()>
        requires want { _want ≡ digest _key (take (length buf.old) (drop at self.old.after)) }
        ensures read { OnOk result (Holds self.old.after at buf.new) }
        ensures tested { OnOk result (digest _key buf.new ≡ _want) }
        ensures short { OnErr result (length self.old.after < at + length buf.old) }
        ensures same { self.new ≡ self.old }
    {
        self.read_at(at, buf)
    }

    /// It stamps each page from the place, or the file's end where that comes first, up to the end of what is written.
    fn write_at(&mut self, at: usize, bytes: &[u8]) -> io::Result<()>
        ensures written { OnOk result (Holds self.new.after at bytes.now) }
        ensures others { Torn at (length bytes.now) self.old.after self.new.after }
        ensures faults { CountsFault result self.old.faults self.new.faults }
        ensures room { finds_no_room result ≡ false }
        ensures before { self.new.before ≡ self.old.before }
        ensures which { self.new.is_log ≡ self.old.is_log }
        ensures past { KeepsPast self.old self.new }
        ensures touches { touched_count (since 0 self.new.stamps) ≤ touched_count (since 0 self.old.stamps) + pages_between (min at (length self.old.after)) (at + length bytes.now) }
    {
        let outcome = write(
            &mut self.bytes,
            &mut self.stamps,
            &mut self.writes,
            at,
            bytes,
        );
        count(outcome, &mut self.faults)
    }

    /// It stamps each page that is truncated or grown.
    fn set_len(&mut self, len: usize) -> io::Result<()>
        ensures len { OnOk result (length self.new.after ≡ len) }
        ensures others { Cut len self.old.after self.new.after }
        ensures faults { CountsFault result self.old.faults self.new.faults }
        ensures room { finds_no_room result ≡ false }
        ensures before { self.new.before ≡ self.old.before }
        ensures which { self.new.is_log ≡ self.old.is_log }
        ensures past { KeepsPast self.old self.new }
        ensures touches { touched_count (since 0 self.new.stamps) ≤ touched_count (since 0 self.old.stamps) + pages_between (min len (length self.old.after)) (max len (length self.old.after)) }
    {
        let outcome = set_length(&mut self.bytes, &mut self.stamps, &mut self.writes, len);
        count(outcome, &mut self.faults)
    }

    fn sync(&mut self) -> io::Result<()>
        ensures ok { IsOk result }
        ensures same { self.new ≡ self.old }
    {
        Ok(())
    }
}

fn count(outcome: Result<(), AllocError>, faults: &mut u64) -> io::Result<()>
    ensures variant { is_ok result ≡ is_ok outcome }
    ensures kind { finds_no_room result ≡ false }
    ensures faults { CountsFault result faults.old faults.new }
{
    if outcome.is_err() {
        *faults = faults.saturating_add(1);
        return Err(io::Error::from(io::ErrorKind::OutOfMemory));
    }
    Ok(())
}
