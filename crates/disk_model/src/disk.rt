use crate::faults::DiskFault;
use dq_base::{Items, Name};

/// A flat folder on a disk that may fail at any call and crash at any moment.
///
/// Files are named by texts, each the text of a `Name`. Places and lengths count bytes. A missing name reads as an
/// empty file; to cut, sync or remove it is `Ok` and changes nothing.
///
/// Between two syncs of a file a crash may leave any bytes in each range that was written, in what is past the old end
/// and in a part that was truncated, and the file is then no longer than it ever was since its last sync; a name made or
/// removed since the last `sync_names` may be there or not; all else stays. So after `Ok` of `sync` and `sync_names` a
/// crash leaves what a read gives.
///
/// A disk counts its faults: a call answers `Failed` only if that count rose in the call. What is on the disk is told
/// only by disks that know it, as one over memory; clauses on content hold if it is known. After an `Err` a call that
/// changes the disk may have been done in any part, but a failed `sync` or `sync_names` makes nothing sure. Out of memory
/// is an `Err` like a failure, without a fault; it has its own count, which rose where `NoMemory` is answered. All
/// calls are counted too, whatever they answer, so that a caller's caller knows how many were made.
///
/// A crash inside a call is that call over a disk whose calls fail from that moment on. So it is enough to know, at each
/// answer, what a crash may leave.
pub trait Disk {
    ghost use Rattle.std.specs.Prelude.{◌≡◌, ℕ, Bool, ◌≤◌, ◌++◌, length, IfOk};
    ghost use Rattle.dq_base.specs.Faults.{one_more};
    ghost use Rattle.dq_base.specs.Names.{IsName};
    ghost use Rattle.disk_model.specs.Disk.{Disk};
    ghost use Rattle.disk_model.specs.Calls.{WriteAt, CutTo, Sync, Remove, SyncNames, MayWrite};
    ghost use Rattle.disk_model.specs.Trait.{Text, Known, Steps, Looks, Lists, Reads, HasCause, HasWant, KeepsDisk};

    /// Whether disks of this kind say what is on them.
    ghost tells: { Bool };

    /// The states that the disk may be said to be in; none if it says nothing.
    ghost states: { Self → Disk Text → Type 0 };

    /// How many times the disk has failed.
    ghost faults: { Self → ℕ };

    /// How many times a call wanted memory of the disk's own.
    ghost wants: { Self → ℕ };

    /// How many calls were made, failed ones too. It stays at its last value.
    ghost made: { Self → ℕ };

    /// The names of the files that are there, each once, in any order.
    fn list(&mut self) -> Result<Items<Name>, DiskFault>
        ensures told { Looks (states self.old) (states self.new) result Lists }
        ensures cause { HasCause (faults self.old) (faults self.new) result }
        ensures want { HasWant (wants self.old) (wants self.new) result }
        ensures count { made self.new ≡ one_more (made self.old) };

    /// Reads the bytes of a file from `at` on into the front of `into`, as many as there are and fit, and answers their
    /// number. 0 for an `into` with room is the end.
    fn read_at(&mut self, name: &str, at: u64, into: &mut [u8]) -> Result<usize, DiskFault>
        requires { IsName name.now }
        ensures bound { IfOk result (λ count. count ≤ length into.new) }
        ensures told { Looks (states self.old) (states self.new) result (λ d. Reads (d.read name.now).bytes at into.old into.new) }
        ensures cause { HasCause (faults self.old) (faults self.new) result }
        ensures want { HasWant (wants self.old) (wants self.new) result }
        ensures count { made self.new ≡ one_more (made self.old) };

    /// Writes the bytes over those of a file from `at` on, and past its end. It makes the file where it isn't there.
    ///
    /// `at` is at most the file's length, and a name is not made again while its removal isn't synced: if either is
    /// otherwise, nothing is said of what is on the disk from then on.
    fn write_at(&mut self, name: &str, at: u64, bytes: &[u8]) -> Result<(), DiskFault>
        requires { IsName name.now }
        ensures told { Known tells (states self.old) (MayWrite name.now at) → Steps (WriteAt name.now at bytes.now) (states self.old) (states self.new) result }
        ensures cause { HasCause (faults self.old) (faults self.new) result }
        ensures want { HasWant (wants self.old) (wants self.new) result }
        ensures count { made self.new ≡ one_more (made self.old) };

    /// Writes bytes that lie in three parts, one after the other, as `write_at` does: one call, and no copy of them in one piece.
    fn write_parts(
        &mut self,
        name: &str,
        at: u64,
        head: &[u8],
        body: &[u8],
        tail: &[u8],
    ) -> Result<(), DiskFault>
        requires { IsName name.now }
        ensures told { Known tells (states self.old) (MayWrite name.now at) → Steps (WriteAt name.now at (head.now ++ body.now ++ tail.now)) (states self.old) (states self.new) result }
        ensures cause { HasCause (faults self.old) (faults self.new) result }
        ensures want { HasWant (wants self.old) (wants self.new) result }
        ensures count { made self.new ≡ one_more (made self.old) };

    /// Keeps the first `length` bytes of a file. A shorter file stays as it is.
    fn cut(&mut self, name: &str, length: u64) -> Result<(), DiskFault>
        requires { IsName name.now }
        ensures told { Steps (CutTo name.now length) (states self.old) (states self.new) result }
        ensures cause { HasCause (faults self.old) (faults self.new) result }
        ensures want { HasWant (wants self.old) (wants self.new) result }
        ensures count { made self.new ≡ one_more (made self.old) };

    /// Puts the bytes of a file on the disk; whether its name is there is up to `sync_names`.
    fn sync(&mut self, name: &str) -> Result<(), DiskFault>
        requires { IsName name.now }
        ensures told { Steps (Sync name.now) (states self.old) (states self.new) result }
        ensures cause { HasCause (faults self.old) (faults self.new) result }
        ensures want { HasWant (wants self.old) (wants self.new) result }
        ensures count { made self.new ≡ one_more (made self.old) };

    /// Hints that `sync` of this file comes next, with no other call before it, so that the disk may begin the work while its
    /// caller does something else. Answers whether it has begun. Nothing is sure before that `sync` has answered, and the disk
    /// is for its caller as it was without the hint. The default does nothing.
    fn begin_sync(&mut self, name: &str) -> bool
        requires { IsName name.now }
        ensures hint { KeepsDisk (states self.old) (states self.new) (faults self.old) (faults self.new) (wants self.old)
            (wants self.new) (made self.old) (made self.new) }
    {
        let _name = name;
        false
    }

    /// Removes a file.
    fn remove(&mut self, name: &str) -> Result<(), DiskFault>
        requires { IsName name.now }
        ensures told { Steps (Remove name.now) (states self.old) (states self.new) result }
        ensures cause { HasCause (faults self.old) (faults self.new) result }
        ensures want { HasWant (wants self.old) (wants self.new) result }
        ensures count { made self.new ≡ one_more (made self.old) };

    /// Puts the names on the disk: those of files that were made are sure from now on, and removed ones are gone.
    fn sync_names(&mut self) -> Result<(), DiskFault>
        ensures told { Steps SyncNames (states self.old) (states self.new) result }
        ensures cause { HasCause (faults self.old) (faults self.new) result }
        ensures want { HasWant (wants self.old) (wants self.new) result }
        ensures count { made self.new ≡ one_more (made self.old) };
}
