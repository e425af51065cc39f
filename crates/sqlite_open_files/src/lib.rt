//! The two disks beneath an open connection of `sqlite`, which continue being its own, and what is known of them from one call to the
//! next.
#![tactic(auto)]

ghost use Rattle.std.specs.Prelude.{◌≡◌, IsTrue};
ghost use Rattle.std.specs.Mem.{manually_drop_value};
ghost use Rattle.sqlite_store.specs.FileStore.{files, view, recovers};
ghost use Rattle.sqlite.specs.Held.{IsConnected};
ghost use Rattle.sqlite.specs.Files.{file_state, HoldsDatabase};
ghost use Rattle.sqlite_open_files.specs.Held.{image_in};
ghost use Rattle.sqlite_open_files.specs.Pins.{IsPinned};

mod pinned_file;

pub use pinned_file::{Loose, Pin, PinnedFile, loose_files, pair_files};
use sqlite::{Connection, FileStore};
use sqlite_disk::Files;
use std::mem::ManuallyDrop;

/// A connection of the crate `sqlite` over two files in memory of which this is known.
pub type PinnedConn<K> = Connection<FileStore<PinnedFile<K>>>;

/// A connection of whose files nothing is known.
pub type Conn = PinnedConn<Loose>;

/// The log of an open connection. It lies first in what it lies in, up to the connection.
pub fn log_of<K: Pin>(conn: &PinnedConn<K>) -> &PinnedFile<K>
    ensures { result.now ≡ (files conn.now.store).0 }
{
    unsafe { &*(conn as *const PinnedConn<K> as *const PinnedFile<K>) }
}

/// The database file of an open connection. It is stored beneath the log.
pub fn main_of<K: Pin>(conn: &PinnedConn<K>) -> &PinnedFile<K>
    ensures { result.now ≡ (files conn.now.store).1 }
{
    unsafe { &(*(conn as *const PinnedConn<K> as *const Files<PinnedFile<K>>)).db }
}

/// Reads a connection as one at another pin.
fn read_as<K: Pin, N: Pin>(
    conn: ManuallyDrop<Box<PinnedConn<K>>>,
) -> ManuallyDrop<Box<PinnedConn<N>>>
    requires log { IsPinned N.pinned (files (manually_drop_value conn).value.store).0 }
    requires main { IsPinned N.pinned (files (manually_drop_value conn).value.store).1 }
    ensures { (manually_drop_value result).value ≡ (manually_drop_value conn).value }
{
    let place = &raw const conn;
    unsafe { (place as *const ManuallyDrop<Box<PinnedConn<N>>>).read() }
}

/// A connection as one of whose files something else is known. It copies a pointer.
pub fn pinned<K: Pin, N: Pin>(conn: Box<PinnedConn<K>>) -> Box<PinnedConn<N>>
    requires log { IsPinned N.pinned (files conn.value.store).0 }
    requires main { IsPinned N.pinned (files conn.value.store).1 }
    ensures { result.value ≡ conn.value }
{
    ManuallyDrop::into_inner(read_as::<K, N>(ManuallyDrop::new(conn)))
}

/// What a connection keeps true of itself. Nothing runs.
pub fn connected<K: Pin>(conn: &PinnedConn<K>)
    ensures { IsConnected (view conn.now.store) (recovers conn.now.store) conn.now.schema conn.now.saved conn.now.in_transaction }
{}

/// The files of an open connection hold its last commit, as they are. Nothing runs.
pub fn held(conn: &Conn)
    ensures { IsTrue (file_state conn.now).is_open → ∥ HoldsDatabase (image_in (files conn.now.store)) (file_state conn.now).committed.trees ∥₁ }
{
    connected(conn)
}
