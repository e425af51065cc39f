//! Reading a state machine from a snapshot.

ghost use Rattle.std.specs.Prelude.{◌≡◌, length, Ok, None, IfOk, List, ℕ};
ghost use Rattle.page_store.specs.Store.{fresh_store, newest_image};
ghost use Rattle.wire_words.specs.Reading.{unread};
ghost use Rattle.database_state.specs.Databases.{content_of, contents_of};
ghost use Rattle.database_state.specs.Files.{Content};
ghost use Rattle.database_state.specs.Snapshot.{IsSnapshot};
ghost use Rattle.database_state.specs.Restoring.{Gives, Finds, is_above, name_at, image_at, pages_at, set_at, pending_at, content_at, contents_at, head_at, snapshot_of, last_name, restored_at, restored};

use crate::database::Database;
use crate::fault::SnapFault;
use crate::log_reading::{image_of_log, pending_of_log};
use crate::machine::Machine;
use dq_base::{Items, Name, NumberedPage, PageSet};
use page_store::PageStore;
use std::alloc::Global;
use std::cmp::Ordering;
use wire_words::Words;

/// Whether a name is above that of the last database, if there is one.
fn is_above(name: &Name, databases: &[Database]) -> bool
    ensures { result ≡ is_above (last_name databases.now) name.now }
{
    match databases.last() {
        Some(last) => last.name.cmp(name) == Ordering::Less,
        None => true,
    }
}

/// The name of a database, which is above those of the databases before.
#[tactic(auto, unfolding(crate::specs::Restoring::name_at))]
fn name(alloc: Global, words: &mut Words<'_>, databases: &[Database]) -> Result<Name, SnapFault>
    ensures { Finds (λ name. name) (name_at (last_name databases.now)) words.old words.new result }
{
    let at = words.place();
    let text = words.text(alloc)?;
    let Some(name) = Name::new(text.into_string()) else {
        return Err(SnapFault::Order(at));
    };
    if !is_above(&name, databases) {
        return Err(SnapFault::Order(at));
    }
    Ok(name)
}

/// A store over the image of the log in a blob.
#[tactic(auto, unfolding(crate::specs::Restoring::image_at))]
fn image(alloc: Global, words: &mut Words<'_>) -> Result<PageStore, SnapFault>
    ensures exact { Finds (λ store. newest_image store) image_at words.old words.new result }
    ensures fresh { IfOk result (λ store. store ≡ fresh_store (newest_image store)) }
{
    let at = words.place();
    let log = words.blob_slice()?;
    image_of_log(alloc, at, log)
}

/// The pages of the log in a blob.
#[tactic(auto, unfolding(crate::specs::Restoring::pages_at))]
fn pages(alloc: Global, words: &mut Words<'_>) -> Result<Vec<NumberedPage>, SnapFault>
    ensures { Finds (λ pages. pages.items) pages_at words.old words.new result }
{
    let at = words.place();
    let log = words.blob_slice()?;
    pending_of_log(alloc, at, log)
}

/// A transaction and its pages.
#[tactic(auto, unfolding(crate::specs::Restoring::set_at))]
fn set(alloc: Global, words: &mut Words<'_>) -> Result<PageSet, SnapFault>
    ensures { Finds (λ set. set) set_at words.old words.new result }
{
    let tx = words.u64()?;
    let pages = pages(alloc, words)?;
    Ok(PageSet {
        tx,
        pages: Items::new(pages),
    })
}

/// What is pending.
#[tactic(auto, unfolding(crate::specs::Restoring::pending_at))]
fn pending(alloc: Global, words: &mut Words<'_>) -> Result<Option<PageSet>, SnapFault>
    ensures { Finds (λ pending. pending) pending_at words.old words.new result }
{
    let at = words.place();
    match words.u64()? {
        0 => Ok(None),
        1 => Ok(Some(set(alloc, words)?)),
        _ => Err(SnapFault::Order(at)),
    }
}

/// A database after others, without commits and live marks.
#[tactic(auto, unfolding(crate::specs::Restoring::content_at))]
fn database(
    alloc: Global,
    words: &mut Words<'_>,
    databases: &[Database],
) -> Result<Database, SnapFault>
    ensures exact { Finds content_of (content_at (last_name databases.now)) words.old words.new result }
    ensures fresh { IfOk result (λ database. database ≡ restored_at (length databases.now) (content_of database)) }
{
    let name = name(alloc, words, databases)?;
    let store = image(alloc, words)?;
    let pending = pending(alloc, words)?;
    Ok(Database {
        name,
        place: databases.len(),
        store,
        pending,
        since: 0,
    })
}

/// This many databases.
fn databases(alloc: Global, words: &mut Words<'_>, count: u64) -> Result<Vec<Database>, SnapFault>
    ensures exact { Finds (λ databases. contents_of databases.items) (contents_at count None) words.old words.new result }
    ensures fresh { IfOk result (λ databases. databases.items ≡ restored (contents_of databases.items)) }
{
    let mut databases = Vec::new(alloc);
    for _ in 0..count {
        let database = database(alloc, words, databases.as_slice())?;
        databases.push(database)?;
    }
    Ok(databases)
}

/// The format, and the number of databases.
#[tactic(auto, unfolding(crate::specs::Restoring::head_at))]
fn head(words: &mut Words<'_>) -> Result<u64, SnapFault>
    ensures { Finds (λ count. count) head_at words.old words.new result }
{
    if words.u64()? != 1 {
        return Err(SnapFault::Format);
    }
    Ok(words.u64()?)
}

/// The databases of a snapshot, which is all of the bytes.
#[tactic(auto, unfolding(crate::specs::Restoring::snapshot_of))]
fn read_databases(alloc: Global, bytes: &[u8]) -> Result<Vec<Database>, SnapFault>
    ensures exact { Gives (λ databases. contents_of databases.items) (snapshot_of bytes.now) result }
    ensures fresh { IfOk result (λ databases. databases.items ≡ restored (contents_of databases.items)) }
{
    let mut words = Words::new(bytes);
    let count = head(&mut words)?;
    let databases = databases(alloc, &mut words, count)?;
    if words.left() != 0 {
        return Err(SnapFault::Tail);
    }
    Ok(databases)
}

impl Machine {
    /// Reads a state machine from its snapshot, which has to be all of the bytes. Its databases had no commits since, and no mark
    /// is live in them.
    ///
    /// The first fault from left to right is named. A first word that isn't 1 is `Format`. `Word` is an item that isn't
    /// there whole or isn't encoded as it has to be, with the place of the item. `Order` has the place of a name that
    /// doesn't have 1 to 255 bytes or isn't above the one before it, of a flag above 1, or of a log. Of a log its header
    /// comes first, as `Wal`, then, as `Order`, that it isn't written so of its frames with the sequence number 0. Then its
    /// pages, if they are those of an image, may be none that can be applied to two empty files, as `Pages`; and at last,
    /// again as `Order`, the log may be another than that of the image, or a frame of pending pages may have a commit size.
    /// Bytes after the last database are `Tail`. `NoMemory` means out of memory, which may come before another fault.
    ///
    /// Each log is read, and its pages are written once more to be compared.
    pub fn from_snapshot(alloc: Global, bytes: &[u8]) -> Result<Machine, SnapFault>
        // What is read is encoded so.
        ensures found { IfOk result (λ machine. IsSnapshot (contents_of machine) bytes.now) }
        ensures fresh { IfOk result (λ machine. machine ≡ restored (contents_of machine)) }
        // What is encoded so is read, unless memory runs out.
        ensures only { (contents : List Content) → IsSnapshot contents bytes.now → Gives contents_of (Ok contents) result }
        // Which fault it is.
        ensures exact { Gives contents_of (snapshot_of bytes.now) result }
    {
        let databases = read_databases(alloc, bytes)?;
        Ok(Machine { databases, alloc })
    }
}
