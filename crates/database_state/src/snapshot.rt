//! Writing a state machine as a snapshot.

ghost use Rattle.std.specs.Prelude.{◌≡◌, ◌<◌, ◌^◌, ◌++◌, length, IfOk, OnOk};
ghost use Rattle.std.specs.List.{AllByRecursion};
ghost use Rattle.wire_words.specs.Items.{word, text, blob};
ghost use Rattle.log_commands.specs.Numbers.{AreLow};
ghost use Rattle.log_commands.specs.Spelling.{IsTextName, HaveSizes};
ghost use Rattle.page_store.specs.Store.{newest_image};
ghost use Rattle.database_state.specs.Databases.{content_of, contents_of};
ghost use Rattle.database_state.specs.Machines.{IsPendingLow, AllPendingLow, AllShort};
ghost use Rattle.database_state.specs.Logs.{IsShort, image_log, pending_log};
ghost use Rattle.database_state.specs.Snapshot.{IsKept, IsKeptPending, IsSnapshot, pending_text, content_text, contents_text, snapshot_text};

use crate::database::Database;
use crate::logs::{image_log_length, put_image_log, put_pending_log};
use crate::machine::Machine;
use byteorder::{ByteOrder, LittleEndian};
use dq_base::{Name, NumberedPage, PageSet};
use page_store::PageStore;
use std::alloc::{AllocError, Global};
use wal_frames::wal_length;
use wire_words::{WireBytes, Writer};

/// Appends a word. `Err` means out of memory, here and in the functions that
/// follow.
fn put_word(out: &mut Vec<u8>, number: u64) -> Result<(), AllocError>
    ensures bytes { OnOk result (out.new.items ≡ out.old.items ++ word number) }
    ensures fits { number < 2 ^ 64 }
{
    let mut bytes = [0; 8];
    LittleEndian::write_u64(&mut bytes, number);
    out.extend_from_slice(&bytes)
}

/// Appends the name of a database as a text.
fn put_name(alloc: Global, out: &mut Vec<u8>, name: &Name) -> Result<(), AllocError>
    ensures bytes { OnOk result (out.new.items ≡ out.old.items ++ text name.now) }
    ensures fits { OnOk result (IsTextName name.now) }
{
    let name = name.as_str();
    let mut writer = Writer::new(alloc);
    writer.text(name)?;
    let text = writer.finish();
    out.extend_from_slice(text.as_slice())
}

/// Appends the blob of the log of the newest image, into room that is made ahead.
fn put_image(out: &mut Vec<u8>, store: &PageStore) -> Result<(), AllocError>
    requires { IsShort (newest_image store.now) }
    ensures { OnOk result (out.new.items ≡ out.old.items ++ blob (image_log (newest_image store.now))) }
{
    let length = image_log_length(store);
    put_word(out, length as u64)?;
    out.reserve(length)?;
    put_image_log(out, store)
}

/// Appends the blob of the log of pending pages, into room that is made ahead.
fn put_pages(out: &mut Vec<u8>, pages: &[NumberedPage]) -> Result<(), AllocError>
    requires { AreLow pages.now }
    ensures bytes { OnOk result (out.new.items ≡ out.old.items ++ blob (pending_log pages.now)) }
    ensures sizes { OnOk result (HaveSizes pages.now) }
    ensures fits { OnOk result (length (pending_log pages.now) < 2 ^ 64) }
{
    let length = wal_length(pages.len());
    put_word(out, length as u64)?;
    out.reserve(length)?;
    put_pending_log(out, pages)
}

/// Appends a transaction and its pages.
fn put_set(out: &mut Vec<u8>, set: &PageSet) -> Result<(), AllocError>
    requires { AreLow set.now.pages }
    ensures bytes { OnOk result (out.new.items ≡ out.old.items ++ (word set.now.tx ++ blob (pending_log set.now.pages))) }
    ensures kept { OnOk result (IsKeptPending (Some set.now)) }
{
    put_word(out, set.tx)?;
    put_pages(out, set.pages.as_slice())
}

/// Appends what is pending.
fn put_pending(out: &mut Vec<u8>, pending: &Option<PageSet>) -> Result<(), AllocError>
    requires { IsPendingLow pending.now }
    ensures bytes { OnOk result (out.new.items ≡ out.old.items ++ pending_text pending.now) }
    ensures kept { OnOk result (IsKeptPending pending.now) }
{
    match pending {
        None => put_word(out, 0),
        Some(set) => {
            put_word(out, 1)?;
            put_set(out, set)
        }
    }
}

/// Appends a database.
fn put_database(alloc: Global, out: &mut Vec<u8>, database: &Database) -> Result<(), AllocError>
    requires short { IsShort (newest_image database.now.store) }
    requires numbers { IsPendingLow database.now.pending }
    ensures bytes { OnOk result (out.new.items ≡ out.old.items ++ content_text (content_of database.now)) }
    ensures kept { OnOk result (IsKept (content_of database.now)) }
{
    put_name(alloc, out, &database.name)?;
    put_image(out, &database.store)?;
    put_pending(out, &database.pending)
}

/// Appends databases.
fn put_databases(alloc: Global, out: &mut Vec<u8>, databases: &[Database]) -> Result<(), AllocError>
    requires short { AllShort databases.now }
    requires numbers { AllPendingLow databases.now }
    ensures bytes { OnOk result (out.new.items ≡ out.old.items ++ contents_text (contents_of databases.now)) }
    ensures kept { OnOk result (AllByRecursion IsKept (contents_of databases.now)) }
{
    for database in databases {
        put_database(alloc, out, database)?;
    }
    Ok(())
}

/// Appends the snapshot of databases.
fn put_snapshot(alloc: Global, out: &mut Vec<u8>, databases: &[Database]) -> Result<(), AllocError>
    requires short { AllShort databases.now }
    requires numbers { AllPendingLow databases.now }
    ensures bytes { OnOk result (out.new.items ≡ out.old.items ++ snapshot_text (contents_of databases.now)) }
    ensures kept { OnOk result (AllByRecursion IsKept (contents_of databases.now)) }
    ensures count { length databases.now < 2 ^ 64 }
{
    put_word(out, 1)?;
    put_word(out, databases.len() as u64)?;
    put_databases(alloc, out, databases)
}

impl Machine {
    /// Appends the state machine as bytes: its databases by their names, each with its newest image and what is pending. Read
    /// marks, the counts of commits and of pages since a checkpoint are no part of it.
    ///
    /// Costs one buffer, which is the caller's: each page is looked up once and copied into it once, and no image is made
    /// in between. `Err` means out of memory; what the buffer holds then isn't told.
    pub fn snapshot_into(&self, out: &mut Vec<u8>) -> Result<(), AllocError>
        ensures text { OnOk result (out.new.items ≡ out.old.items ++ snapshot_text (contents_of self.now)) }
        ensures spelled { OnOk result (IsSnapshot (contents_of self.now) (snapshot_text (contents_of self.now))) }
    {
        put_snapshot(self.alloc, out, self.databases.as_slice())
    }

    /// The state machine as bytes of their own, as `snapshot_into` appends them.
    pub fn snapshot(&self) -> Result<WireBytes, AllocError>
        ensures text { IfOk result (λ bytes. bytes ≡ snapshot_text (contents_of self.now)) }
        ensures spelled { IfOk result (λ bytes. IsSnapshot (contents_of self.now) bytes) }
    {
        let mut out = Vec::new(self.alloc);
        self.snapshot_into(&mut out)?;
        Ok(WireBytes::new(out))
    }
}
