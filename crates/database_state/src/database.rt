//! A database as a state machine holds it.

ghost use Rattle.std.specs.Prelude.{◌≡◌, ◌++◌, take, length, is_none, is_some, true, false, None, Some, OnOk, OnErr, IfOk, if◌then◌else◌};
ghost use Rattle.dq_base.specs.Applying.{page_fault};
ghost use Rattle.page_store.specs.Store.{committed};
ghost use Rattle.database_state.specs.Files.{pending_of};
ghost use Rattle.database_state.specs.Machines.{StaysShort};
ghost use Rattle.database_state.specs.Databases.{opened, with_commit, with_pending, pages_in, is_pending, frames, undone, moved};

use dq_base::{Image, Items, Name, NumberedPage, PageFault, PageSet};
use page_store::PageStore;
use std::alloc::{AllocError, Global};

/// A database of a state machine: its pages under readers, and the pages of a transaction that has not ended. `Machine::databases`
/// lends all of them to be read.
#[derive(Drop)]
pub struct Database {
    pub(crate) name: Name,
    /// Its place in the state machine's order of opening.
    pub(crate) place: usize,
    pub(crate) store: PageStore,
    pub(crate) pending: Option<PageSet>,
    /// How many pages were committed since the last checkpoint.
    pub(crate) since: u64,
}

/// Commits pages where they can be applied, and answers whether they can; else the store stays. `Err` means out of
/// memory, and the store stays too.
fn commit_or_stay(store: &mut PageStore, pages: &[NumberedPage]) -> Result<bool, AllocError>
    ensures sound { IfOk result (λ done. done ≡ is_none (page_fault pages.now)) }
    ensures ok { OnOk result (store.new ≡ (if is_none (page_fault pages.now) then committed store.old pages.now else store.old)) }
    ensures short { OnOk result (StaysShort store.old store.new) }
    ensures kept { OnErr result (store.new ≡ store.old) }
{
    match store.commit_pages(pages) {
        Ok(_newest) => Ok(true),
        Err(PageFault::NoMemory) => Err(AllocError),
        Err(_) => Ok(false),
    }
}

impl Database {
    /// Two empty files, and nothing is pending.
    pub fn new(alloc: Global, name: Name, place: usize) -> Database
        ensures { result ≡ opened place name }
    {
        Database {
            name,
            place,
            store: PageStore::from_image(alloc, Image::new(alloc)),
            pending: None,
            since: 0,
        }
    }

    /// Makes pages one more commit, if they can be applied. `Err` means out of memory; the database is then
    /// unchanged.
    fn commit(&mut self, pages: &[NumberedPage]) -> Result<(), AllocError>
        ensures ok { OnOk result (self.new ≡ with_commit pages.now self.old) }
        ensures short { OnOk result (StaysShort self.old.store self.new.store) }
        ensures kept { OnErr result (self.new ≡ self.old) }
    {
        let done = commit_or_stay(&mut self.store, pages)?;
        if done {
            self.since = self.since.saturating_add(pages.len() as u64);
        }
        Ok(())
    }

    /// Whether pages of the transaction are pending.
    fn awaits(&self, tx: u64) -> bool
        ensures { result ≡ is_pending tx self.now.pending }
    {
        matches!(&self.pending, Some(set) if set.tx == tx)
    }

    /// Takes the pending pages away.
    fn take_pending(&mut self, alloc: Global) -> Vec<NumberedPage>
        ensures pages { result.items ≡ pages_in self.old.pending }
        ensures rest { self.new ≡ with_pending None self.old }
    {
        match self.pending.take() {
            Some(set) => set.pages.into_vec(),
            None => Vec::new(alloc),
        }
    }

    /// Lets pages of a transaction be pending.
    fn put_pending(&mut self, tx: u64, pages: Vec<NumberedPage>)
        ensures { self.new ≡ with_pending (Some (record { tx = tx; pages = pages.items })) self.old }
    {
        self.pending = Some(PageSet {
            tx,
            pages: Items::new(pages),
        });
    }

    /// Puts pages after others, and commits all of them where the transaction ends. After `Err`, out of memory, the
    /// others are at the front, and the database is unchanged.
    fn extend_and_commit(
        &mut self,
        all: &mut Vec<NumberedPage>,
        commit: bool,
        pages: &[NumberedPage],
    ) -> Result<(), AllocError>
        ensures all { OnOk result (all.new.items ≡ all.old.items ++ pages.now) }
        ensures ok { OnOk result (self.new ≡ (if commit then with_commit (all.old.items ++ pages.now) self.old else self.old)) }
        ensures front { OnErr result (take (length all.old.items) all.new.items ≡ all.old.items) }
        ensures short { OnOk result (StaysShort self.old.store self.new.store) }
        ensures kept { OnErr result (self.new ≡ self.old) }
    {
        all.extend_from_slice(pages)?;
        if !commit {
            return Ok(());
        }
        self.commit(all.as_slice())
    }

    /// Takes pages of a transaction of which others are pending, and where it ends with them, makes all of them one commit.
    /// `Err` means out of memory; the database is then unchanged.
    #[tactic(auto, using(crate::proofs::Pending::pages_of_tx, crate::proofs::Pending::put_again), unfolding(crate::specs::Databases::frames))]
    fn join(
        &mut self,
        alloc: Global,
        tx: u64,
        commit: bool,
        pages: &[NumberedPage],
    ) -> Result<(), AllocError>
        requires { is_pending tx self.old.pending ≡ true }
        ensures ok { OnOk result (self.new ≡ frames tx commit pages.now self.old) }
        ensures short { OnOk result (StaysShort self.old.store self.new.store) }
        ensures kept { OnErr result (self.new ≡ self.old) }
    {
        let mut all = self.take_pending(alloc);
        let before = all.len();
        if let Err(error) = self.extend_and_commit(&mut all, commit, pages) {
            all.truncate(before);
            self.put_pending(tx, all);
            return Err(error);
        }
        if commit {
            return Ok(());
        }
        self.put_pending(tx, all);
        Ok(())
    }

    /// Takes pages of a transaction, and where it ends with them, makes all of its pages one commit. Costs in the order of
    /// these pages, and of the pending ones where it ends. `Err` means out of memory; the database is then unchanged.
    #[tactic(auto, using(crate::proofs::Pending::none_of_tx), unfolding(crate::specs::Databases::frames))]
    pub fn take_frames(
        &mut self,
        alloc: Global,
        tx: u64,
        commit: bool,
        pages: &[NumberedPage],
    ) -> Result<(), AllocError>
        ensures ok { OnOk result (self.new ≡ frames tx commit pages.now self.old) }
        ensures short { OnOk result (StaysShort self.old.store self.new.store) }
        ensures kept { OnErr result (self.new ≡ self.old) }
    {
        if self.awaits(tx) {
            return self.join(alloc, tx, commit, pages);
        }
        if commit {
            self.commit(pages)?;
            self.pending = None;
            return Ok(());
        }
        let pages = Vec::from_slice(alloc, pages)?;
        self.put_pending(tx, pages);
        Ok(())
    }

    /// Drops the pages that are pending for a transaction.
    #[tactic(auto, using(crate::proofs::Pending::without_here, crate::proofs::Pending::without_none))]
    pub fn undo(&mut self, tx: u64)
        ensures { self.new ≡ undone tx self.old }
    {
        if self.awaits(tx) {
            self.pending = None;
        }
    }

    /// Moves what no reader looks past into the base.
    pub fn checkpoint(&mut self)
        ensures { self.new ≡ moved self.old }
    {
        self.store.checkpoint();
        self.since = 0;
    }
}
