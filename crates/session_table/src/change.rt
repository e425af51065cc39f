//! What a request changes of its own session.

ghost use Rattle.std.specs.Prelude.{◌≡◌, ◌≤◌, ◌+◌, ◌++◌, ℕ, List, length, vec_len, vec_capacity, get_or, IsOk, OnOk, OnErr};
ghost use Rattle.std.specs.Option.{option_map};
ghost use Rattle.dq_base.specs.Applying.{applied};
ghost use Rattle.database_state.specs.declared.database.Database.{Database};
ghost use Rattle.session_spec.specs.Requests.{with_session};
ghost use Rattle.session_spec.specs.Touched.{numbers_of};
ghost use Rattle.session_table.specs.declared.session.Session.{Session};
ghost use Rattle.session_table.specs.Table.{session_of, table_of, pins_of, IsTable, AreApart, pin_of, transaction_of};
ghost use Rattle.session_table.specs.Changing.{StandsAt, changed_by, worked_on, CanChange};
ghost use Rattle.session_table.specs.Working.{work_of, works_of, work_with, work_made, AreAmong};

use crate::query::Query;
use crate::session::{PendingProposal, Prepared, Session, Transaction, WaitingQuery};
use crate::statements::{finalize, prepare};
use dq_base::{Image, ImageNumber, Name, NumberedPage, PageSet, apply_pages};
use std::alloc::AllocError;

/// What a request changes of its own session.
#[derive(Drop)]
pub enum Change {
    /// Nothing.
    Stays,
    /// It has opened the database of this name, with barrier reads or without.
    Opens(Name, bool),
    /// It has a new database pending, with barrier reads or without.
    Creates(PendingProposal, bool),
    /// Its query is lent to a reader.
    Lends(Query),
    /// It has prepared a statement.
    Prepares(Prepared),
    /// It has let the statement of this number go.
    Drops(u32),
    /// Its lost transaction ends.
    Forgets,
    /// Its transaction has changed these pages, and has the write lock; the number that was drawn for its working image.
    Works(PageSet, u64),
    /// It has this proposal pending.
    Flies(PendingProposal),
}

/// Applies pages that can be applied. `Err` means out of memory; the image is then
/// unchanged.
fn apply_all(image: &mut Image, pages: &[NumberedPage]) -> Result<(), AllocError>
    ensures ok { OnOk result (image.new ≡ applied image.old pages.now) }
    ensures kept { OnErr result (image.new ≡ image.old) }
{
    match apply_pages(image, pages) {
        Ok(()) => Ok(()),
        Err(_) => Err(AllocError),
    }
}

/// Puts the numbers of pages above 1 after others. `Err` means out of memory, which doesn't come where there is
/// room.
fn note_numbers(touched: &mut Vec<u64>, pages: &[NumberedPage]) -> Result<(), AllocError>
    ensures noted { OnOk result (touched.new.items ≡ touched.old.items ++ numbers_of pages.now) }
    ensures room { vec_len touched.old + length pages.now ≤ vec_capacity touched.old → IsOk result }
{
    for page in pages {
        if page.number > 1 {
            touched.push(page.number)?;
        }
    }
    Ok(())
}

/// What a transaction becomes that has changed these pages; its working image has this number then. `Err` means out of memory; it
/// is then unchanged.
fn work(
    transaction: &mut Option<Transaction>,
    pages: &[NumberedPage],
    number: u64,
) -> Result<(), AllocError>
    ensures ok { OnOk result ((databases : List Database) → option_map (transaction_of databases) transaction.new ≡ worked_on pages.now
        (option_map (transaction_of databases) transaction.old)) }
    ensures kept { OnErr result ((databases : List Database) → option_map (transaction_of databases) transaction.new ≡ option_map
        (transaction_of databases) transaction.old) }
    ensures pin { pin_of transaction.new ≡ pin_of transaction.old }
    ensures works { AreAmong (work_with pages.now number transaction.old ++ work_of transaction.old) (work_of transaction.new) }
{
    if let Some(transaction) = transaction {
        transaction.touched.reserve(pages.len())?;
        apply_all(&mut transaction.working, pages)?;
        note_numbers(&mut transaction.touched, pages)?;
        transaction.turn = true;
        transaction.number = Some(ImageNumber::Working(number));
    }
    Ok(())
}

impl Session {
    /// Changes it so. `Err` means out of memory; it is then unchanged.
    fn change(&mut self, change: Change) -> Result<(), AllocError>
        requires { CanChange self.old.statements.items change }
        ensures ok { OnOk result ((databases : List Database) → session_of databases self.new ≡ changed_by (session_of databases self.old) change) }
        ensures kept { OnErr result ((databases : List Database) → session_of databases self.new ≡ session_of databases self.old) }
        ensures conn { self.new.conn ≡ self.old.conn }
        ensures pin { pin_of self.new.transaction ≡ pin_of self.old.transaction }
        ensures works { AreAmong (work_made change self.old.transaction ++ work_of self.old.transaction) (work_of self.new.transaction) }
    {
        match change {
            Change::Stays => {}
            Change::Opens(name, barriers) => {
                self.database = Some(name);
                self.barriers = barriers;
                self.flight = None;
            }
            Change::Creates(flight, barriers) => {
                self.barriers = barriers;
                self.flight = Some(flight);
            }
            Change::Lends(query) => self.later = Some(WaitingQuery::Lent(query)),
            Change::Prepares(prepared) => {
                let _id = prepare(&mut self.statements, prepared)?;
            }
            Change::Drops(id) => finalize(self.statements.as_mut_slice(), id),
            Change::Forgets => self.lost = false,
            Change::Works(set, number) => {
                work(&mut self.transaction, set.pages.as_slice(), number)?;
            }
            Change::Flies(flight) => self.flight = Some(flight),
        }
        Ok(())
    }
}

/// Changes the session at a place, which is that of a connection. `Err` means out of memory; the table is then
/// unchanged.
pub fn make_change(
    sessions: &mut Vec<Session>,
    place: usize,
    conn: u64,
    change: Change,
) -> Result<(), AllocError>
    requires apart { AreApart sessions.old.items }
    requires place { StandsAt conn sessions.old.items place }
    requires can { (session : Session) → CanChange (get_or sessions.old.items place session).statements.items change }
    ensures ok { OnOk result ((databases : List Database) (weight : ℕ) → table_of databases sessions.new.items weight ≡ with_session
        (table_of databases sessions.old.items weight) conn (changed_by ((table_of databases sessions.old.items weight).session conn) change)) }
    ensures kept { OnErr result ((databases : List Database) (weight : ℕ)
        → table_of databases sessions.new.items weight ≡ table_of databases sessions.old.items weight) }
    ensures pins { pins_of sessions.new.items ≡ pins_of sessions.old.items }
    ensures fit { IsTable sessions.old.items → IsTable sessions.new.items }
    // A working image is one of before by its number, or the one that the change makes by the number drawn for it.
    ensures works { (own : Session) → AreAmong (work_made change (get_or sessions.old.items place own).transaction ++ works_of sessions.old.items)
        (works_of sessions.new.items) }
{
    sessions[place].change(change)
}
