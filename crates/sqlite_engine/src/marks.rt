//! The numbers of the calls after which the files beneath a connection were those of an image.

ghost use Rattle.std.specs.Prelude.{◌≡◌, Some, IsTrue, IfOk, IfSome};
ghost use Rattle.dq_base.specs.Changes.{changed};
ghost use Rattle.sql_engine.specs.Meanings.{IsShort};
ghost use Rattle.sqlite_engine.specs.Marking.{AreMarked, AreTold};
ghost use Rattle.sqlite_engine.specs.Settling.{files_beneath};

use dq_base::{Image, PageSet};
use sqlite_files::{TouchedFile, changes_between, changes_since};
use sqlite_open_files::{Conn, Loose, PinnedFile, log_of, main_of};
use std::alloc::{AllocError, Global};

/// The number of a call of each file.
#[derive(Clone, Copy)]
pub(crate) struct Marks {
    pub(crate) main: u64,
    pub(crate) side: u64,
}

/// Whether the file in the log's place says that it is the log, and the other that it isn't.
fn are_told(conn: &Conn) -> bool
    ensures { IsTrue result → AreTold conn.now }
{
    log_of(conn).is_log() && !main_of(conn).is_log()
}

/// These marks if the files still say which of them is the log, and none otherwise.
pub(crate) fn still_told(conn: &Conn, marks: Option<Marks>) -> Option<Marks>
    ensures { IfSome result (λ it. (marks ≡ Some it) × AreTold conn.now) }
{
    if are_told(conn) { marks } else { None }
}

/// The numbers of the last calls. `None` is that the files don't say which of them is the log, or that no number is left.
pub(crate) fn marks_of(conn: &Conn) -> Option<Marks>
    ensures { AreMarked (files_beneath conn.now) result conn.now }
{
    let main = main_of(conn).writes();
    let side = log_of(conn).writes();
    if main == u64::MAX || side == u64::MAX || !are_told(conn) {
        return None;
    }
    Some(Marks { main, side })
}

/// The pages that lead from an image to what the files of a connection are. With marks it compares the pages alone that were touched
/// since, and without them all bytes.
pub(crate) fn changes_beneath(
    alloc: Global,
    base: &Image,
    conn: &Conn,
    marks: Option<Marks>,
    tx: u64,
) -> Result<PageSet, AllocError>
    requires { AreMarked base.now marks conn.now }
    ensures pages { IfOk result (λ set. set ≡ record { tx = tx; pages = changed base.now (files_beneath conn.now) }) }
    ensures short { IsShort (files_beneath conn.now) }
{
    let main = main_of(conn);
    let side = log_of(conn);
    let _lengths = (main.bytes().len(), side.bytes().len());
    match marks {
        Some(marks) => {
            let main = touched(main, marks.main);
            let side = touched(side, marks.side);
            changes_since(alloc, base, &main, &side, tx)
        }
        None => changes_between(alloc, base, main.bytes(), side.bytes(), tx),
    }
}

/// A file as it is looked at since a call.
fn touched(file: &PinnedFile<Loose>, mark: u64) -> TouchedFile<'_>
    ensures bytes { result.bytes.now ≡ file.now.after }
    ensures stamps { result.stamps.now ≡ file.now.stamps }
    ensures mark { result.mark ≡ mark }
{
    TouchedFile {
        bytes: file.bytes(),
        stamps: file.stamps(),
        mark,
    }
}
