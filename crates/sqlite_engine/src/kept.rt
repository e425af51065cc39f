ghost use Rattle.std.specs.Prelude.{◌≡◌, ◌↔◌, ◌<◌, true, false, [], length, Some, IsTrue, IfOk, IfErr, IfSome, Err};
ghost use Rattle.sqlite_facts.specs.Counts.{LooksOnly};
ghost use Rattle.dq_base.specs.Changes.{changed};
ghost use Rattle.sql_engine.specs.Meanings.{IsShort};
ghost use Rattle.sqlite.specs.Files.{file_state};
ghost use Rattle.sqlite_store.specs.FileStore.{files};
ghost use Rattle.sqlite_open_files.specs.Held.{image_in};
ghost use Rattle.sqlite_facts.specs.Alike.{HoldAlike};
ghost use Rattle.sqlite.specs.Listing.{understood};
ghost use Rattle.sqlite.specs.State.{Executes, FailsToQuery};
ghost use Rattle.sqlite.specs.Values.{bound};
ghost use Rattle.sqlite_engine.specs.Sql.{Closed, files_of, HasColumns, Stands, RanOn, FailsOn, is_of_store};
ghost use Rattle.sqlite_engine.specs.Led.{Led, IsRefused, IsLedTo};
ghost use Rattle.sqlite_engine.specs.Marking.{AreMarked};
ghost use Rattle.sqlite_engine.specs.Looking.{AllLook, OnlyShows, LooksUnder, HasReturning};
ghost use Rattle.sqlite_engine.specs.Refusing.{IsRefusedOpening};
ghost use Rattle.sqlite_engine.specs.Settling.{files_beneath, Asked, Settled};
ghost use Rattle.sqlite_engine.specs.Shows.{showing, FailsSomehow};

use crate::again::led_along;
use crate::connection::{
    BoxedConnection, Conn, OpenFault, Ran, close, drop_connection, execute, is_settled,
    limit_steps, open, prepare, query,
};
use crate::errors::is_of_store;
use crate::image_history::Write;
use crate::marks::{Marks, changes_beneath, marks_of};
use crate::plan::looks_only;
use crate::shows::Shows;
use crate::texts::{LookingText, names_noted, note_text};
use dq_base::{Image, Items, PAGE_SIZE, PageSet, apply};
use sqlite::types::ValueRef;
use sqlite::{Error, ErrorCode, Row, Statement};
use sqlite_facts::same_pages;
use sqlite_files::changes_between;
use sqlite_open_files::{connected, held, log_of, main_of};
use std::alloc::Global;
use wire_words::WireText;

/// A connection that is kept open over an image. Except for what it has counted, and its limit of steps, it stands to that image
/// as one that was just opened over it.
pub(crate) struct Kept {
    pub(crate) base: Image,
    pub(crate) conn: BoxedConnection,
    /// After which calls the files beneath were those of the image, if that is known.
    marks: Option<Marks>,
    /// Texts that look only under the schema that the connection has.
    looking: Vec<LookingText>,
    ghost stands: { ∥ Stands base conn.value ∥₁ },
    ghost looks: { ∥ AllLook (file_state conn.value).now.schema looking.items ∥₁ },
    ghost marked: { AreMarked base marks conn.value },
}

// It is written out, so that a caller does not prove again how a connection is dropped.
impl Drop for Kept {
    fn drop(self) {
        let Kept {
            base: _,
            conn,
            marks: _,
            looking: _,
        } = self;
        drop_connection(conn);
    }
}

/// A statement that was not run, with the connection where nothing has changed on it.
#[derive(Drop)]
pub(crate) struct Failure {
    pub(crate) left: Option<Kept>,
    pub(crate) error: Error,
}

fn kept_over(
    base: Image,
    conn: BoxedConnection,
    marks: Option<Marks>,
    looking: Vec<LookingText>,
) -> Kept
    requires stands { ∥ Stands base conn.value ∥₁ }
    requires looks { ∥ AllLook (file_state conn.value).now.schema looking.items ∥₁ }
    requires marked { AreMarked base marks conn.value }
    ensures base { result.base ≡ base }
    ensures conn { result.conn ≡ conn }
{
    Kept {
        base,
        conn,
        marks,
        looking,
    }
}

/// A connection of which no text is known to look only.
fn kept_anew(alloc: Global, base: Image, conn: BoxedConnection, marks: Option<Marks>) -> Kept
    requires stands { ∥ Stands base conn.value ∥₁ }
    requires marked { AreMarked base marks conn.value }
    ensures base { result.base ≡ base }
    ensures conn { result.conn ≡ conn }
{
    kept_over(base, conn, marks, Vec::new(alloc))
}

fn is_yes(looks: Option<bool>) -> bool
    ensures { IsTrue result → looks ≡ Some true }
{
    looks == Some(true)
}

impl Kept {
    /// Opens an image, of which it keeps a copy.
    pub(crate) fn open(alloc: Global, image: &Image) -> Result<Kept, OpenFault>
        ensures base { IfOk result (λ kept. kept.base ≡ image.now) }
        ensures refused { result ≡ Err OpenFault.Refused → ∥ IsRefusedOpening image.now ∥₁ }
    {
        let Ok(base) = image.try_clone(alloc) else {
            return Err(OpenFault::NoMemory);
        };
        match open(alloc, image) {
            Ok(conn) => Ok(kept_anew(alloc, base, conn, None)),
            Err(fault) => Err(fault),
        }
    }

    /// The names that an answer gives the columns of a text that was noted as one that looks only. `None` is that it wasn't, or out of
    /// memory.
    pub(crate) fn names_known(&self, alloc: Global, text: &str) -> Option<Items<WireText>>
        ensures { IfSome result (λ names. LooksUnder (file_state self.now.conn.value).now.schema text.now names) }
    {
        names_noted(alloc, self.looking.as_slice(), text)
    }

    /// Whether the text changes nothing if it shows rows, or is one with RETURNING. `None` means out of memory, or a text that
    /// isn't understood. A text that changes nothing is noted with the names of its columns, so that it is neither prepared nor
    /// compiled for this again while the connection stays over its image.
    pub(crate) fn looks_only(
        self,
        alloc: Global,
        statement: &Statement,
        text: &str,
    ) -> (Kept, Option<bool>)
        requires columns { HasColumns (file_state self.conn.value) text.now statement.now.columns }
        requires some { 0 < length statement.now.columns }
        ensures base { result.0.base ≡ self.base }
        ensures conn { result.0.conn ≡ self.conn }
        ensures looks { result.1 ≡ Some true → ∥ LooksOnly (understood (file_state self.conn.value).now.schema text.now) ∥₁ }
        ensures returns { result.1 ≡ Some false → HasReturning (understood (file_state self.conn.value).now.schema text.now) }
    {
        let looks = looks_only(alloc, &*self.conn, text);
        if is_yes(looks) {
            (self.noting(alloc, statement, text), looks)
        } else {
            (self, looks)
        }
    }

    /// The connection, beside which this text is noted as one that looks only.
    fn noting(self, alloc: Global, statement: &Statement, text: &str) -> Kept
        requires { OnlyShows (file_state self.conn.value).now.schema text.now statement.now.columns }
        ensures base { result.base ≡ self.base }
        ensures conn { result.conn ≡ self.conn }
    {
        let Kept {
            base,
            conn,
            marks,
            mut looking,
        } = self;
        note_text(alloc, &mut looking, text, statement.column_names());
        kept_over(base, conn, marks, looking)
    }

    /// Whether it is open over this image. It compares the bytes, the side file's first.
    pub(crate) fn is_over(&self, image: &Image) -> bool
        ensures { IsTrue result ↔ self.now.base ≡ image.now }
    {
        self.base.side.as_slice() == image.side.as_slice()
            && self.base.main.as_slice() == image.main.as_slice()
    }

    /// The connection once these statements have run on it, over this image, if its files hold the same database then. They do where the
    /// main file is the same, and the log has the same frames; salts, checksums, and what lies after the last commit may be others. `None`
    /// is that they differ, that a statement isn't run, or out of memory.
    pub(crate) fn led_to(self, alloc: Global, writes: &[Write], image: &Image) -> Option<Kept>
        ensures { IfSome result (λ kept. kept.base ≡ image.now) }
    {
        let Kept {
            base,
            conn,
            marks: _,
            looking: _,
        } = self;
        match led_along(alloc, &base, conn, writes) {
            Some(conn) => kept_alike(alloc, base, conn, image),
            None => None,
        }
    }

    /// The connection with this limit of steps for each later statement, or with none.
    pub(crate) fn limited(self, limit: Option<u64>) -> Kept
        ensures base { result.base ≡ self.base }
        ensures limit { result.conn.value.step_limit ≡ limit }
    {
        let Kept {
            base,
            mut conn,
            marks,
            looking,
        } = self;
        limit_steps(&mut *conn, limit);
        kept_over(base, conn, marks, looking)
    }

    /// What the statement of a text shows, before it is run.
    pub(crate) fn prepared(self, text: &str) -> Result<(Kept, Statement), Failure>
        ensures base { IfOk result (λ r. r.0.base ≡ self.base) }
        ensures limit { IfOk result (λ r. r.0.conn.value.step_limit ≡ self.conn.value.step_limit) }
        ensures columns { IfOk result (λ r. HasColumns (file_state r.0.conn.value) text.now r.1.columns) }
        ensures left { IfErr result (λ failure. IfSome failure.left (λ left. left.base ≡ self.base)) }
        ensures fails { IfErr result (λ failure. (params : _) → ∥ FailsOn self.base self.conn.value.step_limit text.now params failure.error ∥₁) }
    {
        let Kept {
            base,
            conn,
            marks,
            looking,
        } = self;
        match prepare(conn, &base, marks, text) {
            Ok((conn, marks, statement)) => {
                Ok((kept_over(base, conn, marks, looking), statement))
            }
            Err((conn, marks, error)) => Err(Failure {
                left: left_after(base, conn, marks, looking, error),
                error,
            }),
        }
    }

    /// Shows the rows of a statement that changes nothing. The connection stays.
    pub(crate) fn look(self, text: &str, params: &[ValueRef<'_>]) -> Result<(Kept, Shows), Failure>
        requires { ∥ LooksOnly (understood (file_state self.conn.value).now.schema text.now) ∥₁ }
        ensures base { IfOk result (λ r. r.0.base ≡ self.base) }
        ensures ran { (columns : _) → ∥ HasColumns (file_state self.conn.value) text.now columns ∥₁
            → IfOk result (λ r. ∥ RanOn self.base text.now (bound params.now) self.base (showing columns r.1) ∥₁) }
        ensures left { IfErr result (λ failure. IfSome failure.left (λ left. left.base ≡ self.base)) }
        ensures fails { IfErr result (λ failure. ∥ FailsOn self.base self.conn.value.step_limit text.now (bound params.now) failure.error ∥₁) }
    {
        let Kept {
            base,
            conn,
            marks,
            looking,
        } = self;
        match query(conn, &base, marks, text, params) {
            Ok((conn, marks, rows)) => {
                let shows = Shows { affected: 0, rows };
                Ok((kept_over(base, conn, marks, looking), shows))
            }
            Err((conn, marks, error)) => Err(Failure {
                left: left_after(base, conn, marks, looking, error),
                error,
            }),
        }
    }

    /// Runs a statement that may change something, and looks at what the files are then. The connection stays, unless the
    /// statement has begun a transaction or committed much.
    pub(crate) fn change(
        self,
        alloc: Global,
        statement: &Statement,
        text: &str,
        params: &[ValueRef<'_>],
        tx: u64,
    ) -> Result<(Option<Kept>, Shows, PageSet), Failure>
        requires columns { HasColumns (file_state self.conn.value) text.now statement.now.columns }
        requires returns { (statement.now.columns ≡ [] → ⊥) → HasReturning (understood (file_state self.conn.value).now.schema text.now) }
        ensures led { IfOk result (λ r. Led self.base text.now (bound params.now) tx (showing statement.now.columns r.1) r.2) }
        ensures over { IfOk result (λ r. IfSome r.0 (λ kept. IsLedTo self.base r.2 kept.base)) }
        ensures bare { IfOk result (λ r. statement.now.columns ≡ [] → r.1.rows.items ≡ []) }
        ensures left { IfErr result (λ failure. IfSome failure.left (λ left. left.base ≡ self.base)) }
        ensures fails { IfErr result (λ failure. IsRefused self.base self.conn.value.step_limit text.now (bound params.now) failure.error) }
    {
        let Kept {
            base,
            conn,
            marks,
            looking,
        } = self;
        match ask(alloc, conn, &base, marks, statement, text, params) {
            Ok((conn, marks, shows)) => match settled(alloc, base, conn, marks, tx) {
                Some((left, set)) => Ok((left, shows, set)),
                None => Err(Failure {
                    left: None,
                    error: Error::SqliteFailure(ErrorCode::OutOfMemory),
                }),
            },
            Err((conn, marks, error)) => Err(Failure {
                left: left_after(base, conn, marks, looking, error),
                error,
            }),
        }
    }
}

/// The pages that lead to what the files of a connection are now, and the connection itself, if it is in no transaction.
fn settled(
    alloc: Global,
    base: Image,
    conn: BoxedConnection,
    marks: Option<Marks>,
    tx: u64,
) -> Option<(Option<Kept>, PageSet)>
    requires open { IsTrue (file_state conn.value).is_open }
    requires marked { AreMarked base marks conn.value }
    ensures settled { IfSome result (λ r. Settled base conn.value tx r.1) }
    ensures over { IfSome result (λ r. IfSome r.0 (λ kept. IsLedTo base r.1 kept.base)) }
{
    let unboxed = &*conn;
    if is_settled(unboxed) && has_short_log(unboxed) {
        followed(alloc, base, conn, marks, tx)
    } else {
        match closed(alloc, base, conn, tx) {
            Some(set) => Some((None, set)),
            None => None,
        }
    }
}

/// The longest log with which a connection continues. It keeps the length that its largest commit gave it, and each look at the
/// files goes through it; a close cuts it.
const MAX_LOG_LENGTH: usize = 32 * PAGE_SIZE;

fn has_short_log(conn: &Conn) -> bool {
    log_of(conn).bytes().len() <= MAX_LOG_LENGTH
}

/// The pages that lead to what the files of a connection are now, and the connection over these files. It has no copy of them
/// made but of the pages that differ, which the image before takes over.
fn followed(
    alloc: Global,
    base: Image,
    conn: BoxedConnection,
    marks: Option<Marks>,
    tx: u64,
) -> Option<(Option<Kept>, PageSet)>
    requires open { IsTrue (file_state conn.value).is_open }
    requires marked { AreMarked base marks conn.value }
    requires autocommit { (file_state conn.value).in_transaction ≡ false }
    ensures settled { IfSome result (λ r. Settled base conn.value tx r.1) }
    ensures over { IfSome result (λ r. IfSome r.0 (λ kept. IsLedTo base r.1 kept.base)) }
{
    let unboxed = &*conn;
    connected(unboxed);
    held(unboxed);
    match changes_beneath(alloc, &base, unboxed, marks, tx) {
        Ok(set) => {
            let left = moved_on(alloc, base, conn, &set);
            Some((left, set))
        }
        Err(_) => {
            drop_connection(conn);
            None
        }
    }
}

/// The connection over what its files are, to which these pages lead from the image. `None` where no memory is left to grow the
/// image, or if the pages state a file that is longer than any may be. Its schema may be another one, so no text is known to look
/// only.
fn moved_on(alloc: Global, base: Image, conn: BoxedConnection, set: &PageSet) -> Option<Kept>
    requires pages { set.now.pages ≡ changed base (files_beneath conn.value) }
    requires short { IsShort (files_beneath conn.value) }
    requires stands { ∥ Stands (files_beneath conn.value) conn.value ∥₁ }
    ensures { IfSome result (λ kept. kept.base ≡ files_beneath conn.value) }
{
    let mut base = base;
    if takes_over(&mut base, set) {
        let marks = marks_of(&*conn);
        Some(kept_anew(alloc, base, conn, marks))
    } else {
        drop_connection(conn);
        None
    }
}

/// The connection over this image, if its files hold the same database.
fn kept_alike(alloc: Global, base: Image, conn: BoxedConnection, image: &Image) -> Option<Kept>
    requires open { IsTrue (file_state conn.value).is_open }
    requires autocommit { (file_state conn.value).in_transaction ≡ false }
    ensures { IfSome result (λ kept. kept.base ≡ image.now) }
{
    let unboxed = &*conn;
    connected(unboxed);
    held(unboxed);
    if !holds_alike(alloc, unboxed, image) {
        drop_connection(conn);
        return None;
    }
    match brought_to(alloc, base, image) {
        Some(base) => Some(kept_anew(alloc, base, conn, None)),
        None => {
            drop_connection(conn);
            None
        }
    }
}

/// Whether an image holds each database that the files of a connection hold.
fn holds_alike(alloc: Global, conn: &Conn, image: &Image) -> bool
    ensures { IsTrue result → HoldAlike (image_in (files conn.now.store)) (files_of image.now) }
{
    let main = main_of(conn).bytes();
    let side = log_of(conn).bytes();
    if !is_same(main, image.main.as_slice()) {
        return false;
    }
    same_pages(alloc, main, side, image.side.as_slice())
}

fn is_same(a: &[u8], b: &[u8]) -> bool
    ensures { IsTrue result → a.now ≡ b.now }
{
    a == b
}

/// An image with the bytes of another one. It has no copy of them made but of the pages that differ.
fn brought_to(alloc: Global, image: Image, other: &Image) -> Option<Image>
    ensures { IfSome result (λ now. now ≡ other.now) }
{
    let mut image = image;
    is_short(other);
    let Ok(set) = changes_between(
        alloc,
        &image,
        other.main.as_slice(),
        other.side.as_slice(),
        0,
    ) else {
        return None;
    };
    if takes_over(&mut image, &set) {
        Some(image)
    } else {
        None
    }
}

/// Has an image take over the pages that lead to another one. `false` is that the set isn't one that can be applied, or that
/// memory ran out.
fn takes_over(image: &mut Image, set: &PageSet) -> bool
    ensures { IsTrue result → (after : _) → IsShort after → set.now.pages ≡ changed image.old after → image.new ≡ after }
{
    if set.pages.is_empty() {
        return true;
    }
    match apply(image, set) {
        Ok(()) => true,
        Err(_) => false,
    }
}

/// The pages that lead to what the files of a connection are once they are closed.
fn closed(alloc: Global, base: Image, conn: BoxedConnection, tx: u64) -> Option<PageSet>
    ensures { IfSome result (λ set. Settled base conn.value tx set) }
{
    let after = close(conn)?;
    is_short(&after);
    match changes_between(
        alloc,
        &base,
        after.main.as_slice(),
        after.side.as_slice(),
        tx,
    ) {
        Ok(set) => Some(set),
        Err(_) => None,
    }
}

/// The files of any image are shorter than 2^64 bytes.
pub(crate) fn is_short(image: &Image)
    ensures { IsShort image.now }
{
    let _main = image.main.len();
    let _side = image.side.len();
}

/// What is left of a connection after an error.
fn left_after(
    base: Image,
    conn: BoxedConnection,
    marks: Option<Marks>,
    looking: Vec<LookingText>,
    error: Error,
) -> Option<Kept>
    requires marked { AreMarked base marks conn.value }
    requires stands { is_of_store error ≡ false → ∥ Stands base conn.value ∥₁ }
    requires looks { is_of_store error ≡ false → ∥ AllLook (file_state conn.value).now.schema looking.items ∥₁ }
    ensures { IfSome result (λ left. left.base ≡ base) }
{
    if is_of_store(error) {
        drop_connection(conn);
        None
    } else {
        Some(kept_over(base, conn, marks, looking))
    }
}

/// These rows, with how many rows the connection says were changed.
fn shows_of(conn: &Conn, rows: Vec<Row>) -> Shows
    ensures affected { result.affected ≡ (file_state conn.now).changes }
    ensures rows { result.rows.items ≡ rows.items }
{
    Shows {
        affected: conn.changes(),
        rows,
    }
}

fn run_rows(
    conn: BoxedConnection,
    base: &Image,
    marks: Option<Marks>,
    text: &str,
    params: &[ValueRef<'_>],
) -> Ran<Shows>
    requires returns { HasReturning (understood (file_state conn.value).now.schema text.now) }
    requires marked { AreMarked base.now marks conn.value }
    ensures ok_marked { IfOk result (λ r. AreMarked base.now r.1 r.0.value) }
    ensures ok { (columns : _) → IfOk result (λ r. Asked text.now (bound params.now) conn.value r.0.value (showing columns r.2)) }
    ensures err_marked { IfErr result (λ r. AreMarked base.now r.1 r.0.value) }
    ensures err { IfErr result (λ r. FailsToQuery text.now (bound params.now) (file_state conn.value) (file_state r.0.value) r.2) }
{
    match query(conn, base, marks, text, params) {
        Ok((conn, marks, rows)) => {
            let shows = shows_of(&*conn, rows);
            Ok((conn, marks, shows))
        }
        Err((conn, marks, error)) => Err((conn, marks, error)),
    }
}

fn run_plain(
    alloc: Global,
    conn: BoxedConnection,
    base: &Image,
    marks: Option<Marks>,
    text: &str,
    params: &[ValueRef<'_>],
) -> Ran<Shows>
    requires { AreMarked base.now marks conn.value }
    ensures ok_marked { IfOk result (λ r. AreMarked base.now r.1 r.0.value) }
    ensures ok { (columns : _) → columns ≡ [] → IfOk result (λ r. Asked text.now (bound params.now) conn.value r.0.value (showing columns r.2)) }
    ensures bare { IfOk result (λ r. r.2.rows.items ≡ []) }
    ensures err_marked { IfErr result (λ r. AreMarked base.now r.1 r.0.value) }
    ensures err { IfErr result (λ r. Executes text.now (bound params.now) (file_state conn.value) (file_state r.0.value) (Err r.2)) }
{
    match execute(conn, base, marks, text, params) {
        Ok((conn, marks, affected)) => {
            let rows = Vec::new(alloc);
            Ok((conn, marks, Shows { affected, rows }))
        }
        Err((conn, marks, error)) => Err((conn, marks, error)),
    }
}

fn ask(
    alloc: Global,
    conn: BoxedConnection,
    base: &Image,
    marks: Option<Marks>,
    statement: &Statement,
    text: &str,
    params: &[ValueRef<'_>],
) -> Ran<Shows>
    requires returns { (statement.now.columns ≡ [] → ⊥) → HasReturning (understood (file_state conn.value).now.schema text.now) }
    requires marked { AreMarked base.now marks conn.value }
    ensures ok_marked { IfOk result (λ r. AreMarked base.now r.1 r.0.value) }
    ensures ok { IfOk result (λ r. Asked text.now (bound params.now) conn.value r.0.value (showing statement.now.columns r.2)) }
    ensures bare { IfOk result (λ r. statement.now.columns ≡ [] → r.2.rows.items ≡ []) }
    ensures err_marked { IfErr result (λ r. AreMarked base.now r.1 r.0.value) }
    ensures err { IfErr result (λ r. FailsSomehow text.now (bound params.now) (file_state conn.value) (file_state r.0.value) r.2) }
{
    match statement.column_names() {
        [] => run_plain(alloc, conn, base, marks, text, params),
        [_, ..] => run_rows(conn, base, marks, text, params),
    }
}
