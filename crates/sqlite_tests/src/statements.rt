use dq_base::{Bytes, Image, ImageNumber, PageSet, apply};
use sql_engine::{CellEngine, Engine, EngineFault, ImageNumbers, StatementResult};
use sqlite_engine::{AnyEngine, SqliteEngine};
use std::alloc::{AllocError, Global};
use std::test::Fail;
use wire_words::{Value, WireText};

/// The numbers of the tests' images, if the engine has forgotten all numbers.
const NUMBERS: ImageNumbers = ImageNumbers {
    before: ImageNumber::Working(0),
    after: 1,
};

/// What an engine that forgets all numbers answers to a statement, without a limit of steps.
fn answer<E: Engine>(
    engine: &mut E,
    image: &Image,
    text: &str,
    params: &[Value],
    tx: u64,
) -> Result<StatementResult, EngineFault> {
    engine.forget();
    engine.run(image, NUMBERS, text, params, tx, None)
}

/// Informs an engine that forgets all numbers of an image.
fn announce<E: Engine>(engine: &mut E, image: &Image) {
    engine.forget();
    engine.ready(image, NUMBERS.before);
}

/// A database as an engine and an image of it.
#[derive(Drop)]
struct Database {
    engine: SqliteEngine,
    image: Image,
}

impl Database {
    fn new(alloc: Global) -> Database {
        Database {
            engine: SqliteEngine::new(alloc),
            image: Image::new(alloc),
        }
    }

    /// Runs a statement, and applies its pages to the image. Answers how many rows and how many pages it changed.
    fn write(&mut self, text: &str, params: &[Value]) -> Result<(u64, usize), Fail> {
        let ran = answer(&mut self.engine, &self.image, text, params, 1)?;
        if !ran.after.pages.is_empty() {
            apply(&mut self.image, &ran.after)?;
        }
        Ok((ran.affected, ran.after.pages.len()))
    }
}

/// The values of the one row of an answer with an integer and a text.
fn row_of(ran: &StatementResult) -> Option<(i64, &str)> {
    match ran.rows.as_slice() {
        [row] => match row.values() {
            [Value::Integer(number), Value::Text(text)] => Some((*number, text.as_str())),
            _ => None,
        },
        _ => None,
    }
}

/// The name of the first column of an answer.
fn first_name(ran: &StatementResult) -> Option<&str> {
    match ran.columns.as_slice() {
        [name, ..] => Some(name.as_str()),
        [] => None,
    }
}

/// Five and an x, as parameters.
fn five_and_x(alloc: Global) -> Result<[Value; 2], AllocError> {
    let text = String::from_str(alloc, "x")?;
    Ok([Value::Integer(5), Value::Text(WireText::new(text))])
}

/// A database with a table that has one row.
fn filled(alloc: Global) -> Result<Database, Fail> {
    let mut database = Database::new(alloc);
    let params = five_and_x(alloc)?;
    database.write("CREATE TABLE t (a INT UNIQUE, b TEXT)", &[])?;
    database.write("INSERT INTO t VALUES (?, ?)", &params)?;
    Ok(database)
}

/// Whether a text that is no SQL is refused.
fn refuses(engine: &mut SqliteEngine, image: &Image) -> bool {
    answer(engine, image, "SELEC 1", &[], 3).is_err()
}

/// What a query answers over an image that was opened ahead, before and after a text that is refused: whether its row is
/// there, the pages of its set, and how many openings were tried in all.
fn asked(engine: &mut SqliteEngine, image: &Image) -> Result<(bool, usize, u64), Fail> {
    let text = "SELECT a, b FROM t";
    announce(engine, image);
    let first = answer(engine, image, text, &[], 2)?;
    let is_refused = refuses(engine, image);
    let second = answer(engine, image, text, &[], 4)?;
    let is_row = row_of(&first) == Some((5, "x")) && row_of(&second) == Some((5, "x"));
    let is_named = first_name(&first) == Some("a");
    Ok((
        is_row && is_named && is_refused,
        second.after.pages.len(),
        engine.openings(),
    ))
}

#[test]
fn a_table_is_made_and_filled(rt: HostRuntime) -> Result<(), Fail> {
    let database = filled(rt.alloc())?;
    let mut engine = database.engine.fork()?;
    assert_eq!(rt; asked(&mut engine, &database.image)?, (true, 0, 1));
    Ok(())
}

#[test]
fn a_chain_of_writes_opens_once(rt: HostRuntime) -> Result<(), Fail> {
    let database = filled(rt.alloc())?;
    assert_eq!(rt; database.engine.openings(), 1);
    Ok(())
}

/// The pages that a statement changes.
fn pages_of(database: &mut Database, text: &str, params: &[Value]) -> Result<PageSet, Fail> {
    let StatementResult {
        after,
        affected: _,
        columns: _,
        rows: _,
    } = answer(&mut database.engine, &database.image, text, params, 1)?;
    apply(&mut database.image, &after)?;
    Ok(after)
}

/// An empty image to which the pages of a table that was made and filled elsewhere were applied, and nothing else.
fn second_image(alloc: Global) -> Result<Image, Fail> {
    let mut database = Database::new(alloc);
    let params = five_and_x(alloc)?;
    let made = pages_of(&mut database, "CREATE TABLE t (a INT, b TEXT)", &[])?;
    let filled = pages_of(&mut database, "INSERT INTO t VALUES (?, ?)", &params)?;
    let mut second = Image::new(alloc);
    apply(&mut second, &made)?;
    apply(&mut second, &filled)?;
    Ok(second)
}

#[test]
fn pages_lead_to_the_same_rows_elsewhere(rt: HostRuntime) -> Result<(), Fail> {
    let second = second_image(rt.alloc())?;
    let mut engine = SqliteEngine::new(rt.alloc());
    assert_eq!(rt; asked(&mut engine, &second)?, (true, 0, 1));
    Ok(())
}

/// The fault of a statement over a filled database, and how many openings were tried in all: it leaves its connection.
fn fault_of(alloc: Global, text: &str) -> Result<(Option<EngineFault>, u64), Fail> {
    let mut database = filled(alloc)?;
    let answered = answer(&mut database.engine, &database.image, text, &[], 4);
    database.write("SELECT 1", &[])?;
    Ok((answered.err(), database.engine.openings()))
}

/// Texts, and the fault of each.
const REFUSED: &[(&str, Option<EngineFault>)] = &[
    ("SELECT 0.5", Some(EngineFault::Float(0, 0))),
    (
        "SELECT CAST(x'ff41' AS TEXT)",
        Some(EngineFault::NotText(0, 0)),
    ),
    (
        "INSERT INTO t VALUES (5, 'y')",
        Some(EngineFault::Constraint),
    ),
    ("SELEC 1", Some(EngineFault::Sql)),
    ("SELECT datetime('now')", Some(EngineFault::Sql)),
    ("SELECT 1", None),
];

#[test]
fn statements_are_refused(rt: HostRuntime) -> Result<(), Fail> {
    for &(text, wanted) in REFUSED {
        assert_eq!(rt; fault_of(rt.alloc(), text)?, (wanted, 1));
    }
    Ok(())
}

/// What a statement answers over a main file that is no database.
fn over_no_database(alloc: Global) -> Result<Option<EngineFault>, Fail> {
    let mut image = Image::new(alloc);
    let mut main = Vec::new(alloc);
    main.resize(5000, 7)?;
    image.main = Bytes::new(main);
    let mut engine = SqliteEngine::new(alloc);
    Ok(answer(&mut engine, &image, "SELECT 1", &[], 5).err())
}

#[test]
fn no_database_is_not_opened(rt: HostRuntime) -> Result<(), Fail> {
    assert_eq!(rt; over_no_database(rt.alloc())?, Some(EngineFault::Unopened));
    Ok(())
}

/// What a row inserted, one changed, one deleted and a table made answer: how many rows they changed.
fn counts(alloc: Global) -> Result<[u64; 4], Fail> {
    let mut database = filled(alloc)?;
    let inserted = database.write("INSERT INTO t VALUES (6, 'y'), (7, 'z')", &[])?;
    let changed = database.write("UPDATE t SET b = 'w' WHERE a > 5", &[])?;
    let deleted = database.write("DELETE FROM t RETURNING a", &[])?;
    let made = database.write("CREATE TABLE u (c)", &[])?;
    Ok([inserted.0, changed.0, deleted.0, made.0])
}

#[test]
fn changed_rows_are_counted(rt: HostRuntime) -> Result<(), Fail> {
    assert_eq!(rt; counts(rt.alloc())?, [2, 2, 3, 0]);
    Ok(())
}

/// An engine of cells or of SQLite, as a fork of another.
fn forked(alloc: Global, cells: bool) -> Result<AnyEngine, AllocError> {
    let engine = if cells {
        AnyEngine::Cells(CellEngine::new(alloc))
    } else {
        AnyEngine::Sqlite(SqliteEngine::new(alloc))
    };
    engine.fork()
}

/// The fault of a statement over an empty image, under an engine of cells or of SQLite.
fn fault_under(alloc: Global, cells: bool, text: &str) -> Result<Option<EngineFault>, AllocError> {
    let mut engine = forked(alloc, cells)?;
    let image = Image::new(alloc);
    announce(&mut engine, &image);
    Ok(answer(&mut engine, &image, text, &[], 6).err())
}

/// Whether cells are asked, a text, and its fault.
const KINDS: &[(bool, &str, Option<EngineFault>)] = &[
    (true, "SET 3 9", None),
    (true, "SELECT 1", Some(EngineFault::Sql)),
    (false, "SET 3 9", Some(EngineFault::Sql)),
    (false, "SELECT 1", None),
];

#[test]
fn each_kind_has_its_own_statements(rt: HostRuntime) -> Result<(), Fail> {
    for &(cells, text, wanted) in KINDS {
        assert_eq!(rt; fault_under(rt.alloc(), cells, text)?, wanted);
    }
    Ok(())
}
/// Texts that look at the listing of tables, or at rows, and change nothing.
const LOOKS: &[&str] = &[
    "SELECT name FROM sqlite_schema",
    "SELECT name, sql FROM sqlite_master WHERE type = 'table'",
    "SELECT count(*) FROM sqlite_schema",
    "SELECT a FROM t",
];

/// How many pages a text changes that looks at a database with two commits, and how many openings were tried in all.
fn looked(alloc: Global, text: &str) -> Result<(usize, u64), Fail> {
    let mut database = filled(alloc)?;
    let (_affected, pages) = database.write(text, &[])?;
    Ok((pages, database.engine.openings()))
}

#[test]
fn a_look_changes_nothing(rt: HostRuntime) -> Result<(), Fail> {
    for &text in LOOKS {
        assert_eq!(rt; looked(rt.alloc(), text)?, (0, 1));
    }
    Ok(())
}

/// Joins of a table of 1,010 rows with itself twice.
const JOINS: &[&str] = &[
    "SELECT count(*) FROM n a, n b, n c",
    "INSERT INTO n SELECT 2000 + a.a FROM n a, n b, n c",
];

/// What a join answers in at most this many steps, and how many openings were tried in all: it leaves its connection.
fn joined(alloc: Global, text: &str, limit: u64) -> Result<(Option<EngineFault>, u64), Fail> {
    let mut database = Database::new(alloc);
    database.write("CREATE TABLE n (a INTEGER PRIMARY KEY)", &[])?;
    database.write(
        "INSERT INTO n VALUES (1), (2), (3), (4), (5), (6), (7), (8), (9), (10)",
        &[],
    )?;
    database.write(
        "INSERT INTO n SELECT 100 * a.a + 10 * b.a + c.a - 100 FROM n a, n b, n c",
        &[],
    )?;
    database.engine.forget();
    let joined = database
        .engine
        .run(&database.image, NUMBERS, text, &[], 1, Some(limit));
    database.write("SELECT 1", &[])?;
    Ok((joined.err(), database.engine.openings()))
}

#[test]
fn a_long_join_is_cut_short(rt: HostRuntime) -> Result<(), Fail> {
    for &text in JOINS {
        assert_eq!(rt;
            joined(rt.alloc(), text, 10_000)?,
            (Some(EngineFault::Cut), 1)
        );
    }
    Ok(())
}

/// A number, and a text of 1,000 bytes.
fn numbered(alloc: Global, number: i64) -> Result<[Value; 2], Fail> {
    let mut text = String::new(alloc);
    for _ in 0..50 {
        text.push_str("twenty bytes of text")?;
    }
    Ok([Value::Integer(number), Value::Text(WireText::new(text))])
}

/// Runs one of a chain of statements that add rows, change them, are refused, look, and take rows away.
fn go_on(database: &mut Database, alloc: Global, number: i64) -> Result<(), Fail> {
    match number % 6 {
        2 => {
            database.write("UPDATE t SET b = b || 'y' WHERE a % 3 = 0", &[])?;
        }
        3 => {
            let text = "INSERT INTO t VALUES (5, 'z')";
            let _is_refused = answer(&mut database.engine, &database.image, text, &[], 1).is_err();
        }
        4 => {
            database.write("SELECT b FROM t WHERE a = 5", &[])?;
        }
        5 => {
            database.write("DELETE FROM t WHERE a % 11 = 4", &[])?;
        }
        _ => {
            database.write("INSERT INTO t VALUES (?, ?)", &numbered(alloc, number)?)?;
        }
    }
    Ok(())
}

/// How many rows there are, and the greatest text.
fn summed(engine: &mut SqliteEngine, image: &Image) -> Result<StatementResult, EngineFault> {
    answer(engine, image, "SELECT count(*), max(b) FROM t", &[], 2)
}

/// Whether another engine that opens the image of a chain of statements, from number 100 up to before `end`, finds the rows that the
/// engine of the chain has; and how many openings the engine of the chain tried in all.
fn chained(alloc: Global, end: i64) -> Result<(bool, u64), Fail> {
    let mut database = filled(alloc)?;
    for number in 100..end {
        go_on(&mut database, alloc, number)?;
    }
    let mut fresh = database.engine.fork()?;
    let own = summed(&mut database.engine, &database.image)?;
    let other = summed(&mut fresh, &database.image)?;
    let is_same = row_of(&own).is_some() && row_of(&own) == row_of(&other);
    Ok((is_same, database.engine.openings()))
}

#[test]
fn touched_pages_lead_along_a_chain_of_statements(rt: HostRuntime) -> Result<(), Fail> {
    for end in [101, 107, 160] {
        assert_eq!(rt;
            chained(rt.alloc(), end)?,
            (true, 1),
            "up to statement {end}"
        );
    }
    Ok(())
}
