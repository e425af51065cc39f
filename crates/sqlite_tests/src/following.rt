ghost use Rattle.std.specs.Prelude.{◌+◌, ◌*◌, ◌<◌, IfOk};
ghost use Rattle.sqlite_tests.specs.Told.{AreTold};

use dq_base::{Image, ImageNumber, apply};
use sql_engine::{Engine, EngineFault, ImageNumbers, StatementResult};
use sqlite_engine::SqliteEngine;
use std::alloc::Global;
use std::test::Fail;
use wire_words::Value;

/// What a statement answers over the newest image, as a leader runs it.
fn run(
    engine: &mut SqliteEngine,
    newest: &Image,
    commits: u64,
    works: u64,
    text: &str,
) -> Result<StatementResult, EngineFault>
    requires { AreTold newest.now commits works engine.old.known }
    ensures { AreTold newest.now commits (works + 1) engine.new.known }
{
    let numbers = ImageNumbers {
        before: ImageNumber::Newest { place: 0, commits },
        after: works,
    };
    engine.run(newest, numbers, text, &[], 1, None)
}

/// Informs an engine of the newest image after one more commit.
fn tell(engine: &mut SqliteEngine, before: &Image, newest: &Image, commits: u64, works: u64)
    requires told { AreTold before.now commits works engine.old.known }
    requires small { commits < 1000 }
    ensures { AreTold newest.now (commits + 1) works engine.new.known }
{
    let number = ImageNumber::Newest {
        place: 0,
        commits: commits + 1,
    };
    engine.ready(newest, number);
}

/// The integer of an answer with one row of one column, and else 0.
fn first_integer(ran: &StatementResult) -> i64 {
    match ran.rows.as_slice() {
        [row] => match row.values() {
            [Value::Integer(number)] => *number,
            _ => 0,
        },
        _ => 0,
    }
}

/// Makes the table in the first commit, and adds a row in each other one.
fn text_of(commits: u64) -> &'static str {
    if commits == 0 {
        "CREATE TABLE t (a INTEGER PRIMARY KEY, b TEXT)"
    } else {
        "INSERT INTO t VALUES (NULL, 'a row of the table')"
    }
}

/// How many rows a query counts over the newest image; none if there is no query.
fn counted(
    engine: &mut SqliteEngine,
    newest: &Image,
    commits: u64,
    works: u64,
    is_read: bool,
) -> Result<i64, EngineFault>
    requires { AreTold newest.now commits works engine.old.known }
    ensures { AreTold newest.now commits (works + 1) engine.new.known }
{
    if !is_read {
        return Ok(0);
    }
    match run(engine, newest, commits, works, "SELECT count(*) FROM t") {
        Ok(ran) => Ok(first_integer(&ran)),
        Err(fault) => Err(fault),
    }
}

/// An image after a write.
fn behind(alloc: Global, image: &Image, ran: &StatementResult) -> Result<Image, Fail> {
    let mut image = image.try_clone(alloc)?;
    if !ran.after.pages.is_empty() {
        apply(&mut image, &ran.after)?;
    }
    Ok(image)
}

/// The newest image after one more commit, and how many rows a query counts over the image before, while the write is on its way.
fn commit(
    alloc: Global,
    engine: &mut SqliteEngine,
    newest: &Image,
    commits: u64,
    is_read: bool,
) -> Result<(Image, i64), Fail>
    requires told { AreTold newest.now commits (2 * commits) engine.old.known }
    requires small { commits < 1000 }
    ensures { IfOk result (λ r. AreTold r.0 (commits + 1) (2 * commits + 2) engine.new.known) }
{
    let works = 2 * commits;
    let ran = run(engine, newest, commits, works, text_of(commits))?;
    let rows = counted(engine, newest, commits, works + 1, is_read)?;
    let image = behind(alloc, newest, &ran)?;
    tell(engine, newest, &image, commits, works + 2);
    Ok((image, rows))
}

/// How many rows queries count together, and how many images are opened, if a query comes beside these commits and none beside others.
fn beside(alloc: Global, reads: &[bool]) -> Result<(i64, u64), Fail> {
    let mut engine = SqliteEngine::new(alloc);
    let mut newest = Image::new(alloc);
    let mut rows: i64 = 0;
    let mut commits = 0;
    for is_read in reads {
        if commits >= 100 {
            break;
        }
        let (image, counted) = commit(alloc, &mut engine, &newest, commits, *is_read)?;
        newest = image;
        rows = rows.saturating_add(counted);
        commits += 1;
    }
    Ok((rows, engine.openings()))
}

const YES: bool = true;

const NO: bool = false;

#[test]
fn queries_beside_writes_open_an_image_once(rt: HostRuntime) -> Result<(), Fail> {
    let reads = [
        NO, YES, YES, YES, YES, YES, YES, YES, YES, YES, YES, YES, YES,
    ];
    assert_eq!(rt; beside(rt.alloc(), &reads)?, (66, 2));
    Ok(())
}

/// The first query's connection follows eight writes beside which there is no query, and then no more.
#[test]
fn a_connection_that_nobody_wants_follows_eight_times(rt: HostRuntime) -> Result<(), Fail> {
    let wanted = [NO, YES, NO, NO, NO, NO, NO, NO, NO, YES];
    let left = [NO, YES, NO, NO, NO, NO, NO, NO, NO, NO, YES];
    assert_eq!(rt; beside(rt.alloc(), &wanted)?, (8, 2));
    assert_eq!(rt; beside(rt.alloc(), &left)?, (9, 3));
    Ok(())
}
