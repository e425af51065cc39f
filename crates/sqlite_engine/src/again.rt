//! Statements that are run once more on a connection, as another one has run them.

ghost use Rattle.std.specs.Prelude.{◌≡◌, false, IsTrue, IfSome};
ghost use Rattle.sqlite.specs.Files.{file_state};

use crate::connection::{
    BoxedConnection, drop_connection, execute, is_settled, limit_steps, query,
};
use crate::image_history::Write;
use crate::values::bind;
use dq_base::Image;
use sqlite::types::ValueRef;
use std::alloc::Global;

/// How many steps a statement may take that is run once more: some 20 ms.
const MAX_STEPS: u64 = 40_000;

/// The connection once these statements have run on it, one after the other. `None` is that one of them isn't run, or has begun a
/// transaction.
pub(crate) fn led_along(
    alloc: Global,
    base: &Image,
    conn: BoxedConnection,
    writes: &[Write],
) -> Option<BoxedConnection>
    requires open { IsTrue (file_state conn.value).is_open }
    requires autocommit { (file_state conn.value).in_transaction ≡ false }
    ensures open { IfSome result (λ led. IsTrue (file_state led.value).is_open) }
    ensures autocommit { IfSome result (λ led. (file_state led.value).in_transaction ≡ false) }
{
    let mut conn = conn;
    for write in writes {
        match ran_again(alloc, base, conn, write) {
            Some(led) => conn = led,
            None => return None,
        }
    }
    Some(conn)
}

/// The connection once a statement has run on it. What the statement answers was reported before.
fn ran_again(
    alloc: Global,
    base: &Image,
    conn: BoxedConnection,
    write: &Write,
) -> Option<BoxedConnection>
    requires { (file_state conn.value).in_transaction ≡ false }
    ensures open { IfSome result (λ led. IsTrue (file_state led.value).is_open) }
    ensures autocommit { IfSome result (λ led. (file_state led.value).in_transaction ≡ false) }
{
    let mut conn = conn;
    limit_steps(&mut *conn, Some(MAX_STEPS));
    let (conn, is_run) = run_again(alloc, base, conn, write);
    if is_run && is_settled(&*conn) {
        return Some(conn);
    }
    drop_connection(conn);
    None
}

/// Runs a statement. The answer is whether it was run.
fn run_again(
    alloc: Global,
    base: &Image,
    conn: BoxedConnection,
    write: &Write,
) -> (BoxedConnection, bool)
    requires { (file_state conn.value).in_transaction ≡ false }
    ensures { IsTrue result.1 → IsTrue (file_state result.0.value).is_open }
{
    let Ok(params) = bind(alloc, write.params.as_slice()) else {
        return (conn, false);
    };
    if write.shows {
        show_again(base, conn, write.text.as_str(), params.as_slice())
    } else {
        execute_again(base, conn, write.text.as_str(), params.as_slice())
    }
}

fn show_again(
    base: &Image,
    conn: BoxedConnection,
    text: &str,
    params: &[ValueRef<'_>],
) -> (BoxedConnection, bool)
    requires { (file_state conn.value).in_transaction ≡ false }
    ensures { IsTrue result.1 → IsTrue (file_state result.0.value).is_open }
{
    match query(conn, base, None, text, params) {
        Ok((conn, _, _)) => (conn, true),
        Err((conn, _, _)) => (conn, false),
    }
}

fn execute_again(
    base: &Image,
    conn: BoxedConnection,
    text: &str,
    params: &[ValueRef<'_>],
) -> (BoxedConnection, bool)
    requires { (file_state conn.value).in_transaction ≡ false }
    ensures { IsTrue result.1 → IsTrue (file_state result.0.value).is_open }
{
    match execute(conn, base, None, text, params) {
        Ok((conn, _, _)) => (conn, true),
        Err((conn, _, _)) => (conn, false),
    }
}
