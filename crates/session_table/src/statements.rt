//! The statements that a session has prepared, by their numbers.

ghost use Rattle.std.specs.Prelude.{◌≡◌, ◌<◌, None, Some, length, IfOk, OnOk, OnErr, IsSome, MatchOption};
ghost use Rattle.session_spec.specs.Statements as rules;

use crate::session::Prepared;
use std::alloc::AllocError;

/// The statement of a number, if there is one.
pub fn prepared_at(statements: &[Option<Prepared>], id: u32) -> Option<&Prepared>
    ensures { MatchOption result (rules.prepared_at statements.now id ≡ None) (λ prepared. rules.prepared_at statements.now id ≡ Some prepared.now) }
{
    match statements.get(id as usize) {
        Some(Some(prepared)) => Some(prepared),
        Some(None) => None,
        None => None,
    }
}

/// How many statements there are. Looks at each number.
pub fn prepared_count(statements: &[Option<Prepared>]) -> usize
    ensures { result ≡ rules.prepared_count statements.now }
{
    let mut count = 0;
    for statement in statements {
        if statement.is_some() {
            count += 1;
        }
    }
    count
}

/// The least number that is free. Looks at each number at most.
pub fn free_id(statements: &[Option<Prepared>]) -> usize
    ensures { result ≡ rules.free_id statements.now }
{
    for (id, statement) in statements.iter().enumerate() {
        if statement.is_none() {
            return id;
        }
    }
    statements.len()
}

/// Puts a statement under the least number that is free, and answers that number. `Err` means out of memory; the
/// statements are then unchanged.
pub fn prepare(
    statements: &mut Vec<Option<Prepared>>,
    prepared: Prepared,
) -> Result<usize, AllocError>
    ensures id { IfOk result (λ id. id ≡ rules.free_id statements.old.items) }
    ensures put { OnOk result (statements.new.items ≡ rules.with_prepared prepared statements.old.items) }
    ensures kept { OnErr result (statements.new.items ≡ statements.old.items) }
{
    let id = free_id(statements.as_slice());
    if id < statements.len() {
        statements[id] = Some(prepared);
    } else {
        statements.push(Some(prepared))?;
    }
    Ok(id)
}

/// Lets the statement of a number go, which is there.
pub fn finalize(statements: &mut [Option<Prepared>], id: u32)
    requires { IsSome (rules.prepared_at statements.old id) }
    ensures { statements.new ≡ rules.without_prepared id statements.old }
{
    statements[id as usize] = None;
}
