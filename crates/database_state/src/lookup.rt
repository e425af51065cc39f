//! Databases by their names, and by their places in the order of opening.

ghost use Rattle.std.specs.Prelude.{◌≡◌, ◌==◌, ◌<◌, length, get_or, None, Some, MatchOption, MatchResult, bytes_eq};
ghost use Rattle.std.specs.Ordering.{nat_cmp};
ghost use Rattle.std.specs.Cmp.Lexicographic.{slice_cmp};
ghost use Rattle.database_state.specs.Databases.{has_name, named, StandsAt, BelongsAt};
ghost use Rattle.database_state.specs.Pins.{has_place, at_place, IsPinned, pinned_image};
ghost use Rattle.database_state.specs.ByName.{FirstAt};
ghost use Rattle.page_store.specs.Store.{IsLive, image_under};
ghost use Rattle.database_state.specs.declared.database.Database.{Database};

use crate::database::Database;
use crate::pin::Pin;
use std::cmp::Ordering;

/// How a name stands to that of a database, by their bytes.
fn order(name: &str, database: &Database) -> Ordering
    ensures { result ≡ slice_cmp nat_cmp name.now database.now.name }
{
    name.cmp(database.name.as_str())
}

/// Whether a database has a name.
fn is_named(database: &Database, name: &str) -> bool
    ensures { result ≡ has_name name.now database.now }
{
    name == database.name.as_str()
}

/// Whether a database was opened at a place.
fn is_opened_at(database: &Database, place: usize) -> bool
    ensures { result ≡ has_place place database.now }
{
    database.place == place
}

/// The place of the database of a name, or where it would stand, as databases stand by the bytes of their names.
pub(crate) fn place_of(databases: &[Database], name: &str) -> Result<usize, usize>
    ensures { MatchResult result (StandsAt name.now databases.now) (BelongsAt name.now databases.now) }
{
    for (place, database) in databases.iter().enumerate() {
        match order(name, database) {
            Ordering::Less => return Err(place),
            Ordering::Equal => return Ok(place),
            Ordering::Greater => {}
        }
    }
    Err(databases.len())
}

/// Where the database of a name stands.
pub(crate) fn find_named(databases: &[Database], name: &str) -> Option<usize>
    ensures { MatchOption result (named name.now databases.now ≡ None) (FirstAt (has_name name.now) databases.now) }
{
    for (place, database) in databases.iter().enumerate() {
        if is_named(database, name) {
            return Some(place);
        }
    }
    None
}

/// Where the database stands that was opened at a place.
fn find_place(databases: &[Database], opened: usize) -> Option<usize>
    ensures { MatchOption result (at_place opened databases.now ≡ None) (FirstAt (has_place opened) databases.now) }
{
    for (place, database) in databases.iter().enumerate() {
        if is_opened_at(database, opened) {
            return Some(place);
        }
    }
    None
}

/// Where the database of a live pin stands.
pub(crate) fn pinned_place(databases: &[Database], pin: &Pin) -> usize
    requires { IsPinned databases.now pin.now }
    ensures first { FirstAt (has_place pin.now.place) databases.now result }
    ensures live { (database : Database) → IsLive (get_or databases.now result database).store pin.now.mark }
    ensures image { (database : Database) → image_under (get_or databases.now result database).store pin.now.mark ≡ pinned_image databases.now pin.now }
{
    find_place(databases, pin.place).unwrap()
}

/// The database of a name.
pub(crate) fn named<'a>(databases: &'a [Database], name: &str) -> Option<&'a Database>
    ensures { MatchOption result (named name.now databases.now ≡ None) (λ database. named name.now databases.now ≡ Some database.now) }
{
    match find_named(databases, name) {
        Some(place) => Some(&databases[place]),
        None => None,
    }
}
