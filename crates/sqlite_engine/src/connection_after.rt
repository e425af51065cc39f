ghost use Rattle.std.specs.Prelude.{◌≡◌, IfSome, Err};
ghost use Rattle.sqlite_engine.specs.Led.{IsLedTo};
ghost use Rattle.sqlite_engine.specs.Leaving.{IsLeftOver, IsLeftBy};

use crate::kept::Kept;
use dq_base::PageSet;

/// What is left of a connection after a statement.
#[derive(Drop)]
pub(crate) enum ConnectionAfter {
    /// The connection, over the image as it was.
    Stayed(Kept),
    /// The connection, over the image that the statement leaves.
    WentOn(Kept),
    /// Nothing.
    Gone,
}

/// The connection, if nothing has changed on it.
pub(crate) fn stayed(kept: Option<Kept>) -> ConnectionAfter
    ensures { (before : _) (fault : _) → IfSome kept (λ it. it.base ≡ before) → IsLeftBy before (Err fault) result }
{
    match kept {
        Some(kept) => ConnectionAfter::Stayed(kept),
        None => ConnectionAfter::Gone,
    }
}

/// The connection, if a statement with these pages has gone on with it; with none it is where it was.
pub(crate) fn went_on(kept: Option<Kept>, set: &PageSet) -> ConnectionAfter
    ensures { (before : _) → IfSome kept (λ it. IsLedTo before set.now it.base) → IsLeftOver before set.now result }
{
    match kept {
        Some(kept) => {
            if set.pages.is_empty() {
                ConnectionAfter::Stayed(kept)
            } else {
                ConnectionAfter::WentOn(kept)
            }
        }
        None => ConnectionAfter::Gone,
    }
}

/// What is left of a connection where the statement isn't answered: one that went on is over an image that nobody has.
pub(crate) fn unanswered(left: ConnectionAfter) -> ConnectionAfter
    ensures { (before : _) (set : _) (fault : _) → IsLeftOver before set left → IsLeftBy before (Err fault) result }
{
    match left {
        ConnectionAfter::Stayed(kept) => ConnectionAfter::Stayed(kept),
        ConnectionAfter::WentOn(_kept) => ConnectionAfter::Gone,
        ConnectionAfter::Gone => ConnectionAfter::Gone,
    }
}
