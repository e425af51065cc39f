//! What the answers of a node rest on. Nothing here runs: each law is the promise of an empty function.
#![tactic(auto)]

ghost use Rattle.reply_safety.specs.Resting.{RequestsRest, LaterQueriesRest, ReadersRest};

pub mod refusals;

use sql_engine::Engine;

/// An answer to statements rests on those statements themselves. If it comes at once outside a transaction, they left
/// the newest image as it was. Inside one, they led from the transaction's image to its next one. A proposal leads from
/// the newest image to the one that they left. Rows and counts are those of the last statement. A transaction begins
/// over the newest image, and its COMMIT leads from there to the transaction's image, or changes nothing if these are
/// the same. This also holds of a query that is run later than it was asked, by the node or by a reader.
pub fn replies_rest<E: Engine>()
    ensures requests { (kind : _) → RequestsRest (E.meaning kind) kind }
    ensures later { (kind : _) → LaterQueriesRest (E.meaning kind) kind }
    ensures readers { (kind : _) → ReadersRest (E.meaning kind) kind }
{}
