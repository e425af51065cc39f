//! The order in time of what a cluster's nodes propose. Nothing here runs: each law is the promise of an empty function.
#![tactic(auto)]

ghost use Rattle.order_safety.specs.Order.{AnsweredComesFirst, PendingComesFirst};

pub mod refusals;

use sql_engine::Engine;

/// A proposal that was pending at a node at some moment is applied before each entry that any leader appends after that
/// moment, if both are applied: whoever brings them through, and whatever was said to the proposal's client.
/// This also holds of each entry that a reply waited for.
pub fn pending_comes_first<E: Engine>()
    ensures pending { (kind : _) → PendingComesFirst (E.meaning kind) kind }
    ensures answered { (kind : _) → AnsweredComesFirst (E.meaning kind) kind }
{}
