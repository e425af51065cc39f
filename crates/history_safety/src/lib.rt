//! What follows from the headline for histories of any length. Nothing here runs: each law is the promise of an empty
//! function.
#![tactic(auto)]

ghost use Rattle.history_safety.specs.Histories.{
  AnswersAreShown,
  ChangesAreRun,
  ChangesStay,
  TransactionsRun,
};

pub mod refusals;

use sql_engine::Engine;

/// The image that an open transaction has reached is what some statements make of the image on which it began. So each
/// change of a database, also that of a COMMIT, is what some statements make of the image right before it.
pub fn transactions_run<E: Engine>()
    ensures open { (kind : _) → TransactionsRun (E.meaning kind) }
    ensures changes { (kind : _) → ChangesAreRun (E.meaning kind) }
{}

/// What a change made, and no statement takes away, is in each later image of its database. What answered statements
/// outside a transaction make, and no statement takes away, is in the database as their node shows it from then on.
pub fn changes_stay<E: Engine>()
    ensures images { (kind : _) → ChangesStay (E.meaning kind) }
    ensures shown { (kind : _) → AnswersAreShown (E.meaning kind) }
{}
