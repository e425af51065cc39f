//! Wrong runs of whole nodes, and that the laws refuse them.

ghost use Rattle.headline_safety.specs.Wrong.{NoNewBeforeAnswered, NoNewBeforePending, NoOtherFiles};

use sql_engine::Engine;

/// Refuses two nodes at one index, also at two moments, that show other images of a database.
pub fn refuses_other_files<E: Engine>()
    ensures { (kind : _) → NoOtherFiles (E.meaning kind) kind }
{}

/// Refuses an entry that is applied before a proposal that was pending before it was appended.
pub fn refuses_a_new_entry_before_a_pending_one<E: Engine>()
    ensures { (kind : _) → NoNewBeforePending (E.meaning kind) kind }
{}

/// Refuses an entry that is applied before one that a reply had waited for before it was appended.
pub fn refuses_a_new_entry_before_an_answered_one<E: Engine>()
    ensures { (kind : _) → NoNewBeforeAnswered (E.meaning kind) kind }
{}
