//! How running statements ends.

ghost use Rattle.std.specs.Prelude.{◌≡◌};
ghost use Rattle.session_statements.specs.Running.{change_in};

use dq_base::PageSet;
use sql_engine::{EngineFault, StatementResult};

/// Statements that all ran.
#[derive(Drop)]
pub struct AllRan {
    /// The pages that they changed together, if there isn't exactly one statement; those of the only one are in its
    /// answer.
    pub together: Option<PageSet>,
    /// The answer of the last one; if none ran, one that affected nothing.
    pub answer: StatementResult,
}

impl AllRan {
    /// The pages that lead from the image before to the image after; none if the two are the same.
    pub fn change(&self) -> &PageSet
        ensures { result.now ≡ change_in self.now }
    {
        match &self.together {
            Some(set) => set,
            None => &self.answer.after,
        }
    }
}

/// How running statements one after another ended.
#[derive(Drop)]
pub enum Ending {
    /// All ran.
    Ended(AllRan),
    /// The pages of one can't be applied. Its answer.
    TooLarge(StatementResult),
    /// The engine refused one.
    Stopped(EngineFault),
}
