//! What comes of a request, told before anything has changed: of one that runs no statement, of statements that an engine
//! runs, and of a COMMIT; with what hinders a change of pages, the entries that bring it to every node, and rows that are told.
#![tactic(auto)]

mod change_limits;
mod commit;
mod decision;
mod decision_context;
mod earlier;
mod ends;
mod inside;
mod job;
mod outside;
mod plain;
mod ran_changes;
mod reading;
mod rows;
mod running;
mod sole;
mod writing;

pub use commit::committing;
pub use decision::Decision;
pub use decision_context::DecisionContext;
pub use job::{Read, ReadJob, answer_read};
pub use plain::{beginning, creating, finalizing, forgetting, opened, preparing, telling};
pub use reading::read_statement;
pub use running::{run_script, run_single};
pub use sole::changing;
