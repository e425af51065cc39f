//! What runs a statement over an image of a database: the trait of engines with what statements mean under them, and the
//! engine of cells, whose statements set, read and wipe pages.
#![tactic(auto)]

mod answer;
mod cell_answers;
mod cell_changes;
mod cell_engine;
mod cell_statement;
mod cell_text;
mod engine;
mod fault;
mod image_numbers;
mod kind;
mod laws;
mod page_bytes;

pub use answer::StatementResult;
pub use cell_engine::CellEngine;
pub use cell_statement::CellStatement;
pub use engine::Engine;
pub use fault::EngineFault;
pub use image_numbers::ImageNumbers;
pub use kind::EngineKind;
pub use laws::{answers_lead_on, runs_are_chained, texts_say_statements};
