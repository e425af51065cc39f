//! The statements of a text of SQL: where each begins and ends, which word it begins with, and how many parameters it has.
//! What a statement means is SQLite's affair; this is what has to be known of a text before it runs.
#![tactic(auto)]

mod bytes;
mod draft;
mod fault;
mod heading;
mod laws;
mod lengths;
mod parameters;
mod pieces;
mod reading;
mod scanner;
mod token;

pub use fault::ScanFault;
pub use heading::WordKind;
pub use laws::{
    kinds_are_of_all_words, statements_are_of_their_tokens, statements_are_of_tokens,
    statements_stand_in_their_text, texts_are_cut_in_one_way,
};
pub use pieces::{Scan, StatementSpan};
pub use scanner::scan;
