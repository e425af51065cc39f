//! The rows of an answer in dqlite's wire protocol, version 1: the bodies of ROWS messages. An answer is split into parts,
//! each the body of its own message, and a client reads them back one by one.
//!
//! A body is the number of columns in a word, the names of the columns, rows, and an end word: eight bytes FF in the last
//! part, and eight bytes EE in the others.
#![tactic(auto)]

mod columns;
mod fault;
mod laws;
mod nuls;
mod part;
mod reading;
mod row;
mod sizes;
mod writing;

pub use fault::{RowFault, RowReadFault};
pub use laws::{end_words_begin_no_row, parts_read_back, parts_take_all_rows};
pub use part::{More, Part};
pub use reading::read_part;
pub use row::Row;
pub use writing::{MAX_ANSWER_BYTES, MAX_PART_BYTES, parts};
