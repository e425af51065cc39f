//! What the clauses of the crate `sqlite` leave open, about two files and a connection over them.
#![tactic(auto)]

mod counts;
mod databases;
mod pages;

pub use counts::read_no_counts;
pub use databases::one_database;
pub use pages::same_pages;
