//! What a reader says of queries over an image.

use dq_base::{Image, Items, Name};
use session_outcomes::{Read, ReadJob, answer_read};
use session_table::{Cause, Query, Reply};
use sql_engine::CellEngine;
use std::alloc::Global;
use std::sync::Arc;
use std::test::*;
use wire_words::WireText;

/// What is reported, with the number of responses for the reply.
#[derive(Clone, Copy, Debug, PartialEq, Eq)]
enum Told {
    Responses(usize),
    Refused(Cause),
    GivenBack,
}

/// A query of this text over empty files.
fn job_of(alloc: Global, text: &str) -> Option<ReadJob> {
    let name = Name::new(String::from_str(alloc, "d").ok()?)?;
    let text = WireText::new(String::from_str(alloc, text).ok()?);
    Some(ReadJob {
        name,
        image: Arc::new(alloc, Image::new(alloc)).ok()?,
        query: Query::new(alloc, text, Items::new(Vec::new(alloc))).ok()?,
        limit: None,
    })
}

/// What is reported of it.
fn told_of(alloc: Global, text: &str) -> Option<Told> {
    let job = job_of(alloc, text)?;
    let mut engine = CellEngine::new(alloc);
    let told = match answer_read(alloc, &job, &mut engine) {
        Read::Answers(rows) => Told::Responses(Reply::Rows(rows).response_count()),
        Read::Refused(cause) => Told::Refused(cause),
        Read::GivenBack => Told::GivenBack,
    };
    Some(told)
}

/// Texts, and what is reported of each. Only a text that would change pages goes back.
const ROWS: &[(&str, Told)] = &[
    ("GET 3", Told::Responses(1)),
    ("WIPE 0", Told::Responses(1)),
    ("SET 3 9", Told::GivenBack),
    ("GET 0", Told::Refused(Cause::SqlError)),
    (
        "SET 3 9999999999999999999",
        Told::Refused(Cause::ConstraintFailed),
    ),
];

#[test]
fn a_reader_gives_back_what_changes_pages(rt: HostRuntime) -> Result<(), Fail> {
    for &(text, told) in ROWS {
        assert_eq!(rt; told_of(rt.alloc(), text), Some(told));
    }
    Ok(())
}
