use dq_base::{Image, ImageNumber, apply_pages};
use engine_recording::{Journal, RecordedItem, RecordingEngine};
use sql_engine::{CellEngine, Engine, EngineFault, ImageNumbers};
use std::alloc::{AllocError, Global};
use std::test::*;

/// What an item keeps: how many rows are affected, how many pages change, and how many rows are answered.
type Kept = Result<(u64, usize, usize), EngineFault>;

/// What the item of this number keeps.
fn item(journal: &Journal, number: usize) -> Option<Kept> {
    match journal.items().get(number)? {
        RecordedItem::Ran(ran) => Some(Ok((ran.affected, ran.after.pages.len(), ran.rows.len()))),
        RecordedItem::Fault(fault) => Some(Err(*fault)),
    }
}

/// Runs a statement without parameters, and applies its pages to the image. No answer means out of
/// memory.
fn run(engine: &mut RecordingEngine<CellEngine>, image: &mut Image, text: &str) {
    let numbers = ImageNumbers {
        before: ImageNumber::Working(0),
        after: 1,
    };
    let Ok(ran) = engine.run(image, numbers, text, &[], 1, None) else {
        return;
    };
    let pages = ran.after.pages.as_slice();
    if !pages.is_empty() {
        let _applied = apply_pages(image, pages).is_ok();
    }
}

/// Runs the statements one after the other by a fork of an engine that keeps its answers. The journal takes them after each
/// two statements.
fn journal_of(alloc: Global, texts: &[&str]) -> Result<Journal, AllocError> {
    let mut engine = RecordingEngine::new(alloc, CellEngine::new(alloc)).fork()?;
    let mut image = Image::new(alloc);
    let mut journal = Journal::new(alloc);
    for pair in texts.chunks(2) {
        for text in pair {
            run(&mut engine, &mut image, text);
        }
        journal.take_from(&mut engine)?;
    }
    Ok(journal)
}

#[test]
fn answers_are_kept_in_turn(rt: HostRuntime) -> Result<(), Fail> {
    const TEXTS: [&str; 5] = [
        "SET 3 9",
        "GET 3",
        "SET 1 9223372036854775808",
        "GET +1",
        "WIPE 0",
    ];
    let journal = journal_of(rt.alloc(), &TEXTS)?;
    for (number, wanted) in [
        Some(Ok((1, 5, 0))),
        Some(Ok((0, 0, 1))),
        Some(Err(EngineFault::Constraint)),
        Some(Err(EngineFault::Sql)),
        Some(Ok((3, 2, 0))),
        None,
    ]
    .iter()
    .enumerate()
    {
        assert!(rt; item(&journal, number) == *wanted);
    }
    Ok(())
}
