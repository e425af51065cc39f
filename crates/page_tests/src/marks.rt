use page_store::*;
use std::alloc::Global;
use std::test::Fail;

/// Whether this many marks are pinned.
fn pins(marks: &mut Marks, count: u64) -> bool {
    for mark in 0..count {
        if marks.pin(mark).is_err() {
            return false;
        }
    }
    true
}

/// Why one mark more is not pinned.
fn refusal(marks: &mut Marks) -> Option<MarkFault> {
    match marks.pin(9) {
        Ok(_) => None,
        Err(fault) => Some(fault),
    }
}

#[test]
fn the_65th_live_mark_is_full(rt: HostRuntime) {
    let mut marks = Marks::new();
    assert!(rt; marks.least().is_none());
    assert!(rt; pins(&mut marks, 64));
    assert_eq!(rt; marks.least(), Some(0));
    assert_eq!(rt; refusal(&mut marks), Some(MarkFault::Full(64)));
}

#[test]
fn faults_say_why(rt: HostRuntime) -> Result<(), Fail> {
    let text = MarkFault::Full(64).to_string(rt.alloc())?;
    assert_eq!(rt; text.as_str(), "all 64 read marks are live");
    Ok(())
}

fn frames(alloc: Global) -> Result<FrameIndex, Fail> {
    let mut index = FrameIndex::new(alloc);
    for number in [2, 3, 1, 2, 1] {
        index.push(number)?;
    }
    Ok(index)
}

#[test]
fn the_last_frame_of_a_page_below_a_mark(rt: HostRuntime) -> Result<(), Fail> {
    let mut index = frames(rt.alloc())?;
    assert_eq!(rt; index.last_at(2, 5), Some(4));
    assert_eq!(rt; index.last_at(2, 3), Some(1));
    assert_eq!(rt; index.last_at(9, 5), None);
    index.drop_first(3);
    assert_eq!(rt; index.last_at(2, 5), Some(1));
    index.truncate(1);
    assert_eq!(rt; index.last_at(1, 5), None);
    assert_eq!(rt; index.len(), 1);
    Ok(())
}
