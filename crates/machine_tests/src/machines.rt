//! What commands make of a state machine: a set that is split, and pins.

ghost use Rattle.dq_base.specs.Names.{IsName};

use database_state::{Machine, PinFault};
use dq_base::{ImageNumber, Items, Name, NumberedPage, Page, PageSet};
use log_commands::{Command, can_split, split};
use std::alloc::{AllocError, Global};
use std::test::Fail;

// A page of zeros except for its third byte.
fn page_with(alloc: Global, third: u8) -> Result<Page, AllocError> {
    let mut bytes = Vec::new(alloc);
    bytes.resize(4096, 0)?;
    if let Some(byte) = bytes.get_mut(2) {
        *byte = third;
    }
    if bytes.len() == 4096 {
        return Ok(Page::from_slice(bytes.as_slice()));
    }
    Ok(Page::zeroed())
}

// The set of transaction 7 that fills the 64 pages of a main file of 262,144 bytes: 65 pages with the sizes page.
fn set_of_65(alloc: Global) -> Result<PageSet, AllocError> {
    let mut pages = Vec::new(alloc);
    for k in 1..65 {
        let page = page_with(alloc, 9)?;
        pages.push(NumberedPage {
            number: 2 * k,
            page,
        })?;
    }
    let page = page_with(alloc, 4)?;
    pages.push(NumberedPage { number: 1, page })?;
    Ok(PageSet {
        tx: 7,
        pages: Items::new(pages),
    })
}

// What a state machine says of the database `d`: the transaction that is pending, the commits, the pages of the newest image, and
// those since the last checkpoint.
type State = (Option<u64>, Option<u64>, Option<u64>, Option<u64>);

// That after each of these commands, up to the first whose numbers are out of their range.
#[tactic(auto, using(log_commands::proofs::InOtherWords::fit_low))]
fn states(
    alloc: Global,
    machine: &mut Machine,
    commands: &[&Command],
) -> Result<Vec<State>, AllocError> {
    let mut states = Vec::new(alloc);
    for command in commands {
        if !command.numbers_fit() {
            return Ok(states);
        }
        machine.act(command)?;
        states.push((
            machine.pending("d"),
            machine.newest("d"),
            machine.pages("d"),
            machine.since("d"),
        ))?;
    }
    Ok(states)
}

// The states where the set of 65 pages is split: after its first command, an Undo of another transaction, one of its own, the
// first command again, and the second.
pub(crate) fn states_of_a_split_set(
    alloc: Global,
    machine: &mut Machine,
) -> Result<Vec<State>, AllocError> {
    let set = set_of_65(alloc)?;
    if !can_split(&set) {
        return Ok(Vec::new(alloc));
    }
    let cut = split(alloc, "d", &set)?;
    match cut.as_slice() {
        [first, second] => states(
            alloc,
            machine,
            &[
                first,
                &Command::Undo { tx: 6 },
                &Command::Undo { tx: 7 },
                first,
                second,
            ],
        ),
        _ => Ok(Vec::new(alloc)),
    }
}

#[test]
fn a_split_set_shows_when_it_is_whole(rt: HostRuntime) -> Result<(), Fail> {
    let mut machine = Machine::new(rt.alloc());
    let states = states_of_a_split_set(rt.alloc(), &mut machine)?;
    let wanted = [
        (Some(7), Some(0), Some(1), Some(0)),
        (Some(7), Some(0), Some(1), Some(0)),
        (None, Some(0), Some(1), Some(0)),
        (Some(7), Some(0), Some(1), Some(0)),
        (None, Some(1), Some(65), Some(65)),
    ];
    assert!(rt; states.as_slice() == wanted.as_slice());
    Ok(())
}

// Pins the database `d` this many times, and answers the last fault.
fn pins(machine: &mut Machine, count: u64) -> Option<PinFault> {
    let mut last = None;
    for _ in 0..count {
        last = machine.pin("d").err();
    }
    last
}

#[test]
fn the_65th_live_pin_is_full(rt: HostRuntime) -> Result<(), Fail> {
    let mut machine = Machine::new(rt.alloc());
    assert_eq!(rt; pins(&mut machine, 1), Some(PinFault::Unknown));
    let _ = states_of_a_split_set(rt.alloc(), &mut machine)?;
    assert_eq!(rt; pins(&mut machine, 64), None);
    assert_eq!(rt; pins(&mut machine, 1), Some(PinFault::Full(64)));
    Ok(())
}

// A byte of the main file in the image that a new pin of a database shows.
pub(crate) fn pinned_byte(
    machine: &mut Machine,
    name: &str,
    place: usize,
) -> Result<Option<u8>, AllocError> {
    let Ok(pin) = machine.pin(name) else {
        return Ok(None);
    };
    let image = machine.image(&pin)?;
    Ok(image.main.as_slice().get(place).copied())
}

// Leaves the first 64 pages of the set of 65 pages pending in a database.
pub(crate) fn pending_in(alloc: Global, machine: &mut Machine, name: &str) -> Result<(), AllocError>
    requires { IsName name.now }
{
    let set = set_of_65(alloc)?;
    if !can_split(&set) {
        return Ok(());
    }
    let cut = split(alloc, name, &set)?;
    if let Some(first) = cut.first() {
        let _ = states(alloc, machine, &[first])?;
    }
    Ok(())
}

/// How long the main file of the newest image is as a state machine lends it.
fn lent_length(machine: &Machine, name: &str) -> Result<Option<usize>, AllocError> {
    Ok(
        machine
            .newest_shared(name)?
            .map(|image| image.main.as_slice().len()),
    )
}

#[test]
fn newest_images_are_numbered_and_lent(rt: HostRuntime) -> Result<(), Fail> {
    let mut machine = Machine::new(rt.alloc());
    pending_in(rt.alloc(), &mut machine, "a")?;
    let _ = states_of_a_split_set(rt.alloc(), &mut machine)?;
    let numbers = [("a", 0, 0, 0), ("d", 1, 1, 262_144)];
    for (name, place, commits, length) in numbers {
        machine.keep_newest(name);
        assert_eq!(rt;
            machine.number(name),
            Some(ImageNumber::Newest { place, commits })
        );
        assert_eq!(rt; lent_length(&machine, name)?, Some(length));
    }
    assert_eq!(rt; machine.number("b"), None);
    assert_eq!(rt; lent_length(&machine, "b")?, None);
    Ok(())
}
