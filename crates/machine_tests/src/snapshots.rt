//! A state machine with two databases, one of them with pending pages, as a snapshot and back.

use crate::machines::{pending_in, pinned_byte, states_of_a_split_set};
use database_state::{Machine, SnapFault};
use std::alloc::{AllocError, Global};
use std::test::Fail;

/// What a state machine says of a database: its commits, the pages of its newest image, the transaction that is pending, and the
/// pages since the last checkpoint.
type Told = (Option<u64>, Option<u64>, Option<u64>, Option<u64>);

fn told(machine: &Machine, name: &str) -> Told {
    (
        machine.newest(name),
        machine.pages(name),
        machine.pending(name),
        machine.since(name),
    )
}

/// A state machine whose database `d` has 65 pages, and whose database `a` has none, but 64 pending ones of transaction 7.
fn two_databases(alloc: Global) -> Result<Machine, AllocError> {
    let mut machine = Machine::new(alloc);
    let _ = states_of_a_split_set(alloc, &mut machine)?;
    pending_in(alloc, &mut machine, "a")?;
    Ok(machine)
}

fn again(alloc: Global, machine: &Machine) -> Result<Machine, SnapFault> {
    let bytes = machine.snapshot()?;
    Machine::from_snapshot(alloc, bytes.as_slice())
}

/// Whether a state machine's snapshot after two bytes is these and its snapshot.
fn stands_behind(alloc: Global, machine: &Machine) -> Result<bool, AllocError> {
    let bytes = [1, 2];
    let mut out = Vec::from_slice(alloc, &bytes)?;
    machine.snapshot_into(&mut out)?;
    let snapshot = machine.snapshot()?;
    let (front, back) = (out.get(..2), out.get(2..));
    Ok(front == Some(bytes.as_slice()) && back == Some(snapshot.as_slice()))
}

/// Whether two state machines have one snapshot.
fn are_alike(first: &Machine, second: &Machine) -> Result<bool, AllocError> {
    Ok(first.snapshot()?.as_slice() == second.snapshot()?.as_slice())
}

/// A byte of the newest image of a database.
fn byte_of(machine: &Machine, name: &str, place: usize) -> Result<Option<u8>, AllocError> {
    match machine.newest_image(name)? {
        Some(image) => Ok(image.main.as_slice().get(place).copied()),
        None => Ok(None),
    }
}

#[test]
fn a_snapshot_gives_the_machine_back(rt: HostRuntime) -> Result<(), Fail> {
    let machine = two_databases(rt.alloc())?;
    let restored = again(rt.alloc(), &machine).ok().ok_or("a machine")?;
    assert!(rt; are_alike(&machine, &restored)?);
    assert!(rt; stands_behind(rt.alloc(), &machine)?);
    assert_eq!(rt; told(&machine, "d"), (Some(1), Some(65), None, Some(65)));
    assert_eq!(rt; told(&restored, "d"), (Some(0), Some(65), None, Some(0)));
    assert_eq!(rt; told(&restored, "a"), (Some(0), Some(1), Some(7), Some(0)));
    assert_eq!(rt; byte_of(&restored, "d", 2)?, Some(9));
    assert_eq!(rt; byte_of(&restored, "d", 258_050)?, Some(9));
    assert_eq!(rt; byte_of(&restored, "d", 262_144)?, None);
    Ok(())
}

/// Whether a state machine's databases have these names, in this order.
fn are_named(machine: &Machine, wanted: &[&str]) -> Result<bool, AllocError> {
    let names = machine.names()?;
    Ok(
        names.len() == wanted.len()
            && names
                .iter()
                .zip(wanted)
                .all(|(name, text)| name.as_str() == *text),
    )
}

#[test]
fn names_and_pinned_images_are_told(rt: HostRuntime) -> Result<(), Fail> {
    let mut machine = two_databases(rt.alloc())?;
    assert!(rt; are_named(&machine, &["a", "d"])?);
    assert_eq!(rt; pinned_byte(&mut machine, "d", 258_050)?, Some(9));
    assert_eq!(rt; pinned_byte(&mut machine, "a", 0)?, None);
    Ok(())
}
