//! Hosts over memory.

use serve_sockets::{ListHost, MemHost};
use serve_threads::Host;
use serve_traits::{Event, Inbox};
use std::alloc::Global;
use std::sync::Wait;
use std::test::*;

/// Whether each call succeeded: a listen, a dialer, the question for a worker, and two workers' starts, of which the second one isn't.
fn calls<H: Host<u8>>(host: &mut H) -> [bool; 5] {
    [
        host.listen("here:1").is_ok(),
        host.dialer().is_ok(),
        host.may_work().is_ok(),
        host.count_worker(true).is_ok(),
        host.count_worker(false).is_ok(),
    ]
}

/// A host of which these calls fail.
fn mem_host<R: Wait + Copy + Drop>(rt: R, alloc: Global, fails: &[u64]) -> Option<MemHost<R, u8>> {
    MemHost::new(rt, alloc, Vec::from_slice(alloc, fails).ok()?).ok()
}

/// The calls that fail, and which succeed.
const ROWS: &[(&[u64], [bool; 5])] = &[
    (&[], [true, true, true, true, false]),
    (&[1], [false, true, true, true, false]),
    (&[2, 3], [true, false, false, true, false]),
];

#[test]
fn a_host_over_memory_fails_where_it_is_told_to(rt: HostRuntime) -> Result<(), Fail> {
    for &(fails, wanted) in ROWS {
        let came = match mem_host(rt, rt.alloc(), fails) {
            Some(mut host) => Some(calls(&mut host)),
            None => None,
        };
        assert_eq!(rt; came, Some(wanted));
    }
    Ok(())
}

/// The peer message of an event.
fn letter<T>(event: &Event<T>) -> u8 {
    match event {
        Event::Timeout => b't',
        Event::Beat => b'b',
        Event::Yield => b'l',
        Event::Connect(_) => b'c',
        Event::Bytes(_, _) => b'y',
        Event::Hangup(_) => b'h',
        Event::Peer(_) => b'p',
        Event::ReadDone(_, _) => b'r',
    }
}

/// The peer messages of four takes; `!` for one that fails.
fn taken<H: Host<u8>>(host: &mut H) -> [u8; 4] {
    let mut letters = [b'!'; 4];
    for letter_of in letters.iter_mut() {
        if let Ok(event) = host.take() {
            *letter_of = letter(&event);
        }
    }
    letters
}

/// A host with three events.
fn list_host<R: Wait + Copy + Drop>(rt: R, alloc: Global) -> Option<ListHost<R, u8>> {
    let mut events = Vec::new(alloc);
    events.push(Event::Timeout).ok()?;
    events.push(Event::Connect(4)).ok()?;
    events.push(Event::Hangup(4)).ok()?;
    ListHost::new(rt, alloc, events).ok()
}

#[test]
fn a_list_host_gives_its_events(rt: HostRuntime) -> Result<(), Fail> {
    let came = match list_host(rt, rt.alloc()) {
        Some(mut host) => Some(taken(&mut host)),
        None => None,
    };
    assert_eq!(rt; came, Some(*b"tch!"));
    Ok(())
}
