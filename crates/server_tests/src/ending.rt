//! Posts whose inbox is gone.

use serve_threads::{ChannelInbox, event_channel};
use serve_traits::{Event, Post};
use std::alloc::Global;
use std::sync::Wait;
use std::test::*;
use std::time::Clock;

/// Whether a post that one event may wait of takes one, and takes another one if the inbox is gone, which took none.
fn posts<R: Wait + Clock + Copy + Drop>(rt: R, alloc: Global) -> Option<[bool; 2]> {
    let (inbox, post) = event_channel(rt, alloc).ok()?;
    let inbox: ChannelInbox<R, u8> = inbox;
    let mut metered = post.metered(alloc, 1).ok()?;
    let is_first = metered.put(Event::Beat).is_ok();
    drop(inbox);
    let is_second = metered.put(Event::Beat).is_ok();
    Some([is_first, is_second])
}

#[test]
fn a_post_waits_for_no_inbox_that_is_gone(rt: HostRuntime) -> Result<(), Fail> {
    assert_eq!(rt; posts(rt, rt.alloc()), Some([true, false]));
    Ok(())
}
