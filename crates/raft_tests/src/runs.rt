//! Random runs of five nodes, whose servers change.
use crate::nodes::{FIVE, fresh};
use crate::owner::{Owner, entry_of, proposal, roles_of};
use raft_core::{Outgoing, RaftEvent};
use raft_messages::{EntryKind, MessageBody, RaftMessage, read_message, write_message};
use std::alloc::{AllocError, Global};
use std::test::*;
use wire_words::{Message, WireBytes};

// The numbers that are picked, one after another.
#[derive(Clone, Copy)]
struct Picks(u64);

impl Picks {
    // Another number below this one.
    fn below(&mut self, limit: u64) -> u64 {
        self.0 = self
            .0
            .wrapping_mul(6_364_136_223_846_793_005)
            .wrapping_add(1_442_695_040_888_963_407);
        (self.0 >> 33) % limit.max(1)
    }
}

// What a member sends, as a message; an Install has the bytes of its snapshot.
fn message_of(member: &Owner, from: u64, sending: Outgoing) -> Result<Option<RaftMessage>, Fail> {
    match sending {
        Outgoing::Message(message) => Ok(Some(message)),
        Outgoing::Install { to, term, last: _ } => match &member.disk.snapshot {
            Some(snapshot) => Ok(Some(RaftMessage {
                from,
                to,
                term,
                what: MessageBody::Install {
                    snapshot: snapshot.share()?,
                },
            })),
            None => Err(Fail::from("no snapshot")),
        },
    }
}

// What came of an event at a member is sent.
fn sends_all(
    member: &Owner,
    from: u64,
    sends: Vec<Outgoing>,
    mail: &mut Vec<RaftMessage>,
) -> Result<(), Fail> {
    for sending in sends {
        if let Some(message) = message_of(member, from, sending)? {
            mail.push(message)?;
        }
    }
    Ok(())
}

// A member takes an event, and what it sends is under way then.
fn happens(
    alloc: Global,
    member: &mut Owner,
    from: u64,
    event: RaftEvent,
    mail: &mut Vec<RaftMessage>,
) -> Result<(), Fail> {
    let sends = member.happens(alloc, event)?;
    sends_all(member, from, sends, mail)
}

// The message once more, as its bytes are read again.
fn again(alloc: Global, message: &RaftMessage) -> Result<RaftMessage, Fail> {
    let bytes = write_message(alloc, message)?;
    let kind = bytes.as_slice().get(4).copied().unwrap_or(0);
    let schema = bytes.as_slice().get(5).copied().unwrap_or(0);
    let body = Vec::from_slice(alloc, bytes.as_slice().get(8..).unwrap_or(&[]))?;
    let whole = Message {
        kind,
        schema,
        body: WireBytes::new(body),
    };
    Ok(read_message(alloc, &whole, message.to)?)
}

// A message that is under way is lost, or comes; of those that come some come again later.
fn arrives(
    alloc: Global,
    members: &mut Vec<Owner>,
    mail: &mut Vec<RaftMessage>,
    index: usize,
    fate: u64,
) -> Result<(), Fail> {
    if mail.len() <= index {
        return Ok(());
    }
    let message = mail.swap_remove(index);
    if fate == 0 {
        return Ok(());
    }
    if fate == 1 {
        mail.push(again(alloc, &message)?)?;
    }
    let to = message.to;
    if let Some(member) = members.get_mut(to.saturating_sub(1) as usize) {
        happens(alloc, member, to, RaftEvent::Message(message), mail)?;
    }
    Ok(())
}

// Something that happens at a member without a message.
fn local_event(alloc: Global, kind: u64, byte: u8) -> Result<RaftEvent, AllocError> {
    match kind {
        0 => Ok(RaftEvent::Timeout),
        1 | 2 => Ok(RaftEvent::Beat),
        3 => Ok(RaftEvent::Transfer(u64::from(byte) % 5 + 1)),
        _ => {
            let bytes = Vec::from_slice(alloc, &[byte])?;
            proposal(alloc, entry_of(alloc, EntryKind::Command, bytes)?)
        }
    }
}

// The member at a place proposes another role of another one, if it may.
fn changes(
    alloc: Global,
    member: &mut Owner,
    own: u64,
    byte: u8,
    mail: &mut Vec<RaftMessage>,
) -> Result<(), Fail> {
    let id = u64::from(byte) % 5 + 1;
    if id == own {
        return Ok(());
    }
    let sends = member.changes(alloc, id, u64::from(byte) / 5 % 3)?;
    sends_all(member, own, sends, mail)
}

// One event of the run: in 47 of 64 cases a message, in 5 a change of servers, of which a node that doesn't lead makes none.
fn goes_on(
    alloc: Global,
    members: &mut Vec<Owner>,
    mail: &mut Vec<RaftMessage>,
    picks: &mut Picks,
) -> Result<(), Fail> {
    let kind = picks.below(64);
    let at = picks.below(5);
    let byte = (picks.below(256) & 0xff) as u8;
    if kind >= 17 {
        let index = picks.below(mail.len() as u64) as usize;
        return arrives(alloc, members, mail, index, picks.below(8));
    }
    let Some(member) = members.get_mut(at as usize) else {
        return Ok(());
    };
    match kind {
        10 => member.snaps(alloc),
        11 => member.restarts(alloc, at + 1, FIVE),
        12..=16 => changes(alloc, member, at + 1, byte, mail),
        _ => {
            let event = local_event(alloc, kind, byte)?;
            happens(alloc, member, at + 1, event, mail)
        }
    }
}

// All that is under way comes, in order, and nothing is lost.
fn settles(
    alloc: Global,
    members: &mut Vec<Owner>,
    mail: &mut Vec<RaftMessage>,
) -> Result<(), Fail> {
    for _ in 0..400 {
        arrives(alloc, members, mail, 0, 2)?;
    }
    Ok(())
}

// Whether a member leads.
fn has_leader(members: &[Owner]) -> bool {
    members.iter().any(|member| member.leads())
}

// A timeout or a heartbeat at a member.
fn at_member(
    alloc: Global,
    members: &mut Vec<Owner>,
    mail: &mut Vec<RaftMessage>,
    at: usize,
    timeout: bool,
) -> Result<(), Fail> {
    let event = if timeout {
        RaftEvent::Timeout
    } else {
        RaftEvent::Beat
    };
    match members.get_mut(at) {
        Some(member) => happens(alloc, member, at as u64 + 1, event, mail),
        None => Ok(()),
    }
}

// One event at each member, one after another, and what follows from it.
fn everywhere(
    alloc: Global,
    members: &mut Vec<Owner>,
    mail: &mut Vec<RaftMessage>,
    timeout: bool,
) -> Result<(), Fail> {
    for at in 0..5 {
        if timeout && has_leader(members.as_slice()) {
            return Ok(());
        }
        at_member(alloc, members, mail, at, timeout)?;
        settles(alloc, members, mail)?;
    }
    Ok(())
}

// The place of the leader of the last term.
fn last_leader(members: &[Owner]) -> Option<usize> {
    let mut found = None;
    let mut term = 0;
    for n in 0..members.len() {
        let member = &members[n];
        if member.leads() && member.node.view().term > term {
            term = member.node.view().term;
            found = Some(n);
        }
    }
    found
}

// Whether a member agrees with the leader: if it gets the log all that is applied is the same, and its configuration;
// else what it has applied is a front of that.
fn agrees(alloc: Global, member: &Owner, leader: &Owner, role: u64) -> Result<bool, AllocError> {
    let front = leader.applied.as_slice().get(..member.applied.len());
    if front != Some(member.applied.as_slice()) {
        return Ok(false);
    }
    let roles = roles_of(alloc, member.members.current())?;
    let wanted = roles_of(alloc, leader.members.current())?;
    Ok(
        role == 2
            || member.applied.len() == leader.applied.len()
                && roles.as_slice() == wanted.as_slice(),
    )
}

// How much the leader has applied, if all agree with it.
fn common_front(alloc: Global, members: &[Owner]) -> Result<Option<usize>, AllocError> {
    let Some(place) = last_leader(members) else {
        return Ok(None);
    };
    let Some(leader) = members.get(place) else {
        return Ok(None);
    };
    let roles = roles_of(alloc, leader.members.current())?;
    for n in 0..members.len() {
        let role = roles.get(n).copied().unwrap_or(2);
        if !agrees(alloc, &members[n], leader, role)? {
            return Ok(None);
        }
    }
    Ok(Some(leader.applied.len()))
}

// How a run ends: the common front, how many have a snapshot, and how many changes were applied and were truncated.
#[derive(Clone, Copy)]
struct Ending {
    front: Option<usize>,
    snapshots: usize,
    changed: usize,
    undone: usize,
}

fn end_of(alloc: Global, members: &[Owner]) -> Result<Ending, AllocError> {
    let mut end = Ending {
        front: common_front(alloc, members)?,
        snapshots: 0,
        changed: 0,
        undone: 0,
    };
    for member in members {
        let kept = usize::from(member.disk.snapshot.is_some());
        end.snapshots = end.snapshots.saturating_add(kept);
        end.changed = end.changed.max(member.changed);
        end.undone = end.undone.saturating_add(member.undone);
    }
    Ok(end)
}

// Five fresh nodes.
fn five(alloc: Global) -> Result<Vec<Owner>, Fail> {
    let mut members = Vec::new(alloc);
    for id in 1..6 {
        let node = fresh(alloc, id, FIVE)?;
        members.push(Owner::fresh(alloc, node, FIVE)?)?;
    }
    Ok(members)
}

// A run of five nodes with a seed: this many events with losses, repeats, stops, snapshots, transfers and changes of servers,
// and then a quiet time.
fn run(alloc: Global, seed: u64, events: u32) -> Result<Ending, Fail> {
    let mut members = five(alloc)?;
    let mut mail = Vec::new(alloc);
    let mut picks = Picks(seed);
    for _ in 0..events {
        goes_on(alloc, &mut members, &mut mail, &mut picks)?;
    }
    for _ in 0..4 {
        everywhere(alloc, &mut members, &mut mail, true)?;
        everywhere(alloc, &mut members, &mut mail, false)?;
    }
    Ok(end_of(alloc, members.as_slice())?)
}

#[test]
fn random_runs_end_alike(rt: HostRuntime) -> Result<(), Fail> {
    let mut seen = (0, 0, 0);
    for seed in 1..13 {
        let end = run(rt.alloc(), seed, 800)?;
        assert!(rt; end.front.unwrap_or(0) > 0);
        seen.0 = end.snapshots.max(seen.0);
        seen.1 = end.changed.max(seen.1);
        seen.2 = end.undone.max(seen.2);
    }
    assert!(rt; seen.0 > 0 && seen.1 > 1 && seen.2 > 0);
    Ok(())
}
