//! Steps of one node, one after another.
use crate::nodes::{FIVE, THREE, configuration, entries, fresh, step};
use raft_core::{Outgoing, RaftEvent, RaftNode, RaftRole, Todo};
use raft_messages::{LogEnd, MessageBody, RaftMessage, SharedBytes, Snapshot, read_servers};
use std::alloc::{AllocError, Global};
use std::test::*;
use wire_words::WireBytes;

// What happens at a node, with numbers alone. A message begins with its sender and its term; entries are their terms.
#[derive(Clone, Copy)]
enum Row {
    Fresh(u64, &'static [u64]),
    Timeout,
    Yield,
    Propose(&'static [u64]),
    Transfer(u64),
    Snapped(u64),
    AskVote(u64, u64, u64, u64),
    Vote(u64, u64, bool),
    Append(u64, u64, u64, u64, u64, &'static [u64]),
    Ack(u64, u64, bool, u64),
    Install(u64, u64, u64, u64),
    TimeoutNow(u64, u64),
}

// What is sent first: its receiver, the number of its type, a flag, an index.
fn first_sent(todo: &Todo) -> (u64, u8, bool, u64) {
    match todo.sends.as_slice() {
        [Outgoing::Message(message), ..] => match &message.what {
            MessageBody::AskVote { last, transfer } => (message.to, 1, *transfer, last.index),
            MessageBody::Vote { granted } => (message.to, 2, *granted, 0),
            MessageBody::Append { prev, .. } => (message.to, 3, false, prev.index),
            MessageBody::Ack { good, index } => (message.to, 4, *good, *index),
            MessageBody::Install { snapshot } => (message.to, 5, false, snapshot.index),
            MessageBody::TimeoutNow => (message.to, 6, false, 0),
        },
        [Outgoing::Install { to, last, .. }, ..] => (*to, 5, false, last.index),
        [] => (0, 0, false, 0),
    }
}

// The event of a row at a node.
fn event_of(alloc: Global, row: Row) -> Result<RaftEvent, AllocError> {
    let (from, term, what) = match row {
        Row::Fresh(..) => return Ok(RaftEvent::Beat),
        Row::Timeout => return Ok(RaftEvent::Timeout),
        Row::Yield => return Ok(RaftEvent::Yield),
        Row::Propose(terms) => return Ok(RaftEvent::Propose(entries(alloc, terms)?)),
        Row::Transfer(to) => return Ok(RaftEvent::Transfer(to)),
        Row::Snapped(index) => {
            return Ok(RaftEvent::Snapped {
                at: LogEnd { index, term: 1 },
            });
        }
        Row::AskVote(from, term, index, last) => {
            let last = LogEnd { index, term: last };
            let transfer = false;
            (from, term, MessageBody::AskVote { last, transfer })
        }
        Row::Vote(from, term, granted) => (from, term, MessageBody::Vote { granted }),
        Row::Append(from, term, index, prev, commit, terms) => {
            let prev = LogEnd { index, term: prev };
            let entries = entries(alloc, terms)?;
            (
                from,
                term,
                MessageBody::Append {
                    prev,
                    commit,
                    entries,
                },
            )
        }
        Row::Ack(from, term, good, index) => (from, term, MessageBody::Ack { good, index }),
        Row::Install(from, term, index, last) => {
            let snapshot = Snapshot {
                index,
                term: last,
                bytes: SharedBytes::new(alloc, WireBytes::new(Vec::new(alloc)))?,
            };
            (from, term, MessageBody::Install { snapshot })
        }
        Row::TimeoutNow(from, term) => (from, term, MessageBody::TimeoutNow),
    };
    Ok(RaftEvent::Message(RaftMessage {
        from,
        to: 0,
        term,
        what,
    }))
}

// How a node stands: its role's number, its term, its last index, its commit index, how much it sends, and what first.
type Seen = (u8, u64, u64, u64, usize, (u64, u8, bool, u64));

fn seen(node: &RaftNode, todo: &Todo) -> Seen {
    let view = node.view();
    let role = match view.role {
        RaftRole::Leader => 2,
        RaftRole::Candidate => 1,
        RaftRole::Follower => 0,
    };
    (
        role,
        view.term,
        view.last.index,
        todo.commit,
        todo.sends.len(),
        first_sent(todo),
    )
}

// A step of the node.
fn after(alloc: Global, node: &mut RaftNode, event: RaftEvent) -> Result<Seen, Fail> {
    let todo = step(alloc, node, event)?;
    Ok(seen(node, &todo))
}

// A step of the node, or another node in its place.
fn taken(alloc: Global, node: &mut RaftNode, row: Row) -> Result<Seen, Fail> {
    if let Row::Fresh(id, roles) = row {
        *node = fresh(alloc, id, roles)?;
    }
    let event = event_of(alloc, row)?;
    after(alloc, node, event)
}

const NONE: (u64, u8, bool, u64) = (0, 0, false, 0);

const STEPS: &[(Row, Seen)] = &[
    // Two candidates of one term ask node 3: the first gets its vote.
    (Row::Fresh(3, THREE), (0, 0, 0, 0, 0, NONE)),
    (Row::AskVote(1, 1, 0, 0), (0, 1, 0, 0, 1, (1, 2, true, 0))),
    (Row::AskVote(2, 1, 0, 0), (0, 1, 0, 0, 1, (2, 2, false, 0))),
    // A term that is 1,000,001 above the own one isn't taken; one that is 1,000,000 above is.
    (Row::AskVote(1, 1_000_002, 0, 0), (0, 1, 0, 0, 0, NONE)),
    (
        Row::Append(1, 1_000_002, 0, 0, 0, &[1]),
        (0, 1, 0, 0, 0, NONE),
    ),
    (Row::Install(1, 1_000_002, 3, 1), (0, 1, 0, 0, 0, NONE)),
    (Row::TimeoutNow(1, 1_000_002), (0, 1, 0, 0, 0, NONE)),
    (
        Row::AskVote(2, 1_000_001, 0, 0),
        (0, 1_000_001, 0, 0, 1, (2, 2, true, 0)),
    ),
    (
        Row::AskVote(1, 2_000_002, 0, 0),
        (0, 1_000_001, 0, 0, 0, NONE),
    ),
    (Row::Fresh(3, THREE), (0, 0, 0, 0, 0, NONE)),
    (Row::AskVote(1, 1, 0, 0), (0, 1, 0, 0, 1, (1, 2, true, 0))),
    // A short Append that comes late leaves the four entries of the longer one.
    (
        Row::Append(1, 1, 0, 0, 0, &[1, 1, 1, 1]),
        (0, 1, 4, 0, 1, (1, 4, true, 4)),
    ),
    (
        Row::Append(1, 1, 0, 0, 2, &[1, 1]),
        (0, 1, 4, 2, 1, (1, 4, true, 2)),
    ),
    // One whose place isn't there is refused; one that would replace a committed entry changes nothing.
    (
        Row::Append(1, 1, 6, 1, 2, &[1]),
        (0, 1, 4, 2, 1, (1, 4, false, 4)),
    ),
    (Row::Append(2, 2, 1, 1, 4, &[2]), (0, 2, 4, 2, 0, NONE)),
    // TimeoutNow makes a voter a candidate of the next term, and its AskVotes say so.
    (Row::TimeoutNow(2, 2), (1, 3, 4, 2, 2, (1, 1, true, 4))),
    (Row::Vote(2, 3, false), (1, 3, 4, 2, 0, NONE)),
    (Row::Vote(1, 3, true), (2, 3, 5, 2, 2, (1, 3, false, 4))),
    // A leader of one of five nodes: an entry of an older term isn't committed by counting.
    (Row::Fresh(1, FIVE), (0, 0, 0, 0, 0, NONE)),
    (Row::Timeout, (1, 1, 0, 0, 4, (2, 1, false, 0))),
    (Row::Vote(2, 1, true), (1, 1, 0, 0, 0, NONE)),
    (Row::Vote(2, 1, true), (1, 1, 0, 0, 0, NONE)),
    (Row::Vote(3, 1, true), (2, 1, 1, 0, 4, (2, 3, false, 0))),
    (Row::Ack(2, 1, true, 1), (2, 1, 1, 0, 0, NONE)),
    (Row::Ack(3, 1, true, 1), (2, 1, 1, 1, 4, (2, 3, false, 1))),
    (Row::Propose(&[1]), (2, 1, 2, 1, 4, (2, 3, false, 1))),
    (Row::Ack(2, 1, true, 2), (2, 1, 2, 1, 0, NONE)),
    (Row::AskVote(5, 2, 1, 1), (0, 2, 2, 1, 1, (5, 2, false, 0))),
    (Row::Timeout, (1, 3, 2, 1, 4, (2, 1, false, 2))),
    (Row::Vote(2, 3, true), (1, 3, 2, 1, 0, NONE)),
    (Row::Vote(3, 3, true), (2, 3, 3, 1, 4, (2, 3, false, 2))),
    (Row::Ack(2, 3, true, 2), (2, 3, 3, 1, 1, (2, 3, false, 2))),
    (Row::Ack(3, 3, true, 2), (2, 3, 3, 1, 1, (3, 3, false, 2))),
    (Row::Ack(2, 3, true, 3), (2, 3, 3, 1, 0, NONE)),
    (Row::Ack(3, 3, true, 3), (2, 3, 3, 3, 4, (2, 3, false, 3))),
    (Row::Transfer(2), (2, 3, 3, 3, 1, (2, 6, false, 0))),
    // A leader that yields follows in the next term, and may be a candidate again; a follower or a candidate stays as it is.
    (Row::Yield, (0, 4, 3, 3, 0, NONE)),
    (Row::Yield, (0, 4, 3, 3, 0, NONE)),
    (Row::Propose(&[4]), (0, 4, 3, 3, 0, NONE)),
    (Row::Timeout, (1, 5, 3, 3, 4, (2, 1, false, 3))),
    (Row::Yield, (1, 5, 3, 3, 0, NONE)),
    // A standby's Ack isn't counted; an only voter commits at once, and its snapshot goes to a peer that lags.
    (Row::Fresh(1, &[0, 1]), (0, 0, 0, 0, 0, NONE)),
    (Row::Timeout, (2, 1, 1, 1, 1, (2, 3, false, 0))),
    (Row::Propose(&[1; 20]), (2, 1, 21, 21, 1, (2, 3, false, 0))),
    (Row::Snapped(21), (2, 1, 21, 21, 0, NONE)),
    (
        Row::Ack(2, 1, false, 0),
        (2, 1, 21, 21, 1, (2, 5, false, 21)),
    ),
    // An Install replaces the log, keeps its rest, and tells nothing new.
    (Row::Fresh(2, THREE), (0, 0, 0, 0, 0, NONE)),
    (Row::Install(1, 1, 3, 1), (0, 1, 3, 3, 1, (1, 4, true, 3))),
    (
        Row::Append(1, 1, 3, 1, 3, &[1, 1, 1]),
        (0, 1, 6, 3, 1, (1, 4, true, 6)),
    ),
    (Row::Install(1, 1, 5, 1), (0, 1, 6, 5, 1, (1, 4, true, 5))),
    (Row::Install(1, 1, 4, 1), (0, 1, 6, 5, 1, (1, 4, true, 4))),
    (Row::Install(1, 1, 7, 1), (0, 1, 7, 7, 1, (1, 4, true, 7))),
    (
        Row::Append(1, 1, 2, 1, 7, &[1, 1, 1, 1, 1, 1]),
        (0, 1, 8, 7, 1, (1, 4, true, 8)),
    ),
];

#[test]
fn rows_of_steps(rt: HostRuntime) -> Result<(), Fail> {
    let mut node = fresh(rt.alloc(), 1, THREE)?;
    for &(row, wanted) in STEPS {
        assert_eq!(rt; taken(rt.alloc(), &mut node, row)?, wanted);
    }
    Ok(())
}

// The node leads by its own vote and another.
fn lead(alloc: Global, node: &mut RaftNode) -> Result<(), Fail> {
    taken(alloc, node, Row::Timeout)?;
    taken(alloc, node, Row::Vote(2, 1, true))?;
    Ok(())
}

// A step of a node that is told of a fourth server, a standby.
fn tell_of_fourth(alloc: Global, node: &mut RaftNode) -> Result<Seen, Fail> {
    let bytes = configuration(alloc, &[0, 0, 0, 1])?;
    let (servers, _) = read_servers(alloc, bytes.as_slice())?;
    if node.view().role == RaftRole::Candidate {
        return Err(Fail::from("a candidate"));
    }
    let todo = node.step(alloc, RaftEvent::Servers(servers))?;
    Ok(seen(node, &todo))
}

// How a leader of three stands that is told of a fourth server.
fn told(alloc: Global) -> Result<Seen, Fail> {
    let mut node = fresh(alloc, 1, THREE)?;
    lead(alloc, &mut node)?;
    tell_of_fourth(alloc, &mut node)
}

#[test]
fn a_new_peer_is_sent_to(rt: HostRuntime) -> Result<(), Fail> {
    assert_eq!(rt; told(rt.alloc())?, (2, 1, 1, 0, 1, (4, 3, false, 1)));
    Ok(())
}
