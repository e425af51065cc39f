//! Five nodes play a figure of entries of older terms, move by move.
use crate::nodes::{FIVE, entries, fresh, step};
use raft_core::{Outgoing, RaftEvent, RaftNode, RaftRole, Todo};
use raft_messages::RaftMessage;
use std::alloc::{AllocError, Global};
use std::test::*;

/// What happens among five nodes.
#[derive(Clone, Copy)]
enum Move {
    /// A node heard of no leader for too long.
    Timeout(u64),
    /// Entries are proposed at a node.
    Propose(u64, &'static [u64]),
    /// What is under way from one node to another comes, in order.
    Comes(u64, u64),
    /// All that is under way is lost.
    Lost,
}

impl Move {
    /// The node that it happens at.
    fn node(self) -> u64 {
        match self {
            Move::Timeout(id) | Move::Propose(id, _) | Move::Comes(_, id) => id,
            Move::Lost => 1,
        }
    }
}

/// Five nodes, and what is under way between them.
#[derive(Drop)]
struct Cluster {
    nodes: Vec<RaftNode>,
    mail: Vec<RaftMessage>,
}

/// Five fresh nodes.
fn five(alloc: Global) -> Result<Cluster, Fail> {
    let mut nodes = Vec::new(alloc);
    for id in 1..6 {
        nodes.push(fresh(alloc, id, FIVE)?)?;
    }
    Ok(Cluster {
        nodes,
        mail: Vec::new(alloc),
    })
}

/// Takes out what is under way from one node to another, in order.
fn between(
    alloc: Global,
    mail: &mut Vec<RaftMessage>,
    from: u64,
    to: u64,
) -> Result<Vec<RaftMessage>, AllocError> {
    let mut coming = Vec::new(alloc);
    let under_way = std::mem::replace(mail, Vec::new(alloc));
    for message in under_way {
        if message.from == from && message.to == to {
            coming.push(message)?;
        } else {
            mail.push(message)?;
        }
    }
    Ok(coming)
}

/// The messages that a step sends are under way.
fn sent(mail: &mut Vec<RaftMessage>, todo: Todo) -> Result<(), AllocError> {
    let Todo {
        meta: _,
        batch: _,
        install: _,
        sends,
        commit: _,
    } = todo;
    for sending in sends.into_vec() {
        if let Outgoing::Message(message) = sending {
            mail.push(message)?;
        }
    }
    Ok(())
}

impl Cluster {
    fn happens(&mut self, alloc: Global, id: u64, event: RaftEvent) -> Result<(), Fail> {
        if let Some(node) = self.nodes.get_mut(id.saturating_sub(1) as usize) {
            sent(&mut self.mail, step(alloc, node, event)?)?;
        }
        Ok(())
    }

    fn comes(&mut self, alloc: Global, from: u64, to: u64) -> Result<(), Fail> {
        for message in between(alloc, &mut self.mail, from, to)? {
            self.happens(alloc, to, RaftEvent::Message(message))?;
        }
        Ok(())
    }

    fn moves(&mut self, alloc: Global, it: Move) -> Result<(), Fail> {
        match it {
            Move::Timeout(id) => self.happens(alloc, id, RaftEvent::Timeout),
            Move::Propose(id, terms) => {
                let event = RaftEvent::Propose(entries(alloc, terms)?);
                self.happens(alloc, id, event)
            }
            Move::Comes(from, to) => self.comes(alloc, from, to),
            Move::Lost => {
                self.mail.clear();
                Ok(())
            }
        }
    }

    /// How many nodes have an entry of term 1 at index 17.
    fn holders(&self) -> usize {
        self.nodes
            .iter()
            .filter(|node| node.term_at(17) == Some(1))
            .count()
    }

    /// How a node stands: the number of its role, its term, its last index and its commit index.
    fn stands(&self, id: u64) -> (u8, u64, u64, u64) {
        match self.nodes.get(id.saturating_sub(1) as usize) {
            Some(node) => standing(node),
            None => (9, 0, 0, 0),
        }
    }
}

fn standing(node: &RaftNode) -> (u8, u64, u64, u64) {
    let view = node.view();
    let role = match view.role {
        RaftRole::Leader => 2,
        RaftRole::Candidate => 1,
        RaftRole::Follower => 0,
    };
    (role, view.term, view.last.index, view.commit)
}

/// How the node of a move is after it, and how many nodes have an entry of term 1 at index 17.
fn after(
    alloc: Global,
    cluster: &mut Cluster,
    it: Move,
) -> Result<((u8, u64, u64, u64), usize), Fail> {
    cluster.moves(alloc, it)?;
    Ok((cluster.stands(it.node()), cluster.holders()))
}

const MOVES: &[(Move, (u8, u64, u64, u64), usize)] = &[
    // Node 1 leads term 1, and its barrier is stored at all.
    (Move::Timeout(1), (1, 1, 0, 0), 0),
    (Move::Comes(1, 2), (0, 1, 0, 0), 0),
    (Move::Comes(2, 1), (1, 1, 0, 0), 0),
    (Move::Comes(1, 3), (0, 1, 0, 0), 0),
    (Move::Comes(3, 1), (2, 1, 1, 0), 0),
    (Move::Comes(1, 2), (0, 1, 1, 0), 0),
    (Move::Comes(1, 3), (0, 1, 1, 0), 0),
    (Move::Comes(1, 4), (0, 1, 1, 0), 0),
    (Move::Comes(1, 5), (0, 1, 1, 0), 0),
    (Move::Comes(2, 1), (2, 1, 1, 0), 0),
    (Move::Comes(3, 1), (2, 1, 1, 1), 0),
    (Move::Lost, (2, 1, 1, 1), 0),
    // Entries 2 to 17 are stored at nodes 1 and 2 alone.
    (Move::Propose(1, &[0; 16]), (2, 1, 17, 1), 1),
    (Move::Comes(1, 2), (0, 1, 17, 1), 2),
    (Move::Lost, (2, 1, 17, 1), 2),
    // Node 5 leads term 2 by the votes of 3 and 4, and stores another entry 2 at itself alone.
    (Move::Timeout(5), (1, 2, 1, 0), 2),
    (Move::Comes(5, 1), (0, 2, 17, 1), 2),
    (Move::Comes(5, 3), (0, 2, 1, 0), 2),
    (Move::Comes(5, 4), (0, 2, 1, 0), 2),
    (Move::Comes(3, 5), (1, 2, 1, 0), 2),
    (Move::Comes(4, 5), (2, 2, 2, 0), 2),
    (Move::Lost, (0, 2, 17, 1), 2),
    // Node 1 leads term 3 by the votes of 2 and 3, and node 2 stores its barrier.
    (Move::Timeout(1), (1, 3, 17, 1), 2),
    (Move::Comes(1, 2), (0, 3, 17, 1), 2),
    (Move::Comes(2, 1), (1, 3, 17, 1), 2),
    (Move::Comes(1, 3), (0, 3, 1, 0), 2),
    (Move::Comes(3, 1), (2, 3, 18, 1), 2),
    (Move::Comes(1, 2), (0, 3, 18, 1), 2),
    (Move::Comes(2, 1), (2, 3, 18, 1), 2),
    // Node 3 stores the entries of term 1 too, before the barrier: three of five have them, and none is committed.
    (Move::Comes(1, 3), (0, 3, 1, 0), 2),
    (Move::Comes(3, 1), (2, 3, 18, 1), 2),
    (Move::Comes(1, 3), (0, 3, 17, 1), 3),
    (Move::Comes(3, 1), (2, 3, 18, 1), 3),
    // With the barrier on a majority all are.
    (Move::Comes(1, 3), (0, 3, 18, 1), 3),
    (Move::Comes(3, 1), (2, 3, 18, 18), 3),
];

// Why an entry of an older term isn't committed by counting. An Append has at most 16 entries, so a node can have all of
// term 1 and not yet the barrier of term 3.
#[test]
fn an_older_term_is_not_counted(rt: HostRuntime) -> Result<(), Fail> {
    let mut cluster = five(rt.alloc())?;
    for &(it, stands, holders) in MOVES {
        assert_eq!(rt; after(rt.alloc(), &mut cluster, it)?, (stands, holders));
    }
    Ok(())
}
