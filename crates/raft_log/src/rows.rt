//! What a leader knows of its peers, as a table of fixed size.
ghost use Rattle.std.specs.Prelude.{◌≡◌, ◌<◌, ◌≤◌, ◌+◌, ◌-◌, ◌++◌, [], ◌∷◌, suc, max, min, cond, MatchOption, length, false};
ghost use Rattle.raft_spec.specs.Node.{among, others};
ghost use Rattle.raft_spec.specs.Progress.{next_in, match_in, ids_in, rows_for, progress_of, after_ack};
ghost use Rattle.raft_log.specs.Rows.{IsFirstRow, row_for};

use arrayvec::ArrayVec;
use std::marker::Model;

/// The most peers of a leader.
pub const MAX_PEERS: usize = 9;

/// One peer: the index of the next entry to send to it, and up to where its log is known to agree. The latter came in a
/// message, so it has 32 bits.
#[derive(Clone, Copy, Default, PartialEq, Eq)]
pub struct PeerRow {
    pub id: u64,
    pub next: u64,
    pub matched: u32,
}

impl Model for PeerRow {
    ghost use Rattle.raft_spec.specs.Progress.{PeerProgress};

    ghost Value = { PeerProgress };

    ghost view = { λ r. record { id = r.id; next = r.next; matched = r.matched } };

    ghost inverse = { λ r. record { id = r.id; next = r.next; matched = r.matched } };
}

impl PeerRow {
    // The row after an Ack.
    fn after_ack(self, good: bool, index: u32) -> PeerRow
        ensures id { result.id ≡ self.id }
        ensures matched { result.matched ≡ cond good (max self.matched index) self.matched }
        ensures next { result.next ≡ cond good (suc (max self.matched index)) (max (suc self.matched) (min (self.next - 1) (suc index))) }
    {
        if good {
            let matched = self.matched.max(index);
            PeerRow {
                id: self.id,
                next: matched as u64 + 1,
                matched,
            }
        } else {
            let back = self.next.saturating_sub(1).min(index as u64 + 1);
            PeerRow {
                id: self.id,
                next: back.max(self.matched as u64 + 1),
                matched: self.matched,
            }
        }
    }
}

// The place of the first row of a peer.
fn place_of(rows: &[PeerRow], id: u64) -> Option<usize>
    ensures { MatchOption result (among (ids_in rows.now) id ≡ false) (λ i. IsFirstRow rows.now i id) }
{
    for i in 0..rows.len() {
        let row = &rows[i];
        if row.id == id {
            return Some(i);
        }
    }
    None
}

// The next of a peer.
fn next_among(rows: &[PeerRow], id: u64) -> u64
    ensures { result ≡ next_in rows.now id }
{
    match place_of(rows, id) {
        Some(i) => {
            let row = &rows[i];
            row.next
        }
        None => 1,
    }
}

// The match of a peer.
fn match_among(rows: &[PeerRow], id: u64) -> u64
    ensures { result ≡ match_in rows.now id }
{
    match place_of(rows, id) {
        Some(i) => {
            let row = &rows[i];
            row.matched as u64
        }
        None => 0,
    }
}

// The row of a peer; the given next, and match 0, for a node that has none.
fn row_among(rows: &[PeerRow], id: u64, next: u64) -> PeerRow
    ensures { result ≡ row_for rows.now next id }
{
    match place_of(rows, id) {
        Some(i) => rows[i],
        None => PeerRow {
            id,
            next,
            matched: 0,
        },
    }
}

// An Ack of a peer.
fn ack_among(rows: &mut [PeerRow], from: u64, good: bool, index: u64)
    requires { index ≤ 4294967295 }
    ensures { progress_of rows.new ≡ after_ack (progress_of rows.old) from good index }
{
    if let Some(i) = place_of(rows, from) {
        let row = rows[i];
        rows[i] = row.after_ack(good, index as u32);
    }
}

/// The rows of all peers.
#[derive(Drop)]
pub struct PeerRows {
    rows: ArrayVec<PeerRow, MAX_PEERS>,
}

impl Model for PeerRows {
    ghost use Rattle.std.specs.Prelude.{List};
    ghost use Rattle.raft_spec.specs.Progress.{PeerProgress};

    ghost Value = { List PeerProgress };

    ghost view = { λ r. r.rows.items };
}

impl PeerRows {
    /// No peer.
    pub fn new() -> PeerRows
        ensures { result ≡ [] }
    {
        PeerRows {
            rows: ArrayVec::new(),
        }
    }

    // One peer more.
    fn push(&mut self, row: PeerRow)
        requires { length self.old < 9 }
        ensures { self.new ≡ self.old ++ row ∷ [] }
    {
        self.rows.push(row);
    }

    // The rows.
    fn as_slice(&self) -> &[PeerRow]
        ensures { result.now ≡ self.now }
    {
        self.rows.as_slice()
    }

    /// The next of a peer; 1 of a node that has no row.
    pub fn next_of(&self, id: u64) -> u64
        ensures { result ≡ next_in self.now id }
    {
        next_among(self.as_slice(), id)
    }

    /// The match of a peer; 0 of a node that has no row.
    pub fn match_of(&self, id: u64) -> u64
        ensures { result ≡ match_in self.now id }
    {
        match_among(self.as_slice(), id)
    }

    // Adds the peer of this id, but not the own one. One that had a row keeps it.
    #[tactic(auto, unfolding(raft_spec::specs::Node::others))]
    fn add_one(&mut self, id: u64, own: u64, next: u64, old: &PeerRows)
        requires { length self.old < 9 }
        ensures rows { self.new ≡ self.old ++ rows_for (others (id ∷ []) own) next old.now }
        ensures few { length self.new ≤ length self.old + 1 }
    {
        if id != own {
            let row = row_among(old.as_slice(), id, next);
            self.push(row);
        }
    }

    // Adds the peers of these ids, except for the own one. Those that had a row keep
    // it.
    fn add(&mut self, ids: &[u64], own: u64, next: u64, old: &PeerRows)
        requires { length self.old + length ids.now ≤ 9 }
        ensures rows { self.new ≡ self.old ++ rows_for (others ids.now own) next old.now }
        ensures few { length self.new ≤ length self.old + length ids.now }
    {
        for id in ids {
            self.add_one(*id, own, next, old);
        }
    }

    /// An Ack of a peer.
    pub fn on_ack(&mut self, from: u64, good: bool, index: u64)
        requires { index ≤ 4294967295 }
        ensures { progress_of self.new ≡ after_ack (progress_of self.old) from good index }
    {
        ack_among(self.rows.as_mut_slice(), from, good, index);
    }
}

/// The rows of the peers of a leader, except for the own id: those that had a row keep
/// it.
pub fn rows_of(peers: &[u64], own: u64, next: u64, old: &PeerRows) -> PeerRows
    requires { length peers.now ≤ 9 }
    ensures { result ≡ rows_for (others peers.now own) next old.now }
{
    let mut rows = PeerRows::new();
    rows.add(peers, own, next, old);
    rows
}

/// The rows of a leader's peers, from its voters and its standbys.
pub fn rows_of_both(
    voters: &[u64],
    standbys: &[u64],
    own: u64,
    next: u64,
    old: &PeerRows,
) -> PeerRows
    requires { length voters.now + length standbys.now ≤ 9 }
    ensures { result ≡ rows_for (others (voters.now ++ standbys.now) own) next old.now }
{
    let mut rows = PeerRows::new();
    rows.add(voters, own, next, old);
    rows.add(standbys, own, next, old);
    rows
}
