//! What the threads of a node know of its leadership.

ghost use Rattle.std.specs.Prelude.{◌≡◌};
ghost use Rattle.serve_threads.specs.Hearing.{answers_leader, is_heard};

use raft_messages::{MessageBody, RaftMessage};
use serve_traits::ServerSet;
use std::alloc::{AllocError, Global};
use std::sync::Arc;
use std::sync::atomic::{AtomicU64, Ordering};

/// For how many heartbeats' time a node keeps to the leader that it heard: 0.8 s, less than the shortest time until a voter's timeout.
const MAX_SETTLED_BEATS: u64 = 8;

/// For how many heartbeats' time clients' messages wait after the node handed its leadership over: one second.
const MAX_HELD_BEATS: u64 = 10;

/// What is known, as numbers.
#[derive(Drop)]
struct Contact {
    /// 1 if the node answered a leader or gave its vote since this was last taken.
    heard: AtomicU64,
    /// How many heartbeats' time passed since the node answered a leader, or was acknowledged by a majority while it led.
    quiet_beats: AtomicU64,
    /// The voters, while the node leads; else none.
    voters: AtomicU64,
    /// The servers that acknowledged since a majority last had.
    acked: AtomicU64,
    /// For how many heartbeats' time clients' messages still wait.
    held_beats: AtomicU64,
}

/// One end of what a node's threads know of its leadership: whether it hears a leader, and whether it is acknowledged while it leads.
#[derive(Drop)]
pub struct LeaderContact {
    shared: Arc<Contact, Global>,
}

/// Whether a message answers a leader or gives a vote.
fn is_heard(message: &RaftMessage) -> bool
    ensures { result ≡ is_heard message.now.what }
{
    matches!(
        message.what,
        MessageBody::Ack { .. } | MessageBody::Vote { granted: true }
    )
}

/// Whether a message answers a leader.
fn answers_leader(message: &RaftMessage) -> bool
    ensures { result ≡ answers_leader message.now.what }
{
    matches!(message.what, MessageBody::Ack { .. })
}

impl LeaderContact {
    /// Nothing was heard.
    pub fn new(alloc: Global) -> Result<LeaderContact, AllocError> {
        let contact = Contact {
            heard: AtomicU64::new(0),
            quiet_beats: AtomicU64::new(MAX_SETTLED_BEATS),
            voters: AtomicU64::new(0),
            acked: AtomicU64::new(0),
            held_beats: AtomicU64::new(0),
        };
        Ok(LeaderContact {
            shared: Arc::new(alloc, contact)?,
        })
    }

    /// Another end. `Err` if there are too many.
    pub fn again(&self) -> Result<LeaderContact, AllocError> {
        Ok(LeaderContact {
            shared: Arc::try_clone(&self.shared)?,
        })
    }

    /// Notes a message that the node sends.
    pub fn note(&self, message: &RaftMessage) {
        if is_heard(message) {
            self.shared.heard.store(1, Ordering::SeqCst);
        }
        if answers_leader(message) {
            self.shared.quiet_beats.store(0, Ordering::SeqCst);
        }
        if matches!(message.what, MessageBody::TimeoutNow) {
            self.shared
                .held_beats
                .store(MAX_HELD_BEATS, Ordering::SeqCst);
        }
    }

    /// Notes that a part came of a message that has more bytes than are read at a time: an Append or an Install, which only a leader sends.
    pub fn note_part(&self) {
        self.shared.heard.store(1, Ordering::SeqCst);
        self.shared.quiet_beats.store(0, Ordering::SeqCst);
    }

    /// Notes that the node of this id leads these voters. It acknowledges itself.
    pub fn note_leads(&self, id: u64, voters: ServerSet) {
        self.shared.voters.store(voters.bits(), Ordering::SeqCst);
        self.note_ack(id);
    }

    /// Notes that the node doesn't lead, and whether it knows who does.
    pub fn note_follows(&self, is_led: bool) {
        self.shared.voters.store(0, Ordering::SeqCst);
        self.shared.acked.store(0, Ordering::SeqCst);
        if is_led {
            self.shared.held_beats.store(0, Ordering::SeqCst);
        }
    }

    /// Notes that a server acknowledged something.
    pub fn note_ack(&self, id: u64) {
        let acked = ServerSet::new().with(id).bits();
        self.shared.acked.fetch_or(acked, Ordering::SeqCst);
    }

    /// Whether the node answered a leader or gave its vote since the last call.
    pub fn take(&self) -> bool {
        self.shared.heard.swap(0, Ordering::SeqCst) != 0
    }

    /// Whether a majority of the voters has acknowledged since a call last said so; also if the node doesn't lead.
    pub fn take_majority(&self) -> bool {
        let voters = ServerSet::from_bits(self.shared.voters.load(Ordering::SeqCst));
        if voters.is_empty() {
            return true;
        }
        let acked = ServerSet::from_bits(self.shared.acked.load(Ordering::SeqCst));
        if !acked.has_majority_of(voters) {
            return false;
        }
        self.shared.acked.store(0, Ordering::SeqCst);
        self.shared.quiet_beats.store(0, Ordering::SeqCst);
        true
    }

    /// The time of a heartbeat has passed.
    pub fn count_beat(&self) {
        self.shared.quiet_beats.fetch_add(1, Ordering::SeqCst);
        let held = self.shared.held_beats.load(Ordering::SeqCst);
        if held > 0 {
            self.shared.held_beats.store(held - 1, Ordering::SeqCst);
        }
    }

    /// Whether clients' messages wait: the node handed its leadership over within the last second, and knows no leader since.
    pub fn holds_clients(&self) -> bool {
        self.shared.held_beats.load(Ordering::SeqCst) > 0
    }

    /// Whether the node answered its leader within the last 0.8 s, or led and was acknowledged by a majority.
    pub fn is_settled(&self) -> bool {
        self.shared.quiet_beats.load(Ordering::SeqCst) < MAX_SETTLED_BEATS
    }
}
