//! Messages and configurations both ways, their faults, and votes.
use raft_messages::*;
use std::alloc::{AllocError, Global};
use std::test::*;
use wire_words::{Message, WireBytes, WordFault};

// The bytes of these words.
fn bytes(alloc: Global, words: &[u64]) -> Result<Vec<u8>, AllocError> {
    let mut bytes = Vec::new(alloc);
    for word in words {
        bytes.extend_from_slice(&word.to_le_bytes())?;
    }
    Ok(bytes)
}

fn message(alloc: Global, kind: u8, schema: u8, words: &[u64]) -> Result<Message, AllocError> {
    let body = WireBytes::new(bytes(alloc, words)?);
    Ok(Message { kind, schema, body })
}

// What is written of the message that was read of this type, this schema byte and this body.
fn written(alloc: Global, kind: u8, schema: u8, words: &[u64]) -> Result<WireBytes, Fail> {
    let message = message(alloc, kind, schema, words)?;
    let read = read_message(alloc, &message, 2)?;
    Ok(write_message(alloc, &read)?)
}

// Whether it is the header and that body.
fn reads_back(alloc: Global, kind: u8, header: u64, words: &[u64]) -> Result<bool, Fail> {
    let mut wanted = bytes(alloc, &[header])?;
    for word in words {
        wanted.extend_from_slice(&word.to_le_bytes())?;
    }
    let written = written(alloc, kind, header.to_le_bytes()[5], words)?;
    Ok(written.as_slice() == wanted.as_slice())
}

const MESSAGES: &[(u8, u64, &[u64])] = &[
    (1, 0x201_0000_0004, &[1, 4, 3, 2]),
    // With the mark of a transfer.
    (1, 0x8201_0000_0004, &[1, 4, 3, 2]),
    (2, 0x202_0000_0003, &[1, 4, 1]),
    (
        3,
        0x203_0000_0009,
        &[1, 4, 3, 2, 1, 1, 4, 0x3_0000_0001, 0x63_6261],
    ),
    (4, 0x204_0000_0004, &[1, 4, 0, 7]),
    (5, 0x205_0000_0006, &[1, 4, 5, 2, 2, 0x6968]),
    (6, 0x206_0000_0002, &[1, 4]),
];

#[test]
fn messages_both_ways(rt: HostRuntime) -> Result<(), Fail> {
    for &(kind, header, body) in MESSAGES {
        assert!(rt; reads_back(rt.alloc(), kind, header, body)?);
    }
    Ok(())
}

// Whether a message of this type is refused wherever its body is truncated.
fn is_refused_cut(alloc: Global, kind: u8, words: &[u64]) -> Result<bool, Fail> {
    let whole = bytes(alloc, words)?;
    for end in 0..whole.len() {
        let body = WireBytes::new(Vec::from_slice(alloc, &whole[..end])?);
        let cut = Message {
            kind,
            schema: 2,
            body,
        };
        if read_message(alloc, &cut, 2).is_ok() {
            return Ok(false);
        }
    }
    Ok(true)
}

#[test]
fn messages_cut_at_every_byte(rt: HostRuntime) -> Result<(), Fail> {
    for &(kind, _, body) in MESSAGES {
        assert!(rt; is_refused_cut(rt.alloc(), kind, body)?);
    }
    Ok(())
}

fn fault(
    alloc: Global,
    kind: u8,
    schema: u8,
    words: &[u64],
) -> Result<Option<PeerFault>, AllocError> {
    let message = message(alloc, kind, schema, words)?;
    Ok(read_message(alloc, &message, 2).err())
}

const MESSAGE_FAULTS: &[(u8, u8, &[u64], PeerFault)] = &[
    (7, 2, &[], PeerFault::Kind),
    // For another node, or for none.
    (2, 1, &[1, 4, 1], PeerFault::Kind),
    (2, 0, &[1, 4, 1], PeerFault::Kind),
    // The mark of a transfer at a message that isn't an AskVote, or for another node.
    (2, 130, &[1, 4, 1], PeerFault::Kind),
    (1, 129, &[1, 4, 3, 2], PeerFault::Kind),
    (2, 2, &[1, 4], PeerFault::Word(WordFault::Short(16))),
    (2, 2, &[1, 4, 2, 0], PeerFault::Range),
    (6, 2, &[1, 0x1_0000_0000], PeerFault::Range),
    (6, 2, &[1, 4, 0], PeerFault::Tail),
    (
        3,
        2,
        &[1, 4, 0, 0, 0, 1, 1, 0x104],
        PeerFault::Word(WordFault::BadCode(56, 4)),
    ),
    (
        3,
        2,
        &[1, 4, 0, 0, 0, 1, 1, 0x101],
        PeerFault::Word(WordFault::Pad(56)),
    ),
];

#[test]
fn faults_of_messages(rt: HostRuntime) -> Result<(), Fail> {
    for &(kind, schema, body, wanted) in MESSAGE_FAULTS {
        assert_eq!(rt; fault(rt.alloc(), kind, schema, body)?, Some(wanted));
    }
    Ok(())
}

const N1: u64 = 0x316e;

// The place after the servers with which the bytes begin, if these are written again as the bytes up to there.
fn place_after(alloc: Global, spelled: &[u64], behind: u64) -> Result<Option<u64>, Fail> {
    let wanted = bytes(alloc, spelled)?;
    let mut longer = bytes(alloc, spelled)?;
    longer.extend_from_slice(&behind.to_le_bytes())?;
    let (servers, place) = read_servers(alloc, &longer)?;
    let written = write_servers(alloc, servers.as_slice())?;
    let same = written.as_slice() == wanted.as_slice();
    Ok(if same { Some(place) } else { None })
}

const CONFIGURATIONS: &[(&[u64], u64)] = &[(&[0], 8), (&[2, 1, N1, 0, 3, N1, 1], 56)];

#[test]
fn configurations_both_ways(rt: HostRuntime) -> Result<(), Fail> {
    for &(spelled, place) in CONFIGURATIONS {
        assert_eq!(rt; place_after(rt.alloc(), spelled, 9)?, Some(place));
    }
    Ok(())
}

fn servers_fault(alloc: Global, words: &[u64]) -> Result<Option<ServersFault>, AllocError> {
    let bytes = bytes(alloc, words)?;
    Ok(read_servers(alloc, &bytes).err())
}

// The fault of this many servers of this role.
fn fault_of_many(alloc: Global, count: u64, role: u64) -> Result<Option<ServersFault>, AllocError> {
    let mut words = vec![in alloc; count]?;
    for id in 1..=count {
        words.extend_from_slice(&[id, N1, role])?;
    }
    servers_fault(alloc, &words)
}

const CONFIGURATION_FAULTS: &[(&[u64], ServersFault)] = &[
    (&[], ServersFault::Word(WordFault::Short(0))),
    (&[1, 0, N1, 3], ServersFault::Order(8)),
    (&[1, 1, N1, 3], ServersFault::Role(24)),
];

const LIMITS: &[(u64, u64, u64)] = &[(10, 1, 224), (8, 0, 176)];

#[test]
fn faults_of_configurations(rt: HostRuntime) -> Result<(), Fail> {
    for &(words, wanted) in CONFIGURATION_FAULTS {
        assert_eq!(rt; servers_fault(rt.alloc(), words)?, Some(wanted));
    }
    for &(count, role, place) in LIMITS {
        let wanted = Some(ServersFault::Limit(place));
        assert_eq!(rt; fault_of_many(rt.alloc(), count, role)?, wanted);
    }
    Ok(())
}

// Whether a fresh node votes for each of two candidates of one term that ask it in turn.
fn two_candidates() -> (bool, bool) {
    let empty = LogEnd { index: 0, term: 0 };
    let mut votes = VoteCore::new(3, 0, 0);
    let first = votes.on_request(1, 1, empty, empty);
    let second = votes.on_request(2, 1, empty, empty);
    (first, second)
}

// Whether a node of a term, with a vote for node 2, stands for election, and its term and its vote then.
fn timeout_at(term: u64) -> (bool, u64, u64) {
    let mut votes = VoteCore::new(1, term, 2);
    let stands = votes.on_timeout();
    (stands, votes.term(), votes.vote())
}

// Two candidates of one term: the first one that asks has the vote.
#[test]
fn one_vote_a_term(rt: HostRuntime) -> Result<(), Fail> {
    assert_eq!(rt; two_candidates(), (true, false));
    assert_eq!(rt; timeout_at(4_294_967_294), (true, 4_294_967_295, 1));
    assert_eq!(rt; timeout_at(4_294_967_295), (false, 4_294_967_295, 2));
    Ok(())
}

const PEER_FAULTS: &[(PeerFault, &str)] = &[
    (PeerFault::Kind, "no message of a peer has this type"),
    (
        PeerFault::Word(WordFault::Short(8)),
        "the message is malformed: the body ends within the item at byte 8",
    ),
    (
        PeerFault::Range,
        "a number of the message is out of its range",
    ),
    (PeerFault::Tail, "bytes follow the message"),
    (PeerFault::NoMemory, "out of memory"),
];

const SERVERS_FAULTS: &[(ServersFault, &str)] = &[
    (
        ServersFault::Word(WordFault::Short(8)),
        "the configuration is malformed: the body ends within the item at byte 8",
    ),
    (
        ServersFault::Order(8),
        "the server at byte 8 is out of order",
    ),
    (ServersFault::Role(24), "no role has the number at byte 24"),
    (
        ServersFault::Limit(8),
        "the server at byte 8 is past a limit",
    ),
    (ServersFault::NoMemory, "out of memory"),
];

#[test]
fn texts_of_faults(rt: HostRuntime) -> Result<(), Fail> {
    for &(fault, wanted) in PEER_FAULTS {
        assert_eq!(rt; format!(in rt.alloc(); "{fault}")?.as_str(), wanted);
    }
    for &(fault, wanted) in SERVERS_FAULTS {
        assert_eq!(rt; format!(in rt.alloc(); "{fault}")?.as_str(), wanted);
    }
    Ok(())
}
