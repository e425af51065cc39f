//! The log of one node, and the commit index of a leader.
use raft_log::{Accepted, Log, Progress};
use raft_messages::{Entry, EntryKind, LogEnd, SharedBytes};
use std::alloc::{AllocError, Global};
use std::test::Fail;
use wire_words::WireBytes;

// Entries of these terms.
fn entries_of(alloc: Global, terms: &[u64]) -> Result<Vec<Entry>, AllocError> {
    let mut entries = Vec::new(alloc);
    for term in terms {
        entries.push(Entry {
            term: *term,
            kind: EntryKind::Command,
            bytes: SharedBytes::new(alloc, WireBytes::new(Vec::new(alloc)))?,
        })?;
    }
    Ok(entries)
}

// A log of entries of these terms, compacted after this many.
fn log_of(alloc: Global, terms: &[u64], cut: u64) -> Result<Log, AllocError> {
    let mut log = Log::new(alloc, LogEnd { index: 0, term: 0 });
    for entry in entries_of(alloc, terms)? {
        log.push(entry)?;
    }
    log.cut_to(cut);
    Ok(log)
}

// The answer to an Append, and the last index then.
fn taken(
    alloc: Global,
    terms: &[u64],
    cut: u64,
    prev: LogEnd,
    coming: &[u64],
) -> Result<(Accepted, u64), AllocError> {
    let mut log = log_of(alloc, terms, cut)?;
    let answer = log.accept(prev, entries_of(alloc, coming)?)?;
    Ok((answer, log.last_index()))
}

const NONE: Accepted = Accepted::Match {
    index: 2,
    from: None,
};

const SOME: Accepted = Accepted::Match {
    index: 4,
    from: Some(3),
};

// The terms of a log, how much of it is compacted, the index and term before what comes, its terms, the answer, and the last
// index then.
const TAKEN: &[(&[u64], u64, u64, u64, &[u64], Accepted, u64)] = &[
    (&[1, 1, 1, 1], 0, 0, 0, &[1, 1], NONE, 4),
    (&[1, 1, 1, 1], 2, 2, 1, &[], NONE, 4),
    (&[1, 1, 1, 1, 1], 1, 2, 1, &[2, 2], SOME, 4),
    (&[1, 1], 0, 1, 1, &[1, 2, 2], SOME, 4),
    (&[1, 1], 0, 2, 2, &[2], Accepted::Differs(2), 2),
];

#[test]
fn entries_are_taken(rt: HostRuntime) -> Result<(), Fail> {
    for &(terms, cut, index, term, coming, answer, last) in TAKEN {
        let prev = LogEnd { index, term };
        assert_eq!(rt;
            taken(rt.alloc(), terms, cut, prev, coming)?,
            (answer, last)
        );
    }
    Ok(())
}

// The commit index of node 1 of five, at term 3 with commit index 1, after good Acks.
fn committed(alloc: Global, acks: &[(u64, u32)]) -> Result<u64, AllocError> {
    let log = log_of(alloc, &[1, 1, 3], 0)?;
    let mut progress = Progress::new(&[1, 2, 3, 4, 5], 1, 4);
    for (from, index) in acks {
        let index = u64::from(*index);
        progress.on_ack(*from, true, index);
    }
    Ok(progress.commit_index(&log, 3, 1))
}

const ACKS: &[(&[(u64, u32)], u64)] = &[
    (&[(2, 2), (3, 2)], 1),
    (&[(2, 2), (3, 2), (2, 3)], 1),
    (&[(2, 2), (3, 2), (2, 3), (3, 3)], 3),
];

#[test]
fn only_the_own_term_is_counted(rt: HostRuntime) -> Result<(), Fail> {
    for &(acks, commit) in ACKS {
        assert_eq!(rt; committed(rt.alloc(), acks)?, commit);
    }
    Ok(())
}
