//! The entries of a log past its cut: how they agree with those that come, and how their front goes.
ghost use Rattle.std.specs.Prelude.{◌≡◌, ◌<◌, ◌≤◌, ◌+◌, ◌-◌, ◌++◌, suc, MatchOption, OnOk, OnErr, IfOk, length, take, drop};
ghost use Rattle.raft_spec.specs.Log.{nth_term, conflict_place};
ghost use Rattle.raft_log.specs.Agreeing.{has_term, agreeing_front, TakesIn};

use raft_messages::{Entries, Entry};
use std::alloc::{AllocError, Global};

/// The index that this many entries after an index have the last of. An index that is too great means out of
/// memory.
pub fn index_after(index: u64, count: usize) -> Result<u64, AllocError>
    ensures sum { IfOk result (λ last. last ≡ index + count) }
    ensures fits { IfOk result (λ last. last ≤ 18446744073709551615) }
{
    match index.checked_add(count as u64) {
        Some(last) => Ok(last),
        None => Err(AllocError),
    }
}

/// The first entries go, this many. The cost is in the order of the entries; none of their bytes is moved.
pub fn drop_front(queue: &mut Vec<Entry>, count: usize)
    requires { count ≤ length queue.old.items }
    ensures { queue.new.items ≡ drop count queue.old.items }
{
    drop(queue.drain(..count));
}

/// The term of the entry at a place.
pub fn term_of(queue: &[Entry], place: usize) -> u64
    requires { place < length queue.now }
    ensures { result ≡ nth_term queue.now place }
{
    let entry = &queue[place];
    entry.term
}

/// Whether there is an entry of this term this many after a place.
fn is_of_term(queue: &[Entry], place: usize, n: usize, term: u64) -> bool
    requires { place ≤ length queue.now }
    ensures { result ≡ has_term (drop place queue.now) n term }
{
    if queue.len() - place <= n {
        return false;
    }
    term_of(queue, place + n) == term
}

/// How many of the entries that come, from the first on, have the terms of those that stand from the place on.
fn agreeing(queue: &[Entry], place: usize, coming: &[Entry]) -> usize
    requires { place ≤ length queue.now }
    ensures front { result ≡ agreeing_front (drop place queue.now) coming.now }
    ensures short { place + result ≤ length queue.now }
    ensures within { result ≤ length coming.now }
{
    for n in 0..coming.len() {
        let entry = &coming[n];
        if !is_of_term(queue, place, n, entry.term) {
            return n;
        }
    }
    coming.len()
}

/// This many first entries stay, and the ones that come, without this many first ones, take the place of the others. Where
/// memory runs out all stays.
fn replace_rest(
    queue: &mut Vec<Entry>,
    kept: usize,
    coming: Vec<Entry>,
    same: usize,
) -> Result<(), AllocError>
    requires { same ≤ length coming.items }
    ensures ok { OnOk result (queue.new.items ≡ take kept queue.old.items ++ drop same coming.items) }
    ensures err { OnErr result (queue.new.items ≡ queue.old.items) }
{
    let mut rest = coming;
    drop_front(&mut rest, same);
    queue.reserve(rest.len())?;
    queue.truncate(kept);
    queue.append(&mut rest)?;
    Ok(())
}

/// Takes entries that come into the ones from a place on: up to the first that differs what stands stays, and from there
/// on the ones that come are alone. Answers how many agree, or nothing if all do. If memory runs out all stays.
pub fn take_in(
    queue: &mut Vec<Entry>,
    place: usize,
    coming: Vec<Entry>,
) -> Result<Option<usize>, AllocError>
    requires { place ≤ length queue.old.items }
    ensures ok { IfOk result (λ from. TakesIn queue.old.items queue.new.items place coming.items from) }
    ensures err { OnErr result (queue.new.items ≡ queue.old.items) }
{
    let same = agreeing(queue, place, coming.as_slice());
    if same == coming.len() {
        return Ok(None);
    }
    replace_rest(queue, place + same, coming, same)?;
    Ok(Some(same))
}

/// How many of the entries that come agree with those that stand from a place on, before the first that one of these
/// conflicts with; nothing if none does.
pub fn conflict(queue: &[Entry], place: usize, coming: &[Entry]) -> Option<usize>
    requires { place ≤ length queue.now }
    ensures place { MatchOption result (conflict_place (drop place queue.now) coming.now ≡ 0) (λ n. conflict_place (drop place queue.now) coming.now ≡ suc n) }
    ensures within { MatchOption result (Unit {0}) (λ n. place + n < length queue.now) }
{
    let same = agreeing(queue, place, coming);
    if coming.len() == same {
        return None;
    }
    if place + same == queue.len() {
        return None;
    }
    Some(same)
}

/// The entries from one place up to another, for one more owner: each shares its bytes.
pub fn copied(alloc: Global, queue: &[Entry], from: usize, to: usize) -> Result<Entries, AllocError>
    requires order { from ≤ to }
    requires within { to ≤ length queue.now }
    ensures { IfOk result (λ copy. copy ≡ take (to - from) (drop from queue.now)) }
{
    let mut copies = Vec::with_capacity(alloc, to - from)?;
    for place in from..to {
        let entry = &queue[place];
        copies.push(entry.copied()?)?;
    }
    Ok(Entries::new(copies))
}
