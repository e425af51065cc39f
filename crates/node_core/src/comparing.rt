//! Whether servers are the same, and whether voters are nearly so.

ghost use Rattle.std.specs.Prelude.{◌≡◌, ◌≢◌, ◌<◌, true, false, suc, length};
ghost use Rattle.raft_safety.specs.Members.{one_more};
ghost use Rattle.node_spec.specs.Changes.{are_near};
ghost use Rattle.node_core.specs.Voters.{LacksAt};

use raft_messages::Server;

/// Whether two servers are the same.
fn is_same(one: &Server, other: &Server) -> bool
    ensures is { result ≡ true → one.now ≡ other.now }
    ensures differ { result ≡ false → one.now ≢ other.now }
{
    one.id == other.id && one.role == other.role && one.address.as_str() == other.address.as_str()
}

/// Whether these are the same servers.
pub(crate) fn are_same(ones: &[Server], others: &[Server]) -> bool
    ensures is { result ≡ true → ones.now ≡ others.now }
    ensures differ { result ≡ false → ones.now ≢ others.now }
{
    if ones.len() != others.len() {
        return false;
    }
    for place in 0..ones.len() {
        let one = &ones[place];
        let other = &others[place];
        if !is_same(one, other) {
            return false;
        }
    }
    true
}

/// Whether these are the same ids.
fn are_alike(ones: &[u64], others: &[u64]) -> bool
    ensures is { result ≡ true → ones.now ≡ others.now }
    ensures differ { result ≡ false → ones.now ≢ others.now }
{
    if ones.len() != others.len() {
        return false;
    }
    for place in 0..ones.len() {
        if ones[place] != others[place] {
            return false;
        }
    }
    true
}

/// Whether these ids are those without the one at a place.
fn lacks_at(fewer: &[u64], more: &[u64], place: usize) -> bool
    requires within { place < length more.now }
    requires one { suc (length fewer.now) ≡ length more.now }
    ensures is { result ≡ true → LacksAt place fewer.now more.now }
    ensures not { result ≡ false → LacksAt place fewer.now more.now → ⊥ }
{
    if !are_alike(&fewer[..place], &more[..place]) {
        return false;
    }
    are_alike(&fewer[place..], &more[place + 1..])
}

/// Whether these ids are those without one of them.
fn lacks_one(fewer: &[u64], more: &[u64]) -> bool
    ensures { result ≡ one_more fewer.now more.now }
{
    if more.is_empty() {
        return false;
    }
    if fewer.len() != more.len() - 1 {
        return false;
    }
    for place in 0..more.len() {
        if lacks_at(fewer, more, place) {
            return true;
        }
    }
    false
}

/// Whether voters are the same, or one more or less.
pub(crate) fn are_near(ones: &[u64], others: &[u64]) -> bool
    ensures { result ≡ are_near ones.now others.now }
{
    if are_alike(ones, others) {
        return true;
    }
    if lacks_one(ones, others) {
        return true;
    }
    lacks_one(others, ones)
}
