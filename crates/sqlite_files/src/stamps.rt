ghost use Rattle.std.specs.Prelude.{◌≡◌, ◌+◌, ◌-◌, ◌<◌, ◌≤◌, false, true, length, nat_lt, OnOk, OnErr};
ghost use Rattle.sqlite_files.specs.Recording.{stamp_at, since, is_touched, touched_count, pages_between, StampsPages};

use dq_base::PAGE_SIZE;
use std::alloc::AllocError;

/// The number of the call that touched the page of an index last; 0 if none has.
fn stamp_at(stamps: &[u64], page: usize) -> u64
    ensures { result ≡ stamp_at stamps.now page }
{
    match stamps.get(page) {
        Some(stamp) => *stamp,
        None => 0,
    }
}

/// Whether the page of an index was touched after the call of a number.
#[tactic(auto, using(crate::proofs::StampedPages::since_is))]
pub(crate) fn is_touched(stamps: &[u64], mark: u64, page: usize) -> bool
    ensures { result ≡ is_touched (since mark stamps.now) page }
{
    stamp_at(stamps, page) > mark
}

/// The first page from this index on that was touched after the call of a number, or this end.
pub(crate) fn next_touched(stamps: &[u64], mark: u64, from: usize, end: usize) -> usize
    requires { from ≤ end }
    ensures from { from ≤ result }
    ensures end { result ≤ end }
    ensures clean { (page : _) → from ≤ page → page < result → is_touched (since mark stamps.now) page ≡ false }
{
    let last = end.min(stamps.len());
    for page in from..last {
        if is_touched(stamps, mark, page) {
            return page;
        }
    }
    end
}

/// Stamps the pages that the bytes from one place up to another reach into. Fails if memory runs out, and then
/// nothing is stamped.
pub(crate) fn touch(
    stamps: &mut Vec<u64>,
    from: usize,
    to: usize,
    stamp: u64,
) -> Result<(), AllocError>
    ensures ok { OnOk result (StampsPages stamp from to stamps.old.items stamps.new.items) }
    ensures err { OnErr result (stamps.new.items ≡ stamps.old.items) }
    ensures count { touched_count (since 0 stamps.new.items) ≤ touched_count (since 0 stamps.old.items) + pages_between from to }
{
    let pages = to.div_ceil(PAGE_SIZE);
    reach(stamps, pages)?;
    mark(stamps.as_mut_slice(), from / PAGE_SIZE, pages, stamp);
    Ok(())
}

/// Makes room for this many pages.
fn reach(stamps: &mut Vec<u64>, pages: usize) -> Result<(), AllocError>
    ensures room { OnOk result (pages ≤ length stamps.new.items) }
    ensures same { (page : _) → stamp_at stamps.new.items page ≡ stamp_at stamps.old.items page }
    ensures count { touched_count (since 0 stamps.new.items) ≡ touched_count (since 0 stamps.old.items) }
    ensures err { OnErr result (stamps.new.items ≡ stamps.old.items) }
{
    grow(stamps, pages)
}

/// Makes the room. Of `reach` one clause follows from another.
fn grow(stamps: &mut Vec<u64>, pages: usize) -> Result<(), AllocError>
    ensures room { OnOk result (pages ≤ length stamps.new.items) }
    ensures same { (page : _) → stamp_at stamps.new.items page ≡ stamp_at stamps.old.items page }
    ensures err { OnErr result (stamps.new.items ≡ stamps.old.items) }
{
    if pages <= stamps.len() {
        return Ok(());
    }
    stamps.resize(pages, 0)
}

/// Stamps the pages of the indexes from one up to another.
fn mark(stamps: &mut [u64], first: usize, end: usize, stamp: u64)
    requires { end ≤ length stamps.old }
    ensures keeps { (page : _) → stamp_at stamps.new page < stamp → stamp_at stamps.old page ≡ stamp_at stamps.new page }
    ensures covers { (page : _) → first ≤ page → page < end → stamp_at stamps.new page ≡ stamp }
    ensures count { touched_count (since 0 stamps.new) ≤ touched_count (since 0 stamps.old) + (end - first) }
{
    for page in first..end {
        stamps[page] = stamp;
    }
}
