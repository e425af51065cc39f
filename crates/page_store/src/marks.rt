ghost use Rattle.std.specs.Prelude.{◌≡◌, ◌-◌, ◌<◌, length, Some, None, is_none, position, IfOk, IfErr, OnOk, OnErr, MatchOption, slice_index_or};
ghost use Rattle.page_store.specs.Marks.{no_marks, mark_at, IsLive, without_mark, Pinned, live_count, lesser, least_mark, NoneLive, IsLeastMark, lowered, lowered_mark};
ghost use Rattle.page_store.specs.declared.marks.MarkFault.TheVariants.{Full};

use std::marker::Model;

/// How many marks can be live at once.
const MAX_MARKS: usize = 64;

/// A live mark of one table. Contracts see it as its place there. It is made by `Marks::pin` alone, can't be copied, and
/// is spent by `Marks::release`; so if a table's marks are released only by its own ids, an id that wasn't spent is
/// live.
#[derive(Debug, Drop)]
pub struct MarkId {
    place: usize,
}

impl Model for MarkId {
    ghost use Rattle.std.specs.Prelude.{ℕ, ◌<◌};

    ghost Value = { ℕ };

    ghost view = { λ a. a.place };

    ghost invariant = { λ a. a.place < 64 };
}

/// Why a mark can't be pinned.
#[derive(Clone, Copy, Debug, PartialEq, Eq, thiserror::Error)]
pub enum MarkFault {
    /// All places have a live mark. It carries how many there are, which is 64.
    #[error("all {0} read marks are live")]
    Full(u64),
}

/// The live read marks of one database: a fixed table of 64 places, at each of them a mark or none. Two places may have
/// the same mark. Contracts see it as the list of its places. No call takes memory.
#[derive(Drop)]
pub struct Marks {
    table: [Option<u64>; MAX_MARKS],
}

impl Model for Marks {
    ghost use Rattle.std.specs.Prelude.{ℕ, List, Option};

    ghost Value = { List (Option ℕ) };

    ghost view = { λ a. a.table };
}

impl Marks {
    /// A table without a mark. Constant cost.
    #[tactic(auto, unfolding(crate::specs::Marks::no_marks))]
    pub fn new() -> Marks
        ensures { result ≡ no_marks }
    {
        Marks {
            table: [None; MAX_MARKS],
        }
    }

    /// Pins a mark at a free place. `Full(64)` exactly if 64 marks are live; the table is then unchanged. Constant
    /// cost: it looks at no more than 64 places.
    pub fn pin(&mut self, mark: u64) -> Result<MarkId, MarkFault>
        ensures pinned { IfOk result (λ id. Pinned self.old self.new id mark) }
        ensures room { OnOk result (live_count self.old < 64) }
        ensures full { IfErr result (λ fault. fault ≡ Full 64) }
        ensures all_live { OnErr result (live_count self.old ≡ 64) }
        ensures kept { OnErr result (self.new ≡ self.old) }
    {
        let Some(place) = free_place(self.places()) else {
            return Err(MarkFault::Full(MAX_MARKS as u64));
        };
        self.table[place] = Some(mark);
        Ok(MarkId { place })
    }

    /// Releases a mark that is live in this table: its place is free from then on, and the id is spent. Constant cost.
    pub fn release(&mut self, id: MarkId)
        requires { IsLive self.old id }
        ensures { self.new ≡ without_mark self.old id }
    {
        self.table[id.place] = None;
    }

    /// The least live mark; `None` exactly if none is live. Looks at 64 places.
    pub fn least(&self) -> Option<u64>
        ensures value { result ≡ least_mark self.now }
        ensures meaning { MatchOption result (NoneLive self.now) (λ least. IsLeastMark self.now least) }
    {
        least_of(&self.table)
    }

    /// The mark of an id that is live in this table. Constant cost.
    pub fn at(&self, id: &MarkId) -> u64
        requires { IsLive self.now id.now }
        ensures { mark_at self.now id.now ≡ Some result }
    {
        self.table[id.place].unwrap()
    }

    /// Lowers every live mark by so much, and no mark below 0. Looks at 64 places.
    pub fn lower(&mut self, by: u64)
        ensures { self.new ≡ lowered by self.old }
    {
        lower_all(&mut self.table, by);
    }

    fn places(&self) -> &[Option<u64>]
        ensures value { result.now ≡ self.now }
        ensures size { length self.now ≡ 64 }
    {
        &self.table
    }
}

/// The first place of a table without a mark.
fn free_place(table: &[Option<u64>]) -> Option<usize>
    ensures { result ≡ position is_none table.now }
{
    table.iter().position(|mark| mark.is_none())
}

/// The least mark of a table.
fn least_of(table: &[Option<u64>]) -> Option<u64>
    ensures { result ≡ least_mark table.now }
{
    let mut least = None;
    for mark in table {
        least = lesser(least, *mark);
    }
    least
}

/// Lowers each mark of a table.
fn lower_all(table: &mut [Option<u64>], by: u64)
    ensures { table.new ≡ lowered by table.old }
{
    for mark in table.iter_mut() {
        *mark = lowered_mark(*mark, by);
    }
}

fn lesser(mark: Option<u64>, other: Option<u64>) -> Option<u64>
    ensures { result ≡ lesser mark other }
{
    match (mark, other) {
        (None, _) => other,
        (_, None) => mark,
        (Some(a), Some(b)) => Some(a.min(b)),
    }
}

fn lowered_mark(mark: Option<u64>, by: u64) -> Option<u64>
    ensures { result ≡ lowered_mark by mark }
{
    match mark {
        Some(mark) => Some(mark.saturating_sub(by)),
        None => None,
    }
}
