ghost use Rattle.std.specs.Prelude.{◌≡◌, ◌≤◌, ◌==◌, length, drop, true, false, Some, MatchOption};
ghost use Rattle.dq_base.specs.Applying.{is_sizes};
ghost use Rattle.log_commands.specs.Numbers.{numbers_fit, frames_fit, ends_with, numbers_ascend, stated_count};

use crate::command::Command;
use dq_base::{NumberedPage, PAGE_SIZE, stated_lengths};

/// The most pages of one command.
pub(crate) const MAX_FRAME_PAGES: usize = 64;

impl Command {
    /// Whether no number of the command is out of its range. Frames have 1 to 64 pages. With `commit` the last is a sizes
    /// page, which states the page count; the others ascend. Without it all ascend, and the page count is 0. A number that
    /// ascends is not 1 and at most 4,294,967,295.
    pub fn numbers_fit(&self) -> bool
        ensures { result ≡ numbers_fit self.now }
    {
        match self {
            Command::OpenDb { .. } | Command::Undo { .. } | Command::Checkpoint { .. } => true,
            Command::Frames {
                truncate,
                commit,
                pages,
                ..
            } => frames_fit(*truncate, *commit, pages.as_slice()),
        }
    }
}

#[tactic(auto, unfolding(crate::specs::Numbers::frames_fit))]
fn frames_fit(truncate: u32, commit: bool, pages: &[NumberedPage]) -> bool
    ensures { result ≡ frames_fit truncate commit pages.now }
{
    let Some((last, front)) = pages.split_last() else {
        return false;
    };
    if pages.len() > MAX_FRAME_PAGES {
        return false;
    }
    if commit {
        ends_with(truncate, last) && ascend(0, front)
    } else {
        truncate == 0 && ascend(0, pages)
    }
}

/// Whether the page is a sizes page that states this page count.
#[tactic(auto, unfolding(crate::specs::Numbers::ends_with))]
fn ends_with(truncate: u32, last: &NumberedPage) -> bool
    ensures { result ≡ ends_with truncate (Some last.now) }
{
    match stated_count(last) {
        Some(count) => u64::from(truncate) == count,
        None => false,
    }
}

/// The page count that a sizes page states; `None` where the page is none.
pub(crate) fn stated_count(last: &NumberedPage) -> Option<u64>
    ensures { MatchOption result (is_sizes last.now ≡ false)
        (λ count. (is_sizes last.now ≡ true) × (count ≡ stated_count last.now.page)) }
{
    let lengths = stated_lengths(last)?;
    let main = lengths.main.div_ceil(PAGE_SIZE);
    let side = lengths.side.div_ceil(PAGE_SIZE);
    Some(1 + main as u64 + side as u64)
}

/// Whether the numbers ascend from one on, none of them is 1, and none is above 4,294,967,295.
pub(crate) fn ascend(first: u64, pages: &[NumberedPage]) -> bool
    ensures { result ≡ numbers_ascend first pages.now }
{
    let mut least = first;
    for page in pages {
        let number = page.number;
        if number < least || number == 1 || number > u64::from(u32::MAX) {
            return false;
        }
        least = number + 1;
    }
    true
}
