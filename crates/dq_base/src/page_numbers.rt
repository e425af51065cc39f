ghost use Rattle.std.specs.Prelude.{◌≡◌, ◌<◌, ◌≤◌, MatchOption};
ghost use Rattle.dq_base.specs.Images.{page_start};

use crate::pages::PAGE_SIZE;

/// Where the page of a number begins in its file, if a file of this length reaches there.
pub fn start_within(number: u64, len: usize) -> Option<usize>
    ensures { MatchOption result (len ≤ page_start number)
        (λ start. (start ≡ page_start number) × (start < len)) }
{
    let index = (number / 2).saturating_sub(1);
    if index > (len / PAGE_SIZE) as u64 {
        return None;
    }
    let start = index as usize * PAGE_SIZE;
    if start < len { Some(start) } else { None }
}
