//! The numbers of pages that were touched.

ghost use Rattle.std.specs.Prelude.{◌≡◌, ◌++◌, ◌∷◌, [], nat_lt, if◌then◌else◌, IfOk, OnOk};
ghost use Rattle.image_diff.specs.Touched.{numbers_of, put_in_order};

use dq_base::NumberedPage;
use std::alloc::{AllocError, Global};
use std::collections::BTreeSet;

/// Adds a number above 1.
fn add_number(numbers: &mut Vec<u64>, number: u64) -> Result<(), AllocError>
    ensures { OnOk result (numbers.new.items ≡ numbers.old.items ++ (if nat_lt 1 number then number ∷ [] else [])) }
{
    if number > 1 {
        numbers.push(number)?;
    }
    Ok(())
}

/// Adds the numbers of pages, except for that of the sizes page.
pub fn add_numbers(numbers: &mut Vec<u64>, pages: &[NumberedPage]) -> Result<(), AllocError>
    ensures { OnOk result (numbers.new.items ≡ numbers.old.items ++ numbers_of pages.now) }
{
    for page in pages {
        add_number(numbers, page.number)?;
    }
    Ok(())
}

/// Numbers as an ordered set.
fn set_of(alloc: Global, numbers: &[u64]) -> Result<BTreeSet<u64>, AllocError>
    ensures { IfOk result (λ set. set.keys ≡ put_in_order [] numbers.now) }
{
    let mut set = BTreeSet::new(alloc);
    for number in numbers {
        set.insert(*number)?;
    }
    Ok(set)
}

/// Numbers in ascending order, each once. Costs a look-up in an ordered set for each.
pub fn in_order(alloc: Global, numbers: &[u64]) -> Result<Vec<u64>, AllocError>
    ensures { IfOk result (λ list. list.items ≡ put_in_order [] numbers.now) }
{
    let set = set_of(alloc, numbers)?;
    let mut list = Vec::new(alloc);
    for number in set {
        list.push(number)?;
    }
    Ok(list)
}
