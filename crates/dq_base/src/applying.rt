ghost use Rattle.std.specs.Prelude.{◌≡◌, ◌≤◌, None, IfErr, OnOk, OnErr, IsOk, vec_capacity};
ghost use Rattle.dq_base.specs.Images.{resized};
ghost use Rattle.dq_base.specs.Applying.{applied, page_fault, IsRefusal};

use crate::files::put_pages;
use crate::images::Image;
use crate::page_fault::PageFault;
use crate::pages::{NumberedPage, PageSet};
use crate::set_checks::set_lengths;
use crate::sizes::Lengths;
use std::alloc::AllocError;

/// Applies a page set: both files are truncated to the lengths that its sizes page states or grown to them with zeros, and
/// then its pages replace the bytes that they represent, as far as these lie inside their file.
///
/// A set is refused by its first fault: `NoSizes`, then `Order`, then `NotInLength`. `NoMemory` comes only for a set
/// without a fault, if there is no room for the longer files. After every refusal the image is unchanged.
///
/// Looks at the set's pages and at the bytes by which the files grow or shrink, and not at the rest of the image; a file
/// that grows past its room is moved.
pub fn apply(image: &mut Image, set: &PageSet) -> Result<(), PageFault>
    ensures done { OnOk result (image.new ≡ applied image.old set.now.pages) }
    ensures sound { OnOk result (page_fault set.now.pages ≡ None) }
    ensures refused { IfErr result (λ fault. IsRefusal fault (page_fault set.now.pages)) }
    ensures kept { OnErr result (image.new ≡ image.old) }
{
    apply_pages(image, set.pages.as_slice())
}

/// Applies pages that belong to no set, as `apply` does.
pub fn apply_pages(image: &mut Image, pages: &[NumberedPage]) -> Result<(), PageFault>
    ensures done { OnOk result (image.new ≡ applied image.old pages.now) }
    ensures sound { OnOk result (page_fault pages.now ≡ None) }
    ensures refused { IfErr result (λ fault. IsRefusal fault (page_fault pages.now)) }
    ensures kept { OnErr result (image.new ≡ image.old) }
{
    let lengths = set_lengths(pages)?;
    let main = &mut image.main;
    let side = &mut image.side;
    resize_both(&mut main.inner, &mut side.inner, lengths)?;
    put_pages(&mut main.inner, pages, 0);
    put_pages(&mut side.inner, pages, 1);
    Ok(())
}

/// Cuts or grows both files, or neither where there is no room.
fn resize_both(main: &mut Vec<u8>, side: &mut Vec<u8>, lengths: Lengths) -> Result<(), AllocError>
    ensures main { OnOk result (main.new.items ≡ resized lengths.main main.old.items) }
    ensures side { OnOk result (side.new.items ≡ resized lengths.side side.old.items) }
    ensures main_kept { OnErr result (main.new.items ≡ main.old.items) }
    ensures side_kept { OnErr result (side.new.items ≡ side.old.items) }
{
    make_room(main, lengths.main)?;
    make_room(side, lengths.side)?;
    resize(main, lengths.main)?;
    resize(side, lengths.side)
}

/// Makes room for a length, without a change to the file.
fn make_room(file: &mut Vec<u8>, len: usize) -> Result<(), AllocError>
    ensures kept { file.new.items ≡ file.old.items }
    ensures room { OnOk result (len ≤ vec_capacity file.new) }
{
    file.reserve(len.saturating_sub(file.len()))
}

/// Cuts a file to a length, or grows it with zeros; if there is room, this does not fail.
#[tactic(auto, unfolding(crate::specs::Images::resized, crate::specs::Images::zeros))]
fn resize(file: &mut Vec<u8>, len: usize) -> Result<(), AllocError>
    ensures done { OnOk result (file.new.items ≡ resized len file.old.items) }
    ensures kept { OnErr result (file.new.items ≡ file.old.items) }
    ensures room { len ≤ vec_capacity file.old → IsOk result }
{
    file.resize(len, 0)
}
