ghost use Rattle.std.specs.Prelude.{◌≡◌, ◌≤◌, ◌==◌, ◌%◌, if◌then◌else◌, length, take, OnOk, vec_capacity};
ghost use Rattle.dq_base.specs.Images.{resized};
ghost use Rattle.page_store.specs.Laying.{length_of, laid_one, laid, Room};
ghost use Rattle.page_store.specs.Log.{first_of};

use crate::frame_log::FrameLog;
use dq_base::{Lengths, NumberedPage, is_page_of, put_page};
use std::alloc::AllocError;

/// Lays the first frames of a log into one file: parity 0 is the main file, and 1 the side file. The file grows in the
/// room that it has.
pub(crate) fn lay(file: &mut Vec<u8>, log: &FrameLog, count: usize, parity: u64)
    requires within { count ≤ length log.now.pages }
    requires room { Room parity (take count log.now.lengths) (vec_capacity file.old) }
    ensures items { file.new.items ≡ laid parity (take count log.now.pages) (take count log.now.lengths) file.old.items }
    ensures capacity { vec_capacity file.old ≤ vec_capacity file.new }
{
    let _len = log.len();
    for i in 0..count {
        lay_one(file, log.page(i), log.lengths(i), parity);
    }
}

/// Makes room in one file for the lengths of the first frames of a log, without a change to the file.
pub(crate) fn make_room_for(
    file: &mut Vec<u8>,
    log: &FrameLog,
    count: usize,
    parity: u64,
) -> Result<(), AllocError>
    requires within { count ≤ length log.now.pages }
    ensures kept { file.new.items ≡ file.old.items }
    ensures room { OnOk result (Room parity (take count log.now.lengths) (vec_capacity file.new)) }
{
    let _len = log.len();
    for i in 0..count {
        make_room(file, length_of(log.lengths(i), parity))?;
    }
    Ok(())
}

/// Makes room for a length, without a change to the file.
pub(crate) fn make_room(file: &mut Vec<u8>, len: usize) -> Result<(), AllocError>
    ensures kept { file.new.items ≡ file.old.items }
    ensures capacity { vec_capacity file.old ≤ vec_capacity file.new }
    ensures room { OnOk result (len ≤ vec_capacity file.new) }
{
    file.reserve(len.saturating_sub(file.len()))
}

/// Resizes a file to the length that a page's set states for it, and puts the page into it if it is one of this file's.
fn lay_one(file: &mut Vec<u8>, page: &NumberedPage, lengths: Lengths, parity: u64)
    requires { length_of parity lengths ≤ vec_capacity file.old }
    ensures items { file.new.items ≡ laid_one parity page.now lengths file.old.items }
    ensures capacity { vec_capacity file.old ≤ vec_capacity file.new }
{
    resize(file, length_of(lengths, parity));
    if is_page_of(page.number, parity) {
        put_page(file, page);
    }
}

/// Cuts a file to a length, or grows it with zeros in the room that it has.
#[tactic(auto, unfolding(dq_base::specs::Images::resized, dq_base::specs::Images::zeros))]
fn resize(file: &mut Vec<u8>, len: usize)
    requires { len ≤ vec_capacity file.old }
    ensures items { file.new.items ≡ resized len file.old.items }
    ensures capacity { vec_capacity file.old ≤ vec_capacity file.new }
{
    let _ = file.resize(len, 0);
}

/// Of two lengths the one of a file.
pub(crate) fn length_of(lengths: Lengths, parity: u64) -> usize
    ensures { result ≡ length_of parity lengths }
{
    if parity == 0 {
        lengths.main
    } else {
        lengths.side
    }
}
