//! An earlier image of a database, told page by page by the state machine.

ghost use Rattle.std.specs.Prelude.{◌≡◌};
ghost use Rattle.std.specs.List.{AllByRecursion};
ghost use Rattle.database_state.specs.Pins.{IsPinned};
ghost use Rattle.session_outcomes.specs.Earlier.{image_of, IsShown};
ghost use Rattle.session_table.specs.Table.{image_pinned, mark_of};

use database_state::{Machine, Pin};
use dq_base::{Image, Page, page_at};
use image_diff::ImagePages;
use std::alloc::Global;

/// An earlier image of a database, lent by the state machine.
#[derive(Clone, Copy)]
pub(crate) enum Earlier<'a> {
    /// The one that a read mark shows.
    Pinned(&'a Machine, &'a Pin),
    /// The empty one.
    Nothing,
}

/// The image that a transaction has pinned.
pub(crate) fn pinned<'a>(machine: &'a Machine, pin: &'a Option<Pin>) -> Earlier<'a>
    requires { AllByRecursion (IsPinned machine.now) (mark_of pin.now) }
    ensures image { image_of result ≡ image_pinned machine.now pin.now }
    ensures shown { IsShown result }
{
    match pin {
        Some(pin) => Earlier::Pinned(machine, pin),
        None => Earlier::Nothing,
    }
}

impl ImagePages for Earlier<'_> {
    ghost image = { λ earlier. image_of earlier };

    ghost is_shown = { λ earlier. IsShown earlier };

    fn page(&self, alloc: Global, number: u64) -> Option<Page> {
        match *self {
            Earlier::Pinned(machine, pin) => machine.page(pin, number),
            Earlier::Nothing => page_at(&Image::new(alloc), number),
        }
    }
}
