//! The lines, as texts with an LF after each.

ghost use Rattle.std.specs.Prelude.{◌≡◌, IfOk, string_bytes};
ghost use Rattle.script_generator.specs.Generated.{opening_lines, restart_lines, write_lines, text_of};

use crate::requests::{opening_bytes, set_bytes};
use std::alloc::{AllocError, Global};

/// The lines before the first write.
pub(crate) fn opening_text(alloc: Global) -> Result<String, AllocError>
    ensures { IfOk result (λ text. string_bytes text ≡ text_of opening_lines) }
{
    let bytes = opening_bytes(alloc)?;
    let digits = hex::encode(alloc, bytes.as_slice())?;
    format!(in alloc; "nodes 3\ntimeout 1\nsettle 100\nconnect 1 1\nbytes 1 {digits}\nsettle 100\n")
}

/// The lines of a crash and a start, if they follow the write at this place.
#[tactic(auto, unfolding(crate::specs::Generated::restart_lines, crate::specs::Generated::text_of))]
fn restart_text(place: u32) -> &'static str
    ensures { result.now ≡ text_of (restart_lines place) }
{
    if place % 100 == 0 {
        "crash 3\nstart 3\n"
    } else {
        ""
    }
}

/// The lines of the write of a number at its place, from 1.
pub(crate) fn write_text(alloc: Global, number: u32, place: u32) -> Result<String, AllocError>
    ensures { IfOk result (λ text. string_bytes text ≡ text_of (write_lines number place)) }
{
    let bytes = set_bytes(alloc, number)?;
    let digits = hex::encode(alloc, bytes.as_slice())?;
    let restart = restart_text(place);
    format!(in alloc; "bytes 1 {digits}\nsettle 100\n{restart}")
}
