//! The line that is printed of what state machines say.

ghost use Rattle.std.specs.Prelude.{◌≡◌, IfOk, string_bytes};
ghost use Rattle.script_machines.specs.Printed.{printed_line};

use crate::machine_line::MachineLine;
use std::alloc::{AllocError, Global};

/// The line of a state machine, with its LF.
fn machine_line(
    alloc: Global,
    number: u64,
    applied: u64,
    digest: &[u8; 32],
) -> Result<String, AllocError>
    ensures { IfOk result (λ line. string_bytes line ≡ printed_line (MachineLine.Machine number applied digest.now)) }
{
    let digits = hex::encode(alloc, digest)?;
    format!(in alloc; "node {number} applied {applied} files {digits}\n")
}

/// The line that is printed for what was said, with its LF.
pub fn line_for(alloc: Global, said: &MachineLine) -> Result<String, AllocError>
    ensures { IfOk result (λ line. string_bytes line ≡ printed_line said.now) }
{
    match said {
        MachineLine::Refused => String::from_str(alloc, "refused\n"),
        MachineLine::Machine {
            number,
            applied,
            digest,
        } => machine_line(alloc, *number, *applied, digest),
    }
}
