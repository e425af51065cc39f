//! Cuts a script into lines, and says what each line says.
#![tactic(auto)]

mod events;
mod faults;
mod grammar;
mod laws;
mod lines;
mod numbers;
mod usage;

pub use events::Event;
pub use faults::EventFault;
pub use grammar::{FaultTarget, Mode, ScriptLine, line_in};
pub use laws::lines_read_back;
pub use lines::{LineEnd, LineFault, LineReader, MAX_LINE_LENGTH, MAX_LINES};
pub use usage::{MAX_EVENTS, MAX_MESSAGE_BYTES, Usage};
