//! Statements of a text, and running them one after another by an engine.
#![tactic(auto)]

mod ending;
mod laws;
mod options;
mod running;
mod text;

pub use ending::{AllRan, Ending};
pub use laws::numbers_stand_for_one_image;
pub use options::RunOptions;
pub use running::{run_all, run_one, run_unnumbered, takes};
pub use text::{any_barred, is_control, is_left_out, params_fit};
