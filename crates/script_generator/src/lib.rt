//! Scripts that put a load of writes on a cluster: a number and how many writes there are to be give the same script each
//! time.
#![tactic(auto)]

mod fault;
mod generating;
mod laws;
mod lines;
mod numbers;
mod requests;

pub use fault::GenerateFault;
pub use generating::generate;
pub use laws::scripts_are_read;
