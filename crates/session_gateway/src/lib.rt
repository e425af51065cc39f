//! The sessions of a node: what comes of each request of a client, of entries that are applied, of leadership that is lost,
//! and of connections that come and go.
#![tactic(auto)]

mod act;
mod call;
mod carrying;
mod deciding;
mod handling;
mod later;
mod laws;
mod params;
mod sessions;

pub use act::Act;
pub use laws::commands_keep_sessions;
pub use session_outcomes::{Read, ReadJob};
pub use session_requests::{StepLimits, View};
pub use sessions::Gateway;
