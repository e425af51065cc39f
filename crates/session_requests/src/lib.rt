//! What a request wants of a session: its refusals that need no engine, in their one order.
#![tactic(auto)]

mod changes;
mod cluster;
mod databases;
mod lost_requests;
mod names;
mod pages;
mod prepare_requests;
mod request;
mod single_statements;
mod statement_requests;
mod text_requests;
mod view;
mod wanted;
mod write_hindrance;

pub use databases::database_named;
pub use names::all_names;
pub use pages::pages_full;
pub use request::{params_of, wanted_by};
pub use view::{StepLimits, View, log_full};
pub use wanted::{ClusterEffect, RequestPlan, Script};
