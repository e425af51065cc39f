//! The clients of a node: from the bytes of a connection to its requests, in order and one at a time, and from what comes
//! of them to the bytes of its replies.
#![tactic(auto)]

mod act;
mod answering;
mod clients;
mod connect_result;
mod laws;
mod sending;

pub use act::Act;
pub use answering::read_message;
pub use clients::Clients;
pub use connect_result::ConnectResult;
pub use laws::{
    clients_change_databases, clients_stay_sound, commands_keep_clients, no_transaction_begins,
    offers_are_first,
};
