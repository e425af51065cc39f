//! The messages of dqlite's wire protocol, version 1: requests of a client and responses of a server.
//!
//! One table says each type of message: its number, its schema, and the fields of its body. What is read and what is
//! written are both told by it.
#![tactic(auto)]

mod fault;
mod items;
mod laws;
mod reading;
mod request;
mod request_body;
mod request_fields;
mod response;
mod response_body;
mod response_fields;
mod writing;
mod writing_items;

pub use fault::MsgFault;
pub use laws::{messages_have_one_spelling, requests_read_back, responses_read_back};
pub use reading::{read_request, read_response};
pub use request::{Request, RequestKind};
pub use response::{File, NodeInfo, Response, ResponseKind};
pub use writing::{write_request, write_response};
