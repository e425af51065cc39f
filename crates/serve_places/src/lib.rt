//! The places of a server's connections: who may come, what is read of each and handed on, what waits to be written to it, and when it is
//! closed. One thread drives all of them, over streams whose calls never wait.
#![tactic(auto)]

mod gate;
mod inflow;
mod laws;
mod limits;
mod numbering;
mod outflow;
mod peer_sign;
mod place;
mod places;
mod refused;
mod rooms;
mod stream;
mod transaction;

pub use laws::each_number_lives_once;
pub use limits::{
    MAX_CLIENTS, MAX_COMMON_BYTES, MAX_CONNECTIONS, MAX_PLACE_BYTES, MAX_SOCKETS,
    MAX_UNDER_WAY_BYTES,
};
pub use outflow::CutCause;
pub use peer_sign::PeerSign;
pub use places::{Places, Readiness};
pub use refused::Refused;
pub use stream::{ReadOutcome, ReadyStream};
