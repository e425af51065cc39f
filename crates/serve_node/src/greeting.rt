//! How a connection to a peer begins.

ghost use Rattle.std.specs.Prelude.{◌≡◌, IfOk};
ghost use Rattle.wire_words.specs.Items.{HasNoNul};
ghost use Rattle.serve_node.specs.Crew.{greeting_bytes};

use crate::voters::copied;
use dq_base::Items;
use std::alloc::{AllocError, Global};
use wire_msgs::{Request, write_request};
use wire_words::{WireBytes, WireText};

/// The word of the version with which a connection begins.
const VERSION_WORD: [u8; 8] = [1, 0, 0, 0, 0, 0, 0, 0];

/// The word of the version, and CONNECT with the own id and address.
pub fn peer_greeting(alloc: Global, id: u64, address: &WireText) -> Result<WireBytes, AllocError>
    requires { HasNoNul address.now }
    ensures { IfOk result (λ bytes. bytes ≡ greeting_bytes id address.now) }
{
    let address = copied(alloc, address)?;
    let message = write_request(alloc, &Request::Connect { id, address })?;
    let mut bytes = Vec::from_slice(alloc, &VERSION_WORD)?;
    bytes.extend_from_slice(message.as_slice())?;
    Ok(Items::new(bytes))
}
