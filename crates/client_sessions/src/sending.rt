ghost use Rattle.std.specs.Prelude.{◌≡◌, [], ◌∷◌, IfOk, map};
ghost use Rattle.std.specs.List.{AllByRecursion};
ghost use Rattle.wire_msgs.specs.declared.response.Response.{Response};
ghost use Rattle.wire_msgs.specs.declared.response.Response.TheVariants as responses;
ghost use Rattle.wire_msgs.specs.Responses.{IsWritable, response_bytes};
ghost use Rattle.session_spec.specs.Causes.{unread_cause, failure};
ghost use Rattle.client_sessions.specs.Calls.{bytes_of, sent};

use dq_base::Items;
use session_table::Cause;
use std::alloc::{AllocError, Global};
use wire_msgs::{MsgFault, Response, write_response};
use wire_words::WireBytes;

/// Responses as messages, one each.
pub(crate) fn messages(
    alloc: Global,
    responses: &[Response],
) -> Result<Items<WireBytes>, AllocError>
    requires { AllByRecursion IsWritable responses.now }
    ensures { IfOk result (λ messages. messages ≡ bytes_of responses.now) }
{
    let mut messages = Vec::with_capacity(alloc, responses.len())?;
    for response in responses {
        messages.push(write_response(alloc, response)?)?;
    }
    Ok(Items::new(messages))
}

/// Responses to connections as messages to them.
pub(crate) fn messages_to(
    alloc: Global,
    told: &[(u64, Response)],
) -> Result<Vec<(u64, WireBytes)>, AllocError>
    requires { AllByRecursion (λ t. IsWritable t.1) told.now }
    ensures { IfOk result (λ messages. messages.items ≡ sent told.now) }
{
    let mut messages = Vec::with_capacity(alloc, told.len())?;
    for item in told {
        messages.push((item.0, write_response(alloc, &item.1)?))?;
    }
    Ok(messages)
}

/// The message that says nothing but that a request was done.
pub(crate) fn empty(alloc: Global) -> Result<WireBytes, AllocError>
    ensures { IfOk result (λ message. message ≡ response_bytes responses.Empty) }
{
    write_response(alloc, &Response::Empty)
}

// The refusal of a message that doesn't read as a request, for this fault.
fn refusal(alloc: Global, fault: MsgFault) -> Result<Response, AllocError>
    ensures { IfOk result (λ response. response ≡ failure (unread_cause fault)) }
{
    Cause::of_unread(fault).failure(alloc)
}

/// The message that refuses one that doesn't read as a request, for this fault.
#[tactic(auto, using(crate::proofs::Writable::unread_writable))]
pub(crate) fn refused(alloc: Global, fault: MsgFault) -> Result<Items<WireBytes>, AllocError>
    ensures { IfOk result (λ messages. messages ≡ bytes_of (failure (unread_cause fault) ∷ [])) }
{
    let response = refusal(alloc, fault)?;
    let mut messages = Vec::with_capacity(alloc, 1)?;
    messages.push(write_response(alloc, &response)?)?;
    Ok(Items::new(messages))
}
