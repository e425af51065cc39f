ghost use Rattle.std.specs.Prelude.{◌≡◌, ◌≤◌, IfOk, IsErrOf, IsTrue, Ok};
ghost use Rattle.wire_msgs.specs.declared.request.Request.{Request};
ghost use Rattle.wire_msgs.specs.declared.response.Response.{Response};
ghost use Rattle.wire_msgs.specs.Requests.{Reads};
ghost use Rattle.wire_msgs.specs.Responses.{ReadsResponse};
ghost use Rattle.wire_msgs.specs.Kinds.{request_kind, response_kind};
ghost use Rattle.wire_msgs.specs.Reading.{Gives, request_in, request_of, response_in, response_of, may_take_memory, response_may_take_memory};

use crate::fault::MsgFault;
use crate::request::{Request, RequestKind};
use crate::request_body::request;
use crate::response::{Response, ResponseKind};
use crate::response_body::response;
use std::alloc::Global;
use wire_words::{Message, Words};

fn whole_request(alloc: Global, number: u8, schema: u8, body: &[u8]) -> Result<Request, MsgFault>
    ensures exact { Gives (request_in (request_kind number) (record { kind = number; schema = schema; body = body.now })) result }
    ensures memory { IsErrOf result MsgFault.NoMemory
        → IsTrue (may_take_memory (request_kind number) (record { kind = number; schema = schema; body = body.now })) }
{
    let Some(kind) = RequestKind::of(number) else {
        return Err(MsgFault::Kind(number));
    };
    if schema > kind.top_schema() {
        return Err(MsgFault::Schema(number, schema));
    }
    let mut words = Words::new(body);
    let request = request(alloc, kind, schema == 1, &mut words)?;
    let left = words.left();
    if left != 0 {
        return Err(MsgFault::Tail(left.div_ceil(8)));
    }
    Ok(request)
}

/// Reads a request, as a client may send it. The first fault comes: `Kind` where no type of request has the message's
/// number, `Schema` where the type doesn't have the schema, `Word` at the first item that isn't there, and `Tail` where words
/// are left. A body that ends where its tuple would begin has no parameters.
///
/// `NoMemory` means out of memory for the request's texts and values; if its type has none, and for `Kind` and
/// `Schema`, no memory is taken. The body is passed over once, and each text and each blob is copied once, out of it.
#[tactic(auto, unfolding(crate::specs::Reading::request_of))]
pub fn read_request(alloc: Global, message: &Message) -> Result<Request, MsgFault>
    // What is read is what the message represents.
    ensures found { IfOk result (Reads message.now) }
    // What the message represents is read, unless memory runs out.
    ensures only { (request : Request) → Reads message.now request → Gives (Ok request) result }
    // Which fault it is.
    ensures exact { Gives (request_of message.now) result }
    // If there is no text and no value to be kept, memory doesn't run out.
    ensures memory { IsErrOf result MsgFault.NoMemory → IsTrue (may_take_memory (request_kind message.now.kind) message.now) }
{
    let body = message.body.as_slice();
    whole_request(alloc, message.kind, message.schema, body)
}

fn whole_response(
    alloc: Global,
    number: u8,
    schema: u8,
    body: &[u8],
    roles: bool,
) -> Result<Response, MsgFault>
    ensures exact { Gives (response_in (response_kind number) roles (record { kind = number; schema = schema; body = body.now })) result }
    ensures memory { IsErrOf result MsgFault.NoMemory
        → IsTrue (response_may_take_memory (response_kind number) (record { kind = number; schema = schema; body = body.now })) }
{
    let Some(kind) = ResponseKind::of(number) else {
        return Err(MsgFault::Kind(number));
    };
    if schema > kind.top_schema() {
        return Err(MsgFault::Schema(number, schema));
    }
    let mut words = Words::new(body);
    let response = response(alloc, kind, roles, schema == 1, &mut words)?;
    let left = words.left();
    if left != 0 {
        return Err(MsgFault::Tail(left.div_ceil(8)));
    }
    Ok(response)
}

/// Reads a response, exactly as it is written; a list of servers is read in format 0, without roles, or in format 1, with
/// them. The faults are those of `read_request`; `Word(Pad(at))` also if a field that has to be zero isn't. A body of
/// rows is taken as it is, if it is whole words; one with a part of a word is `Tail(1)`.
///
/// `NoMemory` means out of memory for the response's texts, lists and bytes; if its type has none, and for `Kind` and
/// `Schema`, no memory is taken. The body is passed over once, and each text, each file and a body of rows is copied once.
#[tactic(auto, unfolding(crate::specs::Reading::response_of))]
pub fn read_response(alloc: Global, message: &Message, format: u64) -> Result<Response, MsgFault>
    requires { format ≤ 1 }
    // What is read is what the message represents.
    ensures found { IfOk result (ReadsResponse format message.now) }
    // What the message represents is read, unless memory runs out.
    ensures only { (response : Response) → ReadsResponse format message.now response → Gives (Ok response) result }
    // Which fault it is.
    ensures exact { Gives (response_of format message.now) result }
    // If there is no text, no list and no bytes to be kept, memory doesn't run out.
    ensures memory { IsErrOf result MsgFault.NoMemory
        → IsTrue (response_may_take_memory (response_kind message.now.kind) message.now) }
{
    let body = message.body.as_slice();
    whole_response(alloc, message.kind, message.schema, body, format == 1)
}
