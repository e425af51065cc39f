ghost use Rattle.std.specs.Prelude.{◌≡◌, ◌<◌, ◌%◌, length, IfOk, OnOk, IsErr};
ghost use Rattle.wire_msgs.specs.Fields.{AllFit};
ghost use Rattle.wire_msgs.specs.Requests.{request_line, request_bytes, request_words, IsWritableRequest, WritesRequest};
ghost use Rattle.wire_msgs.specs.Responses.{response_line, response_bytes, response_words, IsWritable, Writes};

use crate::request::Request;
use crate::response::Response;
use crate::{request_fields, response_fields};
use std::alloc::{AllocError, Global};
use wire_words::{WireBytes, Writer};

fn whole_request(alloc: Global, request: &Request) -> Result<WireBytes, AllocError>
    requires { IsWritableRequest request.now }
    ensures bytes { IfOk result (λ bytes. bytes ≡ request_bytes request.now) }
    ensures long { 4294967295 < request_words request.now → IsErr result }
    ensures whole { IfOk result (λ bytes. length bytes % 8 ≡ 0) }
    ensures fit { OnOk result (AllFit (request_line request.now).fields) }
{
    let mut out = Writer::new(alloc);
    out.header(request.number(), request.schema())?;
    request_fields::write_fields(&mut out, request)?;
    out.finish_message()
}

/// Writes a whole message: its header and its body, with a 0 for a word that isn't looked at. No text of the request may
/// hold a NUL, and it may have at most 255 parameters, or 32,766 where it is wide. A body of more than 4,294,967,295 words
/// is answered as if memory had run out; any other `Err` means out of memory. Each byte is copied once into the message,
/// and once more on average as that grows.
pub fn write_request(alloc: Global, request: &Request) -> Result<WireBytes, AllocError>
    requires { IsWritableRequest request.now }
    // What is written represents the request.
    ensures writes { IfOk result (WritesRequest request.now) }
    // Which bytes they are.
    ensures bytes { IfOk result (λ bytes. bytes ≡ request_bytes request.now) }
    ensures long { 4294967295 < request_words request.now → IsErr result }
{
    whole_request(alloc, request)
}

// How many bytes room is made for at once: all of an answer with rows, and a header with four words of any other.
fn room_for(response: &Response) -> usize {
    match response {
        Response::Rows { body } => body.len().saturating_add(8),
        _ => 40,
    }
}

fn whole_response(alloc: Global, response: &Response) -> Result<WireBytes, AllocError>
    requires { IsWritable response.now }
    ensures bytes { IfOk result (λ bytes. bytes ≡ response_bytes response.now) }
    ensures long { 4294967295 < response_words response.now → IsErr result }
    ensures whole { IfOk result (λ bytes. length bytes % 8 ≡ 0) }
    ensures fit { OnOk result (AllFit (response_line response.now).fields) }
{
    let mut out = Writer::with_capacity(alloc, room_for(response))?;
    out.header(response.number(), response.schema())?;
    response_fields::write_fields(&mut out, response)?;
    out.finish_message()
}

/// Writes a whole message: its header and its body. No text of the response may hold a NUL, and a body of rows has to be
/// whole words. A body of more than 4,294,967,295 words is answered as if memory had run out; any other `Err` means out
/// of memory. Each byte is copied once into the message, and once more on average as that grows.
pub fn write_response(alloc: Global, response: &Response) -> Result<WireBytes, AllocError>
    requires { IsWritable response.now }
    // What is written represents the response.
    ensures writes { IfOk result (Writes response.now) }
    // Which bytes they are.
    ensures bytes { IfOk result (λ bytes. bytes ≡ response_bytes response.now) }
    ensures long { 4294967295 < response_words response.now → IsErr result }
{
    whole_response(alloc, response)
}
