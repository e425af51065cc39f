//! The laws of messages.

ghost use Rattle.std.specs.Prelude.{◌≡◌, ◌≤◌, ℕ, List, Ok};
ghost use Rattle.wire_words.specs.declared.message.Message.{Message};
ghost use Rattle.wire_words.specs.declared.value.Dialect.{Dialect};
ghost use Rattle.wire_words.specs.Items.{AreBytes};
ghost use Rattle.wire_msgs.specs.declared.request.Request.{Request};
ghost use Rattle.wire_msgs.specs.declared.response.Response.{Response};
ghost use Rattle.wire_msgs.specs.Fields.{Stands};
ghost use Rattle.wire_msgs.specs.Requests.{request_line, request_bytes, Reads, WritesRequest};
ghost use Rattle.wire_msgs.specs.Responses.{response_bytes, ReadsResponse, Writes};
ghost use Rattle.wire_msgs.specs.Reading.{request_of, response_of};

/// A request is read exactly if a message represents it as a client may send it; and what is written is among that.
pub fn requests_read_back()
    ensures spelled { (m : Message) (request : Request) → AreBytes m.body → request_of m ≡ Ok request → Reads m request }
    ensures read { (m : Message) (request : Request) → Reads m request → request_of m ≡ Ok request }
    ensures written { (m : Message) (request : Request) → Stands Dialect.Exact (request_line request) m → Reads m request }
{}

/// A response is read, in a format of its list of servers, exactly if a message represents it as it is written.
pub fn responses_read_back()
    ensures spelled { (format : ℕ) (m : Message) (response : Response) → AreBytes m.body → response_of format m ≡ Ok response →
        ReadsResponse format m response }
    ensures read { (format : ℕ) (m : Message) (response : Response) → ReadsResponse format m response →
        response_of format m ≡ Ok response }
{}

/// Each request and each response has one encoding in which it is written.
pub fn messages_have_one_spelling()
    ensures request { (request : Request) (bytes : List ℕ) → WritesRequest request bytes → bytes ≡ request_bytes request }
    ensures response { (response : Response) (bytes : List ℕ) → Writes response bytes → bytes ≡ response_bytes response }
{}
