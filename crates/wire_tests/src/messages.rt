ghost use Rattle.std.specs.Prelude.{◌≤◌, length, IsTrue};
ghost use Rattle.wire_words.specs.Values.{AreWritable};
ghost use Rattle.wire_msgs.specs.Requests.{IsWritableRequest};
ghost use Rattle.wire_msgs.specs.Responses.{IsWritable};

use dq_base::Items;
use std::alloc::{AllocError, Global};
use std::test::*;
use wire_msgs::*;
use wire_words::{Message, Value, WireBytes, WordFault};

fn message(alloc: Global, kind: u8, schema: u8, body: &[u8]) -> Result<Message, AllocError> {
    let body = WireBytes::new(Vec::from_slice(alloc, body)?);
    Ok(Message { kind, schema, body })
}

fn request_shown(alloc: Global, kind: u8, schema: u8, body: &[u8]) -> Result<String, AllocError> {
    let message = message(alloc, kind, schema, body)?;
    let answer = read_request(alloc, &message);
    format!(in alloc; "{answer:?}")
}

const REQUESTS_READ: &[(u8, u8, &[u8], &str)] = &[
    (0, 0, b"\xff\xff\xff\xff\xff\xff\xff\xff", "Ok(Leader)"),
    (1, 0, b"\x07\0\0\0\0\0\0\0", "Ok(Client { id: 7 })"),
    (
        3,
        0,
        b"d\0\0\0\0\0\0\0\0\0\0\0\0\0\0\0volatile\0\0\0\0\0\0\0\0",
        "Ok(Open { name: WireText { inner: \"d\" }, flags: 0, vfs: WireText { inner: \"volatile\" } })",
    ),
    (
        4,
        1,
        b"\0\0\0\0\0\0\0\0GET 1;GET 2\0\0\0\0\0",
        "Ok(Prepare { db: 0, sql: WireText { inner: \"GET 1;GET 2\" }, wide: true })",
    ),
    (
        5,
        0,
        b"\0\0\0\0\0\0\0\0\x02\x01\x03\xff\xff\xff\xff\xff\x05\0\0\0\0\0\0\0x\0\0\0\0\0\0\0",
        "Ok(Exec { db: 0, statement: 0, params: [Integer(5), Text(WireText { inner: \"x\" })], wide: false })",
    ),
    (
        6,
        1,
        b"\x01\0\0\0\x02\0\0\0\x01\0\0\0\x05\0\0\0\0\0\0\0\0\0\0\0",
        "Ok(Query { db: 1, statement: 2, params: [Null], wide: true })",
    ),
    (
        7,
        0,
        b"\x01\0\0\0\x02\0\0\0",
        "Ok(Finalize { db: 1, statement: 2 })",
    ),
    (
        8,
        0,
        b"\x01\0\0\0\0\0\0\0x\0\0\0\0\0\0\0",
        "Ok(ExecSql { db: 1, sql: WireText { inner: \"x\" }, params: [], wide: false })",
    ),
    (
        9,
        0,
        b"\x01\0\0\0\0\0\0\0x\0\0\0\0\0\0\0\0\0\0\0\0\0\0\0",
        "Ok(QuerySql { db: 1, sql: WireText { inner: \"x\" }, params: [], wide: false })",
    ),
    (10, 0, b"\x01\0\0\0\0\0\0\0", "Ok(Interrupt { db: 1 })"),
    (
        11,
        0,
        b"\x02\0\0\0\0\0\0\0n2\0\0\0\0\0\0",
        "Ok(Connect { id: 2, address: WireText { inner: \"n2\" } })",
    ),
    (
        12,
        0,
        b"\x02\0\0\0\0\0\0\0n2\0\0\0\0\0\0",
        "Ok(Add { id: 2, address: WireText { inner: \"n2\" } })",
    ),
    (
        13,
        0,
        b"\x02\0\0\0\0\0\0\0\x01\0\0\0\0\0\0\0",
        "Ok(Assign { id: 2, role: 1 })",
    ),
    (14, 0, b"\x02\0\0\0\0\0\0\0", "Ok(Remove { id: 2 })"),
    (
        15,
        0,
        b"d\0\0\0\0\0\0\0",
        "Ok(Dump { name: WireText { inner: \"d\" } })",
    ),
    (16, 0, b"\x01\0\0\0\0\0\0\0", "Ok(Cluster { format: 1 })"),
    (17, 0, b"\x02\0\0\0\0\0\0\0", "Ok(Transfer { id: 2 })"),
    (18, 0, b"\0\0\0\0\0\0\0\0", "Ok(Describe { format: 0 })"),
    (19, 0, b"\x03\0\0\0\0\0\0\0", "Ok(Weight { weight: 3 })"),
    (2, 0, b"\0\0\0\0\0\0\0\0", "Err(Kind(2))"),
    (20, 9, b"", "Err(Kind(20))"),
    (0, 1, b"", "Err(Schema(0, 1))"),
    (5, 2, b"", "Err(Schema(5, 2))"),
    (0, 0, b"", "Err(Word(Short(0)))"),
    (0, 0, b"\0\0\0\0\0\0\0\0\0", "Err(Tail(1))"),
    (15, 0, b"aaaaaaaa", "Err(Word(NoNul(0)))"),
    (15, 0, b"a\0\0\0\0\0\0\x01", "Err(Word(Pad(0)))"),
    (15, 0, b"\xff\0\0\0\0\0\0\0", "Err(Word(NotUtf8(0)))"),
    (
        5,
        0,
        b"\0\0\0\0\0\0\0\0\x01\x02\0\0\0\0\0\0\0\0\0\0\0\0\0\0",
        "Err(Word(Float(8)))",
    ),
];

#[test]
fn requests_are_read(rt: HostRuntime) -> Result<(), Fail> {
    for &(kind, schema, body, wanted) in REQUESTS_READ {
        assert_eq!(rt;
            request_shown(rt.alloc(), kind, schema, body)?.as_str(),
            wanted
        );
    }
    Ok(())
}

fn response_shown(alloc: Global, kind: u8, schema: u8, body: &[u8]) -> Result<String, AllocError> {
    let message = message(alloc, kind, schema, body)?;
    let answer = read_response(alloc, &message, 1);
    format!(in alloc; "{answer:?}")
}

const RESPONSES_READ: &[(u8, u8, &[u8], &str)] = &[
    (
        0,
        0,
        b"\xed\x03\0\0\0\0\0\0bad request\0\0\0\0\0",
        "Ok(Failure { code: 1005, message: WireText { inner: \"bad request\" } })",
    ),
    (
        1,
        0,
        b"\x01\0\0\0\0\0\0\0n1\0\0\0\0\0\0",
        "Ok(Server { id: 1, address: WireText { inner: \"n1\" } })",
    ),
    (
        2,
        0,
        b"\x98\x3a\0\0\0\0\0\0",
        "Ok(Welcome { heartbeat_timeout: 15000 })",
    ),
    (
        3,
        0,
        b"\x01\0\0\0\0\0\0\0\x01\0\0\0\0\0\0\0n1\0\0\0\0\0\0\x02\0\0\0\0\0\0\0",
        "Ok(Servers { servers: [NodeInfo { id: 1, address: WireText { inner: \"n1\" }, role: Some(2) }] })",
    ),
    (4, 0, b"\x01\0\0\0\0\0\0\0", "Ok(Db { id: 1 })"),
    (
        5,
        0,
        b"\0\0\0\0\0\0\0\0\x02\0\0\0\0\0\0\0",
        "Ok(Stmt { db: 0, id: 0, params: 2, tail: None })",
    ),
    (
        5,
        1,
        b"\0\0\0\0\0\0\0\0\0\0\0\0\0\0\0\0\x06\0\0\0\0\0\0\0",
        "Ok(Stmt { db: 0, id: 0, params: 0, tail: Some(6) })",
    ),
    (
        6,
        0,
        b"\0\0\0\0\0\0\0\0\x01\0\0\0\0\0\0\0",
        "Ok(Result { last_insert_id: 0, rows_affected: 1 })",
    ),
    (8, 0, b"\0\0\0\0\0\0\0\0", "Ok(Empty)"),
    (
        9,
        0,
        b"\x01\0\0\0\0\0\0\0d\0\0\0\0\0\0\0\x01\0\0\0\0\0\0\0x\0\0\0\0\0\0\0",
        "Ok(Files { files: [File { name: WireText { inner: \"d\" }, content: [120] }] })",
    ),
    (
        10,
        0,
        b"\0\0\0\0\0\0\0\0\x03\0\0\0\0\0\0\0",
        "Ok(Metadata { failure_domain: 0, weight: 3 })",
    ),
    (7, 0, b"\0\0\0\0\0\0\0\0\0", "Err(Tail(1))"),
    (4, 0, b"\0\0\0\0\x01\0\0\0", "Err(Word(Pad(0)))"),
    (8, 0, b"\x01\0\0\0\0\0\0\0", "Err(Word(Pad(0)))"),
    (
        3,
        0,
        b"\xff\xff\xff\xff\xff\xff\xff\xff",
        "Err(Word(Short(8)))",
    ),
    (11, 0, b"", "Err(Kind(11))"),
    (4, 1, b"", "Err(Schema(4, 1))"),
];

#[test]
fn responses_are_read(rt: HostRuntime) -> Result<(), Fail> {
    for &(kind, schema, body, wanted) in RESPONSES_READ {
        assert_eq!(rt;
            response_shown(rt.alloc(), kind, schema, body)?.as_str(),
            wanted
        );
    }
    Ok(())
}

fn are_writable(values: &[Value]) -> bool
    ensures { IsTrue result → AreWritable values.now }
{
    values.iter().all(|value| value.is_writable())
}

/// Whether a tuple of these parameters can be written, which is not to have more than the narrow one may have.
fn params_fit(params: &Items<Value>) -> bool
    ensures { IsTrue result → (length params.now ≤ 255) × AreWritable params.now }
{
    params.len() <= 255 && are_writable(params.as_slice())
}

/// Whether a request can be written, of those that the table below has.
fn request_fits(request: &Request) -> bool
    ensures { IsTrue result → IsWritableRequest request.now }
{
    match request {
        Request::Leader | Request::Client { .. } => true,
        Request::Open { name, vfs, .. } => !name.has_nul() && !vfs.has_nul(),
        Request::Prepare { sql, .. } => !sql.has_nul(),
        Request::Exec { params, .. } => params_fit(params),
        Request::ExecSql { sql, params, .. } => !sql.has_nul() && params_fit(params),
        Request::Dump { name } => !name.has_nul(),
        _ => false,
    }
}

/// The message of these bytes, header and body.
fn message_in(alloc: Global, bytes: &[u8]) -> Option<Message> {
    if bytes.len() < 8 {
        return None;
    }
    message(alloc, bytes[4], bytes[5], &bytes[8..]).ok()
}

/// What is written of a request, if it can be written.
fn request_written(alloc: Global, request: &Request) -> Option<WireBytes> {
    if request_fits(request) {
        write_request(alloc, request).ok()
    } else {
        None
    }
}

/// What is written of the request that is read in a message.
fn request_again(alloc: Global, message: &Message) -> Option<WireBytes> {
    match read_request(alloc, message) {
        Ok(request) => request_written(alloc, &request),
        Err(_) => None,
    }
}

fn request_is_mirrored(alloc: Global, bytes: &[u8]) -> Option<bool> {
    let message = message_in(alloc, bytes)?;
    let written = request_again(alloc, &message)?;
    Some(written.as_slice() == bytes)
}

const REQUESTS: &[&[u8]] = &[
    b"\x01\0\0\0\0\0\0\0\0\0\0\0\0\0\0\0",
    b"\x01\0\0\0\x01\0\0\0\x07\0\0\0\0\0\0\0",
    b"\x04\0\0\0\x03\0\0\0d\0\0\0\0\0\0\0\0\0\0\0\0\0\0\0volatile\0\0\0\0\0\0\0\0",
    b"\x03\0\0\0\x04\x01\0\0\0\0\0\0\0\0\0\0GET 1;GET 2\0\0\0\0\0",
    b"\x01\0\0\0\x05\0\0\0\x01\0\0\0\x02\0\0\0",
    b"\x03\0\0\0\x05\0\0\0\x01\0\0\0\x02\0\0\0\x01\x01\0\0\0\0\0\0\x05\0\0\0\0\0\0\0",
    b"\x04\0\0\0\x05\x01\0\0\0\0\0\0\0\0\0\0\x02\0\0\0\x01\x03\0\0\x05\0\0\0\0\0\0\0x\0\0\0\0\0\0\0",
    b"\x04\0\0\0\x08\0\0\0\x01\0\0\0\0\0\0\0x\0\0\0\0\0\0\0\x01\x05\0\0\0\0\0\0\0\0\0\0\0\0\0\0",
    b"\x01\0\0\0\x0f\0\0\0d\0\0\0\0\0\0\0",
];

#[test]
fn requests_are_mirrored(rt: HostRuntime) {
    for &bytes in REQUESTS {
        assert_eq!(rt; request_is_mirrored(rt.alloc(), bytes), Some(true));
    }
}

/// Whether a response can be written, of those that the table below has.
fn response_fits(response: &Response) -> bool
    ensures { IsTrue result → IsWritable response.now }
{
    match response {
        Response::Failure { message, .. } => !message.has_nul(),
        Response::Server { address, .. } => !address.has_nul(),
        Response::Rows { body } => body.len() % 8 == 0,
        Response::Servers { .. } | Response::Files { .. } => false,
        _ => true,
    }
}

/// What is written of a response, if it can be written.
fn response_written(alloc: Global, response: &Response) -> Option<WireBytes> {
    if response_fits(response) {
        write_response(alloc, response).ok()
    } else {
        None
    }
}

/// What is written of the response that is read in a message.
fn response_again(alloc: Global, message: &Message) -> Option<WireBytes> {
    match read_response(alloc, message, 1) {
        Ok(response) => response_written(alloc, &response),
        Err(_) => None,
    }
}

fn response_is_mirrored(alloc: Global, bytes: &[u8]) -> Option<bool> {
    let message = message_in(alloc, bytes)?;
    let written = response_again(alloc, &message)?;
    Some(written.as_slice() == bytes)
}

const RESPONSES: &[&[u8]] = &[
    b"\x03\0\0\0\0\0\0\0\xed\x03\0\0\0\0\0\0bad request\0\0\0\0\0",
    b"\x02\0\0\0\x01\0\0\0\x01\0\0\0\0\0\0\0n1\0\0\0\0\0\0",
    b"\x01\0\0\0\x02\0\0\0\x98\x3a\0\0\0\0\0\0",
    b"\x01\0\0\0\x04\0\0\0\x01\0\0\0\0\0\0\0",
    b"\x02\0\0\0\x05\0\0\0\0\0\0\0\x01\0\0\0\x02\0\0\0\0\0\0\0",
    b"\x03\0\0\0\x05\x01\0\0\0\0\0\0\x01\0\0\0\x02\0\0\0\0\0\0\0\x06\0\0\0\0\0\0\0",
    b"\x02\0\0\0\x06\0\0\0\0\0\0\0\0\0\0\0\x01\0\0\0\0\0\0\0",
    b"\x02\0\0\0\x07\0\0\0\0\0\0\0\0\0\0\0\xff\xff\xff\xff\xff\xff\xff\xff",
    b"\x01\0\0\0\x08\0\0\0\0\0\0\0\0\0\0\0",
];

#[test]
fn responses_are_mirrored(rt: HostRuntime) {
    for &bytes in RESPONSES {
        assert_eq!(rt; response_is_mirrored(rt.alloc(), bytes), Some(true));
    }
}

const FAULTS: &[(MsgFault, &str)] = &[
    (MsgFault::Kind(7), "no message has the type 7"),
    (
        MsgFault::Schema(0, 1),
        "the message of type 0 has the schema 1",
    ),
    (
        MsgFault::Word(WordFault::NoMemory),
        "the body is malformed: out of memory",
    ),
    (MsgFault::Tail(2), "2 words follow the last field"),
    (MsgFault::NoMemory, "out of memory"),
];

#[test]
fn faults_say_why(rt: HostRuntime) -> Result<(), Fail> {
    for &(fault, text) in FAULTS {
        assert_eq!(rt; fault.to_string(rt.alloc())?.as_str(), text);
    }
    Ok(())
}
