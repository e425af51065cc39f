ghost use Rattle.std.specs.Prelude.{◌≡◌, ◌<◌, ◌≤◌, ◌++◌, [], true, length, take, IfOk};
ghost use Rattle.wire_words.specs.Message.{header_of};
ghost use Rattle.wire_words.specs.Stream.{Part, front, body_size, messages_in, versioned, after_messages, one_before, message_with, end_with, going_on};
ghost use Rattle.wire_words.specs.Holding.{Holds, IsHead, IsOfStream, front_of, held_bytes, Leads};

use crate::WireBytes;
use crate::message::{Header, Message, header_at};
use crate::splitter::SplitFault;
use byteorder::{ByteOrder, LittleEndian};
use std::alloc::{AllocError, Global};
use std::mem;

/// The unread bytes of a stream: a part of its version word, or of a message.
#[derive(Drop)]
pub(crate) struct Unfinished {
    /// Whether the version word was read.
    pub(crate) begun: bool,
    /// The first bytes of the version word or of a header, and after them bytes of no meaning.
    pub(crate) head: [u8; 8],
    pub(crate) head_len: usize,
    /// What follows a whole header.
    pub(crate) body: Vec<u8>,
}

/// A head with some bytes more, and what follows them.
#[derive(Clone, Copy)]
pub(crate) struct Filled<'a> {
    head: [u8; 8],
    len: usize,
    behind: &'a [u8],
}

/// What is at the front of bytes that may end anywhere.
#[derive(Clone, Copy)]
pub(crate) enum Standing<'a> {
    /// A part of a message.
    Part,
    /// A header that states this many words, which are too many.
    Long(u32),
    /// A message, by its header and its body, and what follows it.
    Whole(Header, &'a [u8], &'a [u8]),
}

/// What is left where no message is whole any more: a part of one, or a fault and nothing.
#[derive(Clone, Copy)]
pub(crate) struct CutEnd<'a> {
    rest: &'a [u8],
    fault: Option<SplitFault>,
}

impl Unfinished {
    /// Nothing is unread.
    pub(crate) fn nothing(alloc: Global, begun: bool) -> Unfinished
        ensures begun { result.begun ≡ begun }
        ensures nothing { held_bytes result ≡ [] }
        ensures head { IsHead result }
    {
        Unfinished {
            begun,
            head: [0; 8],
            head_len: 0,
            body: Vec::new(alloc),
        }
    }

    /// These bytes are unread, after the version word.
    fn with_bytes(alloc: Global, bytes: &[u8]) -> Result<Unfinished, AllocError>
        ensures begun { IfOk result (λ unfinished. unfinished.begun ≡ true) }
        ensures bytes { IfOk result (λ unfinished. held_bytes unfinished ≡ bytes.now) }
        ensures head { IfOk result (λ unfinished. IsHead unfinished) }
    {
        let filled = fill_head([0; 8], 0, bytes);
        let body = Vec::from_slice(alloc, filled.behind)?;
        Ok(Unfinished {
            begun: true,
            head: filled.head,
            head_len: filled.len,
            body,
        })
    }
}

/// The first `len` bytes of the head and then as many of the piece as there is room for.
fn fill_head(head: [u8; 8], len: usize, piece: &[u8]) -> Filled<'_>
    requires { len ≤ 8 }
    ensures bound { result.len ≤ 8 }
    ensures width { length result.head ≡ 8 }
    ensures bytes { take len head ++ piece.now ≡ take result.len result.head ++ result.behind.now }
    ensures all { result.len < 8 → result.behind.now ≡ [] }
    ensures kept { len ≡ 8 → (result.len ≡ 8) × (result.head ≡ head) × (result.behind.now ≡ piece.now) }
{
    let mut head = head;
    let more = piece.len().min(8 - len);
    let (front, behind) = piece.split_at(more);
    head[len..len + more].copy_from_slice(front);
    Filled {
        head,
        len: len + more,
        behind,
    }
}

/// What is at the front of the bytes.
#[tactic(auto, unfolding(crate::specs::Stream::front))]
fn standing_at(limit: u32, bytes: &[u8]) -> Standing<'_>
    ensures { front_of result ≡ front limit bytes.now }
{
    if bytes.len() < 8 {
        return Standing::Part;
    }
    let (head, behind) = bytes.split_at(8);
    let header = header_at(head);
    if limit < header.words {
        return Standing::Long(header.words);
    }
    let size = 8 * header.words as usize;
    if behind.len() < size {
        return Standing::Part;
    }
    let (body, rest) = behind.split_at(size);
    Standing::Whole(header, body, rest)
}

/// Takes the whole messages off the front of bytes after a version word, and pushes them.
fn cut<'a>(
    alloc: Global,
    limit: u32,
    bytes: &'a [u8],
    messages: &mut Vec<Message>,
) -> Result<CutEnd<'a>, AllocError>
    ensures ends { IfOk result (λ end. after_messages messages.old.items (messages_in limit bytes.now) ≡
        record { messages = messages.new.items; end = end_with end.fault true end.rest.now }) }
    ensures part { IfOk result (λ end. front limit end.rest.now ≡ Part) }
    ensures fault { IfOk result (λ end. IsOfStream end.fault) }
{
    let mut rest = bytes;
    loop {
        match standing_at(limit, rest) {
            Standing::Part => return Ok(CutEnd { rest, fault: None }),
            Standing::Long(words) => {
                return Ok(CutEnd {
                    rest: &rest[..0],
                    fault: Some(SplitFault::TooLong(words)),
                });
            }
            Standing::Whole(header, body, behind) => {
                let body = Vec::from_slice(alloc, body)?;
                messages.push(Message {
                    kind: header.kind,
                    schema: header.schema,
                    body: WireBytes::new(body),
                })?;
                rest = behind;
            }
        }
    }
}

/// Continues after a version word with this number.
fn go_on_behind(
    alloc: Global,
    limit: u32,
    unfinished: &mut Unfinished,
    version: u64,
    behind: &[u8],
    messages: &mut Vec<Message>,
) -> Result<Option<SplitFault>, AllocError>
    requires holds { Holds limit unfinished.old }
    requires empty { messages.old.items ≡ [] }
    ensures { Leads limit unfinished.old unfinished.new messages.new.items (versioned limit version behind.now) result }
{
    if version != 1 {
        *unfinished = Unfinished::nothing(alloc, false);
        return Ok(Some(SplitFault::Version(version)));
    }
    let end = cut(alloc, limit, behind, messages)?;
    *unfinished = Unfinished::with_bytes(alloc, end.rest)?;
    Ok(end.fault)
}

/// The message of this header, of whose body `last` was missing, and what follows it.
fn complete(
    alloc: Global,
    limit: u32,
    unfinished: &mut Unfinished,
    header: Header,
    last: &[u8],
    after: &[u8],
    messages: &mut Vec<Message>,
) -> Result<Option<SplitFault>, AllocError>
    requires holds { Holds limit unfinished.old }
    requires empty { messages.old.items ≡ [] }
    ensures { Leads limit unfinished.old unfinished.new messages.new.items
        (one_before (message_with header (unfinished.old.body.items ++ last.now)) (messages_in limit after.now)) result }
{
    messages.push(Message {
        kind: header.kind,
        schema: header.schema,
        body: WireBytes::new(Vec::new(alloc)),
    })?;
    let end = cut(alloc, limit, after, messages)?;
    let rest = Unfinished::with_bytes(alloc, end.rest)?;
    unfinished.body.extend_from_slice(last)?;
    let whole = mem::replace(unfinished, rest);
    messages[0].body = WireBytes::new(whole.body);
    Ok(end.fault)
}

/// Continues with a message of which the header is there, and of whose body some bytes may be.
fn go_on_with(
    alloc: Global,
    limit: u32,
    unfinished: &mut Unfinished,
    head: [u8; 8],
    behind: &[u8],
    messages: &mut Vec<Message>,
) -> Result<Option<SplitFault>, AllocError>
    requires holds { Holds limit unfinished.old }
    requires begun { unfinished.old.begun ≡ true }
    requires width { length head ≡ 8 }
    requires fits { length unfinished.old.body.items ≤ body_size (header_of head) }
    requires empty { messages.old.items ≡ [] }
    ensures { Leads limit unfinished.old unfinished.new messages.new.items
        (messages_in limit (head ++ (unfinished.old.body.items ++ behind.now))) result }
{
    let header = Header::read(&head);
    if header.words > limit {
        *unfinished = Unfinished::nothing(alloc, true);
        return Ok(Some(SplitFault::TooLong(header.words)));
    }
    let missing = 8 * header.words as usize - unfinished.body.len();
    if behind.len() < missing {
        unfinished.body.extend_from_slice(behind)?;
        unfinished.head = head;
        unfinished.head_len = 8;
        return Ok(None);
    }
    let (last, after) = behind.split_at(missing);
    complete(alloc, limit, unfinished, header, last, after, messages)
}

/// Continues with a piece of any length: pushes the messages that are whole with it, and gives the fault, if any. Out of
/// memory leaves what is unread as it was.
pub(crate) fn go_on(
    alloc: Global,
    limit: u32,
    unfinished: &mut Unfinished,
    piece: &[u8],
    messages: &mut Vec<Message>,
) -> Result<Option<SplitFault>, AllocError>
    requires holds { Holds limit unfinished.old }
    requires empty { messages.old.items ≡ [] }
    ensures { Leads limit unfinished.old unfinished.new messages.new.items
        (going_on limit (end_with None unfinished.old.begun (held_bytes unfinished.old)) piece.now) result }
{
    let filled = fill_head(unfinished.head, unfinished.head_len, piece);
    if filled.len < 8 {
        unfinished.head = filled.head;
        unfinished.head_len = filled.len;
        return Ok(None);
    }
    if unfinished.begun {
        go_on_with(
            alloc,
            limit,
            unfinished,
            filled.head,
            filled.behind,
            messages,
        )
    } else {
        let version = LittleEndian::read_u64(&filled.head);
        go_on_behind(alloc, limit, unfinished, version, filled.behind, messages)
    }
}
