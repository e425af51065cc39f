ghost use Rattle.std.specs.Prelude.{◌≡◌, ◌≤◌, length};
ghost use Rattle.wire_words.specs.Message.{header_of};

use crate::WireBytes;
use byteorder::{ByteOrder, LittleEndian};

/// A message. On the wire it is a header of eight bytes and the body.
#[derive(Debug, Drop)]
pub struct Message {
    /// The number of its type.
    pub kind: u8,
    /// Which form the body has, of those that its type has had.
    pub schema: u8,
    /// What follows the header, in bytes: whole words where it came from the wire.
    pub body: WireBytes,
}

/// What the first eight bytes of a message say.
#[derive(Clone, Copy, Debug, PartialEq, Eq)]
pub struct Header {
    /// How many words of eight bytes the body has.
    pub words: u32,
    /// The number of the message's type.
    pub kind: u8,
    /// Which form the body has, of those that its type has had.
    pub schema: u8,
}

impl Header {
    /// Reads a header: the count of words as a little-endian number of four bytes, the kind, the schema, and two bytes
    /// that may be anything.
    pub fn read(bytes: &[u8; 8]) -> Header
        ensures { result ≡ header_of bytes.now }
    {
        header_at(bytes)
    }
}

/// The header in the first eight bytes.
pub(crate) fn header_at(bytes: &[u8]) -> Header
    requires { 8 ≤ length bytes.now }
    ensures { result ≡ header_of bytes.now }
{
    Header {
        words: LittleEndian::read_u32(bytes),
        kind: bytes[4],
        schema: bytes[5],
    }
}
