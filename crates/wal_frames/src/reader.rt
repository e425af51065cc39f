ghost use Rattle.std.specs.Prelude.{◌≡◌, false, length, Err, IfOk, IfErr, IfSome, IfNone};
ghost use Rattle.wal_frames.specs.Headers.{header_of};
ghost use Rattle.wal_frames.specs.Lent.{owned};
ghost use Rattle.wal_frames.specs.Valid.{Opened, Took, NoneMatches, Stands, stated_frame, is_match};

use crate::fault::WalFault;
use crate::frame::{FRAME_LENGTH, LentFrame};
use crate::header::{HEADER_LENGTH, WalHeader};
use crate::words::pair_of;
use std::marker::Model;

/// Reads the valid frames of a log one after the other, and lends their pages. Contracts see the header, the checksum
/// of the last frame that was read, and the bytes after it.
#[derive(Drop)]
pub struct WalReader<'a> {
    header: WalHeader,
    sums: (u32, u32),
    rest: &'a [u8],
}

impl<'a> Model for WalReader<'a> {
    ghost use Rattle.wal_frames.specs.Text.{ArePair};
    ghost use Rattle.wal_frames.specs.Valid.{Reading};

    ghost Value = { Reading };

    ghost view = { λ r. record { header = r.header; sums = r.sums; rest = r.rest.now } };

    // The salts and the checksum have 32 bits each.
    ghost invariant = { λ r. ArePair r.header.salts × ArePair r.sums };
}

impl<'a> WalReader<'a> {
    /// A reader after the header of a log, or the first fault of that header. Looks at 32 bytes at most.
    pub fn new(bytes: &'a [u8]) -> Result<WalReader<'a>, WalFault>
        ensures opened { IfOk result (λ reader. Opened bytes.now reader) }
        ensures refused { IfErr result (λ fault. header_of bytes.now ≡ Err fault) }
    {
        let header = WalHeader::read(bytes)?;
        let (front, rest) = bytes.split_at(HEADER_LENGTH);
        let sums = pair_of(&front[24..]);
        Ok(WalReader { header, sums, rest })
    }

    /// What the log's header says.
    pub fn header(&self) -> WalHeader
        ensures { result ≡ self.now.header }
    {
        self.header
    }

    /// What follows the frames that were read, borrowed.
    pub fn rest(&self) -> &'a [u8]
        ensures { result.now ≡ self.now.rest }
    {
        self.rest
    }

    /// Reads the next frame and lends its page. `None`, which changes nothing, comes exactly if no whole and valid
    /// frame is there: its salts are the header's, and its checksum continues from the one before it.
    ///
    /// Goes over the bytes of one frame once.
    pub fn next_frame(&mut self) -> Option<LentFrame<'a>>
        ensures found { IfSome result (λ f. Took self.old (owned f) self.new) }
        ensures none { IfNone result (NoneMatches self.old) }
        ensures kept { IfNone result (self.new ≡ self.old) }
    {
        if self.rest.len() < FRAME_LENGTH {
            return None;
        }
        let (bytes, rest) = self.rest.split_at(FRAME_LENGTH);
        let sums = matching_sums(self.header, self.sums, bytes)?;
        self.sums = sums;
        self.rest = rest;
        Some(stated_frame(bytes))
    }
}

/// The frame that the bytes state.
#[tactic(auto, unfolding(crate::specs::Valid::stated_frame))]
fn stated_frame(bytes: &[u8]) -> LentFrame<'_>
    requires { length bytes.now ≡ 4120 }
    ensures stated { owned result ≡ stated_frame bytes.now }
    ensures whole { length result.page.now ≡ 4096 }
{
    let (number, commit) = pair_of(bytes);
    LentFrame {
        number,
        commit,
        page: &bytes[24..],
    }
}

/// The checksum of the frame that the bytes state, if the frame matches.
fn matching_sums(header: WalHeader, before: (u32, u32), bytes: &[u8]) -> Option<(u32, u32)>
    requires { length bytes.now ≡ 4120 }
    ensures found { IfSome result (λ sums. Stands header before bytes.now sums) }
    ensures none { IfNone result (is_match header before bytes.now ≡ false) }
{
    if pair_of(&bytes[8..]) != header.salts {
        return None;
    }
    let sums = stated_frame(bytes).sums(header, before);
    if pair_of(&bytes[16..]) != sums {
        return None;
    }
    Some(sums)
}
