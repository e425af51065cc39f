ghost use Rattle.std.specs.Prelude.{◌≡◌, ◌<◌, ◌^◌, ◌++◌, ◌∷◌, ℕ, List, [], length, vec_capacity, IfOk, OnOk, OnErr};
ghost use Rattle.wal_frames.specs.declared.frame.Frame.{Frame};
ghost use Rattle.wal_frames.specs.Text.{wal, wal_length, pair};
ghost use Rattle.wal_frames.specs.Writing.{Wrote};

use crate::WalBytes;
use crate::checksums::checksum;
use crate::frame::{FRAME_LENGTH, Frame, LentFrame};
use crate::header::{HEADER_LENGTH, WalHeader};
use crate::words::{pair, three_pieces};
use dq_base::Page;
use std::alloc::{AllocError, Global};
use std::marker::Model;

/// How long the text of a log of this many frames is, in bytes: 32, and 4,120 for each frame.
pub fn wal_length(frames: usize) -> usize
    requires { wal_length frames < 2 ^ 64 }
    ensures { result ≡ wal_length frames }
{
    HEADER_LENGTH + FRAME_LENGTH * frames
}

/// Writes a log frame by frame after the bytes of a vector. Contracts see its header and the checksum of the last
/// frame that was written.
#[derive(Drop)]
pub struct WalWriter {
    header: WalHeader,
    sums: (u32, u32),
}

impl Model for WalWriter {
    ghost use Rattle.wal_frames.specs.Writing.{Place};

    ghost Value = { Place };

    ghost view = { λ w. record { header = w.header; sums = w.sums } };
}

impl WalWriter {
    /// Appends the header of a log, and answers the writer of its frames: magic number 0x377f0683, the first salt the
    /// sequence number, the second 0. `Err` means out of memory, and leaves the bytes as they were.
    ///
    /// Where room for `wal_length` bytes was made ahead, no byte is moved by this or by the frames that follow.
    pub fn begin(out: &mut Vec<u8>, sequence: u32) -> Result<WalWriter, AllocError>
        ensures ok { IfOk result (λ writer. Wrote out.old.items sequence [] out.new.items writer) }
        ensures kept { OnErr result (out.new.items ≡ out.old.items) }
    {
        let header = WalHeader::written(sequence);
        let fields = header.fields();
        let sums = checksum(header.order, (0, 0), &fields);
        append_both(out, &fields, &pair(sums.0, sums.1))?;
        Ok(WalWriter { header, sums })
    }

    /// Appends a frame: a page, its number, and the size of the database in pages after a transaction that this frame
    /// ends, else 0. `Err` means out of memory, and leaves the bytes and the writer as they were.
    ///
    /// Goes over the page once for the checksum, and copies it once.
    pub fn frame(
        &mut self,
        out: &mut Vec<u8>,
        number: u32,
        commit: u32,
        page: &Page,
    ) -> Result<(), AllocError>
        ensures ok { OnOk result ((start : List ℕ) (sequence : ℕ) (frames : List Frame) →
            Wrote start sequence frames out.old.items self.old →
            Wrote start sequence (frames ++ record { number = number; commit = commit; page = page.now } ∷ []) out.new.items self.new) }
        ensures kept { OnErr result (out.new.items ≡ out.old.items) }
        ensures stays { OnErr result (self.new ≡ self.old) }
    {
        let page = page.bytes();
        let frame = LentFrame {
            number,
            commit,
            page,
        };
        let sums = frame.sums(self.header, self.sums);
        append_both(out, &frame_head(frame, self.header, sums), page)?;
        self.sums = sums;
        Ok(())
    }
}

/// The 24 bytes before the page of a frame.
fn frame_head(frame: LentFrame<'_>, header: WalHeader, sums: (u32, u32)) -> [u8; 24]
    ensures { result ≡ pair (frame.entry.number, frame.entry.commit) ++ (pair header.salts ++ pair sums) }
{
    three_pieces(
        &pair(frame.number, frame.commit),
        &pair(header.salts.0, header.salts.1),
        &pair(sums.0, sums.1),
    )
}

/// Appends all of both, or nothing.
fn append_both(out: &mut Vec<u8>, front: &[u8], back: &[u8]) -> Result<(), AllocError>
    ensures ok { OnOk result (out.new.items ≡ out.old.items ++ (front.now ++ back.now)) }
    ensures kept { OnErr result (out.new.items ≡ out.old.items) }
{
    let start = out.len();
    out.extend_from_slice(front)?;
    let finished = out.extend_from_slice(back);
    if finished.is_err() {
        out.truncate(start);
    }
    finished
}

/// The text of a log with this sequence number and these frames: a header, and each frame with a checksum that continues
/// from the one before it.
///
/// Goes over each page once for its checksum, and copies it once, into room that is made ahead.
pub fn write_wal(alloc: Global, sequence: u32, frames: &[Frame]) -> Result<WalBytes, AllocError>
    ensures { IfOk result (λ bytes. bytes ≡ wal sequence frames.now) }
{
    let mut out = Vec::with_capacity(alloc, wal_length(frames.len()))?;
    let mut writer = WalWriter::begin(&mut out, sequence)?;
    for frame in frames {
        writer.frame(&mut out, frame.number, frame.commit, &frame.page)?;
    }
    Ok(WalBytes::new(out))
}
