ghost use Rattle.std.specs.Prelude.{◌≡◌, length, IfOk, IfErr, OnOk};
ghost use Rattle.wal_frames.specs.Text.{wal_length};
ghost use Rattle.wal_frames.specs.Headers.{IsRefusal};
ghost use Rattle.wal_frames.specs.Valid.{Reads, TookAll, NoneMatches};

use crate::fault::WalFault;
use crate::frame::{FRAME_LENGTH, Frame};
use crate::reader::WalReader;
use dq_base::Items;
use std::alloc::{AllocError, Global};

/// What reading a log gave.
#[derive(Debug, Drop)]
pub struct WalRead {
    /// The number of the checkpoint sequence.
    pub sequence: u32,
    /// The valid frames, in their order.
    pub frames: Items<Frame>,
    /// How many bytes the header and the valid frames have.
    pub end: u64,
}

/// Reads the header and the valid frames of a log: the longest list of frames after the header of which each one's
/// salts and checksum match, and those of all before it. A frame that is truncated or doesn't match is no fault: the list
/// ends before it.
///
/// The first fault of the header is named: `Short`, `Magic`, `Version`, `PageSize`, `HeaderSum`. `NoMemory` comes only
/// after a valid header.
///
/// Goes over the bytes once, and copies the page of each valid frame into room that it makes first for all whole frames
/// of the bytes. `WalReader` reads without a copy.
pub fn read_wal(alloc: Global, bytes: &[u8]) -> Result<WalRead, WalFault>
    ensures found { IfOk result (λ read. Reads bytes.now read) }
    ensures ends { IfOk result (λ read. read.end ≡ wal_length (length read.frames)) }
    ensures refused { IfErr result (λ fault. IsRefusal fault bytes.now) }
{
    let mut reader = WalReader::new(bytes)?;
    let sequence = reader.header().sequence;
    let frames = all_frames(alloc, &mut reader)?;
    let end = bytes.len() - reader.rest().len();
    Ok(WalRead {
        sequence,
        frames: Items::new(frames),
        end: end as u64,
    })
}

/// The valid frames that a reader has left.
fn all_frames(alloc: Global, reader: &mut WalReader<'_>) -> Result<Vec<Frame>, AllocError>
    ensures took { IfOk result (λ frames. TookAll reader.old frames.items reader.new) }
    ensures none { OnOk result (NoneMatches reader.new) }
{
    let mut frames = Vec::with_capacity(alloc, reader.rest().len() / FRAME_LENGTH)?;
    'frames: while let Some(frame) = reader.next_frame() {
        frames.push(frame.to_frame())?;
    }
    Ok(frames)
}
