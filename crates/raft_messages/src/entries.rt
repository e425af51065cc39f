//! Entries, as bytes: the heads of several, and then what they say. Messages and files have them so.
ghost use Rattle.std.specs.Prelude.{◌≡◌, ◌<◌, ◌%◌, ◌++◌, length, OnOk, IsErr};
ghost use Rattle.wire_words.specs.Items.{word, pair, raw};
ghost use Rattle.wire_words.specs.Reading.{Finds};
ghost use Rattle.raft_messages.specs.Kinds.{kind_code, kind_with};
ghost use Rattle.raft_messages.specs.Entries.{head_bytes, heads_bytes, contents_bytes, HasHead, HaveHeads, known_kind, head_at, heads_at, entry_at, contents_at, Yields};

use crate::entry::{Entry, EntryKind};
use crate::shared::SharedBytes;
use std::alloc::{AllocError, Global};
use wire_words::{WordFault, Words, Writer};

/// What is written of an entry before the bytes of all entries.
#[derive(Clone, Copy, Debug, PartialEq, Eq)]
pub struct EntryHead {
    /// The term of the leader that appended it.
    pub term: u64,
    /// What it is for.
    pub kind: EntryKind,
    /// How many bytes it has.
    pub size: u32,
}

/// The kind in the first half of a word that begins at this place.
fn known_kind(at: u64, half: u32) -> Result<EntryKind, WordFault>
    ensures { Yields (known_kind at half (kind_with (half % 256))) result }
{
    let code = (half % 256) as u8;
    let Some(kind) = EntryKind::with_code(code) else {
        return Err(WordFault::BadCode(at, u64::from(code)));
    };
    if half > 255 {
        return Err(WordFault::Pad(at));
    }
    Ok(kind)
}

#[tactic(auto, unfolding(crate::specs::Entries::head_at))]
fn head(words: &mut Words<'_>) -> Result<EntryHead, WordFault>
    ensures { Finds (λ head. head) head_at words.old words.new result }
{
    let term = words.u64()?;
    let at = words.place();
    let (half, size) = words.u32_pair()?;
    let kind = known_kind(at, half)?;
    Ok(EntryHead { term, kind, size })
}

/// Reads this many heads of entries: for each the term in a word, and in the next word the kind's number in one byte,
/// three zeros, and the number of bytes. The first fault comes: `Short`; in a head's second word `BadCode` where the
/// number represents no kind, then `Pad` where one of the three isn't zero. `NoMemory` means out of memory for the
/// heads that are there.
pub fn read_entry_heads(
    alloc: Global,
    words: &mut Words<'_>,
    count: u64,
) -> Result<Vec<EntryHead>, WordFault>
    ensures { Finds (λ heads. heads.items) (heads_at count) words.old words.new result }
{
    let mut heads = Vec::new(alloc);
    for _ in 0..count {
        let head = head(words)?;
        heads.push(head)?;
    }
    Ok(heads)
}

#[tactic(auto, unfolding(crate::specs::Entries::entry_at))]
fn entry(alloc: Global, words: &mut Words<'_>, head: &EntryHead) -> Result<Entry, WordFault>
    ensures { Finds (λ entry. entry) (entry_at head.now) words.old words.new result }
{
    let bytes = words.raw(alloc, u64::from(head.size))?;
    let bytes = SharedBytes::new(alloc, bytes)?;
    Ok(Entry {
        term: head.term,
        kind: head.kind,
        bytes,
    })
}

/// Reads the entries of these heads: for each its bytes and zeros that fill them up to a whole word. The first fault
/// comes: `Short`, then `Pad` where a byte in place of a zero isn't one. `NoMemory` means out of memory. Each byte is
/// copied once, into its entry.
pub fn read_entry_contents(
    alloc: Global,
    words: &mut Words<'_>,
    heads: &[EntryHead],
) -> Result<Vec<Entry>, WordFault>
    ensures { Finds (λ entries. entries.items) (contents_at heads.now) words.old words.new result }
{
    let mut entries = Vec::new(alloc);
    for head in heads {
        let entry = entry(alloc, words, head)?;
        entries.push(entry)?;
    }
    Ok(entries)
}

/// The first half of a head's second word.
fn kind_half(kind: EntryKind) -> u32
    ensures { result ≡ kind_code kind }
{
    u32::from(kind.code())
}

fn write_head_words(
    out: &mut Writer,
    term: u64,
    kind: EntryKind,
    size: u32,
) -> Result<(), AllocError>
    ensures { OnOk result (out.new ≡ out.old ++ (word term ++ pair (kind_code kind) size)) }
{
    out.word(term)?;
    out.pair(kind_half(kind), size)
}

fn write_head(out: &mut Writer, entry: &Entry) -> Result<(), AllocError>
    ensures bytes { OnOk result (out.new ≡ out.old ++ head_bytes entry.now) }
    ensures fits { OnOk result (HasHead entry.now) }
{
    let Ok(size) = u32::try_from(entry.bytes.len()) else {
        return Err(AllocError);
    };
    write_head_words(out, entry.term, entry.kind, size)
}

/// Writes the heads of the entries. An entry of more than 4,294,967,295 bytes is answered as if memory had run out; any
/// other `Err` means out of memory.
pub fn write_entry_heads(out: &mut Writer, entries: &[Entry]) -> Result<(), AllocError>
    ensures bytes { OnOk result (out.new ≡ out.old ++ heads_bytes entries.now) }
    ensures fit { OnOk result (HaveHeads entries.now) }
{
    for entry in entries {
        write_head(out, entry)?;
    }
    Ok(())
}

fn write_content(out: &mut Writer, entry: &Entry) -> Result<(), AllocError>
    ensures { OnOk result (out.new ≡ out.old ++ raw entry.now.bytes) }
{
    out.raw(entry.bytes.as_slice())
}

/// Writes what the entries say, each with zeros to a whole word.
pub fn write_entry_contents(out: &mut Writer, entries: &[Entry]) -> Result<(), AllocError>
    ensures { OnOk result (out.new ≡ out.old ++ contents_bytes entries.now) }
{
    for entry in entries {
        write_content(out, entry)?;
    }
    Ok(())
}
