ghost use Rattle.std.specs.Prelude.{◌≡◌};
ghost use Rattle.std.specs.List.{position};
ghost use Rattle.wire_words.specs.Items.{is_zero};
ghost use Rattle.wire_words.specs.Reading.{Finds};
ghost use Rattle.log_commands.specs.Reading.{may_be_name, name_at, flagged_at, sized_at, numbers_at, page_at, pages_at, frame_items_at};

use byteorder::{ByteOrder, LittleEndian};
use dq_base::{Items, Name, NumberedPage, PAGE_SIZE, Page};
use std::alloc::Global;
use wire_words::{WordFault, Words};

/// What follows the name of a Frames command, before its numbers are looked at.
#[derive(Drop)]
pub(crate) struct FrameItems {
    pub(crate) tx: u64,
    pub(crate) truncate: u32,
    /// 1 for a commit, else 0.
    pub(crate) flag: u8,
    /// The bytes of a page.
    pub(crate) size: u16,
    pub(crate) pages: Items<NumberedPage>,
}

/// Where the first NUL is.
fn first_nul(bytes: &[u8]) -> Option<usize>
    ensures { result ≡ position is_zero bytes.now }
{
    bytes.iter().position(|byte| *byte == 0)
}

/// Whether a text may be a name whose first NUL is there: after 1 to 255 bytes. If there is none, the text's own
/// fault comes.
fn may_be_name(nul: Option<usize>) -> bool
    ensures { result ≡ may_be_name nul }
{
    match nul {
        Some(len) => 1 <= len && len <= 255,
        None => true,
    }
}

/// The name of a database, which follows the head: the reader has these bytes left. Its length is looked at first.
#[tactic(auto, unfolding(crate::specs::Reading::name_at))]
pub(crate) fn name(alloc: Global, left: &[u8], words: &mut Words<'_>) -> Result<Name, WordFault>
    requires { words.old.bytes ≡ left.now }
    ensures { Finds (λ name. name) name_at words.old words.new result }
{
    let at = words.place();
    if !may_be_name(first_nul(left)) {
        return Err(WordFault::Short(at));
    }
    let text = words.text(alloc)?;
    let Some(name) = Name::new(text.into_string()) else {
        return Err(WordFault::Short(at));
    };
    Ok(name)
}

/// A number of 32 bits, a byte, and three zeros.
#[tactic(auto, unfolding(crate::specs::Reading::flagged_at))]
fn flagged(words: &mut Words<'_>) -> Result<(u32, u8), WordFault>
    ensures { Finds (λ numbers. numbers) flagged_at words.old words.new result }
{
    let bytes = words.raw_slice(5)?;
    Ok((LittleEndian::read_u32(bytes), bytes[4]))
}

/// A number of 32 bits, one of 16 bits, and two zeros.
#[tactic(auto, unfolding(crate::specs::Reading::sized_at))]
fn sized(words: &mut Words<'_>) -> Result<(u32, u16), WordFault>
    ensures { Finds (λ numbers. numbers) sized_at words.old words.new result }
{
    let bytes = words.raw_slice(6)?;
    let count = LittleEndian::read_u32(bytes);
    Ok((count, LittleEndian::read_u16(&bytes[4..])))
}

/// This many numbers. Takes memory for those that are there.
fn numbers(alloc: Global, words: &mut Words<'_>, count: u32) -> Result<Vec<u64>, WordFault>
    ensures { Finds (λ numbers. numbers.items) (numbers_at count) words.old words.new result }
{
    let mut numbers = Vec::new(alloc);
    for _ in 0..count {
        let number = words.u64()?;
        numbers.push(number)?;
    }
    Ok(numbers)
}

/// The page of a number.
#[tactic(auto, unfolding(crate::specs::Reading::page_at))]
fn page(words: &mut Words<'_>, number: u64) -> Result<NumberedPage, WordFault>
    ensures { Finds (λ page. page) (page_at number) words.old words.new result }
{
    let bytes = words.raw_slice(PAGE_SIZE as u64)?;
    let page = Page::from_slice(bytes);
    Ok(NumberedPage { number, page })
}

/// The pages of these numbers.
fn pages(
    alloc: Global,
    words: &mut Words<'_>,
    numbers: &[u64],
) -> Result<Vec<NumberedPage>, WordFault>
    ensures { Finds (λ pages. pages.items) (pages_at numbers.now) words.old words.new result }
{
    let mut pages = Vec::new(alloc);
    for number in numbers {
        let number = *number;
        let page = page(words, number)?;
        pages.push(page)?;
    }
    Ok(pages)
}

/// What follows the name of a Frames command.
#[tactic(auto, unfolding(crate::specs::Reading::frame_items_at))]
pub(crate) fn frame_items(alloc: Global, words: &mut Words<'_>) -> Result<FrameItems, WordFault>
    ensures { Finds (λ items. items) frame_items_at words.old words.new result }
{
    let tx = words.u64()?;
    let (truncate, flag) = flagged(words)?;
    let (count, size) = sized(words)?;
    let numbers = numbers(alloc, words, count)?;
    let pages = pages(alloc, words, &numbers)?;
    Ok(FrameItems {
        tx,
        truncate,
        flag,
        size,
        pages: Items::new(pages),
    })
}
