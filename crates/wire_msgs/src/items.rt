//! Items that the bodies of several types of message begin with.

ghost use Rattle.std.specs.Prelude.{IsErrOf};
ghost use Rattle.wire_words.specs.Reading.{Finds};
ghost use Rattle.wire_msgs.specs.Bodies.{word_text, two_words, params_at};

use dq_base::Items;
use std::alloc::Global;
use wire_words::{Value, WireText, WordFault, Words};

// A number and a text.
pub(crate) fn word_text(alloc: Global, words: &mut Words<'_>) -> Result<(u64, WireText), WordFault>
    ensures { Finds (λ x. x) word_text words.old words.new result }
{
    let number = words.u64()?;
    let text = words.text(alloc)?;
    Ok((number, text))
}

// Two numbers.
pub(crate) fn two_words(words: &mut Words<'_>) -> Result<(u64, u64), WordFault>
    ensures exact { Finds (λ x. x) two_words words.old words.new result }
    ensures memory { IsErrOf result WordFault.NoMemory → ⊥ }
{
    let first = words.u64()?;
    let second = words.u64()?;
    Ok((first, second))
}

// Parameters, in a wide tuple or not; there are none if nothing is left.
pub(crate) fn params(
    alloc: Global,
    wide: bool,
    words: &mut Words<'_>,
) -> Result<Items<Value>, WordFault>
    ensures { Finds (λ x. x) (params_at wide) words.old words.new result }
{
    if words.left() == 0 {
        return Ok(Items::new(Vec::new(alloc)));
    }
    let values = if wide {
        words.params_wide(alloc)?
    } else {
        words.params(alloc)?
    };
    Ok(Items::new(values))
}
