//! Items that several types of message are written with.

ghost use Rattle.std.specs.Prelude.{◌≡◌, ◌++◌, [], ◌∷◌, OnOk};
ghost use Rattle.wire_words.specs.Items.{HasNoNul};
ghost use Rattle.wire_msgs.specs.Fields.{Word, Pair, Text, AllFit, body_bytes};

use std::alloc::AllocError;
use wire_words::{WireText, Writer};

// A number.
pub(crate) fn write_word(out: &mut Writer, number: u64) -> Result<(), AllocError>
    ensures bytes { OnOk result (out.new ≡ out.old ++ body_bytes (Word number ∷ [])) }
    ensures fit { OnOk result (AllFit (Word number ∷ [])) }
{
    out.word(number)
}

// Two numbers of 32 bits.
pub(crate) fn write_pair(out: &mut Writer, first: u32, second: u32) -> Result<(), AllocError>
    ensures bytes { OnOk result (out.new ≡ out.old ++ body_bytes (Pair first second ∷ [])) }
    ensures fit { OnOk result (AllFit (Pair first second ∷ [])) }
{
    out.pair(first, second)
}

// Two numbers.
pub(crate) fn write_words(out: &mut Writer, first: u64, second: u64) -> Result<(), AllocError>
    ensures bytes { OnOk result (out.new ≡ out.old ++ body_bytes (Word first ∷ Word second ∷ [])) }
    ensures fit { OnOk result (AllFit (Word first ∷ Word second ∷ [])) }
{
    write_word(out, first)?;
    write_word(out, second)
}

// A text.
pub(crate) fn write_text(out: &mut Writer, text: &WireText) -> Result<(), AllocError>
    requires { HasNoNul text.now }
    ensures bytes { OnOk result (out.new ≡ out.old ++ body_bytes (Text text.now ∷ [])) }
    ensures fit { OnOk result (AllFit (Text text.now ∷ [])) }
{
    out.text(text.as_str())
}

// A number and a text.
pub(crate) fn write_word_text(
    out: &mut Writer,
    number: u64,
    text: &WireText,
) -> Result<(), AllocError>
    requires { HasNoNul text.now }
    ensures bytes { OnOk result (out.new ≡ out.old ++ body_bytes (Word number ∷ Text text.now ∷ [])) }
    ensures fit { OnOk result (AllFit (Word number ∷ Text text.now ∷ [])) }
{
    out.word(number)?;
    out.text(text.as_str())
}
