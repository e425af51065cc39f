//! Numbers of a line.

ghost use Rattle.std.specs.Prelude.{◌≡◌};
ghost use Rattle.script_grammar.specs.Events.{number_within, one_or_two};

use dq_base::{decimal_u32, halves_of};

/// A number in decimal that is in a range.
#[tactic(auto, unfolding(crate::specs::Events::number_within))]
pub(crate) fn number_within(least: u32, most: u32, word: &[u8]) -> Option<u32>
    ensures { result ≡ number_within least most word.now }
{
    let number = decimal_u32(word)?;
    if number >= least && number <= most {
        Some(number)
    } else {
        None
    }
}

/// One number, or two with a space between; if the second is left out it is 0.
#[tactic(auto, unfolding(crate::specs::Events::one_or_two))]
pub(crate) fn one_or_two(text: &[u8]) -> Option<(u32, u32)>
    ensures { result ≡ one_or_two text.now }
{
    let Some((first, second)) = halves_of(text) else {
        return decimal_u32(text).map(|first| (first, 0));
    };
    let first = decimal_u32(first)?;
    let second = decimal_u32(second)?;
    Some((first, second))
}
