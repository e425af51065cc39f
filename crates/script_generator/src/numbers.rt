//! The number of each write, and what it says of the write.

ghost use Rattle.std.specs.Prelude.{◌≡◌};
ghost use Rattle.script_generator.specs.Generated.{number_after, cell_of, value_of};

/// The number that follows a number: a linear congruential generator with the modulus 2^31.
#[tactic(auto, unfolding(crate::specs::Generated::number_after))]
pub(crate) fn number_after(number: u32) -> u32
    ensures { result ≡ number_after number }
{
    let next = (u64::from(number) * 1_103_515_245 + 12_345) % 2_147_483_648;
    next as u32
}

/// The cell that the write of a number sets.
pub(crate) fn cell_of(number: u32) -> u32
    ensures { result ≡ cell_of number }
{
    1 + number / 65_536 % 64
}

/// The value that the write of a number sets its cell to.
pub(crate) fn value_of(number: u32) -> u32
    ensures { result ≡ value_of number }
{
    number % 1_000
}
