ghost use Rattle.std.specs.Prelude.{◌≡◌, ◌==◌, ◌%◌, ◌<◌, ◌++◌, ◌+◌, ◌∷◌, ℕ, [], length, map, slice_index, string_bytes, IfOk, OnOk};
ghost use Rattle.dq_base.specs.Names.{IsName};
ghost use Rattle.store_laws.specs.Meta.{file_of};
ghost use Rattle.segment_store.specs.FileNames.{powers, digit, sixteen, number_text, file_name, name_of, number_of};

use dq_base::Name;
use std::alloc::{AllocError, Global};

/// A file of a node.
#[derive(Clone, Copy, PartialEq, Eq)]
pub enum File {
    /// The first file of metadata, for odd versions.
    First,
    /// The second file of metadata, for even versions.
    Second,
    /// The segment of a number, from 1.
    Segment(u64),
    /// The snapshot up to an index.
    Snapshot(u64),
}

/// Numbers of files are below this one, so that they have sixteen digits.
pub(crate) const NUMBER_END: u64 = 10_000_000_000_000_000;

const POWERS: [u64; 16] = [
    1_000_000_000_000_000,
    100_000_000_000_000,
    10_000_000_000_000,
    1_000_000_000_000,
    100_000_000_000,
    10_000_000_000,
    1_000_000_000,
    100_000_000,
    10_000_000,
    1_000_000,
    100_000,
    10_000,
    1_000,
    100,
    10,
    1,
];

fn digit_text(digit: u64) -> &'static str
    requires { digit < 10 }
    ensures { result.now ≡ (48 + digit) ∷ [] }
{
    match digit {
        0 => "0",
        1 => "1",
        2 => "2",
        3 => "3",
        4 => "4",
        5 => "5",
        6 => "6",
        7 => "7",
        8 => "8",
        _ => "9",
    }
}

fn push_digits(text: &mut String, number: u64, powers: &[u64]) -> Result<(), AllocError>
    requires some { (i : ℕ) → i < length powers.now → 0 < slice_index powers.now i }
    ensures { OnOk result (string_bytes text.new ≡ string_bytes text.old ++ map (digit number) powers.now) }
{
    for power in powers {
        text.push_str(digit_text(number / *power % 10))?;
    }
    Ok(())
}

// The number in sixteen digits after a text.
#[tactic(auto, unfolding(crate::specs::FileNames::sixteen))]
fn push_number(text: &mut String, number: u64) -> Result<(), AllocError>
    ensures { OnOk result (string_bytes text.new ≡ string_bytes text.old ++ sixteen number) }
{
    push_digits(text, number, &POWERS)
}

#[tactic(auto, using(crate::proofs::NoTwoAlike::behind_kind))]
fn numbered(alloc: Global, kind: &str, number: u64) -> Result<String, AllocError>
    requires { number < 10000000000000000 }
    ensures { IfOk result (λ text. string_bytes text ≡ kind.now ++ number_text number) }
{
    let mut text = String::from_str(alloc, kind)?;
    push_number(&mut text, number)?;
    Ok(text)
}

fn text_of(alloc: Global, file: File) -> Result<String, AllocError>
    requires { number_of file < 10000000000000000 }
    ensures { IfOk result (λ text. string_bytes text ≡ file_name (name_of file)) }
{
    match file {
        File::First => String::from_str(alloc, "metadata1"),
        File::Second => String::from_str(alloc, "metadata2"),
        File::Segment(number) => numbered(alloc, "segment-", number),
        File::Snapshot(number) => numbered(alloc, "snapshot-", number),
    }
}

fn as_name(text: String) -> Result<Name, AllocError>
    requires { IsName (string_bytes text) }
    ensures { IfOk result (λ name. name ≡ string_bytes text) }
{
    match Name::new(text) {
        Some(name) => Ok(name),
        None => Err(AllocError),
    }
}

/// The name of a file.
#[tactic(auto, using(crate::proofs::NoTwoAlike::named))]
pub(crate) fn file_name(alloc: Global, file: File) -> Result<Name, AllocError>
    requires { number_of file < 10000000000000000 }
    ensures { IfOk result (λ name. name ≡ file_name (name_of file)) }
{
    let text = text_of(alloc, file)?;
    as_name(text)
}

/// The file that a version of the metadata goes to.
pub(crate) fn metadata_file(version: u64) -> File
    ensures file { name_of result ≡ file_of (version % 2 == 1) }
    ensures number { number_of result ≡ 0 }
{
    if version % 2 == 1 {
        File::First
    } else {
        File::Second
    }
}
