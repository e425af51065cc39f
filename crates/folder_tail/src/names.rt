// The number of a segment by the name of its file.
ghost use Rattle.std.specs.Prelude.{◌≡◌, ◌<◌, ◌++◌, ℕ, List, MatchOption};
ghost use Rattle.segment_store.specs.FileNames.{number_text};
ghost use Rattle.segment_store.specs.Listed.{digits_in, read_digits};
ghost use Rattle.folder_tail.specs.Last.{IsNumberOf};

/// A number of fewer than sixteen digits is below this one.
const LESS: u64 = 1_000_000_000_000_000;

// One digit more after a number, if it is one and the number has fewer than sixteen digits.
fn with_digit(number: u64, byte: u8) -> Option<u64>
    ensures { result ≡ digits_in number byte }
{
    if number < LESS && byte.is_ascii_digit() {
        Some(number * 10 + u64::from(byte - b'0'))
    } else {
        None
    }
}

// The number that digits encode.
fn number_in(digits: &[u8]) -> Option<u64>
    ensures { result ≡ read_digits 0 digits.now }
{
    let mut number = 0;
    for digit in digits {
        match with_digit(number, *digit) {
            Some(more) => number = more,
            None => return None,
        }
    }
    Some(number)
}

// What follows a kind at the front of a text.
fn behind<'a>(text: &'a [u8], kind: &[u8]) -> Option<&'a [u8]>
    ensures { MatchOption result ((rest : List ℕ) → text.now ≡ kind.now ++ rest → ⊥) (λ rest. text.now ≡ kind.now ++ rest.now) }
{
    if text.len() < kind.len() {
        return None;
    }
    let (front, rest) = text.split_at(kind.len());
    if front == kind { Some(rest) } else { None }
}

// The number of sixteen digits after a kind.
fn number_behind(text: &[u8], kind: &[u8]) -> Option<u64>
    ensures { MatchOption result ((n : ℕ) → n < 10000000000000000 → text.now ≡ kind.now ++ number_text n → ⊥)
        (λ n. (n < 10000000000000000) × (text.now ≡ kind.now ++ number_text n)) }
{
    let digits = behind(text, kind)?;
    if digits.len() == 16 {
        return number_in(digits);
    }
    None
}

/// The number of the segment that a file of this name is, if it is one.
pub(crate) fn segment_number(name: &str) -> Option<u64>
    ensures { IsNumberOf name.now result }
{
    number_behind(name.as_bytes(), b"segment-")
}
