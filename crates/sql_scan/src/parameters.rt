ghost use Rattle.std.specs.Prelude.{◌≡◌, ◌≤◌, min, IfSome};
ghost use Rattle.sql_scan.specs.Statements.{decimal, in_range, parameter};

/// The greatest number of a parameter.
pub const GREATEST_NUMBER: u64 = 32_766;

// The number that digits represent, or one above the greatest where it is greater.
fn capped(digits: &[u8]) -> u64
    ensures { result ≡ min (decimal 0 digits.now) 32767 }
{
    let mut number: u64 = 0;
    for digit in digits {
        number = (10 * number + u64::from(digit.saturating_sub(b'0'))).min(GREATEST_NUMBER + 1);
    }
    number
}

#[tactic(auto, unfolding(crate::specs::Statements::in_range))]
fn in_range(number: u64) -> Option<u64>
    ensures exact { result ≡ in_range number }
    ensures range { IfSome result (λ n. n ≤ 32766) }
{
    if 1 <= number && number <= GREATEST_NUMBER {
        Some(number)
    } else {
        None
    }
}

/// The number of a parameter, by the digits after its question mark: without any, one more than the greatest so far.
/// `None` where that isn't 1 to 32,766.
pub fn parameter(greatest: u64, digits: &[u8]) -> Option<u64>
    requires { greatest ≤ 32766 }
    ensures exact { result ≡ parameter greatest digits.now }
    ensures range { IfSome result (λ n. n ≤ 32766) }
{
    match digits {
        [] => in_range(greatest + 1),
        _ => in_range(capped(digits)),
    }
}
