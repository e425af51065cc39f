ghost use Rattle.std.specs.Prelude.{◌≡◌, ◌↔◌, ◌^◌, IsTrue};
ghost use Rattle.dq_base.specs.Decimal.{IsPlain, number_below};

/// Whether a word has neither a sign nor a leading zero, as `0` itself has not.
fn is_plain(word: &[u8]) -> bool
    ensures { IsTrue result ↔ IsPlain word.now }
{
    match word {
        [] | [b'+', ..] => false,
        [b'0', ..] => word.len() == 1,
        [..] => true,
    }
}

/// The number that a word is in decimal, without sign or leading zeros: one below 2^64, else `None`.
pub fn decimal_u64(word: &[u8]) -> Option<u64>
    ensures { result ≡ number_below (2 ^ 64) word.now }
{
    if !is_plain(word) {
        return None;
    }
    let Ok(text) = std::str::from_utf8(word) else {
        return None;
    };
    text.parse().ok()
}

/// The number that a word is in decimal, without sign or leading zeros: one below 2^32, else `None`.
pub fn decimal_u32(word: &[u8]) -> Option<u32>
    ensures { result ≡ number_below (2 ^ 32) word.now }
{
    if !is_plain(word) {
        return None;
    }
    let Ok(text) = std::str::from_utf8(word) else {
        return None;
    };
    text.parse().ok()
}
