ghost use Rattle.std.specs.Prelude.{◌≡◌, ◌+◌, ◌≤◌, ◌==◌, ◌&&◌, length, not, false, IfSome};
ghost use Rattle.std.specs.List.{position};
ghost use Rattle.sql_scan.specs.Bytes.{is_digit, is_word_part, is_in_line};
ghost use Rattle.sql_scan.specs.Lengths.{run, quoted, bracketed, starred};

use crate::bytes::{is_digit, is_in_line, is_word_part};

fn word_end(bytes: &[u8]) -> Option<usize>
    ensures exact { result ≡ position (λ b. not (is_word_part b)) bytes.now }
    ensures within { IfSome result (λ n. n ≤ length bytes.now) }
{
    bytes.iter().position(|byte| !is_word_part(*byte))
}

/// How many bytes from the front on belong to a word.
pub fn word_length(bytes: &[u8]) -> usize
    ensures exact { result ≡ run is_word_part bytes.now }
    ensures within { result ≤ length bytes.now }
{
    word_end(bytes).unwrap_or(bytes.len())
}

fn number_end(bytes: &[u8]) -> Option<usize>
    ensures exact { result ≡ position (λ b. not (is_digit b)) bytes.now }
    ensures within { IfSome result (λ n. n ≤ length bytes.now) }
{
    bytes.iter().position(|byte| !is_digit(*byte))
}

/// How many bytes from the front on are digits.
pub fn number_length(bytes: &[u8]) -> usize
    ensures exact { result ≡ run is_digit bytes.now }
    ensures within { result ≤ length bytes.now }
{
    number_end(bytes).unwrap_or(bytes.len())
}

fn line_end(bytes: &[u8]) -> Option<usize>
    ensures exact { result ≡ position (λ b. not (is_in_line b)) bytes.now }
    ensures within { IfSome result (λ n. n ≤ length bytes.now) }
{
    bytes.iter().position(|byte| !is_in_line(*byte))
}

/// How many bytes there are before the first LF.
pub fn line_length(bytes: &[u8]) -> usize
    ensures exact { result ≡ run is_in_line bytes.now }
    ensures within { result ≤ length bytes.now }
{
    line_end(bytes).unwrap_or(bytes.len())
}

fn bracket_place(bytes: &[u8]) -> Option<usize>
    ensures exact { result ≡ position (λ b. b == 93) bytes.now }
    ensures within { IfSome result (λ n. n + 1 ≤ length bytes.now) }
{
    bytes.iter().position(|byte| *byte == b']')
}

/// How many bytes there are up to and with the first closing bracket.
pub fn bracketed_length(bytes: &[u8]) -> Option<usize>
    ensures exact { result ≡ bracketed bytes.now }
    ensures within { IfSome result (λ n. n ≤ length bytes.now) }
{
    match bracket_place(bytes) {
        Some(place) => Some(place + 1),
        None => None,
    }
}

// An odd number of quotes was before this byte, which is none: the last of them was the end.
fn is_past_quote(odd: bool, byte: u8, quote: u8) -> bool
    ensures { result ≡ (odd && not (byte == quote)) }
{
    odd && byte != quote
}

fn is_odd_after(odd: bool, byte: u8, quote: u8) -> bool
    ensures { result ≡ (byte == quote && not odd) }
{
    byte == quote && !odd
}

/// How many bytes there are, after a quote, up to and with the one that ends what it begins. A doubled one stays inside.
pub fn quoted_length(bytes: &[u8], quote: u8) -> Option<usize>
    ensures exact { result ≡ quoted quote false bytes.now }
    ensures within { IfSome result (λ n. n ≤ length bytes.now) }
{
    let mut odd = false;
    for (i, byte) in bytes.iter().enumerate() {
        if is_past_quote(odd, *byte, quote) {
            return Some(i);
        }
        odd = is_odd_after(odd, *byte, quote);
    }
    if odd { Some(bytes.len()) } else { None }
}

fn ends_comment(star: bool, byte: u8) -> bool
    ensures { result ≡ (star && byte == 47) }
{
    star && byte == b'/'
}

/// How many bytes there are up to and with the first star and slash.
pub fn comment_length(bytes: &[u8]) -> Option<usize>
    ensures exact { result ≡ starred false bytes.now }
    ensures within { IfSome result (λ n. n ≤ length bytes.now) }
{
    let mut star = false;
    for (i, byte) in bytes.iter().enumerate() {
        if ends_comment(star, *byte) {
            return Some(i + 1);
        }
        star = *byte == b'*';
    }
    None
}
