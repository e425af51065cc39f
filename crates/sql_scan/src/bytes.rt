ghost use Rattle.std.specs.Prelude.{◌≡◌};
ghost use Rattle.sql_scan.specs.Bytes.{is_space, is_digit, is_letter, is_word_start, is_word_part, is_sigil, is_quote, is_in_line};

/// Space, tab, LF, form feed and CR.
#[tactic(auto, unfolding(crate::specs::Bytes::is_space))]
pub fn is_space(byte: u8) -> bool
    ensures { result ≡ is_space byte }
{
    byte == b' ' || byte == b'\n' || byte == b'\t' || byte == b'\r' || byte == 12
}

/// An ASCII digit.
#[tactic(auto, unfolding(crate::specs::Bytes::is_digit))]
pub fn is_digit(byte: u8) -> bool
    ensures { result ≡ is_digit byte }
{
    b'0' <= byte && byte <= b'9'
}

/// An ASCII letter.
#[tactic(auto, unfolding(crate::specs::Bytes::is_letter))]
pub fn is_letter(byte: u8) -> bool
    ensures { result ≡ is_letter byte }
{
    (b'A' <= byte && byte <= b'Z') || (b'a' <= byte && byte <= b'z')
}

/// A word begins with a letter, a digit, an underscore, or a byte above 127.
#[tactic(auto, unfolding(crate::specs::Bytes::is_word_start))]
pub fn is_word_start(byte: u8) -> bool
    ensures { result ≡ is_word_start byte }
{
    is_letter(byte) || is_digit(byte) || byte == b'_' || byte >= 128
}

/// A word continues with what begins one and with dollar signs.
#[tactic(auto, unfolding(crate::specs::Bytes::is_word_part))]
pub fn is_word_part(byte: u8) -> bool
    ensures { result ≡ is_word_part byte }
{
    is_word_start(byte) || byte == b'$'
}

/// Before a word these make a parameter with a name.
#[tactic(auto, unfolding(crate::specs::Bytes::is_sigil))]
pub fn is_sigil(byte: u8) -> bool
    ensures { result ≡ is_sigil byte }
{
    byte == b':' || byte == b'@' || byte == b'$'
}

/// Quotes that end with themselves, and that may stand inside when they are doubled.
#[tactic(auto, unfolding(crate::specs::Bytes::is_quote))]
pub fn is_quote(byte: u8) -> bool
    ensures { result ≡ is_quote byte }
{
    byte == b'\'' || byte == b'"' || byte == b'`'
}

/// What doesn't end a line.
#[tactic(auto, unfolding(crate::specs::Bytes::is_in_line))]
pub fn is_in_line(byte: u8) -> bool
    ensures { result ≡ is_in_line byte }
{
    byte != b'\n'
}
