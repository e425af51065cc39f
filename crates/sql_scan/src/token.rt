ghost use Rattle.std.specs.Prelude.{◌≡◌, ◌+◌, ◌<◌, ◌≤◌, ◌^◌, length, IfSome};
ghost use Rattle.sql_scan.specs.Tokens.{closed, sigil_token, dash_token, slash_token, sign_token, token_of, first_token};

use crate::bytes::{is_quote, is_sigil, is_space, is_word_start};
use crate::lengths::{
    bracketed_length, comment_length, line_length, number_length, quoted_length, word_length,
};

/// What a token of a text is.
#[derive(Clone, Copy, PartialEq, Eq)]
pub enum TokenKind {
    /// A byte of space.
    Space,
    /// A comment, without the LF after a line's.
    Comment,
    /// A comment without an end.
    OpenComment,
    /// A quoted piece with its quotes.
    Quoted,
    /// A quoted piece without an end.
    OpenQuote,
    /// A keyword, a name or a number.
    Word,
    /// A question mark and the digits after it.
    Parameter,
    /// A parameter with a name.
    Named,
    /// The end of a statement.
    End,
    /// Any other byte.
    Other,
}

fn closed(
    lead: usize,
    whole: TokenKind,
    unended: TokenKind,
    bytes: &[u8],
    end: Option<usize>,
) -> (TokenKind, usize)
    requires lead { lead ≤ 2 }
    requires inside { IfSome end (λ n. n ≤ length bytes.now) }
    ensures exact { result ≡ closed lead whole unended bytes.now end }
    ensures some { lead ≤ result.1 }
    ensures within { result.1 ≤ lead + length bytes.now }
{
    match end {
        Some(length) => (whole, lead + length),
        None => (unended, lead + bytes.len()),
    }
}

#[tactic(auto, unfolding(crate::specs::Tokens::sigil_token))]
fn sigil_token(bytes: &[u8]) -> (TokenKind, usize)
    ensures exact { result ≡ sigil_token bytes.now }
    ensures some { 0 < result.1 }
    ensures within { result.1 ≤ length bytes.now + 1 }
{
    match bytes {
        [first, rest @ ..] => {
            if is_word_start(*first) {
                (TokenKind::Named, 2 + word_length(rest))
            } else {
                (TokenKind::Other, 1)
            }
        }
        [] => (TokenKind::Other, 1),
    }
}

#[tactic(auto, unfolding(crate::specs::Tokens::dash_token))]
fn dash_token(bytes: &[u8]) -> (TokenKind, usize)
    ensures exact { result ≡ dash_token bytes.now }
    ensures some { 0 < result.1 }
    ensures within { result.1 ≤ length bytes.now + 1 }
{
    match bytes {
        [b'-', rest @ ..] => (TokenKind::Comment, 2 + line_length(rest)),
        _ => (TokenKind::Other, 1),
    }
}

#[tactic(auto, unfolding(crate::specs::Tokens::slash_token))]
fn slash_token(bytes: &[u8]) -> (TokenKind, usize)
    ensures exact { result ≡ slash_token bytes.now }
    ensures some { 0 < result.1 }
    ensures within { result.1 ≤ length bytes.now + 1 }
{
    match bytes {
        [b'*', rest @ ..] => closed(
            2,
            TokenKind::Comment,
            TokenKind::OpenComment,
            rest,
            comment_length(rest),
        ),
        _ => (TokenKind::Other, 1),
    }
}

#[tactic(auto, unfolding(crate::specs::Tokens::sign_token))]
fn sign_token(first: u8, bytes: &[u8]) -> (TokenKind, usize)
    ensures exact { result ≡ sign_token first bytes.now }
    ensures some { 0 < result.1 }
    ensures within { result.1 ≤ length bytes.now + 1 }
{
    if first == b'?' {
        (TokenKind::Parameter, 1 + number_length(bytes))
    } else if first == b';' {
        (TokenKind::End, 1)
    } else if first == b'[' {
        let end = bracketed_length(bytes);
        closed(1, TokenKind::Quoted, TokenKind::OpenQuote, bytes, end)
    } else if first == b'-' {
        dash_token(bytes)
    } else if first == b'/' {
        slash_token(bytes)
    } else {
        (TokenKind::Other, 1)
    }
}

#[tactic(auto, unfolding(crate::specs::Tokens::token_of))]
fn token_of(first: u8, bytes: &[u8]) -> (TokenKind, usize)
    ensures exact { result ≡ token_of first bytes.now }
    ensures some { 0 < result.1 }
    ensures within { result.1 ≤ length bytes.now + 1 }
{
    if is_space(first) {
        (TokenKind::Space, 1)
    } else if is_word_start(first) {
        (TokenKind::Word, 1 + word_length(bytes))
    } else if is_quote(first) {
        let end = quoted_length(bytes, first);
        closed(1, TokenKind::Quoted, TokenKind::OpenQuote, bytes, end)
    } else if is_sigil(first) {
        sigil_token(bytes)
    } else {
        sign_token(first, bytes)
    }
}

/// The first token, if there is one: what it is, and how many bytes it has.
pub fn first_token(bytes: &[u8]) -> Option<(TokenKind, usize)>
    ensures exact { result ≡ first_token bytes.now }
    ensures some { IfSome result (λ token. 0 < token.1) }
    ensures within { IfSome result (λ token. token.1 ≤ length bytes.now) }
{
    match bytes {
        [first, rest @ ..] => Some(token_of(*first, rest)),
        [] => None,
    }
}
