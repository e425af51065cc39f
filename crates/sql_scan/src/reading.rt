ghost use Rattle.std.specs.Prelude.{◌≡◌, ◌≤◌, ◌<◌, ◌+◌, ◌++◌, ◌^◌, length, IfOk, OnOk, IfErr, Ok, MatchResult, option_to_list};
ghost use Rattle.sql_scan.specs.Statements.{is_blank, blank, keyword_in, solid, extended, finished};

use crate::draft::PartialStatement;
use crate::fault::ScanFault;
use crate::heading::{Keyword, StatementHead, keyword_of};
use crate::parameters::parameter;
use crate::pieces::StatementSpan;
use crate::token::TokenKind;

/// Nothing of a statement, at this place.
pub fn blank(at: u64) -> PartialStatement
    ensures { result ≡ blank at }
{
    PartialStatement {
        start: at,
        end: at,
        params: 0,
        heading: StatementHead::Blank,
    }
}

fn is_blank(heading: StatementHead) -> bool
    ensures { result ≡ is_blank heading }
{
    match heading {
        StatementHead::Blank => true,
        _ => false,
    }
}

fn keyword_in(kind: TokenKind, bytes: &[u8]) -> Keyword
    ensures { result ≡ keyword_in kind bytes.now }
{
    match kind {
        TokenKind::Word => keyword_of(bytes),
        _ => Keyword::Plain,
    }
}

// With a token that is no space.
#[tactic(auto, unfolding(crate::specs::Statements::solid))]
fn solid(draft: PartialStatement, at: u64, kind: TokenKind, bytes: &[u8]) -> PartialStatement
    requires { at + length bytes.now < 2 ^ 64 }
    ensures exact { result ≡ solid draft at kind bytes.now }
    ensures params { result.params ≡ draft.params }
{
    PartialStatement {
        start: if is_blank(draft.heading) {
            at
        } else {
            draft.start
        },
        end: at + bytes.len() as u64,
        params: draft.params,
        heading: draft.heading.followed_by(keyword_in(kind, bytes)),
    }
}

fn with_parameter(
    draft: PartialStatement,
    at: u64,
    bytes: &[u8],
) -> Result<PartialStatement, ScanFault>
    requires fits { at + length bytes.now < 2 ^ 64 }
    requires numbered { draft.params ≤ 32766 }
    requires some { 0 < length bytes.now }
    ensures exact { result ≡ extended draft at TokenKind.Parameter bytes.now }
    ensures numbered { IfOk result (λ d. d.params ≤ 32766) }
{
    let with_token = solid(draft, at, TokenKind::Parameter, bytes);
    match parameter(draft.params, &bytes[1..]) {
        Some(number) => Ok(PartialStatement {
            params: draft.params.max(number),
            ..with_token
        }),
        None => Err(ScanFault::Number(at)),
    }
}

/// With the token that is at this place, or the fault that it is.
#[tactic(auto, unfolding(crate::specs::Statements::extended))]
pub fn extended(
    draft: PartialStatement,
    at: u64,
    kind: TokenKind,
    bytes: &[u8],
) -> Result<PartialStatement, ScanFault>
    requires fits { at + length bytes.now < 2 ^ 64 }
    requires numbered { draft.params ≤ 32766 }
    requires some { 0 < length bytes.now }
    ensures exact { result ≡ extended draft at kind bytes.now }
    ensures numbered { IfOk result (λ d. d.params ≤ 32766) }
{
    match kind {
        TokenKind::Space | TokenKind::Comment | TokenKind::End => Ok(draft),
        TokenKind::OpenComment => Err(ScanFault::OpenComment(at)),
        TokenKind::OpenQuote => Err(ScanFault::OpenQuote(at)),
        TokenKind::Named => Err(ScanFault::Named(at)),
        TokenKind::Parameter => with_parameter(draft, at, bytes),
        TokenKind::Quoted | TokenKind::Word | TokenKind::Other => Ok(solid(draft, at, kind, bytes)),
    }
}

/// The statement, if there is one, if the rest of the text begins at the place after.
#[tactic(auto, unfolding(crate::specs::Statements::finished))]
pub fn finished(draft: PartialStatement, after: u64) -> Option<StatementSpan>
    ensures { result ≡ finished draft after }
{
    if is_blank(draft.heading) {
        return None;
    }
    Some(StatementSpan {
        start: draft.start,
        end: draft.end,
        word: draft.heading.kind(),
        params: draft.params,
        after,
    })
}
