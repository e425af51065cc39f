ghost use Rattle.std.specs.Prelude.{◌≡◌, ◌≤◌, ◌<◌, ◌+◌, ◌++◌, ◌^◌, length, IfOk, OnOk, IfErr, Err, MatchResult, option_to_list, List, All, AllPairs};
ghost use Rattle.sql_scan.specs.declared.fault.ScanFault.TheVariants.{NoMemory};
ghost use Rattle.sql_scan.specs.Statements.{Gives, Moves, scan_of, statements_of};
ghost use Rattle.sql_scan.specs.Tokens.{Token};
ghost use Rattle.sql_scan.specs.Grammar.{Cuts};
ghost use Rattle.sql_scan.specs.Places.{StandsIn, StandsBefore};

use crate::draft::PartialStatement;
use crate::fault::ScanFault;
use crate::pieces::{Scan, StatementSpan};
use crate::reading::{blank, extended, finished};
use crate::token::{TokenKind, first_token};
use dq_base::Items;
use std::alloc::Global;

fn add(statements: &mut Vec<StatementSpan>, piece: Option<StatementSpan>) -> Result<(), ScanFault>
    ensures ok { OnOk result (statements.new.items ≡ statements.old.items ++ option_to_list piece) }
    ensures memory { IfErr result (λ fault. fault ≡ NoMemory) }
{
    if let Some(piece) = piece {
        statements.push(piece)?;
    }
    Ok(())
}

// Takes the token at this place: the statement that it ends, and what there is of the next one then.
fn advance(
    statements: &mut Vec<StatementSpan>,
    draft: PartialStatement,
    at: u64,
    kind: TokenKind,
    bytes: &[u8],
) -> Result<PartialStatement, ScanFault>
    requires fits { at + length bytes.now < 2 ^ 64 }
    requires numbered { draft.params ≤ 32766 }
    requires some { 0 < length bytes.now }
    ensures exact { Moves draft at kind bytes.now statements.old.items statements.new.items result }
    ensures numbered { IfOk result (λ d. d.params ≤ 32766) }
{
    match kind {
        TokenKind::End => {
            let after = at + bytes.len() as u64;
            add(statements, finished(draft, after))?;
            Ok(blank(after))
        }
        _ => extended(draft, at, kind, bytes),
    }
}

fn statements_of(alloc: Global, bytes: &[u8]) -> Result<Vec<StatementSpan>, ScanFault>
    ensures exact { Gives (λ statements. statements.items) result (scan_of bytes.now) }
{
    let mut statements = Vec::new(alloc);
    let mut draft = blank(0);
    let mut place = 0;
    'tokens: while let Some(first) = first_token(&bytes[place..]) {
        let end = place + first.1;
        let token = &bytes[place..end];
        draft = advance(&mut statements, draft, place as u64, first.0, token)?;
        place = end;
    }
    add(&mut statements, finished(draft, place as u64))?;
    Ok(statements)
}

fn scan_bytes(alloc: Global, bytes: &[u8]) -> Result<Scan, ScanFault>
    ensures exact { Gives (λ scan. scan.statements) result (scan_of bytes.now) }
{
    let statements = statements_of(alloc, bytes)?;
    Ok(Scan {
        statements: Items::new(statements),
    })
}

/// Finds the statements of a text, in one pass, in time in proportion to the text and with one record for each statement.
/// The first fault in the text comes with its place: `OpenQuote` and `OpenComment` where a quoted piece or a comment has no
/// end, `Named` where a colon, an at sign or a dollar sign is before a word, and `Number` where a parameter's number
/// isn't 1 to 32,766. `NoMemory` means out of memory for the records.
pub fn scan(alloc: Global, text: &str) -> Result<Scan, ScanFault>
    // What the text gives, or its first fault.
    ensures exact { Gives (λ scan. scan.statements) result (scan_of text.now) }

    // What any tokens give that the text is split into.
    ensures cut { (tokens : List Token) → Cuts text.now tokens → Gives (λ scan. scan.statements) result (statements_of tokens) }

    // The statements are slices of the text, one after the other.
    ensures places { IfOk result (λ scan. All (StandsIn text.now) scan.statements) }
    ensures order { IfOk result (λ scan. AllPairs StandsBefore scan.statements) }
{
    scan_bytes(alloc, text.as_bytes())
}
