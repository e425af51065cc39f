//! What the statements of a text are.

ghost use Rattle.std.specs.Prelude.{◌≡◌, ◌==◌, ℕ, List, not, length};
ghost use Rattle.session_spec.specs.Statements as rules;
ghost use Rattle.session_statements.specs.Texts.{cut_at, wants};

use sql_scan::{StatementSpan, WordKind};
use wire_words::Value;

/// Whether a statement of this kind begins or ends a transaction.
pub fn is_control(word: WordKind) -> bool
    ensures { result ≡ rules.is_control word }
{
    match word {
        WordKind::Begin { .. } | WordKind::Commit | WordKind::Rollback => true,
        WordKind::Write | WordKind::LeftOut | WordKind::Other => false,
    }
}

/// Whether statements of this kind are left out.
pub fn is_left_out(word: WordKind) -> bool
    ensures { result ≡ rules.is_left_out word }
{
    match word {
        WordKind::LeftOut => true,
        WordKind::Begin { .. }
        | WordKind::Commit
        | WordKind::Rollback
        | WordKind::Write
        | WordKind::Other => false,
    }
}

/// Whether one of the statements of a text must not be in a query or among several: it begins or ends a transaction, or is
/// left out. Looks at each once at most.
pub fn any_barred(pieces: &[StatementSpan]) -> bool
    ensures { (text : List ℕ) → result ≡ rules.any_barred (cut_at text pieces.now) }
{
    for piece in pieces {
        if is_control(piece.word) || is_left_out(piece.word) {
            return true;
        }
    }
    false
}

/// Whether the statements take exactly this many parameters together. Looks at each once at most.
pub fn params_fit(pieces: &[StatementSpan], params: &[Value]) -> bool
    ensures sum { result ≡ (wants pieces.now == length params.now) }
    ensures rule { (text : List ℕ) → rules.wrong_params (cut_at text pieces.now) params.now ≡ not result }
{
    let mut left = params.len() as u64;
    for piece in pieces {
        if piece.params > left {
            return false;
        }
        left -= piece.params;
    }
    left == 0
}
