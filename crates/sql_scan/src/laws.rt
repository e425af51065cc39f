ghost use Rattle.std.specs.Prelude.{◌≡◌, ◌+◌, ℕ, List, [], ◌∷◌, ◌++◌, length, Ok, All, AllPairs, IsUtf8};
ghost use Rattle.sql_scan.specs.declared.heading.Keyword.{Keyword};
ghost use Rattle.sql_scan.specs.declared.pieces.StatementSpan.{StatementSpan};
ghost use Rattle.sql_scan.specs.declared.token.TokenKind.TheVariants.{End};
ghost use Rattle.sql_scan.specs.Tokens.{Token, tokens_of};
ghost use Rattle.sql_scan.specs.Grammar.{Cuts, joined};
ghost use Rattle.sql_scan.specs.Statements.{blank, with_front, statements_from, statements_of, scan_of};
ghost use Rattle.sql_scan.specs.Sentences.{AreGaps, Sentence, all_tokens, IsSentence, piece_of};
ghost use Rattle.sql_scan.specs.Words.{kind_so_far};
ghost use Rattle.sql_scan.specs.Kinds.{kind_of, heading_of};
ghost use Rattle.sql_scan.specs.Places.{StandsIn, StandsBefore};

/// Each text is split into tokens in exactly one way, and the tokens put together are the text. A fault is a token too, as
/// a quoted piece without an end, so this holds of every text.
pub fn texts_are_cut_in_one_way()
    ensures cut { (text : List ℕ) → Cuts text (tokens_of text) }
    ensures only { (text : List ℕ) (tokens : List Token) → Cuts text tokens → tokens ≡ tokens_of text }
{}

/// What a text gives is what the tokens make that it is split into.
pub fn statements_are_of_tokens()
    ensures { (text : List ℕ) (tokens : List Token) → Cuts text tokens → scan_of text ≡ statements_of tokens }
{}

/// The statements of a text are in it, one after the other, at places where the text may be split.
pub fn statements_stand_in_their_text()
    ensures places { (text : List ℕ) (pieces : List StatementSpan) → IsUtf8 text → scan_of text ≡ Ok pieces → All (StandsIn text) pieces }
    ensures order { (text : List ℕ) (pieces : List StatementSpan) → IsUtf8 text → scan_of text ≡ Ok pieces → AllPairs StandsBefore pieces }
{}

/// Reading a statement's words one after the other gives the kind that all of them make: BEGIN may be followed by DEFERRED,
/// IMMEDIATE or EXCLUSIVE and then by TRANSACTION; COMMIT, END and ROLLBACK by TRANSACTION; with anything else after them
/// they are left out.
pub fn kinds_are_of_all_words()
    ensures { (words : List Keyword) → kind_so_far (heading_of words) ≡ kind_of words }
{}

/// What a statement's tokens make of it, from a place on: with a `;` after them, and at the end of the text. Space and
/// comments around it are left out, the kind is that of all its words, and the count the greatest number of its parameters.
pub fn statements_are_of_their_tokens()
    ensures ended { (at greatest : ℕ) (sentence : Sentence) (stop : Token) (more : List Token) → IsSentence sentence greatest → stop.kind ≡ End →
        let there = at + length (joined (all_tokens sentence)) + length stop.bytes in
        statements_from at (blank at) (all_tokens sentence ++ stop ∷ more) ≡
        with_front (piece_of at sentence greatest there ∷ []) (statements_from there (blank there) more) }
    ensures last { (at greatest : ℕ) (sentence : Sentence) → IsSentence sentence greatest →
        statements_from at (blank at) (all_tokens sentence) ≡ Ok (piece_of at sentence greatest (at + length (joined (all_tokens sentence))) ∷ []) }
    ensures none { (at : ℕ) (gaps : List Token) → AreGaps gaps → statements_from at (blank at) gaps ≡ Ok [] }
    ensures none_more { (at : ℕ) (gaps : List Token) (stop : Token) (more : List Token) → AreGaps gaps → stop.kind ≡ End →
        let there = at + length (joined gaps) + length stop.bytes in
        statements_from at (blank at) (gaps ++ stop ∷ more) ≡ statements_from there (blank there) more }
{}
