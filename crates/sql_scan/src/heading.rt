ghost use Rattle.std.specs.Prelude.{◌≡◌};
ghost use Rattle.std.specs.Str.{str_eq_ignore_ascii_case};
ghost use Rattle.sql_scan.specs.Words.{changes_rows, changes_schema, is_write, is_left_out, keyword_of, first_heading, after_begin, kind_so_far, followed_by};

/// What kind of statement its first words make it.
#[derive(Clone, Copy, Debug, PartialEq, Eq)]
pub enum WordKind {
    /// BEGIN, DEFERRED or not, or BEGIN IMMEDIATE or EXCLUSIVE, which begins at once; TRANSACTION may follow.
    Begin { at_once: bool },
    /// COMMIT or END; TRANSACTION may follow.
    Commit,
    /// ROLLBACK; TRANSACTION may follow.
    Rollback,
    /// INSERT, REPLACE, UPDATE or DELETE; or CREATE, DROP or ALTER.
    Write,
    /// ATTACH, DETACH, PRAGMA, VACUUM, SAVEPOINT or RELEASE, or one of the first three kinds with anything else after it.
    LeftOut,
    /// Any other statement, also one that begins with no word.
    Other,
}

/// The words that a kind of statement is known by.
#[derive(Clone, Copy, PartialEq, Eq)]
pub enum Keyword {
    Begin,
    Deferred,
    /// IMMEDIATE or EXCLUSIVE.
    AtOnce,
    Transaction,
    /// COMMIT or END.
    Commit,
    Rollback,
    Write,
    LeftOut,
    /// Any other word, and what is no word.
    Plain,
}

/// How much of a statement's first words was read.
#[derive(Clone, Copy, PartialEq, Eq)]
pub enum StatementHead {
    /// Nothing but space and comments.
    Blank,
    /// BEGIN.
    Begun,
    /// Of this kind, if nothing but TRANSACTION follows.
    Open(WordKind),
    /// Of this kind, if nothing follows.
    Full(WordKind),
    /// Of this kind.
    Settled(WordKind),
}

// Whether a word is this name, with letters of either case.
fn is(word: &[u8], name: &str) -> bool
    ensures { result ≡ str_eq_ignore_ascii_case word.now name.now }
{
    word.eq_ignore_ascii_case(name.as_bytes())
}

fn changes_rows(word: &[u8]) -> bool
    ensures { result ≡ changes_rows word.now }
{
    is(word, "INSERT") || is(word, "REPLACE") || is(word, "UPDATE") || is(word, "DELETE")
}

fn changes_schema(word: &[u8]) -> bool
    ensures { result ≡ changes_schema word.now }
{
    is(word, "CREATE") || is(word, "DROP") || is(word, "ALTER")
}

#[tactic(auto, unfolding(crate::specs::Words::is_write))]
fn is_write(word: &[u8]) -> bool
    ensures { result ≡ is_write word.now }
{
    changes_rows(word) || changes_schema(word)
}

#[tactic(auto, unfolding(crate::specs::Words::is_left_out))]
fn is_left_out(word: &[u8]) -> bool
    ensures { result ≡ is_left_out word.now }
{
    is(word, "ATTACH")
        || is(word, "DETACH")
        || is(word, "PRAGMA")
        || is(word, "VACUUM")
        || is(word, "SAVEPOINT")
        || is(word, "RELEASE")
}

/// The keyword that a word is, with letters of either case.
#[tactic(auto, unfolding(crate::specs::Words::keyword_of))]
pub fn keyword_of(word: &[u8]) -> Keyword
    ensures { result ≡ keyword_of word.now }
{
    if is(word, "BEGIN") {
        Keyword::Begin
    } else if is(word, "COMMIT") || is(word, "END") {
        Keyword::Commit
    } else if is(word, "ROLLBACK") {
        Keyword::Rollback
    } else if is(word, "TRANSACTION") {
        Keyword::Transaction
    } else if is(word, "DEFERRED") {
        Keyword::Deferred
    } else if is(word, "IMMEDIATE") || is(word, "EXCLUSIVE") {
        Keyword::AtOnce
    } else if is_write(word) {
        Keyword::Write
    } else if is_left_out(word) {
        Keyword::LeftOut
    } else {
        Keyword::Plain
    }
}

fn first_heading(keyword: Keyword) -> StatementHead
    ensures { result ≡ first_heading keyword }
{
    match keyword {
        Keyword::Begin => StatementHead::Begun,
        Keyword::Commit => StatementHead::Open(WordKind::Commit),
        Keyword::Rollback => StatementHead::Open(WordKind::Rollback),
        Keyword::Write => StatementHead::Settled(WordKind::Write),
        Keyword::LeftOut => StatementHead::Settled(WordKind::LeftOut),
        _ => StatementHead::Settled(WordKind::Other),
    }
}

fn after_begin(keyword: Keyword) -> StatementHead
    ensures { result ≡ after_begin keyword }
{
    match keyword {
        Keyword::Deferred => StatementHead::Open(WordKind::Begin { at_once: false }),
        Keyword::AtOnce => StatementHead::Open(WordKind::Begin { at_once: true }),
        Keyword::Transaction => StatementHead::Full(WordKind::Begin { at_once: false }),
        _ => StatementHead::Settled(WordKind::LeftOut),
    }
}

impl StatementHead {
    /// What the words make so far.
    #[tactic(auto, unfolding(crate::specs::Words::kind_so_far))]
    pub fn kind(self) -> WordKind
        ensures { result ≡ kind_so_far self }
    {
        match self {
            StatementHead::Blank => WordKind::Other,
            StatementHead::Begun => WordKind::Begin { at_once: false },
            StatementHead::Open(kind) => kind,
            StatementHead::Full(kind) => kind,
            StatementHead::Settled(kind) => kind,
        }
    }

    /// With one word more, or something that is no word.
    #[tactic(auto, unfolding(crate::specs::Words::followed_by))]
    pub fn followed_by(self, keyword: Keyword) -> StatementHead
        ensures { result ≡ followed_by self keyword }
    {
        match self {
            StatementHead::Blank => first_heading(keyword),
            StatementHead::Begun => after_begin(keyword),
            StatementHead::Open(kind) => match keyword {
                Keyword::Transaction => StatementHead::Full(kind),
                _ => StatementHead::Settled(WordKind::LeftOut),
            },
            StatementHead::Full(_) => StatementHead::Settled(WordKind::LeftOut),
            StatementHead::Settled(kind) => StatementHead::Settled(kind),
        }
    }
}
