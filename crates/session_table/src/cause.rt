//! Why a request is refused.

ghost use Rattle.std.specs.Prelude.{◌≡◌, IfOk};
ghost use Rattle.session_table.specs.Named.{cause_named};
ghost use Rattle.session_spec.specs.Causes.{code, message, failure, unread_cause, scan_cause, engine_cause};

use sql_engine::EngineFault;
use sql_scan::ScanFault;
use std::alloc::{AllocError, Global};
use wire_msgs::{MsgFault, Response};
use wire_words::{WireText, WordFault};

/// Why a request is refused.
#[derive(Clone, Copy, Debug, PartialEq, Eq)]
pub enum Cause {
    /// It needs a leader that serves, and this node is none.
    NotLeader,
    /// Its entries were appended, and the node left that term's leadership before it applied them.
    LeadershipLost,
    /// The message doesn't read.
    BadRequest,
    /// A parameter is a float, which is not carried.
    FloatParameter,
    /// The answer has a float, which is not carried.
    FloatColumn,
    /// Another session has the database's write lock.
    Locked,
    /// The connection has a database already.
    DatabaseOpen,
    /// Another change of the cluster is pending.
    ChangeInFlight,
    /// The transaction's image is no longer the newest.
    OutOfDate,
    /// The number or the name is no database's.
    NoDatabase,
    /// The number is no statement's.
    NoStatement,
    /// The pages of all databases would pass the limit.
    DatabaseFull,
    /// There would be a 17th database.
    TooManyDatabases,
    /// There would be a 65th statement.
    TooManyStatements,
    /// The log is at its end.
    LogFull,
    /// The bodies of the answer pass the limit.
    AnswerTooBig,
    /// The engine refuses: a constraint is broken.
    ConstraintFailed,
    /// The engine refuses the statement for another reason.
    SqlError,
    /// The engine doesn't open the files.
    NotADatabase,
    /// A quoted piece has no end.
    OpenQuote,
    /// A comment has no end.
    OpenComment,
    /// A parameter has a name.
    NamedParameter,
    /// A parameter's number is out of its range.
    BadParameterNumber,
    /// A word that is left out, or one that begins or ends a transaction where it must not stand.
    NotAllowed,
    /// There isn't exactly one statement, or in a wide PREPARE not one at least.
    OneStatementWanted,
    /// The statements want another number of parameters.
    WrongParameters,
    /// BEGIN inside a transaction.
    InTransaction,
    /// COMMIT, END or ROLLBACK outside of one.
    NoTransaction,
    /// A text of the answer holds a NUL.
    NulInText,
    /// A text of the answer isn't UTF-8.
    NotUtf8,
    /// The text is no name of a database.
    BadName,
    /// The number or the address is not one of a server that the request may name.
    BadNode,
    /// The number is no role that the request may name.
    BadRole,
    /// The number is no format.
    BadFormat,
    /// The server that is to lead doesn't have the whole log.
    TargetBehind,
    /// The server is this node, which would have to hand over its leadership first.
    TransferFirst,
    /// There would be an eighth voter.
    TooManyVoters,
    /// The engine had no memory.
    OutOfMemory,
}

impl Cause {
    /// The code of the refusal.
    pub fn code(self) -> u64
        ensures { result ≡ code (cause_named self) }
    {
        match self {
            Cause::NotLeader => 10250,
            Cause::LeadershipLost => 10506,
            Cause::BadRequest => 1005,
            Cause::FloatParameter | Cause::FloatColumn => 20,
            Cause::Locked | Cause::DatabaseOpen | Cause::ChangeInFlight => 5,
            Cause::OutOfDate => 517,
            Cause::NoDatabase | Cause::NoStatement => 12,
            Cause::DatabaseFull
            | Cause::TooManyDatabases
            | Cause::TooManyStatements
            | Cause::LogFull => 13,
            Cause::AnswerTooBig => 18,
            Cause::ConstraintFailed => 19,
            Cause::NotADatabase => 26,
            Cause::OutOfMemory => 7,
            Cause::OpenQuote
            | Cause::OpenComment
            | Cause::NamedParameter
            | Cause::BadParameterNumber
            | Cause::NotAllowed
            | Cause::OneStatementWanted
            | Cause::WrongParameters
            | Cause::InTransaction
            | Cause::NoTransaction
            | Cause::BadName
            | Cause::BadNode
            | Cause::BadRole
            | Cause::BadFormat
            | Cause::TargetBehind
            | Cause::TransferFirst
            | Cause::TooManyVoters
            | Cause::SqlError
            | Cause::NotUtf8
            | Cause::NulInText => 1,
        }
    }

    /// The text of the refusal.
    pub fn text(self) -> &'static str
        ensures { result.now ≡ message (cause_named self) }
    {
        match self {
            Cause::NotLeader => "not leader",
            Cause::LeadershipLost => "leadership lost",
            Cause::BadRequest => "bad request",
            Cause::FloatParameter => "float parameter",
            Cause::FloatColumn => "float column",
            Cause::Locked => "database is locked",
            Cause::DatabaseOpen => "a database for this connection is already open",
            Cause::ChangeInFlight => "a cluster change is in progress",
            Cause::OutOfDate => "snapshot is out of date",
            Cause::NoDatabase => "no such database",
            Cause::NoStatement => "no such statement",
            Cause::DatabaseFull => "database is full",
            Cause::TooManyDatabases => "too many databases",
            Cause::TooManyStatements => "too many statements",
            Cause::LogFull => "log is full",
            Cause::AnswerTooBig => "answer too big",
            Cause::ConstraintFailed => "constraint failed",
            Cause::SqlError => "SQL error",
            Cause::NotADatabase => "file is not a database",
            Cause::OpenQuote => "open quote",
            Cause::OpenComment => "open comment",
            Cause::NamedParameter => "named parameter",
            Cause::BadParameterNumber => "bad parameter number",
            Cause::NotAllowed => "statement not allowed",
            Cause::OneStatementWanted => "one statement wanted",
            Cause::WrongParameters => "wrong parameter count",
            Cause::InTransaction => "already in a transaction",
            Cause::NoTransaction => "no transaction",
            Cause::NulInText => "NUL in text",
            Cause::NotUtf8 => "text is not UTF-8",
            Cause::BadName => "bad name",
            Cause::BadNode => "bad node",
            Cause::BadRole => "bad role",
            Cause::BadFormat => "bad format",
            Cause::TargetBehind => "target behind",
            Cause::TransferFirst => "transfer first",
            Cause::TooManyVoters => "too many voters",
            Cause::OutOfMemory => "out of memory",
        }
    }

    /// The refusal as it is sent.
    pub fn failure(self, alloc: Global) -> Result<Response, AllocError>
        ensures { IfOk result (λ response. response ≡ failure (cause_named self)) }
    {
        Ok(Response::Failure {
            code: self.code(),
            message: WireText::new(String::from_str(alloc, self.text())?),
        })
    }

    fn of_word(fault: WordFault) -> Cause
        ensures { cause_named result ≡ unread_cause (MsgFault.Word fault) }
    {
        match fault {
            WordFault::Float(_) => Cause::FloatParameter,
            WordFault::Short(_)
            | WordFault::NoNul(_)
            | WordFault::NotUtf8(_)
            | WordFault::Pad(_)
            | WordFault::BadCode(_, _)
            | WordFault::NoMemory => Cause::BadRequest,
        }
    }

    /// Why a message that doesn't read as a request is refused.
    pub fn of_unread(fault: MsgFault) -> Cause
        ensures { cause_named result ≡ unread_cause fault }
    {
        match fault {
            MsgFault::Word(word) => Cause::of_word(word),
            MsgFault::Kind(_) | MsgFault::Schema(_, _) | MsgFault::Tail(_) | MsgFault::NoMemory =>
                Cause::BadRequest,
        }
    }

    /// Why a text that can't be split into statements is refused.
    pub fn of_scan(fault: ScanFault) -> Cause
        ensures { cause_named result ≡ scan_cause fault }
    {
        match fault {
            ScanFault::OpenQuote(_) => Cause::OpenQuote,
            ScanFault::OpenComment(_) => Cause::OpenComment,
            ScanFault::Named(_) => Cause::NamedParameter,
            ScanFault::Number(_) => Cause::BadParameterNumber,
            ScanFault::NoMemory => Cause::OutOfMemory,
        }
    }

    /// Why a statement that an engine refuses is refused.
    pub fn of_engine(fault: EngineFault) -> Cause
        ensures { cause_named result ≡ engine_cause fault }
    {
        match fault {
            EngineFault::Constraint => Cause::ConstraintFailed,
            EngineFault::Sql => Cause::SqlError,
            EngineFault::Float(_, _) => Cause::FloatColumn,
            EngineFault::NotText(_, _) => Cause::NotUtf8,
            EngineFault::Unopened => Cause::NotADatabase,
            EngineFault::Cut | EngineFault::NoMemory => Cause::OutOfMemory,
        }
    }
}
