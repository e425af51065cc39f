//! What a client is told for each cause of a refusal.

use session_table::Cause;
use std::test::Fail;

/// Each cause with its code and text.
const CAUSES: &[(Cause, u64, &str)] = &[
    (Cause::NotLeader, 10250, "not leader"),
    (Cause::LeadershipLost, 10506, "leadership lost"),
    (Cause::BadRequest, 1005, "bad request"),
    (Cause::FloatParameter, 20, "float parameter"),
    (Cause::FloatColumn, 20, "float column"),
    (Cause::Locked, 5, "database is locked"),
    (
        Cause::DatabaseOpen,
        5,
        "a database for this connection is already open",
    ),
    (Cause::ChangeInFlight, 5, "a cluster change is in progress"),
    (Cause::OutOfDate, 517, "snapshot is out of date"),
    (Cause::NoDatabase, 12, "no such database"),
    (Cause::NoStatement, 12, "no such statement"),
    (Cause::DatabaseFull, 13, "database is full"),
    (Cause::TooManyDatabases, 13, "too many databases"),
    (Cause::TooManyStatements, 13, "too many statements"),
    (Cause::LogFull, 13, "log is full"),
    (Cause::AnswerTooBig, 18, "answer too big"),
    (Cause::ConstraintFailed, 19, "constraint failed"),
    (Cause::SqlError, 1, "SQL error"),
    (Cause::NotADatabase, 26, "file is not a database"),
    (Cause::OpenQuote, 1, "open quote"),
    (Cause::OpenComment, 1, "open comment"),
    (Cause::NamedParameter, 1, "named parameter"),
    (Cause::BadParameterNumber, 1, "bad parameter number"),
    (Cause::NotAllowed, 1, "statement not allowed"),
    (Cause::OneStatementWanted, 1, "one statement wanted"),
    (Cause::WrongParameters, 1, "wrong parameter count"),
    (Cause::InTransaction, 1, "already in a transaction"),
    (Cause::NoTransaction, 1, "no transaction"),
    (Cause::NulInText, 1, "NUL in text"),
    (Cause::NotUtf8, 1, "text is not UTF-8"),
    (Cause::BadName, 1, "bad name"),
    (Cause::BadNode, 1, "bad node"),
    (Cause::BadRole, 1, "bad role"),
    (Cause::BadFormat, 1, "bad format"),
    (Cause::TargetBehind, 1, "target behind"),
    (Cause::TransferFirst, 1, "transfer first"),
    (Cause::TooManyVoters, 1, "too many voters"),
    (Cause::OutOfMemory, 7, "out of memory"),
];

#[test]
fn each_cause_has_its_code_and_text(rt: HostRuntime) -> Result<(), Fail> {
    for &(cause, code, text) in CAUSES {
        assert_eq!(rt; cause.code(), code);
        assert_eq!(rt; cause.text(), text);
    }
    Ok(())
}
