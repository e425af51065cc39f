//! Wrong steps of a session, and that the laws refuse them.

ghost use Rattle.client_view_safety.specs.Wrong.{
  NoEmptyForDump,
  NoLostBegin,
  NoOpenAfterCommit,
  NoOtherDatabase,
  NoOtherStatement,
  NoStatementAfterFinalize,
  NoStatementForWrongMessage,
};

/// Refuses a statement that is not the one that the message asks for.
pub fn refuses_another_statement()
    ensures { NoOtherStatement }
{}

/// Refuses a statement for a message that can't be right.
pub fn refuses_a_statement_for_a_wrong_message()
    ensures { NoStatementForWrongMessage }
{}

/// Refuses EMPTY as the answer to DUMP.
pub fn refuses_empty_for_dump()
    ensures { NoEmptyForDump }
{}

/// Refuses an OPEN that leaves its session with another database.
pub fn refuses_another_database()
    ensures { NoOtherDatabase }
{}

/// Refuses a BEGIN that is answered and leaves no transaction.
pub fn refuses_a_lost_begin()
    ensures { NoLostBegin }
{}

/// Refuses a COMMIT that is answered and leaves the transaction open.
pub fn refuses_a_transaction_after_commit()
    ensures { NoOpenAfterCommit }
{}

/// Refuses a FINALIZE that is answered and leaves the statement.
pub fn refuses_a_statement_after_finalize()
    ensures { NoStatementAfterFinalize }
{}
