//! Two files hold at most one database. Nothing here runs.

ghost use Rattle.sqlite_facts.specs.Once.{HoldOne};

/// If two files hold a database, they hold no other.
pub fn one_database()
    ensures { HoldOne }
{}
