ghost use Rattle.std.specs.Prelude.{◌≡◌};
ghost use Rattle.wire_msgs.specs.Kinds.{request_kind, cluster_kind, request_top_schema};
ghost use Rattle.wire_msgs.specs.Requests.{request_line};

use dq_base::Items;
use wire_words::{Value, WireText};

/// What a client asks.
///
/// The requests with `wide` come in two schemas: 0, and 1 where `wide` is true. A wide tuple of parameters has its number
/// in 32 bits in place of 8; a wide PREPARE may have several statements.
#[derive(Debug, Drop)]
pub enum Request {
    /// Which server leads. On the wire a word follows that isn't looked at.
    Leader,
    /// The client tells its number.
    Client {
        id: u64,
    },
    /// Opens a database by its name.
    Open {
        name: WireText,
        flags: u64,
        vfs: WireText,
    },
    /// Prepares a statement.
    Prepare {
        db: u64,
        sql: WireText,
        wide: bool,
    },
    /// Runs a prepared statement that answers no rows.
    Exec {
        db: u32,
        statement: u32,
        params: Items<Value>,
        wide: bool,
    },
    /// Runs a prepared statement that answers rows.
    Query {
        db: u32,
        statement: u32,
        params: Items<Value>,
        wide: bool,
    },
    /// Lets a prepared statement go.
    Finalize {
        db: u32,
        statement: u32,
    },
    /// Runs a text of SQL that answers no rows.
    ExecSql {
        db: u64,
        sql: WireText,
        params: Items<Value>,
        wide: bool,
    },
    /// Runs a text of SQL that answers rows.
    QuerySql {
        db: u64,
        sql: WireText,
        params: Items<Value>,
        wide: bool,
    },
    /// Ends the answer that is being given.
    Interrupt {
        db: u64,
    },
    /// Asks a server to connect to another.
    Connect {
        id: u64,
        address: WireText,
    },
    /// Adds a server to the cluster.
    Add {
        id: u64,
        address: WireText,
    },
    /// Gives a server a role: 0 for a voter, 1 for a standby, 2 for a spare.
    Assign {
        id: u64,
        role: u64,
    },
    /// Takes a server out of the cluster.
    Remove {
        id: u64,
    },
    /// Asks for the files of a database.
    Dump {
        name: WireText,
    },
    /// Asks for the servers of the cluster.
    Cluster {
        format: u64,
    },
    /// Hands leadership to a server.
    Transfer {
        id: u64,
    },
    /// Asks for the server's metadata.
    Describe {
        format: u64,
    },
    /// Sets the server's weight.
    Weight {
        weight: u64,
    },
}

/// The types of request.
#[derive(Clone, Copy, Debug, PartialEq, Eq)]
pub enum RequestKind {
    Leader,
    Client,
    Open,
    Prepare,
    Exec,
    Query,
    Finalize,
    ExecSql,
    QuerySql,
    Interrupt,
    Connect,
    Add,
    Assign,
    Remove,
    Dump,
    Cluster,
    Transfer,
    Describe,
    Weight,
}

impl RequestKind {
    /// The type that a message's number represents.
    pub fn of(kind: u8) -> Option<RequestKind>
        ensures { result ≡ request_kind kind }
    {
        match kind {
            0 => Some(RequestKind::Leader),
            1 => Some(RequestKind::Client),
            3 => Some(RequestKind::Open),
            4 => Some(RequestKind::Prepare),
            5 => Some(RequestKind::Exec),
            6 => Some(RequestKind::Query),
            7 => Some(RequestKind::Finalize),
            8 => Some(RequestKind::ExecSql),
            9 => Some(RequestKind::QuerySql),
            10 => Some(RequestKind::Interrupt),
            _ => RequestKind::of_cluster(kind),
        }
    }

    /// The type that a number above 10 represents: those of the cluster and its servers.
    fn of_cluster(kind: u8) -> Option<RequestKind>
        ensures { result ≡ cluster_kind kind }
    {
        match kind {
            11 => Some(RequestKind::Connect),
            12 => Some(RequestKind::Add),
            13 => Some(RequestKind::Assign),
            14 => Some(RequestKind::Remove),
            15 => Some(RequestKind::Dump),
            16 => Some(RequestKind::Cluster),
            17 => Some(RequestKind::Transfer),
            18 => Some(RequestKind::Describe),
            19 => Some(RequestKind::Weight),
            _ => None,
        }
    }

    /// The greatest schema in which a request of this type may come.
    pub fn top_schema(self) -> u8
        ensures { result ≡ request_top_schema self }
    {
        match self {
            RequestKind::Prepare
            | RequestKind::Exec
            | RequestKind::Query
            | RequestKind::ExecSql
            | RequestKind::QuerySql => 1,
            _ => 0,
        }
    }
}

impl Request {
    /// The number of its type.
    pub fn number(&self) -> u8
        ensures { result ≡ (request_line self.now).kind }
    {
        match self {
            Request::Leader => 0,
            Request::Client { .. } => 1,
            Request::Open { .. } => 3,
            Request::Prepare { .. } => 4,
            Request::Exec { .. } => 5,
            Request::Query { .. } => 6,
            Request::Finalize { .. } => 7,
            Request::ExecSql { .. } => 8,
            Request::QuerySql { .. } => 9,
            Request::Interrupt { .. } => 10,
            Request::Connect { .. } => 11,
            Request::Add { .. } => 12,
            Request::Assign { .. } => 13,
            Request::Remove { .. } => 14,
            Request::Dump { .. } => 15,
            Request::Cluster { .. } => 16,
            Request::Transfer { .. } => 17,
            Request::Describe { .. } => 18,
            Request::Weight { .. } => 19,
        }
    }

    /// The schema in which it is written.
    pub fn schema(&self) -> u8
        ensures { result ≡ (request_line self.now).schema }
    {
        match self {
            Request::Prepare { wide, .. }
            | Request::Exec { wide, .. }
            | Request::Query { wide, .. }
            | Request::ExecSql { wide, .. }
            | Request::QuerySql { wide, .. } => u8::from(*wide),
            _ => 0,
        }
    }
}
