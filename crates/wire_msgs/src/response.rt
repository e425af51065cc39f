ghost use Rattle.std.specs.Prelude.{◌≡◌};
ghost use Rattle.wire_msgs.specs.Kinds.{response_kind, response_top_schema};
ghost use Rattle.wire_msgs.specs.Responses.{response_line};

use dq_base::Items;
use wire_words::{WireBytes, WireText};

/// A server of a cluster, as a list of servers tells it.
#[derive(Debug, Drop)]
pub struct NodeInfo {
    pub id: u64,
    pub address: WireText,
    /// 0 for a voter, 1 for a standby, 2 for a spare; none if the list tells no roles.
    pub role: Option<u64>,
}

/// A file of a database.
#[derive(Debug, Drop)]
pub struct File {
    pub name: WireText,
    pub content: WireBytes,
}

/// What a server answers.
#[derive(Debug, Drop)]
pub enum Response {
    /// The request was refused.
    Failure {
        code: u64,
        message: WireText,
    },
    /// The server that leads, by its id and its address; id 0 and an empty address where none is known.
    Server {
        id: u64,
        address: WireText,
    },
    /// The client is known from now on. A client that is silent for this many milliseconds may be dropped.
    Welcome {
        heartbeat_timeout: u64,
    },
    /// The servers of the cluster: in format 0 without roles, in format 1 with them.
    Servers {
        servers: Items<NodeInfo>,
    },
    /// The database is open under this number.
    Db {
        id: u32,
    },
    /// The statement is prepared under this number, and has this many parameters. In schema 1 the place in the text follows
    /// at which the rest begins.
    Stmt {
        db: u32,
        id: u32,
        params: u64,
        tail: Option<u64>,
    },
    /// The statement was run.
    Result {
        last_insert_id: u64,
        rows_affected: u64,
    },
    /// Rows: a finished body of whole words.
    Rows {
        body: WireBytes,
    },
    /// It is done, and there is nothing to tell.
    Empty,
    /// The files of a database.
    Files {
        files: Items<File>,
    },
    /// The server's metadata.
    Metadata {
        failure_domain: u64,
        weight: u64,
    },
}

/// The types of response.
#[derive(Clone, Copy, Debug, PartialEq, Eq)]
pub enum ResponseKind {
    Failure,
    Server,
    Welcome,
    Servers,
    Db,
    Stmt,
    Result,
    Rows,
    Empty,
    Files,
    Metadata,
}

impl ResponseKind {
    /// The type that a message's number represents.
    pub fn of(kind: u8) -> Option<ResponseKind>
        ensures { result ≡ response_kind kind }
    {
        match kind {
            0 => Some(ResponseKind::Failure),
            1 => Some(ResponseKind::Server),
            2 => Some(ResponseKind::Welcome),
            3 => Some(ResponseKind::Servers),
            4 => Some(ResponseKind::Db),
            5 => Some(ResponseKind::Stmt),
            6 => Some(ResponseKind::Result),
            7 => Some(ResponseKind::Rows),
            8 => Some(ResponseKind::Empty),
            9 => Some(ResponseKind::Files),
            10 => Some(ResponseKind::Metadata),
            _ => None,
        }
    }

    /// The greatest schema in which a response of this type may come.
    pub fn top_schema(self) -> u8
        ensures { result ≡ response_top_schema self }
    {
        match self {
            ResponseKind::Stmt => 1,
            _ => 0,
        }
    }
}

impl Response {
    /// The number of its type.
    pub fn number(&self) -> u8
        ensures { result ≡ (response_line self.now).kind }
    {
        match self {
            Response::Failure { .. } => 0,
            Response::Server { .. } => 1,
            Response::Welcome { .. } => 2,
            Response::Servers { .. } => 3,
            Response::Db { .. } => 4,
            Response::Stmt { .. } => 5,
            Response::Result { .. } => 6,
            Response::Rows { .. } => 7,
            Response::Empty => 8,
            Response::Files { .. } => 9,
            Response::Metadata { .. } => 10,
        }
    }

    /// The schema in which it is written.
    pub fn schema(&self) -> u8
        ensures { result ≡ (response_line self.now).schema }
    {
        match self {
            Response::Stmt { tail: Some(_), .. } => 1,
            _ => 0,
        }
    }
}
