use dq_base::Items;
use wire_msgs::Response;
use wire_rows::Part;
use wire_words::{WireBytes, WireText};

/// What happens to a client.
#[derive(Drop)]
pub enum ClientEvent {
    /// It is to begin.
    Begin,
    /// The address that it named was dialled: there is a new connection.
    Dialled,
    /// The address that it named can't be dialled.
    NotDialled,
    /// A response came on the connection.
    Got(Response),
    /// The connection broke.
    Broken,
}

/// What a client does next.
#[derive(Drop)]
pub enum ClientAction {
    /// It dials an address, and lets go of its connection.
    Dial(WireText),
    /// It sends these bytes on its connection, and waits.
    Send(WireBytes),
    /// It waits for what happens next.
    Wait,
    /// It has ended.
    Done(ClientEnd),
}

/// How it ended for a client.
#[derive(Drop)]
pub enum ClientEnd {
    /// The statement was run, and changed this many rows.
    Result(u64),
    /// The statement was run, and answered the rows of these parts, one part after the other.
    Rows(Items<Part>),
    /// A server refused the statement, or what had to be asked before it.
    Refused { code: u64, text: WireText },
    /// No leader was found in this many tries, which are three for each address.
    NoLeader(u64),
    /// The statement was sent, and may have been run or not.
    Unknown,
}
