//! What is known of nodes that start.

ghost use Rattle.node_core.specs.Heard.{HeardBegins, HeardOn};
ghost use Rattle.node_core.specs.Sent.{BeginsApart, CarryingBegins, CarryingHears, CarryingSends, CarryingStays, EventsStayApart, MovesStayApart};
ghost use Rattle.node_core.specs.Starting.{BegunStands};

use client_connection::peer_pieces_are_joined;
use node_spec::starts_tell_voters;

/// A law: what a start makes of what was kept represents each node that had stored it, as it is loaded, and a life that
/// begins; and it was given the voters that the whole log gives, whose configurations it has.
pub fn starts_stand()
    ensures { BegunStands }
{
    starts_tell_voters();
}

/// A law: what a connection has asked of a node, from the step in which it came on, are the requests that all bytes encode which have
/// come on it and were read, in whatever pieces and steps they came; all are read, unless one has no room.
pub fn requests_are_spelled()
    ensures begins { HeardBegins }
    ensures on { HeardOn }
{}

/// A law: each connection is a client's or carries the messages of one peer; and of the latter each message that happens at Raft is
/// the next one of those that all bytes encode which have come on it, and its peer has sent it, in whatever pieces and steps they came.
pub fn letters_are_spelled()
    ensures apart { BeginsApart × EventsStayApart × MovesStayApart }
    ensures begins { CarryingBegins }
    ensures hears { CarryingHears }
    ensures sends { CarryingSends }
    ensures stays { CarryingStays }
{
    peer_pieces_are_joined();
}
