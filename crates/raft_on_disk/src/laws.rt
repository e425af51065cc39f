//! What a node keeps, and its twin that has compacted its log; what other servers change; and what holds of every mail.
ghost use Rattle.raft_on_disk.specs.Mails.{MailsAscend};
ghost use Rattle.raft_on_disk.specs.Telling.{ServersAlone};
ghost use Rattle.raft_on_disk.specs.Twins.{TwinsFollow, TwinsKeep, TwinsStop};

/// A node of Raft's world keeps what its twin keeps, which makes the same steps without what is compacted; and what a load
/// may answer after a stopped step of the twin, it may after one of the node. If no snapshot comes by a step, its whole log
/// follows what the twin says of its own.
pub fn twins_keep_alike()
    ensures keep { TwinsKeep }
    ensures stop { TwinsStop }
    ensures follow { TwinsFollow }
{}

/// Whatever messages a mail has, its Appends and Installs go one to a peer, ascending by peer.
pub fn mails_ascend()
    ensures { MailsAscend }
{}

/// A node that doesn't lead and is given servers changes nothing else: it says nothing, and nothing is to be kept.
pub fn servers_change_nothing_else()
    ensures { ServersAlone }
{}
