//! What there is besides the nodes of a script, and what comes of an event at a node there: it is noted and said.

ghost use Rattle.std.specs.Prelude.{◌≡◌, ◌++◌, ◌∷◌, [], ℕ, Bool, List, None, map, suc, length, IfOk, OnOk};
ghost use Rattle.script_cluster.specs.declared.cluster_line.ClusterLine.TheVariants as says;
ghost use Rattle.script_cluster.specs.Outcomes.{Ending};
ghost use Rattle.script_cluster.specs.Places.{TellsEnding, outs_of};
ghost use Rattle.script_cluster.specs.Seen.{answers_in, loaded_in};
ghost use Rattle.script_cluster.specs.World.{Place, replies_said, closed_said, messages_said, without_all, without_node, closings};
ghost use Rattle.script_cluster.specs.Holding.{Falls, IsNothing, SaysOuts, Tells, note_of};

use crate::cluster_line::{ClusterLine, DownCause, MessageKind, NODE_DOWN};
use crate::connections::Connections;
use crate::journal::ClusterJournal;
use crate::mail::{Mail, with_letters, written};
use crate::place::{EventEnd, EventResult, Outs};
use client_connection::CloseReason;
use engine_recording::Journal;
use raft_messages::RaftMessage;
use script_grammar::{FaultTarget, Usage};
use std::alloc::{AllocError, Global};
use store_format::Kept;
use wire_words::WireBytes;

/// The connections of clients; all messages that nodes made; how much of what a script may have was used; and the journal of the
/// run.
#[derive(Drop)]
pub(crate) struct Network {
    pub(crate) alloc: Global,
    pub(crate) connections: Connections,
    pub(crate) mail: Mail,
    pub(crate) usage: Usage,
    pub(crate) journal: ClusterJournal,
}

/// One more; `Err` where there is no greater number.
fn one_more(number: u64) -> Result<u64, AllocError>
    ensures { IfOk result (λ more. more ≡ suc number) }
{
    match number.checked_add(1) {
        Some(more) => Ok(more),
        None => Err(AllocError),
    }
}

/// Replies are said.
fn say_replies(
    replies: Vec<(u64, WireBytes)>,
    said: &mut Vec<ClusterLine>,
) -> Result<(), AllocError>
    ensures { OnOk result (said.new.items ≡ said.old.items ++ replies_said replies.items) }
{
    for (connection, bytes) in replies {
        said.push(ClusterLine::Reply { connection, bytes })?;
    }
    Ok(())
}

/// A node closed these connections.
fn say_closed(
    connections: &mut Connections,
    closed: &[(u64, CloseReason)],
    said: &mut Vec<ClusterLine>,
) -> Result<(), AllocError>
    ensures says { OnOk result (said.new.items ≡ said.old.items ++ closed_said closed.now) }
    ensures closes { OnOk result (connections.new ≡ without_all connections.old closed.now) }
{
    for one in closed {
        connections.close(one.0);
        said.push(ClusterLine::Closed {
            connection: one.0,
            reason: one.1.number(),
        })?;
    }
    Ok(())
}

/// Messages are said, after this many that were made before.
fn say_messages(
    before: u64,
    messages: &[RaftMessage],
    said: &mut Vec<ClusterLine>,
) -> Result<(), AllocError>
    ensures { OnOk result (said.new.items ≡ said.old.items ++ messages_said (suc before) messages.now) }
{
    let mut number = before;
    for message in messages {
        number = one_more(number)?;
        said.push(ClusterLine::Message {
            number,
            from: message.from,
            to: message.to,
            kind: MessageKind::of(&message.what),
        })?;
    }
    Ok(())
}

/// Connections closed as their node is down.
fn say_down(numbers: &[u64], said: &mut Vec<ClusterLine>) -> Result<(), AllocError>
    ensures { OnOk result (said.new.items ≡ said.old.items ++ map (λ (c : ℕ). says.Closed c 4) numbers.now) }
{
    for number in numbers {
        said.push(ClusterLine::Closed {
            connection: *number,
            reason: NODE_DOWN,
        })?;
    }
    Ok(())
}

impl Network {
    /// Nothing was made or used.
    pub(crate) fn new(alloc: Global) -> Network
        ensures { IsNothing result }
    {
        Network {
            alloc,
            connections: Connections::new(alloc),
            mail: Mail::new(alloc),
            usage: Usage::none(),
            journal: ClusterJournal::new(alloc),
        }
    }

    /// The journal.
    pub(crate) fn into_journal(self) -> ClusterJournal
        ensures { result ≡ self.journal }
    {
        let Network {
            alloc: _,
            connections: _,
            mail: _,
            usage: _,
            journal,
        } = self;
        journal
    }

    /// A step that ended well: what it says is said, and its messages join the mail. Answers whether a script may make as many bytes
    /// of messages; if not, nothing has happened.
    fn say(
        &mut self,
        aim: FaultTarget,
        answers: Journal,
        outs: Outs,
        said: &mut Vec<ClusterLine>,
    ) -> Result<bool, AllocError>
        ensures { IfOk result (λ fits. SaysOuts fits aim (answers_in answers) (outs_of outs) self.old self.new said.old.items said.new.items) }
    {
        let Outs {
            replies,
            closed,
            messages,
        } = outs;
        let letters = written(self.alloc, messages.as_slice())?;
        let Some(usage) = with_letters(self.usage, letters.as_slice()) else {
            return Ok(false);
        };
        self.usage = usage;
        self.journal.note(answers, aim, None)?;
        say_replies(replies, said)?;
        say_closed(&mut self.connections, closed.as_slice(), said)?;
        say_messages(self.mail.count() as u64, messages.as_slice(), said)?;
        self.mail.join(letters)?;
        Ok(true)
    }

    /// The open connections of a node close, as it is down.
    pub(crate) fn close_at(
        &mut self,
        node: u64,
        said: &mut Vec<ClusterLine>,
    ) -> Result<(), AllocError>
        ensures says { OnOk result (said.new.items ≡ said.old.items ++ closings self.old.connections node) }
        ensures closes { OnOk result (self.new ≡ record self.old { connections = without_node self.old.connections node }) }
    {
        let numbers = self.connections.close_at(node)?;
        say_down(numbers.as_slice(), said)
    }

    /// A start that ended well is noted, with what it has loaded, if it says that.
    fn start(
        &mut self,
        aim: FaultTarget,
        answers: Journal,
        loaded: Option<Kept>,
    ) -> Result<(), AllocError>
        ensures { OnOk result (self.new ≡ record self.old { journal = self.old.journal ++ (note_of (answers_in answers) aim None ++ loaded_in loaded) }) }
    {
        self.journal.note(answers, aim, None)?;
        self.journal.note_loaded(loaded)
    }

    /// A node's disk stopped or a call failed, after this many things that the event had kept whole: its connections close, and then
    /// this is said.
    fn fall(
        &mut self,
        node: u64,
        aim: FaultTarget,
        answers: Journal,
        keeps: u64,
        say: ClusterLine,
        said: &mut Vec<ClusterLine>,
    ) -> Result<(), AllocError>
        ensures { OnOk result (Falls node aim (answers_in answers) keeps say self.old self.new said.old.items said.new.items) }
    {
        self.journal.note(answers, aim, Some(keeps))?;
        self.close_at(node, said)?;
        said.push(say)?;
        Ok(())
    }

    /// What came of an event at a node, or of its start, is noted and said. Answers whether a script may make as many bytes of
    /// messages; if not, nothing has happened.
    pub(crate) fn tell(
        &mut self,
        node: u64,
        aim: FaultTarget,
        came: EventResult,
        said: &mut Vec<ClusterLine>,
    ) -> Result<bool, AllocError>
        ensures { IfOk result (λ fits. (failed : Bool) (ending : Ending) → TellsEnding failed came.ended ending →
            Tells fits node aim (answers_in came.answers) failed ending self.old self.new said.old.items said.new.items) }
    {
        let EventResult { answers, ended } = came;
        match ended {
            EventEnd::Stepped(outs) => return self.say(aim, answers, outs, said),
            EventEnd::Started(loaded) => self.start(aim, answers, loaded)?,
            EventEnd::Stopped(keeps) => {
                self.fall(
                    node,
                    aim,
                    answers,
                    keeps,
                    ClusterLine::Stopped { node },
                    said,
                )?
            }
            EventEnd::Failed(keeps) => {
                let say = ClusterLine::Down {
                    node,
                    cause: DownCause::DiskFault,
                };
                self.fall(node, aim, answers, keeps, say, said)?
            }
            EventEnd::Unreadable => {
                self.journal.note(answers, aim, None)?;
                said.push(ClusterLine::Down {
                    node,
                    cause: DownCause::Unreadable,
                })?;
            }
        }
        Ok(true)
    }
}
