//! One step of a node, and what it leaves to the node's owner.
ghost use Rattle.std.specs.Prelude.{◌≡◌, MatchOption, IfOk};
ghost use Rattle.std.specs.List.{AllByRecursion};
ghost use Rattle.raft_spec.specs.Compaction.{compacted_step};
ghost use Rattle.raft_spec.specs.Laws.{HasShortTerm};
ghost use Rattle.raft_spec.specs.NodeValues.{IsCoherent, node_of};
ghost use Rattle.raft_spec.specs.Steps.{finish};
ghost use Rattle.raft_core.specs.Effects.{outcome_of};
ghost use Rattle.raft_core.specs.Events.{input_of, EventFits, rule_at, IsRuled, ChangesAt, IsMeta, IsOffered, WritesLog, brought, first_at, kept_at, offered};
ghost use Rattle.raft_core.specs.Messages.{IsBare, sendings_value, sents_value};
ghost use Rattle.raft_core.specs.Nodes.{told};
ghost use Rattle.raft_core.specs.Steps.{compact_outcome, Ends};

use crate::effects::{Effects, LogChange, Recipients, Say};
use crate::event::{RaftEvent, Todo};
use crate::node::RaftNode;
use crate::sending::{Outgoing, OutgoingList};
use raft_messages::{MessageBody, Servers, Snapshot};
use std::alloc::{AllocError, Global};

// The servers that an event tells.
fn told_servers(event: &RaftEvent) -> Option<&Servers>
    ensures { MatchOption result (IsRuled event.now) (λ servers. event.now ≡ RaftEvent.Servers servers.now) }
{
    match event {
        RaftEvent::Servers(servers) => Some(servers),
        RaftEvent::Timeout
        | RaftEvent::Beat
        | RaftEvent::Yield
        | RaftEvent::Message(_)
        | RaftEvent::Propose(_)
        | RaftEvent::Transfer(_)
        | RaftEvent::Snapped { .. } => None,
    }
}

// The snapshot that a message brings, for one more owner.
fn brought(what: &MessageBody) -> Result<Option<Snapshot>, AllocError>
    ensures { IfOk result (λ snapshot. snapshot ≡ brought what.now) }
{
    match what {
        MessageBody::Install { snapshot } => Ok(Some(snapshot.share()?)),
        MessageBody::AskVote { .. }
        | MessageBody::Vote { .. }
        | MessageBody::Append { .. }
        | MessageBody::Ack { .. }
        | MessageBody::TimeoutNow => Ok(None),
    }
}

// The snapshot that an event brings, for one more owner.
fn offered(event: &RaftEvent) -> Result<Option<Snapshot>, AllocError>
    ensures { IfOk result (λ snapshot. snapshot ≡ offered event.now) }
{
    match event {
        RaftEvent::Message(message) => brought(&message.what),
        RaftEvent::Timeout
        | RaftEvent::Beat
        | RaftEvent::Yield
        | RaftEvent::Propose(_)
        | RaftEvent::Transfer(_)
        | RaftEvent::Snapped { .. }
        | RaftEvent::Servers(_) => Ok(None),
    }
}

impl RaftNode {
    // The rule of an event, except for other servers.
    fn apply(&mut self, alloc: Global, event: RaftEvent) -> Result<Effects, AllocError>
        requires { IsRuled event }
        ensures outcome { IfOk result (λ effects. Ends self.old (rule_at self.old event) self.new effects) }
        ensures log { IfOk result (λ effects. ChangesAt event (node_of self.old) (node_of self.new) effects.change) }
    {
        match event {
            RaftEvent::Timeout => self.start_election(alloc, false),
            RaftEvent::Beat => Ok(self.heartbeat()),
            RaftEvent::Yield => Ok(self.give_up()),
            RaftEvent::Message(message) => self.on_message(alloc, message),
            RaftEvent::Propose(entries) => self.propose(entries),
            RaftEvent::Transfer(to) => Ok(self.transfer(to)),
            RaftEvent::Snapped { at } => Ok(self.snapped(at.index)),
            RaftEvent::Servers(_) => Ok(Effects::says(Say::Nothing)),
        }
    }

    // Term and vote, if one of them isn't these.
    fn changed_meta(&self, term: u64, vote: u64) -> Option<(u64, u64)>
        ensures { IsMeta term vote self.now result }
    {
        let now = (self.term(), self.vote());
        if now.0 == term && now.1 == vote {
            return None;
        }
        Some(now)
    }

    // What a step leaves to the node's owner, by its parts, with term and vote before it.
    fn todo_of(
        &self,
        was: (u64, u64),
        batch: Option<u64>,
        install: Option<Snapshot>,
        sends: Vec<Outgoing>,
    ) -> Todo
        ensures meta { IsMeta was.0 was.1 self.now result.meta }
        ensures batch { result.batch ≡ batch }
        ensures install { result.install ≡ install }
        ensures sends { result.sends ≡ sends.items }
        ensures commit { result.commit ≡ self.now.commit }
    {
        Todo {
            meta: self.changed_meta(was.0, was.1),
            batch,
            install,
            sends: OutgoingList::new(sends),
            commit: self.commit(),
        }
    }

    // What is to be done after a step, if the log has changed so and this snapshot came with the event.
    fn todo(
        &self,
        was: (u64, u64),
        change: LogChange,
        came: Option<Snapshot>,
        sends: Vec<Outgoing>,
    ) -> Todo
        ensures meta { IsMeta was.0 was.1 self.now result.meta }
        ensures batch { result.batch ≡ first_at change }
        ensures install { result.install ≡ kept_at change came }
        ensures sends { result.sends ≡ sends.items }
        ensures commit { result.commit ≡ self.now.commit }
    {
        match change {
            LogChange::Nothing => self.todo_of(was, None, None, sends),
            LogChange::From(first) => self.todo_of(was, Some(first), None, sends),
            LogChange::Installed(_) => self.todo_of(was, None, came, sends),
        }
    }

    // The end of a step with these effects, with term and vote before it.
    fn end_step(
        &mut self,
        alloc: Global,
        was: (u64, u64),
        say: Say,
        recipients: Recipients,
        change: LogChange,
        came: Option<Snapshot>,
    ) -> Result<Todo, AllocError>
        ensures node { IfOk result (λ todo. node_of self.new ≡ (compact_outcome (finish (told self.old) self.old.id (outcome_of self.old (record { say = say; recipients = recipients; change = change })))).node) }
        ensures sends { IfOk result (λ todo. sents_value self.old.id todo.sends ≡ (compact_outcome (finish (told self.old) self.old.id (outcome_of self.old (record { say = say; recipients = recipients; change = change })))).out) }
        ensures rest { IfOk result (λ todo. self.new ≡ record self.old { commit = self.new.commit }) }
        ensures meta { IfOk result (λ todo. IsMeta was.0 was.1 self.new todo.meta) }
        ensures batch { IfOk result (λ todo. todo.batch ≡ first_at change) }
        ensures install { IfOk result (λ todo. todo.install ≡ kept_at change came) }
        ensures commit { IfOk result (λ todo. todo.commit ≡ self.new.commit) }
    {
        let sends = self.finish(alloc, say, recipients)?;
        Ok(self.todo(was, change, came, sends))
    }

    // The step of an event but that of other servers.
    fn step_rule(&mut self, alloc: Global, event: RaftEvent) -> Result<Todo, AllocError>
        requires { IsRuled event }
        ensures id { IfOk result (λ todo. self.new.id ≡ self.old.id) }
        ensures coherent { IfOk result (λ todo. IsCoherent self.new) }
        ensures node { IfOk result (λ todo. node_of self.new ≡ (compacted_step self.old.id (node_of self.old) (input_of event)).node) }
        ensures meta { IfOk result (λ todo. IsMeta self.old.term self.old.vote self.new todo.meta) }
        ensures log { IfOk result (λ todo. WritesLog event (node_of self.old) (node_of self.new) todo.install todo.batch) }
        ensures install { IfOk result (λ todo. IsOffered event todo.install) }
        ensures sends { IfOk result (λ todo. sents_value self.old.id todo.sends ≡ (compacted_step self.old.id (node_of self.old) (input_of event)).out) }
        ensures commit { IfOk result (λ todo. todo.commit ≡ self.new.commit) }
    {
        // It shows the prover that the snapshot is applied before the step.
        self.coherent();
        let was = self.meta();
        let came = offered(&event)?;
        let effects = self.apply(alloc, event)?;
        let todo = self.end_step(
            alloc,
            was,
            effects.say,
            effects.recipients,
            effects.change,
            came,
        )?;
        // And what holds of the node after it.
        self.coherent();
        Ok(todo)
    }

    // The step in which the node is given its servers.
    fn step_servers(&mut self, alloc: Global, servers: &Servers) -> Result<Todo, AllocError>
        requires { EventFits self.old (RaftEvent.Servers servers.now) }
        ensures id { IfOk result (λ todo. self.new.id ≡ self.old.id) }
        ensures coherent { IfOk result (λ todo. IsCoherent self.new) }
        ensures node { IfOk result (λ todo. node_of self.new ≡ (compacted_step self.old.id (node_of self.old) (input_of (RaftEvent.Servers servers.now))).node) }
        ensures meta { IfOk result (λ todo. IsMeta self.old.term self.old.vote self.new todo.meta) }
        ensures log { IfOk result (λ todo. WritesLog (RaftEvent.Servers servers.now) (node_of self.old) (node_of self.new) todo.install todo.batch) }
        ensures install { IfOk result (λ todo. IsOffered (RaftEvent.Servers servers.now) todo.install) }
        ensures sends { IfOk result (λ todo. sents_value self.old.id todo.sends ≡ (compacted_step self.old.id (node_of self.old) (input_of (RaftEvent.Servers servers.now))).out) }
        ensures commit { IfOk result (λ todo. todo.commit ≡ self.new.commit) }
    {
        let sends = self.use_servers(alloc, servers.as_slice())?;
        // It shows the prover what holds of the node then.
        self.coherent();
        Ok(Todo {
            meta: None,
            batch: None,
            install: None,
            sends: OutgoingList::new(sends),
            commit: self.commit(),
        })
    }

    // The step of an event, by whether it gives the node its servers.
    fn step_by(&mut self, alloc: Global, event: RaftEvent) -> Result<Todo, AllocError>
        requires { EventFits self.old event }
        ensures id { IfOk result (λ todo. self.new.id ≡ self.old.id) }
        ensures coherent { IfOk result (λ todo. IsCoherent self.new) }
        ensures node { IfOk result (λ todo. node_of self.new ≡ (compacted_step self.old.id (node_of self.old) (input_of event)).node) }
        ensures meta { IfOk result (λ todo. IsMeta self.old.term self.old.vote self.new todo.meta) }
        ensures log { IfOk result (λ todo. WritesLog event (node_of self.old) (node_of self.new) todo.install todo.batch) }
        ensures install { IfOk result (λ todo. IsOffered event todo.install) }
        ensures sends { IfOk result (λ todo. sents_value self.old.id todo.sends ≡ (compacted_step self.old.id (node_of self.old) (input_of event)).out) }
        ensures commit { IfOk result (λ todo. todo.commit ≡ self.new.commit) }
    {
        if let Some(servers) = told_servers(&event) {
            return self.step_servers(alloc, servers);
        }
        self.step_rule(alloc, event)
    }

    /// One step of the node: the rules' step of the node that it represents. Answers what is to be kept, then sent, and
    /// up to which index to apply. It takes the event, and copies no bytes of an entry or a snapshot. `Err` means out of
    /// memory, or an index past 64 bits would be needed; then nothing of the step is to be kept or sent, and the node is
    /// to be made again from what its owner has kept.
    ///
    /// A condition on `Servers`: they may stand together, and a candidate is given the voters that it has.
    pub fn step(&mut self, alloc: Global, event: RaftEvent) -> Result<Todo, AllocError>
        requires { EventFits self.old event }
        ensures id { IfOk result (λ todo. self.new.id ≡ self.old.id) }
        ensures coherent { IfOk result (λ todo. IsCoherent self.new) }
        // Who leads or stands for election has a term of 32 bits, if it had.
        ensures short { HasShortTerm (node_of self.old) → IfOk result (λ todo. HasShortTerm (node_of self.new)) }
        ensures node { IfOk result (λ todo. node_of self.new ≡ (compacted_step self.old.id (node_of self.old) (input_of event)).node) }
        ensures meta { IfOk result (λ todo. IsMeta self.old.term self.old.vote self.new todo.meta) }
        ensures log { IfOk result (λ todo. WritesLog event (node_of self.old) (node_of self.new) todo.install todo.batch) }
        // A snapshot that is to be kept is the very one that the event brings.
        ensures install { IfOk result (λ todo. IsOffered event todo.install) }
        ensures sends { IfOk result (λ todo. sendings_value self.old.id todo.sends ≡ (compacted_step self.old.id (node_of self.old) (input_of event)).out) }
        // An Install is sent by its end alone: its bytes are the kept snapshot's.
        ensures installs { IfOk result (λ todo. AllByRecursion IsBare todo.sends) }
        ensures commit { IfOk result (λ todo. todo.commit ≡ self.new.commit) }
    {
        self.step_by(alloc, event)
    }
}
