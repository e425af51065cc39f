//! Log compaction: snapshots that a node's owner has taken, and those that a leader sends.
ghost use Rattle.std.specs.Prelude.{◌≡◌, ◌<◌, ◌≤◌, ◌-◌, [], true, false, nat_le, drop};
ghost use Rattle.raft_spec.specs.Compaction.{compacted};
ghost use Rattle.raft_spec.specs.Log.{matches};
ghost use Rattle.raft_spec.specs.Node.{is_leader};
ghost use Rattle.raft_spec.specs.NodeValues.{node_of};
ghost use Rattle.raft_spec.specs.Snapshots.{on_install, on_snapped};
ghost use Rattle.raft_core.specs.Effects.{ChangesLog};
ghost use Rattle.raft_core.specs.Steps.{Ends, PlansFor, compacted_at};

use crate::effects::{Effects, LogChange, Say};
use crate::node::RaftNode;
use raft_log::{Compact, InstallPlan, Log};
use raft_messages::LogEnd;
use std::alloc::Global;

// The answer to a snapshot that ends there.
fn acked(from: u64, last: LogEnd) -> Say
    ensures { result ≡ Say.Ack from true last.index }
{
    Say::Ack {
        to: from,
        good: true,
        index: last.index,
    }
}

impl RaftNode {
    // A snapshot whose end the log has comes: the entries after it stay.
    fn keep_rest(&mut self, last: LogEnd)
        requires newer { self.old.commit < last.index }
        requires has { matches (node_of self.old).log last ≡ true }
        ensures { self.new ≡ record self.old { entries = drop (last.index - self.old.base) self.old.entries; commit = last.index; snapshot = last; base = last.index } }
    {
        self.log.cut_to(last.index);
        self.snapshot = last;
        self.commit = last.index;
    }

    // Another snapshot comes: no entry stays.
    fn replace_log(&mut self, alloc: Global, last: LogEnd)
        requires { self.old.commit < last.index }
        ensures { self.new ≡ record self.old { entries = []; commit = last.index; snapshot = last; base = last.index } }
    {
        self.log = Log::new(alloc, last);
        self.snapshot = last;
        self.commit = last.index;
    }

    // What becomes of the log when a snapshot comes.
    fn plan(&self, last: LogEnd) -> InstallPlan
        ensures plan { PlansFor (node_of self.now) last result }
        ensures cut { self.now.base ≤ self.now.commit }
    {
        Compact::new(self.snapshot).plan(last, self.commit, self.log.term_at(last.index))
    }

    // An Install that says nothing new.
    fn install_old(&mut self, from: u64, last: LogEnd) -> Effects
        requires follows { is_leader self.old.role ≡ false }
        requires old { nat_le last.index self.old.commit ≡ true }
        ensures outcome { Ends self.old (on_install self.old.id (node_of self.old) from last (compacted last last.index)) self.new result }
        ensures log { ChangesLog (node_of self.old) (node_of self.new) result.change }
    {
        self.follow(from);
        Effects::says(acked(from, last))
    }

    // An Install after which the rest of the log stays.
    fn install_kept(&mut self, from: u64, last: LogEnd) -> Effects
        requires follows { is_leader self.old.role ≡ false }
        requires newer { nat_le last.index self.old.commit ≡ false }
        requires has { matches (node_of self.old).log last ≡ true }
        requires cut { self.old.base ≤ self.old.commit }
        ensures outcome { Ends self.old (on_install self.old.id (node_of self.old) from last (compacted last last.index)) self.new result }
        ensures log { ChangesLog (node_of self.old) (node_of self.new) result.change }
    {
        self.follow(from);
        self.keep_rest(last);
        Effects::installs(acked(from, last), last)
    }

    // An Install after which no entry stays.
    fn install_whole(&mut self, alloc: Global, from: u64, last: LogEnd) -> Effects
        requires follows { is_leader self.old.role ≡ false }
        requires newer { nat_le last.index self.old.commit ≡ false }
        requires differs { matches (node_of self.old).log last ≡ false }
        ensures outcome { Ends self.old (on_install self.old.id (node_of self.old) from last (compacted last last.index)) self.new result }
        ensures log { ChangesLog (node_of self.old) (node_of self.new) result.change }
    {
        self.follow(from);
        self.replace_log(alloc, last);
        Effects::installs(acked(from, last), last)
    }

    /// An Install of the own term, with the end of its snapshot.
    pub(crate) fn on_install(&mut self, alloc: Global, from: u64, last: LogEnd) -> Effects
        ensures outcome { Ends self.old (on_install self.old.id (node_of self.old) from last (compacted last last.index)) self.new result }
        ensures log { ChangesLog (node_of self.old) (node_of self.new) result.change }
    {
        if self.leads() {
            return Effects::says(Say::Nothing);
        }
        match self.plan(last) {
            InstallPlan::Old => self.install_old(from, last),
            InstallPlan::KeepRest => self.install_kept(from, last),
            InstallPlan::Replace => self.install_whole(alloc, from, last),
        }
    }

    // A snapshot was kept at an applied index: the log is compacted after it, except for the last
    // entries.
    fn compact(&mut self, index: u64)
        requires newer { self.old.snapshot.index < index }
        requires applied { index ≤ self.old.commit }
        ensures { self.new ≡ compacted_at self.old index }
    {
        // A look at a part shows the prover what holds of the log.
        let _ = &self.votes;
        let term = self.log_term(index);
        let first = Compact::new(self.snapshot).keep_from(index);
        self.log.cut_to(first - 1);
        self.snapshot = LogEnd { index, term };
    }

    /// The node's owner has kept a snapshot.
    pub(crate) fn snapped(&mut self, index: u64) -> Effects
        ensures outcome { Ends self.old (on_snapped (node_of self.old) index) self.new result }
        ensures change { result.change ≡ LogChange.Nothing }
    {
        // A look at a part shows the prover what holds of the log.
        let _ = &self.votes;
        let snapshot = self.snapshot();
        if index <= snapshot.index {
            return Effects::says(Say::Nothing);
        }
        if self.commit() < index {
            return Effects::says(Say::Nothing);
        }
        self.compact(index);
        Effects::says(Say::Nothing)
    }
}
