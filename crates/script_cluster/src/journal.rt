//! What came in a run that its script doesn't say.

ghost use Rattle.std.specs.Prelude.{◌≡◌, ◌++◌, [], map, OnOk};
ghost use Rattle.script_cluster.specs.Outcomes.{Answered, met_by};
ghost use Rattle.script_cluster.specs.Seen.{answers_in, loaded_in};

use engine_recording::Journal;
use script_grammar::FaultTarget;
use std::alloc::{AllocError, Global};
use std::marker::Model;
use store_format::Kept;

/// An item of a cluster's journal.
#[derive(Drop)]
pub enum JournalItem {
    /// What an engine answered in one event, call by call.
    Answers(Journal),
    /// How the disk call was met at which a `stop` or `fail` line aims: not at all, or after this many things that the event had
    /// kept whole, which is 0 in a start.
    Met(Option<u64>),
    /// What a node loaded at its first start since a call of its disk stopped or failed.
    Loaded(Kept),
}

/// What came in a run that its script doesn't say, in the order in which it came: with it the script decides the run.
#[derive(Drop)]
pub struct ClusterJournal {
    items: Vec<JournalItem>,
}

impl Model for ClusterJournal {
    ghost use Rattle.std.specs.Prelude.{List};
    ghost use Rattle.std.specs.List.{flat_map};
    ghost use Rattle.script_cluster.specs.Outcomes.{Item};
    ghost use Rattle.script_cluster.specs.Seen.{items_of};

    ghost Value = { List Item };

    ghost view = { λ j. flat_map items_of j.items.items };
}

impl ClusterJournal {
    ghost use Rattle.std.specs.List.{flat_map};
    ghost use Rattle.script_cluster.specs.Seen.{items_of};

    /// A journal without items.
    pub fn new(alloc: Global) -> ClusterJournal
        ensures { result ≡ [] }
    {
        ClusterJournal {
            items: Vec::new(alloc),
        }
    }

    /// The items, in their order.
    pub fn items(&self) -> &[JournalItem]
        ensures { flat_map items_of result.now ≡ self.now }
    {
        self.items.as_slice()
    }

    /// Takes over an item.
    fn take(&mut self, item: JournalItem) -> Result<(), AllocError>
        ensures { OnOk result (self.new ≡ self.old ++ items_of item) }
    {
        self.items.push(item)?;
        Ok(())
    }

    /// Takes over what an engine has answered in an event, and notes how the call was met at which the line aims, if it aims at
    /// one. No answer is copied.
    pub(crate) fn note(
        &mut self,
        answers: Journal,
        aim: FaultTarget,
        met: Option<u64>,
    ) -> Result<(), AllocError>
        ensures { OnOk result (self.new ≡ self.old ++ (map Answered (answers_in answers) ++ met_by aim met)) }
    {
        self.take(JournalItem::Answers(answers))?;
        self.note_met(aim, met)
    }

    /// Notes how the call was met at which a line aims, if it aims at one.
    fn note_met(&mut self, aim: FaultTarget, met: Option<u64>) -> Result<(), AllocError>
        ensures { OnOk result (self.new ≡ self.old ++ met_by aim met) }
    {
        match aim {
            FaultTarget::Nothing => Ok(()),
            FaultTarget::Stop { .. } | FaultTarget::Fail { .. } => self.take(JournalItem::Met(met)),
        }
    }

    /// Notes what was loaded, where a start has told it.
    pub(crate) fn note_loaded(&mut self, loaded: Option<Kept>) -> Result<(), AllocError>
        ensures { OnOk result (self.new ≡ self.old ++ loaded_in loaded) }
    {
        match loaded {
            Some(kept) => self.take(JournalItem::Loaded(kept)),
            None => Ok(()),
        }
    }
}
