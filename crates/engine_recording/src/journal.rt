ghost use Rattle.std.specs.Prelude.{◌≡◌, [], ◌++◌, OnOk, IsErr};

use crate::engine::RecordingEngine;
use crate::recorded_item::RecordedItem;
use std::alloc::{AllocError, Global};
use std::marker::Model;

/// The journal of a run: what came that the run's own input doesn't say, in the order in which it came. Clauses see the list
/// of its items.
#[derive(Drop)]
pub struct Journal {
    items: Vec<RecordedItem>,
}

impl Model for Journal {
    ghost use Rattle.std.specs.Prelude.{List};
    ghost use Rattle.engine_recording.specs.declared.recorded_item.RecordedItem.{RecordedItem};

    ghost Value = { List RecordedItem };

    ghost view = { λ j. j.items.items };
}

impl Journal {
    /// A journal without items.
    pub fn new(alloc: Global) -> Journal
        ensures { result ≡ [] }
    {
        Journal {
            items: Vec::new(alloc),
        }
    }

    /// The items, in the order in which they came.
    pub fn items(&self) -> &[RecordedItem]
        ensures { result.now ≡ self.now }
    {
        self.items.as_slice()
    }

    /// Moves the items that the engine has kept to the end of the journal, so that the engine begins an empty list. Whether
    /// its list is cut stays. No answer is copied; an item is moved once, without what it owns. `Err` means out of memory,
    /// and changes nothing.
    pub fn take_from<E>(&mut self, engine: &mut RecordingEngine<E>) -> Result<(), AllocError>
        ensures taken { OnOk result (self.new ≡ self.old ++ engine.old.noted) }
        ensures emptied { OnOk result (engine.new ≡ record engine.old { noted = [] }) }
        ensures same { IsErr result → (self.new ≡ self.old) × (engine.new ≡ engine.old) }
    {
        engine.move_noted(&mut self.items)
    }
}
